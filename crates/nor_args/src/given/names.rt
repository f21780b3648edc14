//! The values of all `-i` as one text, and the chip that `-c` names in upper or lower case.
ghost use Rattle.std.specs.Prelude.{◌≡◌, IfOk, codes, option_map, string_bytes};
ghost use Rattle.clap.specs.Words.{found_of, rows_of};
ghost use Rattle.nor_args.specs.Given.{joined_in, text_in};
ghost use Rattle.nor_args.specs.Job.{name_in_any_case};

use crate::given::other_names::row_named;
use clap::ArgMatches;
use nor_probe::ChipName;
use std::alloc::{AllocError, Global};

/// Returns the values of all `-i`, with commas between them, or `None` without `-i`.
pub fn joined_names(alloc: Global, matches: &ArgMatches<'_>) -> Result<Option<String>, AllocError>
    ensures { IfOk result (λ names. option_map string_bytes names
        ≡ joined_in (rows_of (found_of matches.now)) (codes "include")) }
{
    match matches.get_strs("include") {
        Some(values) => Ok(Some(values.join(alloc, ",")?)),
        None => Ok(None),
    }
}

/// Returns the result of `row_named` for the value of `-c` in upper case, or `None` without `-c`.
pub fn chip_named(alloc: Global, matches: &ArgMatches<'_>) -> Result<Option<ChipName>, AllocError>
    ensures { IfOk result (λ named. named
        ≡ option_map name_in_any_case (text_in (rows_of (found_of matches.now)) (codes "chip"))) }
{
    match matches.get_str("chip") {
        Some(text) => Ok(Some(row_named(&text.to_ascii_uppercase(alloc)?))),
        None => Ok(None),
    }
}
