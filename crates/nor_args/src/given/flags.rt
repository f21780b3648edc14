//! Whether a flag, which is an option without a value, is set.
ghost use Rattle.std.specs.Prelude.{◌≡◌};
ghost use Rattle.clap.specs.Words.{found_of, rows_of};
ghost use Rattle.nor_args.specs.Given.{is_set_in};

use clap::ArgMatches;

/// Returns whether the flag with the ID `flag` is set. `clap` gives a flag that is set the value `true`.
pub fn is_set(matches: &ArgMatches<'_>, flag: &str) -> bool
    ensures { result ≡ is_set_in (rows_of (found_of matches.now)) flag.now }
{
    match matches.get_str(flag) {
        Some(value) => value == "true",
        None => false,
    }
}
