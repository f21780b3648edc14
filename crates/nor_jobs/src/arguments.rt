//! The arguments of a run, without the program's name.
ghost use Rattle.std.specs.Prelude.{◌≡◌, IfOk, map, string_bytes};
ghost use Rattle.nor_args.specs.Words.{arguments_of};

use std::alloc::{AllocError, Global};
use std::env::Args;

/// Returns the arguments that follow the program's name, or an error if memory runs out.
pub fn arguments_after_name(alloc: Global, args: Args) -> Result<Vec<String>, AllocError>
    ensures { IfOk result (λ words. map string_bytes words.items ≡ arguments_of args) }
{
    args.skip(1).collect(alloc)
}
