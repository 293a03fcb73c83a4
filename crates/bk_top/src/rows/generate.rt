//! `gen N`.

ghost use Rattle.std.specs.Prelude.{◌≡◌, ◌≤◌, IfOk, IfErr};
ghost use Rattle.bk_dump.specs.Print.{text_of};
ghost use Rattle.bk_dump.specs.Generate.{generated};

use bk_dump::{generate, print_package};
use bk_func::Memory;
use std::alloc::Global;

/// The text of the generated package of `count` functions.
pub fn generated_text(alloc: Global, count: u64) -> Result<Vec<u8>, Memory>
    requires { (1 ≤ count) × (count ≤ 4096) }
    ensures { IfOk result (λ text. text.items ≡ text_of (generated count)) }
{
    let package = generate(alloc, count)?;
    print_package(alloc, &package)
}
