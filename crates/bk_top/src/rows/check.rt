//! `check TARGET`.

ghost use Rattle.std.specs.Prelude.{◌≡◌, [], IfOk, IfErr, string_bytes, sum_by};
ghost use Rattle.bk_top.specs.Commands.{check_row};
ghost use Rattle.bk_top.specs.Answer.{counts, Checks, Spoils};

use crate::refusal::Refusal;
use crate::rows::input::package_of;
use bk_func::{Func, Package};
use bk_ops::Target;
use std::alloc::{AllocError, Global};

/// How many values the texts of the functions have.
pub fn count_values(funcs: &[Func]) -> u128
    ensures { result ≡ sum_by (λ f. f.given) funcs.now }
{
    let mut count = 0u128;
    for func in funcs {
        count += u128::from(func.given);
    }
    count
}

/// The line of the package's counts.
fn counts_line(alloc: Global, pkg: &Package) -> Result<String, AllocError>
    ensures { IfOk result (λ line. string_bytes line ≡ counts pkg.now) }
{
    let functions = pkg.funcs.len();
    let values = count_values(&pkg.funcs);
    format!(in alloc; "ok {functions} functions {values} values\n")
}

/// The counts of the package that the text spells.
pub fn check(alloc: Global, text: &[u8], target: Target) -> Result<Vec<u8>, Refusal>
    ensures made { IfOk result (λ bytes. Checks target text.now bytes.items) }
    ensures cause { IfErr result (Spoils (check_row target) [] text.now) }
{
    let package = package_of(alloc, text, target)?;
    match counts_line(alloc, &package) {
        Ok(line) => Ok(line.into_bytes()),
        Err(_) => Err(Refusal::Memory),
    }
}
