//! What is said of variables at several places.
ghost use Rattle.std.specs.Prelude.{◌≡◌, ◌++◌, true, IfOk, OnOk};
ghost use Rattle.std.specs.Option.{option_map_or};
ghost use Rattle.bk_rule_text.specs.Stands.{said as noted, agree};

use indexmap::IndexMap;
use std::alloc::{AllocError, Global};

/// Notes what is said of a variable, where one stands.
pub fn note<T: Copy + Drop>(
    said: &mut Vec<(u32, T)>,
    variable: Option<u32>,
    what: T,
) -> Result<(), AllocError>
    ensures { OnOk result (said.new.items ≡ said.old.items ++ noted variable what) }
{
    match variable {
        Some(variable) => Ok(said.push((variable, what))?),
        None => Ok(()),
    }
}

/// Whether what was said of a variable before, if anything was, is this.
fn is_repeated<T: Copy + Eq>(before: Option<T>, what: T) -> bool
    ensures { result ≡ option_map_or (λ told. T.eq told what) before true }
{
    match before {
        Some(before) => before == what,
        None => true,
    }
}

/// Whether all that is said of one variable is the same.
pub fn agrees<T: Copy + Drop + Eq>(alloc: Global, said: &[(u32, T)]) -> Result<bool, AllocError>
    ensures { IfOk result (λ same. same ≡ agree T.eq said.now) }
{
    let mut first = IndexMap::new(alloc);
    for (variable, what) in said {
        let before = first.insert(*variable, *what)?;
        if !is_repeated(before, *what) {
            return Ok(false);
        }
    }
    Ok(true)
}
