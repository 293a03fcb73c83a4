//! Names and numbers that are declared.
ghost use Rattle.std.specs.Prelude.{◌≡◌, ◌++◌, ◌∷◌, [], false, map, OnOk};
ghost use Rattle.bk_dump.specs.Drafts.{declares, is_declared};

use indexmap::IndexSet;
use std::alloc::AllocError;

/// Whether the name is one of these.
pub fn is_declared(names: &IndexSet<&str>, name: &str) -> bool
    ensures { result ≡ is_declared (map (λ n. n.now) names.now.keys) name.now }
{
    names.contains(name)
}

/// Adds a name that is none of these.
pub fn add_name<'a>(names: &mut IndexSet<&'a str>, name: &'a str) -> Result<(), AllocError>
    requires { is_declared (map (λ n. n.now) names.old.keys) name.now ≡ false }
    ensures { OnOk result (map (λ n. n.now) names.new.keys ≡ map (λ n. n.now) names.old.keys ++ name.now ∷ []) }
{
    names.insert(name)?;
    Ok(())
}

/// Adds a number that is none of these.
pub fn add_number(numbers: &mut IndexSet<u32>, number: u32) -> Result<(), AllocError>
    requires { declares numbers.old.keys number ≡ false }
    ensures { OnOk result (numbers.new.keys ≡ numbers.old.keys ++ number ∷ []) }
{
    numbers.insert(number)?;
    Ok(())
}
