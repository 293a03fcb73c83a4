// The callees of a package, as calls in words see them.
ghost use Rattle.std.specs.Prelude.{◌≡◌};
ghost use Rattle.bk_callees.specs.Callees.{AreCallees};
ghost use Rattle.bk_func.specs.Form.Signatures.{sig_of};
ghost use Rattle.bk_calls.specs.Areas.{args_of};
ghost use Rattle.bk_calls.specs.Chains.{trap_of};

use bk_callees::Callees;
use bk_func::{Aux, PANIC_DIVIDE, PANIC_SHIFT, Package, TRAP_DIVIDE, TRAP_SHIFT};
use bk_ops::Ty;

/// The trap that a call stands for: the callee panics.
pub(crate) fn trap_of(aux: Aux) -> Option<u8>
    ensures { result ≡ trap_of aux }
{
    match aux {
        Aux::Sym(PANIC_DIVIDE) => Some(TRAP_DIVIDE),
        Aux::Sym(PANIC_SHIFT) => Some(TRAP_SHIFT),
        _ => None,
    }
}

/// The types of the arguments of the function that a call names; those that panic have none.
pub(crate) fn args_of<'a>(callees: &Callees, pkg: &'a Package, aux: Aux) -> &'a [Ty]
    requires { AreCallees pkg.now callees.now }
    ensures { result.now ≡ args_of (sig_of pkg.now aux) }
{
    match callees.callee(pkg, aux) {
        Some(func) => &func.sig.args,
        None => &[],
    }
}
