ghost use Rattle.std.specs.Prelude.{◌≡◌};
ghost use Rattle.bk_rv_sim.specs.declared.errors.StartError.TheVariants as why;

use bk_elf::Memory as NoMemory;

/// Why a function was not started.
#[derive(Clone, Copy, PartialEq, Eq, Debug)]
pub enum StartError {
    /// No function has the name.
    NoFunction,
    /// The numbers are not as many as the arguments, or one does not fit its type.
    BadArgs,
    Memory,
}

impl From<NoMemory> for StartError {
    ghost from_gives = { λ _ error. error ≡ why.Memory };

    fn from(_error: NoMemory) -> Self {
        StartError::Memory
    }
}
