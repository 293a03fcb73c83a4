//! The words of a signature.
ghost use Rattle.std.specs.Prelude.{◌≡◌, ◌++◌, true, OnOk};
ghost use Rattle.bk_ops.specs.declared.types.Target.TheVariants.{Arm};
ghost use Rattle.bk_func.specs.Words.{all_words};
ghost use Rattle.bk_func.specs.Arguments.{fit};
ghost use Rattle.bk_arm_isa.specs.Machine.{word_bytes};

use bk_func::words_of_type;
use bk_num::push_bytes;
use bk_ops::{Target, Ty};
use std::alloc::AllocError;

/// The bytes of a word.
pub const WORD_SIZE: u64 = 4;

/// Appends the words of the arguments.
pub fn push_words(out: &mut Vec<u8>, types: &[Ty], args: &[u64]) -> Result<(), AllocError>
    requires { fit Arm types.now args.now ≡ true }
    ensures { OnOk result (out.new.items ≡ out.old.items ++ word_bytes (all_words Arm types.now args.now)) }
{
    for (place, ty) in types.iter().enumerate() {
        let size = WORD_SIZE * words_of_type(Target::Arm, *ty);
        push_bytes(out, size as usize, args[place])?;
    }
    Ok(())
}
