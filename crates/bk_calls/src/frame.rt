// Frames.
ghost use Rattle.std.specs.Prelude.{◌≡◌, ◌+◌, ◌*◌, ◌≤◌, ◌<◌, ◌↔◌, length, IfOk, IfErr, IsErr};
ghost use Rattle.bk_ops.specs.Types.{word_size};
ghost use Rattle.bk_func.specs.Limits.{most_frame};
ghost use Rattle.bk_func.specs.Words.{count_words};
ghost use Rattle.bk_calls.specs.Frame.{frame_bytes, need};

use bk_func::{MOST_FRAME, Sig, count_words};
use bk_ops::{Target, Ty, size};

/// Why a function has no frame.
#[derive(Clone, Copy, PartialEq, Eq, Debug)]
pub enum FrameError {
    /// A call needs more bytes than the limit.
    Frame { need: u32 },
}

/// The bytes of a function's frame, a multiple of 8: `out` words for the calls in it, its slots, the swap word and the
/// return address.
///
/// It is refused where the frame and the words of the function's own arguments and results, which stand above it, take
/// more than 32,760 bytes.
pub fn frame_of(out: u32, slots: u32, sig: &Sig, target: Target) -> Result<u32, FrameError>
    requires out { out ≤ 128 }
    requires slots { slots ≤ 32768 }
    requires sig { length sig.now.args + length sig.now.results ≤ 64 }
    ensures ok { IfOk result (λ frame. frame ≡ frame_bytes target out slots) }
    ensures refused { IfErr result (λ e. e ≡ FrameError.Frame (need target out slots sig.now)) }
    ensures limit { IsErr result ↔ (most_frame < need target out slots sig.now) }
{
    let frame = frame_bytes(out, slots, target);
    let need = frame + own_bytes(sig, target);
    if need > MOST_FRAME {
        return Err(FrameError::Frame { need });
    }
    Ok(frame)
}

fn frame_bytes(out: u32, slots: u32, target: Target) -> u32
    requires out { out ≤ 128 }
    requires slots { slots ≤ 32768 }
    ensures bytes { result ≡ frame_bytes target out slots }
    ensures few { result ≤ 263192 }
{
    let words = out + slots + 2;
    (size(Ty::Uintptr, target) * words).next_multiple_of(8)
}

/// The bytes of the words of the function's own arguments and results.
fn own_bytes(sig: &Sig, target: Target) -> u32
    requires { length sig.now.args + length sig.now.results ≤ 64 }
    ensures bytes { result ≡ word_size target * (count_words target sig.now.args + count_words target sig.now.results) }
    ensures few { result ≤ 1024 }
{
    let words = count_words(target, &sig.args) + count_words(target, &sig.results);
    size(Ty::Uintptr, target) * words as u32
}
