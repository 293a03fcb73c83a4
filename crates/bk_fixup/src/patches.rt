// The addresses in the words of units.
ghost use Rattle.std.specs.Prelude.{◌≡◌, ◌≤◌, ◌<◌, ◌/◌, ◌%◌, ◌^◌, length};
ghost use Rattle.bk_fixup.specs.Patches.{patched_words, patched, number_of, distance, with_number, with_offset, with_half};

use bk_ops::Target;
use bk_piece::Patch;

/// Puts the address of what a unit waits for into the unit's words, which stand at the address `place`. `words` begins at the
/// first word to patch.
pub fn patch_words(words: &mut [u32], patch: Patch, target: u64, place: u64, own: Target)
    requires whole { patched_words own patch ≤ length words.old }
    requires addresses { (target < 2 ^ 31) × (place < 2 ^ 31) }
    ensures { words.new ≡ patched own patch words.old target place }
{
    match own {
        Target::Riscv64 => patch_pair(words, number_of(patch, target, place)),
        Target::Arm => patch_arm(words, patch, target, place),
    }
}

/// What the two words of a unit of riscv64 hold: the address, or the distance to it for a call.
fn number_of(patch: Patch, target: u64, place: u64) -> u32
    requires { (target < 2 ^ 31) × (place < 2 ^ 31) }
    ensures { result ≡ number_of patch target place }
{
    match patch {
        Patch::Call => distance(place, target),
        Patch::Addr | Patch::Pool => target as u32,
    }
}

/// The distance from one address to another, modulo 2^32.
fn distance(from: u64, to: u64) -> u32
    requires { (from < 2 ^ 32) × (to < 2 ^ 32) }
    ensures { result ≡ distance from to }
{
    ((to + 0x1_0000_0000 - from) % 0x1_0000_0000) as u32
}

/// Puts a number into the immediates of a word of the U format and one of the I format.
fn patch_pair(words: &mut [u32], number: u32)
    requires { 2 ≤ length words.old }
    ensures { words.new ≡ with_number words.old number }
{
    let upper = (u64::from(number) + 2048) / 0x1000 % 0x10_0000;
    let lower = number % 0x1000;
    words[0] = upper as u32 * 0x1000 + words[0] % 0x1000;
    words[1] = lower * 0x10_0000 + words[1] % 0x10_0000;
}

fn patch_arm(words: &mut [u32], patch: Patch, target: u64, place: u64)
    requires whole { patched_words Target.Arm patch ≤ length words.old }
    requires addresses { (target < 2 ^ 31) × (place < 2 ^ 31) }
    ensures { words.new ≡ patched Target.Arm patch words.old target place }
{
    match patch {
        Patch::Call => words[0] = with_offset(words[0], distance(place + 8, target)),
        Patch::Addr => {
            words[0] = with_half(words[0], target as u32 % 0x1_0000);
            words[1] = with_half(words[1], target as u32 / 0x1_0000);
        }
        Patch::Pool => {}
    }
}

/// A word of BL that leads so many bytes on.
fn with_offset(word: u32, bytes: u32) -> u32
    ensures { result ≡ with_offset (bytes % 2 ^ 26 / 4) word }
{
    word / 0x100_0000 * 0x100_0000 + bytes % 0x400_0000 / 4
}

/// A word of MOVW or MOVT with this half.
fn with_half(word: u32, half: u32) -> u32
    requires { half < 2 ^ 16 }
    ensures { result ≡ with_half half word }
{
    let register = word % 0x1_0000 / 0x1000 * 0x1000;
    word / 0x10_0000 * 0x10_0000 + half / 0x1000 * 0x1_0000 + register + half % 0x1000
}
