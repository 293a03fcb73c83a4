// The sizes of branches.
ghost use Rattle.std.specs.Prelude.{◌≡◌, ◌+◌, ◌≤◌, ◌<◌, ◌^◌, ℕ, length, slice_index, sum, IfOk};
ghost use Rattle.bk_fixup.specs.Sizes.{Rise, AreBranches, AreLeastSizes, AllReach, spans, reaches};
ghost use Rattle.bk_fixup.specs.Rounds.{IsEnd, AreEnds, AreGains, AreNext, AreOnes, AreKnown, lack};

use bk_ops::Memory;
use std::alloc::{AllocError, Global};

/// A branch or a jump. Places and targets count instructions, and each branch as one of them.
#[derive(Clone, Copy, PartialEq, Eq, Debug)]
pub struct Branch {
    pub at: u32,
    pub target: u32,
    /// Whether it branches on a condition.
    pub cond: bool,
}

/// The sizes in words of the branches of code: the least choice in which every branch reaches its target.
///
/// A branch on a condition has one word and spans 4,096 bytes; or two, the opposite branch over a jump, which spans
/// 1,048,576 bytes; or three, the opposite branch over a jump by a register, which reaches everything. A jump has one word or two
/// likewise. `words` counts the code's instructions, and each branch as one of them.
pub fn branch_sizes(alloc: Global, branches: &[Branch], words: u32) -> Result<Vec<u8>, Memory>
    requires { AreBranches branches.now words }
    ensures { IfOk result (λ sizes. AreLeastSizes branches.now sizes.items) }
{
    Ok(least_sizes(alloc, branches)?)
}

fn least_sizes(alloc: Global, branches: &[Branch]) -> Result<Vec<u8>, AllocError>
    requires { (Rise branches.now) × (length branches.now ≤ 2 ^ 32) }
    ensures { IfOk result (λ sizes. AreLeastSizes branches.now sizes.items) }
{
    let ends = ends_of(alloc, branches)?;
    let mut sizes = ones(alloc, branches)?;
    let mut gains = vec![in alloc; 0; branches.len() + 1]?;
    settle(branches, &ends, &mut gains, &mut sizes);
    Ok(sizes)
}

/// One word for each branch.
fn ones(alloc: Global, branches: &[Branch]) -> Result<Vec<u8>, AllocError>
    ensures { IfOk result (λ sizes. AreOnes branches.now sizes.items) }
{
    let mut sizes = Vec::with_capacity(alloc, branches.len())?;
    for branch in branches {
        sizes.push(1)?;
    }
    Ok(sizes)
}

/// For each branch how many branches lie before its target.
fn ends_of(alloc: Global, branches: &[Branch]) -> Result<Vec<usize>, AllocError>
    requires { Rise branches.now }
    ensures { IfOk result (λ ends. AreEnds branches.now ends.items) }
{
    let mut ends = Vec::with_capacity(alloc, branches.len())?;
    for branch in branches {
        ends.push(branches_before(branches, branch.target))?;
    }
    Ok(ends)
}

/// How many of the branches, whose places rise, lie before a place.
fn branches_before(branches: &[Branch], place: u32) -> usize
    requires { Rise branches.now }
    ensures { IsEnd branches.now place result }
{
    let mut low = 0;
    let mut high = branches.len();
    while low < high {
        let middle = low + (high - low) / 2;
        if branches[middle].at < place {
            low = middle + 1;
        } else {
            high = middle;
        }
    }
    low
}

/// Lengthens the branches that don't reach, round by round, until all reach.
fn settle(branches: &[Branch], ends: &[usize], gains: &mut [u64], sizes: &mut [u8])
    requires rise { (Rise branches.now) × (length branches.now ≤ 2 ^ 32) }
    requires ends { AreEnds branches.now ends.now }
    requires room { length gains.old ≡ length sizes.old + 1 }
    requires ones { AreOnes branches.now sizes.old }
    ensures { AreLeastSizes branches.now sizes.new }
{
    loop {
        sum_up(sizes, gains);
        if lengthen(branches, ends, gains, sizes) == 0 {
            return;
        }
    }
}

/// For each count of branches the words by which the first so many are longer than one word each.
fn sum_up(sizes: &[u8], gains: &mut [u64])
    requires room { length gains.old ≡ length sizes.now + 1 }
    requires few { length sizes.now ≤ 2 ^ 32 }
    requires some { (k : ℕ) → k < length sizes.now → (1 ≤ slice_index sizes.now k) × (slice_index sizes.now k ≤ 3) }
    ensures { AreGains sizes.now gains.new }
{
    let mut gain = 0;
    gains[0] = 0;
    for (place, size) in sizes.iter().enumerate() {
        gain += u64::from(*size - 1);
        gains[place + 1] = gain;
    }
}

/// Makes each branch that does not reach one word longer, and counts these.
fn lengthen(branches: &[Branch], ends: &[usize], gains: &[u64], sizes: &mut [u8]) -> usize
    requires { AreKnown branches.now ends.now gains.now sizes.old }
    ensures next { AreNext branches.now sizes.old sizes.new }
    ensures count { sum sizes.new ≡ sum sizes.old + result }
    ensures same { result ≡ 0 → sizes.new ≡ sizes.old }
    ensures settled { result ≡ 0 → AllReach branches.now sizes.old }
{
    let mut count = 0;
    for (place, branch) in branches.iter().enumerate() {
        let more = lack(*branch, sizes[place], gains[place], gains[ends[place]]);
        sizes[place] += more;
        count += usize::from(more);
    }
    count
}

/// How many words a branch lacks, where its place and its target move by so much: one where it does not reach.
fn lack(branch: Branch, size: u8, gain: u64, target_gain: u64) -> u8
    requires { (gain ≤ 2 ^ 33) × (target_gain ≤ 2 ^ 33) }
    ensures value { result ≡ lack branch.cond size (branch.at + gain) (branch.target + target_gain) }
    ensures few { result ≤ 1 }
{
    if reaches_from(branch, size, gain, target_gain) {
        0
    } else {
        1
    }
}

/// Whether a branch of so many words reaches its target, where its place and its target move by so much.
fn reaches_from(branch: Branch, size: u8, gain: u64, target_gain: u64) -> bool
    requires { (gain ≤ 2 ^ 33) × (target_gain ≤ 2 ^ 33) }
    ensures { result ≡ reaches branch.cond size (branch.at + gain) (branch.target + target_gain) }
{
    let from = u64::from(branch.at) + gain;
    let to = u64::from(branch.target) + target_gain;
    reaches(branch.cond, size, from, to)
}

/// Whether a form of so many words reaches from one place to another.
fn reaches(cond: bool, size: u8, from: u64, to: u64) -> bool
    requires { (from < 2 ^ 63) × (to < 2 ^ 63) }
    ensures { result ≡ reaches cond size from to }
{
    match (cond, size) {
        (true, 1) => spans(1024, from, to),
        (true, 2) => spans(0x4_0000, from + 1, to),
        (false, 1) => spans(0x4_0000, from, to),
        _ => true,
    }
}

/// Whether an offset of at most so many words backwards, and fewer forwards, leads from one place to another.
fn spans(words: u64, from: u64, to: u64) -> bool
    requires { (words < 2 ^ 32) × (from ≤ 2 ^ 63) × (to < 2 ^ 63) }
    ensures { result ≡ spans words from to }
{
    from <= to + words && to < from + words
}
