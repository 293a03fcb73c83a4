// What registers hold, and which of them a value takes.
ghost use Rattle.std.specs.Prelude.{◌≡◌, ◌≤◌, length, replicate, IfOk, None, Some};
ghost use Rattle.bk_alloc.specs.Ahead.{leaving, uses_from, IsWeighed};
ghost use Rattle.bk_alloc.specs.Blocks.{with_phi};
ghost use Rattle.bk_alloc.specs.Registers as spec;
ghost use Rattle.bk_alloc.specs.Tasks.{where_is};

use crate::ahead::Ahead;
use bk_func::Loc;
use std::alloc::{AllocError, Global};
use std::marker::Model;

/// The numbers of the values that registers hold, in the order in which registers are taken.
#[derive(Drop)]
pub struct Registers {
    held: Vec<Option<u32>>,
}

impl Model for Registers {
    ghost use Rattle.std.specs.Prelude.{ℕ, ◌≤◌, List, length, Option};

    ghost Value = { List (Option ℕ) };

    ghost view = { λ r. r.held.items };

    ghost invariant = { λ r. length r.held.items ≤ 32 };
}

impl Registers {
    /// So many registers, none of which holds a value.
    pub(crate) fn new(alloc: Global, count: usize) -> Result<Registers, AllocError>
        requires { count ≤ 32 }
        ensures { IfOk result (λ registers. registers ≡ replicate count None) }
    {
        Ok(Registers {
            held: vec![in alloc; None; count]?,
        })
    }

    pub(crate) fn copy(&self) -> Result<Registers, AllocError>
        ensures { IfOk result (λ copy. copy ≡ self.now) }
    {
        Ok(Registers {
            held: self.held.clone()?,
        })
    }

    pub(crate) fn held(&self) -> &[Option<u32>]
        ensures is { result.now ≡ self.now }
        ensures few { length result.now ≤ 32 }
    {
        &self.held
    }

    /// The register that holds the value, or the count of registers.
    pub(crate) fn register_of(&self, value: u32) -> u8
        ensures { result ≡ spec.register_of self.now value }
    {
        place_of_value(&self.held, value) as u8
    }

    pub(crate) fn holds(&self, value: u32) -> bool
        ensures { result ≡ spec.holds self.now value }
    {
        usize::from(self.register_of(value)) < self.held.len()
    }

    /// Where the value is: in its register, else in its slot.
    #[tactic(auto, unfolding(crate::specs::Tasks::where_is))]
    pub(crate) fn where_is(&self, value: u32) -> Loc
        ensures { result ≡ where_is self.now value }
    {
        if self.holds(value) {
            Loc::Reg(self.register_of(value))
        } else {
            Loc::Slot(value)
        }
    }

    /// The least register that holds no value, or the count of registers.
    fn least_open(&self) -> u8
        ensures { result ≡ spec.least_open self.now }
    {
        first_open(&self.held) as u8
    }

    /// The register that a value takes: the least open one, else that of the value which leaves.
    #[tactic(auto, unfolding(crate::specs::Registers::seat))]
    pub(crate) fn seat(&self, ahead: &Ahead, keep: &[u32]) -> u8
        ensures { result ≡ spec.seat (uses_from ahead.now) keep.now self.now }
    {
        let open = self.least_open();
        if usize::from(open) < self.held.len() {
            return open;
        }
        match farthest(ahead, keep, &self.held) {
            Some(value) => self.register_of(value),
            None => self.held.len() as u8,
        }
    }

    /// Puts the value into the register.
    #[tactic(auto, using(std::proofs::lemmas::List::set_past))]
    pub(crate) fn put(&mut self, register: u8, value: u32)
        ensures { self.new ≡ spec.put self.old register value }
    {
        let register = usize::from(register);
        if register < self.held.len() {
            self.held[register] = Some(value);
        }
    }

    /// Registers whose values are used no more are open.
    pub(crate) fn free(&mut self, ahead: &Ahead)
        ensures { self.new ≡ spec.freed (uses_from ahead.now) self.old }
    {
        open_unused(ahead, &mut self.held);
    }

    /// No register holds a value.
    pub(crate) fn empty(&mut self)
        ensures { self.new ≡ spec.emptied self.old }
    {
        open_all(&mut self.held);
    }

    /// The phi takes the least open register, if there is one.
    pub(crate) fn seat_phi(&mut self, value: u32)
        ensures { self.new ≡ with_phi self.old value }
    {
        let register = self.least_open();
        self.put(register, value);
    }
}

/// The first place at which the value stands, or the count of places.
#[tactic(auto, using(std::proofs::lemmas::List::Sums::position_or_len_is))]
fn place_of_value(held: &[Option<u32>], value: u32) -> usize
    ensures is { result ≡ spec.register_of held.now value }
    ensures within { result ≤ length held.now }
{
    for (place, other) in held.iter().enumerate() {
        if is_value(value, *other) {
            return place;
        }
    }
    held.len()
}

/// The first place at which no value stands, or the count of places.
#[tactic(auto, using(std::proofs::lemmas::List::Sums::position_or_len_is))]
fn first_open(held: &[Option<u32>]) -> usize
    ensures is { result ≡ spec.least_open held.now }
    ensures within { result ≤ length held.now }
{
    for (place, other) in held.iter().enumerate() {
        if is_open(*other) {
            return place;
        }
    }
    held.len()
}

/// The value, none of those that are kept, whose next use is farthest.
#[tactic(auto, using(std::proofs::lemmas::List::Sums::fold_more), unfolding(crate::specs::Registers::farthest))]
fn farthest(ahead: &Ahead, keep: &[u32], held: &[Option<u32>]) -> Option<u32>
    ensures { result ≡ spec.farthest (uses_from ahead.now) keep.now held.now }
{
    let mut best = None;
    for other in held {
        best = weigh(ahead, keep, best, *other);
    }
    value_of(best)
}

/// The places of values that are used no more are open.
#[tactic(auto, using(std::proofs::lemmas::List::Edits::map_over_more))]
fn open_unused(ahead: &Ahead, held: &mut [Option<u32>])
    ensures { held.new ≡ spec.freed (uses_from ahead.now) held.old }
{
    for other in held.iter_mut() {
        *other = while_used(ahead, *other);
    }
}

#[tactic(auto, using(std::proofs::lemmas::List::Edits::map_over_more))]
fn open_all(held: &mut [Option<u32>])
    ensures { held.new ≡ spec.emptied held.old }
{
    for other in held.iter_mut() {
        *other = None;
    }
}

fn is_open(held: Option<u32>) -> bool
    ensures { result ≡ spec.is_open held }
{
    held.is_none()
}

fn is_value(value: u32, held: Option<u32>) -> bool
    ensures { result ≡ spec.is_value value held }
{
    match held {
        None => false,
        Some(other) => other == value,
    }
}

/// A value that may leave its register, and its next use.
#[derive(Clone, Copy)]
pub struct Leaver {
    pub value: u32,
    pub next: Option<u64>,
}

fn value_of(leaver: Option<Leaver>) -> Option<u32>
    ensures { result ≡ leaving leaver }
{
    match leaver {
        Some(leaver) => Some(leaver.value),
        None => None,
    }
}

/// The next use of the first value is farther than that of the second; ties go to the lesser number.
fn is_farther(first: Leaver, second: Leaver) -> bool
    ensures { result ≡ spec.is_farther first.next second.next first.value second.value }
{
    match (first.next, second.next) {
        (None, None) => first.value < second.value,
        (None, Some(_)) => true,
        (Some(_), None) => false,
        (Some(one), Some(two)) => two < one || one == two && first.value < second.value,
    }
}

/// Of two values the one that leaves first.
fn first_to_leave(ahead: &Ahead, best: Option<Leaver>, value: u32) -> Leaver
    requires { IsWeighed (uses_from ahead.now) best }
    ensures value { Some result.value ≡ spec.first_to_leave (uses_from ahead.now) (leaving best) value }
    ensures next { result.next ≡ uses_from ahead.now result.value }
{
    let leaver = Leaver {
        value,
        next: ahead.next(value),
    };
    let Some(other) = best else {
        return leaver;
    };
    if is_farther(leaver, other) {
        leaver
    } else {
        other
    }
}

fn is_kept(keep: &[u32], value: u32) -> bool
    ensures { result ≡ spec.is_kept keep.now value }
{
    keep.iter().any(|other| value == *other)
}

fn weigh(ahead: &Ahead, keep: &[u32], best: Option<Leaver>, held: Option<u32>) -> Option<Leaver>
    requires { IsWeighed (uses_from ahead.now) best }
    ensures value { leaving result ≡ spec.weighed (uses_from ahead.now) keep.now (leaving best) held }
    ensures next { IsWeighed (uses_from ahead.now) result }
{
    let Some(value) = held else {
        return best;
    };
    if is_kept(keep, value) {
        return best;
    }
    Some(first_to_leave(ahead, best, value))
}

fn while_used(ahead: &Ahead, held: Option<u32>) -> Option<u32>
    ensures { result ≡ spec.while_used (uses_from ahead.now) held }
{
    let Some(value) = held else {
        return None;
    };
    match ahead.next(value) {
        None => None,
        Some(_) => Some(value),
    }
}
