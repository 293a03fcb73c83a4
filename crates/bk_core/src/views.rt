// What a worker has and knows.
ghost use Rattle.std.specs.Prelude.{[], ◌≡◌, ◌+◌, ◌<◌, ◌^◌, OnOk, OnErr};
ghost use Rattle.bk_core.specs.Rule.{Sight, sight, nobody};
ghost use Rattle.bk_core.specs.Events.{drew, saw, both};

use bk_ops::Memory;
use std::alloc::Global;
use std::marker::Model;

/// What one worker has and knows.
#[derive(Drop)]
pub struct View {
    /// The worker's share of the leave to work: who has all parts is alone.
    pub parts: u64,
    /// The numbers that it drew, in the order of its claims.
    pub numbers: Vec<u64>,
    /// The known pairs: an area, a cell of it, and the key that stands there.
    pub known: Vec<(u8, u64, u64)>,
}

impl Model for View {
    ghost Value = { Sight };

    ghost view = { λ v. record { parts = v.parts; numbers = v.numbers.items; known = v.known.items } };
}

impl View {
    // A view with these parts and nothing else.
    pub(crate) fn of_parts(alloc: Global, parts: u64) -> View
        ensures { result ≡ sight parts [] [] }
    {
        View {
            parts,
            numbers: Vec::new(alloc),
            known: Vec::new(alloc),
        }
    }

    pub(crate) fn draw(&mut self, number: u64) -> Result<(), Memory>
        ensures ok { OnOk result (self.new ≡ drew self.old number) }
        ensures err { OnErr result (self.new ≡ self.old) }
    {
        match self.numbers.push(number) {
            Ok(()) => Ok(()),
            Err(_) => Err(Memory),
        }
    }

    pub(crate) fn learn(&mut self, area: u8, cell: u64, word: u64) -> Result<(), Memory>
        ensures ok { OnOk result (self.new ≡ saw self.old area cell word) }
        ensures err { OnErr result (self.new ≡ self.old) }
    {
        if word == 0 {
            return Ok(());
        }
        match self.known.push((area, cell, word)) {
            Ok(()) => Ok(()),
            Err(_) => Err(Memory),
        }
    }

    // Takes all that the other has.
    pub(crate) fn gain(&mut self, other: &mut View) -> Result<(), Memory>
        requires { self.old.parts + other.old.parts < 2 ^ 64 }
        ensures ok { OnOk result ((self.new ≡ both self.old other.old) × (other.new ≡ nobody)) }
        ensures err { OnErr result ((self.new ≡ self.old) × (other.new ≡ other.old)) }
    {
        if self.numbers.reserve(other.numbers.len()).is_err() {
            return Err(Memory);
        }
        if self.known.reserve(other.known.len()).is_err() {
            return Err(Memory);
        }
        let Ok(()) = self.numbers.append(&mut other.numbers) else {
            unreachable!()
        };
        let Ok(()) = self.known.append(&mut other.known) else {
            unreachable!()
        };
        self.parts += other.parts;
        other.parts = 0;
        Ok(())
    }
}
