// What is done for the values of a block.
use bk_func::Loc;
use smallvec::SmallVec;
use std::marker::Model;

/// How a value comes to be.
#[derive(Clone, Copy)]
pub enum Role {
    /// It is computed in registers.
    Plain,
    /// It is the word with this number that was passed in a register.
    Taken(u64),
    /// It is a call, which leaves nothing of what registers held.
    Calls,
    /// It hands its arguments to the caller, in registers.
    Leaves,
}

/// A scheduled value: its arguments that are words, and whether it gives a word.
#[derive(Drop)]
pub struct Task {
    pub value: u32,
    pub role: Role,
    pub args: SmallVec<u32, 4>,
    pub gives: bool,
}

impl Model for Task {
    ghost use Rattle.bk_alloc.specs.Tasks.{TaskRecord};

    ghost Value = { TaskRecord };

    ghost view = { λ t. record { value = t.value; role = t.role; args = t.args.items; gives = t.gives } };
}

/// One thing done. Registers are given by their places in the order in which they are taken, slots by the numbers of
/// their values.
#[derive(Drop)]
pub enum Act {
    Load {
        register: u8,
        value: u32,
    },
    Compute {
        value: u32,
        from: SmallVec<u8, 4>,
        to: Option<u8>,
    },
    Take {
        value: u32,
        register: u8,
    },
    Call {
        value: u32,
        words: usize,
    },
    Leave {
        value: u32,
        words: usize,
    },
    /// These moves, at once: pairs of a source and a destination.
    MoveAll {
        moves: Vec<(Loc, Loc)>,
    },
}
