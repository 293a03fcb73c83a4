//! A piece of code: the words of one function, and what waits in them for an address.
#![tactic(auto)]

use std::marker::Model;

/// What stands behind a handle: a word of an area of the shared table, never 0.
#[derive(Debug, Clone, Copy, PartialEq, Eq, Hash)]
pub struct Key {
    /// 0 for symbols, 1 for types of signatures, 2 for constants of the pool.
    pub area: u8,
    /// The number of the symbol's name plus 1, the type's code, or the constant.
    pub key: u64,
}

/// A cell of an area of the shared table: it stands for the key that the cell holds.
#[derive(Debug, Clone, Copy, PartialEq, Eq, Hash)]
pub struct Handle {
    /// 0 for symbols, 1 for types of signatures, 2 for constants of the pool.
    pub area: u8,
    pub cell: u64,
}

/// What a unit's words wait for.
#[derive(Debug, Clone, Copy, PartialEq, Eq)]
pub enum Patch {
    /// The function that is called: AUIPC and JALR, or BL.
    Call,
    /// The address of a symbol: LUI and ADDI, or MOVW and MOVT.
    Addr,
    /// The address of a constant: LUI and LD. There is none on arm.
    Pool,
}

/// The code of a function, in which the handles' keys have no addresses yet.
#[derive(Drop, Debug)]
pub struct Piece {
    /// The words of the instructions.
    pub code: Vec<u32>,
    /// What is patched: the place of the first word, how, and for which key.
    pub handles: Vec<(u32, Patch, Handle)>,
    /// The types of the signature's arguments and results.
    pub types: Vec<Handle>,
    /// The bytes of the frame.
    pub frame: u32,
}

impl Model for Piece {
    ghost use Rattle.bk_piece.specs.Pieces.{PieceOf};
    ghost use Rattle.bk_piece.specs.declared.Handle.{Handle};

    ghost Value = { PieceOf Handle };

    ghost view = { λ p. record { code = p.code.items; handles = p.handles.items; types = p.types.items; frame = p.frame } };
}
