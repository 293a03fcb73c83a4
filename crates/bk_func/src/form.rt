// What a function that is not in form breaks, and where.

/// What a function that is not in form breaks. The kinds are tested in this order.
#[derive(Clone, Copy, PartialEq, Eq, Debug)]
pub enum FormKind {
    /// Successors or a control that do not fit the kind of a block, an entry with a predecessor, or edges
    /// that their two blocks do not agree on.
    Control,
    /// A number, a symbol or the place of an argument that names nothing, or names what it may not.
    Missing,
    /// A count of arguments.
    Arity,
    /// A type.
    Ty,
    /// The number beside an op.
    Width,
    /// A use that is reached without its definition.
    Use,
    /// The chain of memory states.
    Memory,
    /// Values of one block that wait for each other.
    Order,
}

/// Where a breach stands: the number of a block or of a value.
#[derive(Clone, Copy, PartialEq, Eq, Debug)]
pub enum Place {
    Block(u32),
    Value(u32),
}
