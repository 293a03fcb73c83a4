// The numbers of what every package may name, and of traps.

/// The number of `runtime.panicdivide`, which a call may name and no package declares.
pub const PANIC_DIVIDE: u32 = 4_294_967_294;
/// The number of `runtime.panicshift`, which a call may name and no package declares.
pub const PANIC_SHIFT: u32 = 4_294_967_295;

/// The trap of a nil pointer.
pub const TRAP_NIL: u8 = 1;
/// The trap of an index out of bounds.
pub const TRAP_BOUNDS: u8 = 2;
/// The trap of a division by zero.
pub const TRAP_DIVIDE: u8 = 3;
/// The trap of a shift by a negative count.
pub const TRAP_SHIFT: u8 = 4;
/// The trap of a stack that is used up.
pub const TRAP_STACK: u8 = 5;
/// The trap of a block that ends the run.
pub const TRAP_EXIT: u8 = 6;
