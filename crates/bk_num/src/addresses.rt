/// The return address that halts a machine.
pub const HALT: u64 = 61_440;

/// Where the text begins.
pub const TEXT_BASE: u64 = 65_536;

/// Where the pool of constants begins.
pub const POOL_BASE: u64 = 33_554_432;

/// Where the data window begins.
pub const DATA_BASE: u64 = 67_108_864;

/// Where the stack ends; the words of the started function's arguments and results stand there and
/// above.
pub const STACK_TOP: u64 = 536_870_912;
