// The limits of packages, functions and code.

/// The most functions of a package.
pub const MOST_FUNCTIONS: usize = 4_096;
/// The most variables of a package.
pub const MOST_VARIABLES: usize = 4_096;
/// The most values of a function in the text.
pub const MOST_VALUES: usize = 16_384;
/// The most blocks of a function in the text.
pub const MOST_BLOCKS: usize = 4_096;
/// The most values of a function while it is rewritten.
pub const MOST_VALUES_MADE: usize = 32_768;
/// The most arguments and results of a signature together.
pub const MOST_IN_SIGNATURE: usize = 64;
/// The most bytes of a package's data window.
pub const MOST_WINDOW: u64 = 1_048_576;
/// The most bytes of a frame with the words of its function's own arguments and results.
pub const MOST_FRAME: u32 = 32_760;
/// The most bytes of text and pool together.
pub const MOST_TEXT: u64 = 16_777_216;
