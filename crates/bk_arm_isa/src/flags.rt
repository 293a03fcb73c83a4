/// The condition flags N, Z, C and V (section A2.4).
#[derive(Clone, Copy, PartialEq, Eq, Debug)]
pub struct Flags {
    /// N: the result's bit 31.
    pub negative: bool,
    /// Z: the result is 0.
    pub zero: bool,
    /// C: the sum passes 32 bits.
    pub carry: bool,
    /// V: the signed sum does.
    pub overflow: bool,
}
