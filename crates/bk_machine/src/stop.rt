/// Why a run of a machine is over.
#[derive(Clone, Copy, PartialEq, Eq, Debug)]
pub enum Stop {
    /// The machine is at the return address that halts.
    Returned,
    /// The machine's trap with this number, from 1 to 6.
    Trapped(u8),
    /// The bound's steps were made without a stop.
    Going,
    /// An access or a fetch at this address failed.
    Fault(u64),
}
