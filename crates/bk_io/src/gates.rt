//! Gates: what a worker passes after it drew a number.

/// Is told of each number that a worker drew, right after the draw.
///
/// A gate gets no leave to wait, so it returns. Nothing else is promised of it.
pub trait Gate {
    /// The worker `worker` has drawn the number `number`.
    fn at_claim(&self, worker: u32, number: u64);
}

/// The gate that does nothing.
#[derive(Clone, Copy, Debug)]
pub struct Open;

impl Gate for Open {
    fn at_claim(&self, _worker: u32, _number: u64) {}
}
