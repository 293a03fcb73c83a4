// Values that are made.
use bk_func::Value;

/// A value that is made, and the number of the block that it stands last in.
#[derive(Drop)]
pub struct Made {
    pub block: u32,
    pub value: Value,
}
