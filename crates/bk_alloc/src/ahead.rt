// The next uses of values from a place of the function.
ghost use Rattle.std.specs.Prelude.{◌≡◌};
ghost use Rattle.bk_alloc.specs.Ahead.{uses_from};

use bk_live::Table;

/// A place of a function: a block, and how many entries of its order come before.
#[derive(Clone, Copy)]
pub struct Ahead<'a> {
    pub table: &'a Table,
    pub block: u32,
    pub after: usize,
}

impl<'a> Ahead<'a> {
    /// How many places the next use of the value is ahead, if there is one.
    pub(crate) fn next(&self, value: u32) -> Option<u64>
        ensures { result ≡ uses_from self.now value }
    {
        self.table.next(self.block, self.after, value)
    }
}
