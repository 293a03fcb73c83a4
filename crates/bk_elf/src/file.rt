// A file, opened.
ghost use Rattle.std.specs.Prelude.{◌≡◌, ◌+◌, ◌*◌, length};
ghost use Rattle.bk_elf.specs.Tables.{class_of};
ghost use Rattle.bk_elf.specs.Loading.{target_of, offset_of, sizes_read};

use crate::layout::Sizes;
use bk_ops::Target;

/// A file that its section headers end.
#[derive(Clone, Copy)]
pub(crate) struct File<'a> {
    pub(crate) bytes: &'a [u8],
    pub(crate) target: Target,
    /// Where the section headers begin.
    pub(crate) e_shoff: usize,
    /// What they tell of the sizes.
    pub(crate) sizes: Sizes,
    ghost target_is: { target ≡ target_of bytes.now },
    ghost offset_is: { e_shoff ≡ offset_of bytes.now },
    ghost sizes_are: { sizes ≡ sizes_read bytes.now },
    ghost whole: { length bytes.now ≡ e_shoff + 8 * (class_of target).e_shentsize },
}

/// What a section holds, and where it ends.
#[derive(Clone, Copy)]
pub(crate) struct Part<'a> {
    pub(crate) content: &'a [u8],
    pub(crate) end: usize,
}
