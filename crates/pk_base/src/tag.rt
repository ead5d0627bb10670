ghost use Rattle.std.specs.Prelude.{◌≡◌, ◌≤◌, Some};
ghost use Rattle.std.specs.Fmt.{decimal};
ghost use Rattle.pk_base.specs.Blocks.{block_of, first_tag_of};

use std::fmt;

/// How many tags a block has: block `b` has the tags `64 * b` to `64 * b + 63`.
pub const TAGS_OF_A_BLOCK: u32 = 64;

/// The number of the last block that there may be; the first is 1.
pub const LAST_BLOCK: u32 = 262_143;

/// The number of an entity or of a mark. Tags below 64 name nothing.
#[derive(Clone, Copy, Debug, PartialEq, Eq, PartialOrd, Ord)]
pub struct Tag(pub u32);

impl Tag {
    /// The block that it stands in.
    pub fn block(self) -> u32
        ensures { result ≡ block_of self }
    {
        self.0 / TAGS_OF_A_BLOCK
    }

    /// The first tag of a block.
    pub fn first_of(block: u32) -> Tag
        requires { block ≤ LAST_BLOCK }
        ensures { result ≡ first_tag_of block }
    {
        Tag(TAGS_OF_A_BLOCK * block)
    }
}

impl fmt::Display for Tag {
    ghost output = { λ t. Some (decimal t.0) };

    fn fmt<W: fmt::Write>(&self, f: &mut fmt::Formatter<W>) -> fmt::Result {
        let number = self.0;
        write!(f, "{number}")
    }
}
