ghost use Rattle.std.specs.Prelude.{◌≡◌, ◌+◌, ◌*◌, ◌<◌, ◌≤◌, length};
ghost use Rattle.pk_model.specs.Tags.{AreInRange, Ascends, next_tags, tag_at, tags_of};

use pk_base::{TAGS_OF_A_BLOCK, Tag};
use std::marker::Model;

/// The next tags of a partition: those of its blocks after the first `used`. Contracts see the
/// blocks and how many tags are used.
#[derive(Drop)]
pub struct Tags<'a> {
    blocks: &'a [u32],
    used: u64,
}

impl<'a> Model for Tags<'a> {
    ghost use Rattle.entity_store.specs.NextTags.{TagsView, tags_code, AreTags};

    ghost Value = { TagsView };

    ghost coded = { tags_code };

    ghost view = { λ t. record { blocks = t.blocks.now; used = t.used } };

    ghost invariant = { λ t. AreTags t.blocks.now t.used };
}

impl<'a> Tags<'a> {
    /// The tags of these blocks after the first `used`. It takes no memory.
    pub fn of(blocks: &'a [u32], used: u64) -> Tags<'a>
        requires ascending { Ascends blocks.now }
        requires range { AreInRange blocks.now }
        requires within { used ≤ TAGS_OF_A_BLOCK * length blocks.now }
        ensures { result ≡ record { blocks = blocks.now; used = used } }
    {
        Tags { blocks, used }
    }

    /// The next tag. It takes no memory.
    pub fn take(&mut self) -> Tag
        requires { self.old.used < TAGS_OF_A_BLOCK * length self.old.blocks }
        ensures tag { result ≡ tag_at (next_tags self.old.blocks self.old.used) 0 }
        ensures used { self.new ≡ record self.old { used = self.old.used + 1 } }
    {
        let tag = tag_in(self.blocks, self.used);
        self.used += 1;
        tag
    }

    /// How many tags of the blocks are used.
    pub fn used(&self) -> u64
        ensures value { result ≡ self.now.used }
        ensures ascending { Ascends self.now.blocks }
        ensures range { AreInRange self.now.blocks }
        ensures within { self.now.used ≤ TAGS_OF_A_BLOCK * length self.now.blocks }
    {
        self.used
    }
}

/// The tag at a place among those of the blocks.
pub(crate) fn tag_in(blocks: &[u32], place: u64) -> Tag
    requires place { place < TAGS_OF_A_BLOCK * length blocks.now }
    requires range { AreInRange blocks.now }
    ensures { result ≡ tag_at (tags_of blocks.now) place }
{
    let tags = u64::from(TAGS_OF_A_BLOCK);
    Tag(TAGS_OF_A_BLOCK * blocks[(place / tags) as usize] + (place % tags) as u32)
}

/// How many tags the blocks have.
pub(crate) fn count_tags(blocks: &[u32]) -> u64
    requires ascending { Ascends blocks.now }
    requires range { AreInRange blocks.now }
    ensures { result ≡ TAGS_OF_A_BLOCK * length blocks.now }
{
    u64::from(TAGS_OF_A_BLOCK) * blocks.len() as u64
}
