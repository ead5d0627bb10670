ghost use Rattle.std.specs.Prelude.{◌≡◌, ◌+◌, ◌<◌, [], ◌∷◌, ◌++◌, IfOk, IsPermutation};
ghost use Rattle.std.specs.List.Sorted.{IsNonDecreasingBy};
ghost use Rattle.pk_base.specs.declared.tag.Tag.{Tag};

use crate::{NoMemory, Pair, Tag};
use std::alloc::Global;
use std::marker::Model;

/// A finished list, which contracts see as its items.
#[derive(Debug, Drop)]
pub struct Items<T> {
    items: Vec<T>,
}

impl<T> Model for Items<T> {
    ghost use Rattle.std.specs.Prelude.{List};

    ghost Value = { List T };

    ghost view = { λ l. l.items.items };
}

impl<T> Items<T> {
    /// The list of these items. It takes no memory.
    pub fn of(items: Vec<T>) -> Items<T>
        ensures { result ≡ items.items }
    {
        Items { items }
    }

    /// The items, in order.
    pub fn as_slice(&self) -> &[T]
        ensures { result.now ≡ self.now }
    {
        self.items.as_slice()
    }

    /// The items, in order, once the list is let go. It takes no memory.
    pub fn into_vec(self) -> Vec<T>
        ensures { result.items ≡ self }
    {
        let Items { items } = self;
        items
    }
}

impl<T: Copy> Items<T> {
    /// A list of the same items.
    pub fn copy(&self, alloc: Global) -> Result<Items<T>, NoMemory>
        ensures { IfOk result (λ l. l ≡ self.now) }
    {
        Ok(Items {
            items: Vec::from_slice(alloc, &self.items)?,
        })
    }
}

/// A list that is being made, in room taken before. Contracts see its items, and how many more it
/// has room for.
#[derive(Debug, Drop)]
pub struct ItemsBuilder<T> {
    items: Vec<T>,
}

impl<T> Model for ItemsBuilder<T> {
    ghost use Rattle.std.specs.Prelude.{◌-◌, vec_capacity, vec_len};
    ghost use Rattle.pk_base.specs.Building.{Building};

    ghost Value = { Building T };

    ghost view = { λ l. record {
      items = l.items.items;
      spare = vec_capacity l.items - vec_len l.items;
    } };
}

impl<T> ItemsBuilder<T> {
    /// An empty list with room for `k` items.
    pub fn with_room(alloc: Global, k: usize) -> Result<ItemsBuilder<T>, NoMemory>
        ensures empty { IfOk result (λ l. l.items ≡ []) }
        ensures room { IfOk result (λ l. l.spare ≡ k) }
    {
        Ok(ItemsBuilder {
            items: Vec::with_capacity(alloc, k)?,
        })
    }

    /// Adds an item at the end. It takes no memory.
    pub fn push(&mut self, item: T)
        requires { 0 < self.old.spare }
        ensures items { self.new.items ≡ self.old.items ++ item ∷ [] }
        ensures spare { self.new.spare + 1 ≡ self.old.spare }
    {
        self.items.push_reserved(item);
    }

    /// The items so far, in order.
    pub fn as_slice(&self) -> &[T]
        ensures { result.now ≡ self.now.items }
    {
        self.items.as_slice()
    }

    /// The finished list. It takes no memory.
    pub fn finish(self) -> Items<T>
        ensures { result ≡ self.items }
    {
        let ItemsBuilder { items } = self;
        Items { items }
    }
}

impl ItemsBuilder<Tag> {
    /// Puts the tags in ascending order. It takes no memory.
    pub fn sort(&mut self)
        ensures ascending { IsNonDecreasingBy (λ (t : Tag). t.0) self.new.items }
        ensures same { IsPermutation self.old.items self.new.items }
        ensures spare { self.new.spare ≡ self.old.spare }
    {
        self.items.sort_unstable_by_key(|tag| tag.0);
    }
}

/// A list of tags.
pub type TagList = Items<Tag>;

/// A list of tags that is being made.
pub type TagListBuilder = ItemsBuilder<Tag>;

/// The corners of a polygon, in order.
pub type CornerList = Items<Pair>;

/// Corners that are being listed.
pub type CornerListBuilder = ItemsBuilder<Pair>;

/// A list of marks.
pub type MarkList = Items<MarkRow>;

/// A list of marks that is being made.
pub type MarkListBuilder = ItemsBuilder<MarkRow>;

/// How one state of solids differs from another. Each list ascends.
#[derive(Debug, Drop)]
pub struct Lists {
    /// Live only afterwards.
    pub fresh: TagList,
    /// Live only before.
    pub gone: TagList,
    /// Live in both, with different fields.
    pub changed: TagList,
}

/// A live mark and its parent. The initial mark has none.
#[derive(Clone, Copy, Debug, PartialEq, Eq)]
pub struct MarkRow {
    pub tag: Tag,
    pub parent: Option<Tag>,
}
