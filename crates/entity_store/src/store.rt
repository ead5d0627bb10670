ghost use Rattle.std.specs.Prelude.{◌≡◌, ◌≢◌, ℕ, ◌+◌, ◌*◌, ◌-◌, ◌<◌, ◌≤◌, ◌^◌, ◌↔◌, [], ◌∷◌, ◌++◌, length, replicate, set, vec_len, vec_capacity, if◌then◌else◌, IsTrue, IsSome, IfSome, IfOk, OnOk, OnErr, IsPermutation, None, Some, option_copied, option_map, nat_lt};
ghost use Rattle.std.specs.List.{list_all, AllByRecursion};
ghost use Rattle.std.specs.FinMap as map;
ghost use Rattle.pk_model.specs.Tags.{Ascends, AreInRange, owns, tags_of, tag_at};
ghost use Rattle.pk_model.specs.Maps.{EntityMap, with_entity};
ghost use Rattle.std.specs.Borrow.{sem, RestsIfErr};
ghost use Rattle.entity_store.specs.Changes.{net_changes};
ghost use Rattle.entity_store.specs.Recording.{recorded_put, HasRoomFor};
ghost use Rattle.pk_base.specs.Entity.{owner_of};
ghost use Rattle.entity_store.specs.OwnerLinks.{links_missing as the_links_missing, owner_link as the_owner_link, place_in};
ghost use Rattle.entity_store.specs.Store.{IsHosted, IfHosted};
ghost use Rattle.entity_store.specs.Recorder.{began};
ghost use Rattle.entity_store.specs.Kids.{kids_of};
ghost use Rattle.entity_store.specs.contracts.store.Store.{the_row};

use crate::{ChangeList, KidWalk, RecordRoom, Recorder, Steps};
use owner_links::{Children, Links};
use pk_base::{Entity, LAST_BLOCK, NoMemory, TAGS_OF_A_BLOCK, Tag};
use std::alloc::Global;
use std::marker::Model;
use std::sync::ledger::Ledger;

/// How many slots a block has: one for each tag.
const SLOTS_OF_A_BLOCK: usize = TAGS_OF_A_BLOCK as usize;

/// The link of what owns the entities without an owner. It stands before those of the slots.
const ROOT: u32 = 0;

/// The link of the first slot.
const FIRST_LINK: u32 = TAGS_OF_A_BLOCK;

/// Entities by their tags, in blocks of 64 that were added in ascending order. At every moment the
/// owner of each is another tag of an owned block.
#[derive(Drop)]
pub struct Store {
    // The block numbers ascend, and each has its 64 slots in their place.
    blocks: Vec<u32>,
    slots: Vec<Option<Entity>>,
    // Who owns what stands in each slot.
    links: Links,
    live: usize,
    // What the last recorder has recorded, until its changes are listed.
    recorded: Option<RecordRoom>,
}

impl Model for Store {
    ghost use Rattle.std.specs.Prelude.{◌-◌, vec_len, vec_capacity};
    ghost use Rattle.entity_store.specs.Store.{StoreView, view_code, stored, room_for, recording_of, IsKept};

    ghost Value = { StoreView };

    ghost coded = { view_code };

    ghost view = { λ s. record {
      state = stored s.blocks.items s.slots.items;
      reserved =
          room_for (vec_len s.blocks) (vec_capacity s.blocks - vec_len s.blocks)
          (vec_capacity s.slots - vec_len s.slots) s.links.spare;
      recording = recording_of s.recorded;
    } };

    ghost invariant = { λ s.
        IsKept s.blocks.items s.slots.items s.live s.links.owners };
}

impl Store {
    /// An empty store, which owns no block. It takes no memory.
    pub fn new(alloc: Global) -> Store
        ensures blocks { result.state.blocks ≡ [] }
        ensures map { result.state.map ≡ map.empty }
    {
        Store {
            blocks: Vec::new(alloc),
            slots: Vec::new(alloc),
            links: Links::new(alloc),
            live: 0,
            recorded: None,
        }
    }

    /// Adds a block with no entity in it. Without memory its state is as it was.
    pub fn add_block(&mut self, b: u32) -> Result<(), NoMemory>
        requires above { IsTrue (list_all (λ o. nat_lt o b) self.old.state.blocks) }
        requires first { 1 ≤ b }
        requires last { b ≤ LAST_BLOCK }
        ensures ok { OnOk result (self.new.state
            ≡ record self.old.state { blocks = self.old.state.blocks ++ b ∷ [] }) }
        ensures err { OnErr result (self.new.state ≡ self.old.state) }
    {
        self.reserve_block()?;
        self.add_reserved(b);
        Ok(())
    }

    /// Takes the room for one block at least. Its state is as it was, also without memory.
    pub fn reserve_block(&mut self) -> Result<(), NoMemory>
        ensures room { OnOk result (1 ≤ self.new.reserved) }
        ensures state { self.new.state ≡ self.old.state }
    {
        self.blocks.reserve(1)?;
        self.slots.reserve(SLOTS_OF_A_BLOCK)?;
        self.links
            .reserve(links_missing(self.blocks.len()) + SLOTS_OF_A_BLOCK)
            .map_err(|_| NoMemory)
    }

    /// Adds a block with no entity in it, in room taken before. It takes no memory.
    pub fn add_reserved(&mut self, b: u32)
        requires room { 1 ≤ self.old.reserved }
        requires above { IsTrue (list_all (λ o. nat_lt o b) self.old.state.blocks) }
        requires first { 1 ≤ b }
        requires last { b ≤ LAST_BLOCK }
        ensures state { self.new.state ≡ record self.old.state
            { blocks = self.old.state.blocks ++ b ∷ [] } }
        ensures room { self.new.reserved + 1 ≡ self.old.reserved }
    {
        add_links(&mut self.links, self.blocks.len());
        self.blocks.push_reserved(b);
        add_slots(&mut self.slots);
    }

    /// The blocks owned, ascending.
    pub fn blocks(&self) -> &[u32]
        ensures value { result.now ≡ self.now.state.blocks }
        ensures ascending { Ascends self.now.state.blocks }
        ensures range { AreInRange self.now.state.blocks }
        // Each entity stands in an owned block, and so does its owner, which is another tag.
        ensures hosted { (t : Tag) (e : Entity) → map.get self.now.state.map t ≡ Some e
            → IsHosted self.now.state.blocks t e }
    {
        &self.blocks
    }

    /// Whether the tag's block is owned. It takes no memory.
    pub fn owns(&self, tag: Tag) -> bool
        ensures { result ≡ owns self.now.state.blocks tag }
    {
        slot_of(&self.blocks, tag).is_some()
    }

    /// How many entities are live. It takes no memory.
    pub fn len(&self) -> usize
        ensures { result ≡ map.len self.now.state.map }
    {
        self.live
    }

    /// The entity at a tag. One step.
    pub fn get<L: Ledger>(&self, tag: Tag, steps: &mut Steps<L>) -> Option<&Entity>
        ensures value { option_copied result ≡ map.get self.now.state.map tag }
        ensures cost { steps.new ≡ steps.old + 1 }
    {
        steps.tick();
        self.entity_in(slot_of(&self.blocks, tag)?)
    }

    /// The entity in a slot.
    pub(crate) fn entity_in(&self, slot: usize) -> Option<&Entity>
        requires { slot < TAGS_OF_A_BLOCK * length self.now.state.blocks }
        ensures { option_copied result
            ≡ map.get self.now.state.map (tag_at (tags_of self.now.state.blocks) slot) }
    {
        self.slots[slot].as_ref()
    }

    /// Sets the entity at a tag, or takes it away. One step. It takes no memory.
    pub fn put<L: Ledger>(&mut self, tag: Tag, to: Option<Entity>, steps: &mut Steps<L>)
        requires owned { IsTrue (owns self.old.state.blocks tag) }
        requires hosted { IfHosted self.old.state.blocks tag to }
        ensures state { self.new.state ≡ record self.old.state
            { map = with_entity self.old.state.map tag to } }
        ensures room { self.new.reserved ≡ self.old.reserved }
        ensures recording { self.new.recording ≡ self.old.recording }
        ensures cost { steps.new ≡ steps.old + 1 }
    {
        steps.tick();
        let slot = slot_of(&self.blocks, tag).unwrap();
        let owner = owner_link(&self.blocks, &to);
        relink(&mut self.links, link_of(slot), owner);
        self.live = recount(self.live, self.slots[slot].is_some(), to.is_some());
        self.slots[slot] = to;
    }

    /// A walk over the live entities with this owner, each once, in an open order.
    pub fn kids(&self, owner: Tag) -> KidWalk<'_>
        ensures { IsPermutation (kids_of self.now.state.map (Some owner)) result }
    {
        match slot_of(&self.blocks, owner) {
            Some(slot) => KidWalk::over(self, self.links.children(link_of(slot))),
            None => KidWalk::over(self, Children::none()),
        }
    }

    /// A walk over the live entities without an owner, each once, in an open order.
    pub fn roots(&self) -> KidWalk<'_>
        ensures { IsPermutation (kids_of self.now.state.map None) result }
    {
        KidWalk::over(self, self.links.children(ROOT))
    }

    /// Lends the store with room to record the changes of `k` tags. Without memory its state is as
    /// it was.
    pub fn recorder(&mut self, alloc: Global, k: usize) -> Result<Recorder<'_>, NoMemory>
        ensures* lent { sem 𝓛 (RestsIfErr the_row self.entry (λ r. r.store.ghost_name) result
            (λ n. n ≡ self.old)) }
        ensures same_store { IfOk result (λ r. r.store.ghost_name ≡ self.entry.ghost_name) }
        ensures state { IfOk result (λ r. r.store.now.state ≡ self.old.state) }
        ensures reserved { IfOk result (λ r. r.store.now.reserved ≡ self.old.reserved) }
        ensures record { IfOk result (λ r. r.store.now.recording
            ≡ record { first = []; room = k }) }
    {
        let room = RecordRoom::new(alloc, k)?;
        Ok(self.recorder_with(room))
    }

    /// Lends the store, to record in room taken before. It takes no memory.
    pub fn recorder_with(&mut self, room: RecordRoom) -> Recorder<'_>
        ensures same_store { result.store.ghost_name ≡ self.entry.ghost_name }
        ensures state { result.store.now.state ≡ self.old.state }
        ensures reserved { result.store.now.reserved ≡ self.old.reserved }
        ensures record { result.store.now.recording ≡ room }
    {
        self.recorded = Some(room);
        Recorder { store: self }
    }

    /// Puts, and records what the tag named first.
    pub(crate) fn put_recorded<L: Ledger>(
        &mut self,
        tag: Tag,
        to: Option<Entity>,
        steps: &mut Steps<L>,
    )
        requires owned { IsTrue (owns self.old.state.blocks tag) }
        requires hosted { IfHosted self.old.state.blocks tag to }
        requires room { HasRoomFor self.old.recording tag }
        ensures state { self.new.state ≡ record self.old.state
            { map = with_entity self.old.state.map tag to } }
        ensures reserved { self.new.reserved ≡ self.old.reserved }
        ensures recorded { self.new.recording ≡ record self.old.recording
            { first = recorded_put self.old.recording.first tag (map.get self.old.state.map tag) } }
        ensures cost { steps.new ≤ steps.old + 2 }
    {
        self.record_first(tag, steps);
        self.put(tag, to, steps);
    }

    /// Records what the tag names, where it was not put before.
    fn record_first<L: Ledger>(&mut self, tag: Tag, steps: &mut Steps<L>)
        requires room { HasRoomFor self.old.recording tag }
        ensures state { self.new.state ≡ self.old.state }
        ensures reserved { self.new.reserved ≡ self.old.reserved }
        ensures recorded { self.new.recording ≡ record self.old.recording
            { first = recorded_put self.old.recording.first tag (map.get self.old.state.map tag) } }
        ensures cost { steps.new ≤ steps.old + 1 }
    {
        let before = self.get(tag, steps).copied();
        if let Some(recorded) = &mut self.recorded {
            recorded.note(tag, before);
        }
    }

    /// The net change since the record began, which ends the record.
    pub(crate) fn take_changes<L: Ledger>(&mut self, steps: &mut Steps<L>) -> ChangeList
        ensures state { self.new.state ≡ self.old.state }
        ensures reserved { self.new.reserved ≡ self.old.reserved }
        ensures changes { result ≡ net_changes (began self.old) self.old.state.map }
        ensures length { length result ≤ length self.old.recording.first }
        ensures cost { steps.new ≤ steps.old + length self.old.recording.first }
    {
        match self.recorded.take() {
            Some(recorded) => recorded.into_changes(self, steps),
            None => ChangeList::of(Vec::new(*self.blocks.allocator())),
        }
    }
}

/// Where the slot of a tag stands.
fn slot_of(blocks: &[u32], tag: Tag) -> Option<usize>
    requires ascending { Ascends blocks.now }
    requires fits { TAGS_OF_A_BLOCK * length blocks.now < 2 ^ 64 }
    ensures variant { IsSome result ↔ IsTrue (owns blocks.now tag) }
    ensures within { IfSome result (λ i. i < TAGS_OF_A_BLOCK * length blocks.now) }
    ensures place { IfSome result (λ i. tag_at (tags_of blocks.now) i ≡ tag) }
    ensures value { IfSome result (λ i. i ≡ place_in blocks.now tag) }
{
    match blocks.binary_search(&tag.block()) {
        Ok(place) => Some(SLOTS_OF_A_BLOCK * place + (tag.0 % TAGS_OF_A_BLOCK) as usize),
        Err(_) => None,
    }
}

/// How many links come with a block beside those of its slots, where so many are owned: with the
/// first one those that stand before the links of slots.
fn links_missing(owned: usize) -> usize
    ensures { result ≡ the_links_missing owned }
{
    if owned == 0 { SLOTS_OF_A_BLOCK } else { 0 }
}

/// Adds the links of a block, where so many are owned.
fn add_links(links: &mut Links, owned: usize)
    requires { the_links_missing owned + TAGS_OF_A_BLOCK ≤ links.old.spare }
    ensures owners { links.new.owners
        ≡ links.old.owners ++ replicate (the_links_missing owned + TAGS_OF_A_BLOCK) None }
    ensures room { links.new.spare + the_links_missing owned + TAGS_OF_A_BLOCK
        ≡ links.old.spare }
{
    if owned == 0 {
        links.add_reserved();
    }
    links.add_reserved();
}

/// The link of a slot.
fn link_of(slot: usize) -> u32
    requires { slot < 2 ^ 31 }
    ensures { result ≡ TAGS_OF_A_BLOCK + slot }
{
    FIRST_LINK + slot as u32
}

/// The link of what owns this entity, where there is one.
fn owner_link(blocks: &[u32], entity: &Option<Entity>) -> Option<u32>
    requires ascending { Ascends blocks.now }
    requires range { AreInRange blocks.now }
    requires owned { IfSome entity.now (λ e. IfSome (owner_of e)
        (λ o. IsTrue (owns blocks.now o))) }
    ensures { result ≡ option_map (the_owner_link blocks.now) entity.now }
{
    match entity.as_ref()?.owner() {
        Some(owner) => Some(link_of(slot_of(blocks, owner).unwrap())),
        None => Some(ROOT),
    }
}

/// Makes a link the child of this owner alone, or of none.
fn relink(links: &mut Links, child: u32, owner: Option<u32>)
    requires child { child < length links.old.owners }
    requires owner { IfSome owner (λ o. (o < length links.old.owners) × (child ≢ o)) }
    ensures { links.new ≡ record links.old { owners = set links.old.owners child owner } }
{
    unlink(links, child);
    if let Some(owner) = owner {
        links.attach(child, owner);
    }
}

/// Takes a link from its owner, where it has one.
fn unlink(links: &mut Links, child: u32)
    ensures { links.new ≡ record links.old { owners = set links.old.owners child None } }
{
    if links.owner_of(child).is_some() {
        links.detach(child);
    }
}

/// How many are live, once a slot is so as `after` says, and was so as `before` says.
fn recount(live: usize, before: bool, after: bool) -> usize
    requires had { (if before then 1 else 0) ≤ live }
    requires fits { live + (if after then 1 else 0) < 2 ^ 64 + (if before then 1 else 0) }
    ensures { result + (if before then 1 else 0) ≡ live + (if after then 1 else 0) }
{
    live - usize::from(before) + usize::from(after)
}

/// Adds the empty slots of a block.
fn add_slots(slots: &mut Vec<Option<Entity>>)
    requires { vec_len slots.old + TAGS_OF_A_BLOCK ≤ vec_capacity slots.old }
    ensures items { slots.new.items ≡ slots.old.items ++ replicate TAGS_OF_A_BLOCK None }
    ensures room { vec_capacity slots.new ≡ vec_capacity slots.old }
{
    for _ in 0..SLOTS_OF_A_BLOCK {
        slots.push_reserved(None);
    }
}
