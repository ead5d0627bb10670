//! One thread with two seats.
ghost use Rattle.std.specs.Prelude.{◌≡◌, ◌+◌, ◌<◌, IfOk, vec_len, map};
ghost use Rattle.session_table.specs.Named.{openings};
ghost use Rattle.session_table.specs.Faces.{view_of, room_of, IsPartition};
ghost use Rattle.table_visits.specs.Working.{IsIdle};

use crate::sheet::Sheet;
use crate::visits::visit;
use pk_base::Entry;
use session_table::{Claim, Naming, Seat, SessionTable};
use std::alloc::{AllocError, Global};

/// What the two seats found.
#[derive(Drop)]
pub struct Shared {
    pub rival: Option<Claim>,
    pub visits: [Claim; 2],
    pub held: bool,
    pub left: bool,
    pub sheets: Vec<Sheet>,
}

/// Whether the journal has whole visits alone, one after another.
pub fn is_whole(journal: &[Entry]) -> bool {
    let mut holder = None;
    for entry in journal {
        holder = match (holder, entry) {
            (None, Entry::Claimed(seat)) => Some(*seat),
            (Some(seat), Entry::Drew { thread, .. }) if seat == *thread => Some(seat),
            (Some(seat), Entry::Released(thread)) if seat == *thread => None,
            _ => return false,
        };
    }
    holder.is_none()
}

/// So many partitions, as a session begins.
pub fn sheets(alloc: Global, count: u32) -> Result<Vec<Sheet>, AllocError>
    requires { count < 1000 }
    ensures { IfOk result (λ v. (map ⟦<Sheet as Naming>⟧.named v.items ≡ openings 1 count)
        × (vec_len v ≡ count)) }
{
    let mut all = Vec::with_capacity(alloc, count as usize)?;
    for i in 0..count {
        all.push_reserved(Sheet::new(alloc, i + 1)?);
    }
    Ok(all)
}

// Claims the partition, and lets it go again if the claim won.
fn glance(table: &SessionTable<Sheet>, seat: &mut Seat<Sheet>, p: u32) -> Claim
    requires idle { IsIdle ⟦<Sheet as Naming>⟧.named table.now seat.old }
    requires partition { IsPartition table.now p }
    requires room { 0 < room_of seat.old }
    ensures idle { IsIdle ⟦<Sheet as Naming>⟧.named table.now seat.new }
    ensures number { (view_of seat.new).number ≡ (view_of seat.old).number }
    ensures made { (view_of seat.new).made ≡ (view_of seat.old).made }
    ensures joined { (view_of seat.new).joined ≡ (view_of seat.old).joined }
{
    match table.claim(seat, p) {
        Claim::HeldBy(holder) => Claim::HeldBy(holder),
        Claim::Won => {
            table.release(seat, p);
            Claim::Won
        }
    }
}

// The second seat looks at a partition while the first one holds it.
fn rival(
    table: &SessionTable<Sheet>,
    first: &mut Seat<Sheet>,
    second: &mut Seat<Sheet>,
    p: u32,
) -> Result<Option<Claim>, AllocError>
    requires first { IsIdle ⟦<Sheet as Naming>⟧.named table.now first.old }
    requires second { IsIdle ⟦<Sheet as Naming>⟧.named table.now second.old }
    requires partition { IsPartition table.now p }
    ensures first { IsIdle ⟦<Sheet as Naming>⟧.named table.now first.new }
    ensures second { IsIdle ⟦<Sheet as Naming>⟧.named table.now second.new }
    ensures number { (view_of first.new).number ≡ (view_of first.old).number }
    ensures root { (view_of second.new).number ≡ (view_of second.old).number }
    ensures made { (view_of second.new).made ≡ (view_of second.old).made }
    ensures joined { (view_of second.new).joined ≡ (view_of second.old).joined }
{
    first.reserve()?;
    second.reserve()?;
    match table.claim(first, p) {
        Claim::HeldBy(_) => Ok(None),
        Claim::Won => {
            let found = glance(table, second, p);
            table.release(first, p);
            Ok(Some(found))
        }
    }
}

/// A session of two partitions, whose seat 1 holds the first one while root claims it, and then
/// visits it twice. Its last block is 3.
pub fn share(alloc: Global) -> Result<Shared, AllocError> {
    let (table, mut root) = SessionTable::begin(alloc, sheets(alloc, 2)?, 3)?;
    let mut seat = table.split(&mut root);
    let rival = rival(&table, &mut seat, &mut root, 1)?;
    let first = visit(&table, &mut seat, 1)?;
    let second = visit(&table, &mut seat, 1)?;
    let left = seat.holds(1);
    table.join(&mut root, seat);
    Ok(Shared {
        rival,
        visits: [first, second],
        held: root.made() == 1,
        left,
        sheets: table.close(root)?,
    })
}
