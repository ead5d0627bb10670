//! Eight threads that share four partitions.
ghost use Rattle.std.specs.Prelude.{◌≡◌, ◌+◌, ◌<◌, ◌≤◌, All, IfOk, None, vec_len};
ghost use Rattle.session_table.specs.Faces.{view_of, bounds_of, IsPartition, IsSeatOf};
ghost use Rattle.table_visits.specs.Working.{IsIdle};

use super::whole::{is_whole, sheets};
use crate::sheet::Sheet;
use crate::visits::{leave, visit};
use session_table::{Claim, Naming, Seat, SessionTable};
use std::alloc::{AllocError, Global};
use std::thread;
use std::thread::Threads;

/// What the partitions hold in the end.
#[derive(Drop)]
pub struct Found {
    pub whole: bool,
    pub entries: usize,
    pub drawn: usize,
    pub once: bool,
}

// Visits the partitions in turn.
fn visit_many(table: &SessionTable<Sheet>, seat: &mut Seat<Sheet>)
    requires idle { IsIdle ⟦<Sheet as Naming>⟧.named table.now seat.old }
    requires four { 4 ≤ (bounds_of table.now).partitions }
    ensures { IsIdle ⟦<Sheet as Naming>⟧.named table.now seat.new }
{
    for turn in 0..3000u32 {
        let _found = visit(table, seat, turn % 4 + 1);
    }
}

// Each seat in a thread of its own.
fn visit_all<R: Threads + Sync>(rt: &R, table: &SessionTable<Sheet>, seats: &mut [Seat<Sheet>])
    requires idle { All (λ s. IsIdle ⟦<Sheet as Naming>⟧.named table.now s) seats.old }
    requires four { 4 ≤ (bounds_of table.now).partitions }
{
    thread::for_each_mut(
        rt,
        seats,
        8,
        &|_, seat: &mut Seat<Sheet>|
            requires { IsIdle (λ s. record {
              number = s.number;
              holder = None;
              blocks = s.blocks.items;
              journal = s.journal.items;
            }) table.now seat.old
                × (4 ≤ (bounds_of table.now).partitions) }
        { visit_many(table, seat) },
    );
}

// Eight seats.
fn eight(
    alloc: Global,
    table: &SessionTable<Sheet>,
    root: &mut Seat<Sheet>,
) -> Result<Vec<Seat<Sheet>>, AllocError>
    requires root { IsIdle ⟦<Sheet as Naming>⟧.named table.now root.old }
    requires number { (view_of root.old).number ≡ 0 }
    requires made { (view_of root.old).made ≡ 0 }
    ensures root { IsIdle ⟦<Sheet as Naming>⟧.named table.now root.new }
    ensures seats { IfOk result (λ v. All
        (λ s. IsIdle ⟦<Sheet as Naming>⟧.named table.now s) v.items) }
{
    let mut seats = Vec::with_capacity(alloc, 8)?;
    for _ in 0..8u32 {
        seats.push_reserved(table.split(root));
    }
    Ok(seats)
}

// Adds what the partition holds, which root has to itself.
fn inspect(
    table: &SessionTable<Sheet>,
    root: &mut Seat<Sheet>,
    p: u32,
    found: &mut Found,
    counts: &mut [u32],
) -> Result<(), AllocError>
    requires idle { IsIdle ⟦<Sheet as Naming>⟧.named table.now root.old }
    requires partition { IsPartition table.now p }
    ensures { IsIdle ⟦<Sheet as Naming>⟧.named table.now root.new }
{
    root.reserve()?;
    match table.claim(root, p) {
        Claim::HeldBy(_) => found.whole = false,
        Claim::Won => {
            let sheet = table.take_out(root, p);
            look_at(&sheet, found, counts);
            leave(table, root, p, sheet);
        }
    }
    Ok(())
}

fn look_at(sheet: &Sheet, found: &mut Found, counts: &mut [u32]) {
    if !is_whole(sheet.journal.as_slice()) {
        found.whole = false;
    }
    found.entries = found.entries.saturating_add(sheet.journal.len());
    for block in &sheet.blocks {
        found.drawn = found.drawn.saturating_add(1);
        match counts.get_mut((*block as usize).wrapping_sub(1)) {
            Some(count) => *count = count.saturating_add(1),
            None => found.whole = false,
        }
    }
}

fn inspect_all(
    table: &SessionTable<Sheet>,
    root: &mut Seat<Sheet>,
    found: &mut Found,
    counts: &mut [u32],
) -> Result<(), AllocError>
    requires idle { IsIdle ⟦<Sheet as Naming>⟧.named table.now root.old }
    requires four { 4 ≤ (bounds_of table.now).partitions }
{
    inspect(table, root, 1, found, counts)?;
    inspect(table, root, 2, found, counts)?;
    inspect(table, root, 3, found, counts)?;
    inspect(table, root, 4, found, counts)
}

fn are_one(counts: &[u32]) -> bool {
    let mut are_one = true;
    for count in counts {
        if *count != 1 {
            are_one = false;
        }
    }
    are_one
}

/// What four partitions hold, whose last block is 40, after eight seats in threads of their own
/// have visited each of them often.
pub fn share<R: Threads + Sync>(rt: &R, alloc: Global) -> Result<Found, AllocError> {
    let (table, mut root) = SessionTable::begin(alloc, sheets(alloc, 4)?, 40)?;
    let mut seats = eight(alloc, &table, &mut root)?;
    visit_all(rt, &table, seats.as_mut_slice());
    let mut found = Found {
        whole: true,
        entries: 0,
        drawn: 0,
        once: true,
    };
    let mut counts = Vec::from_elem(alloc, 0u32, 40)?;
    inspect_all(&table, &mut root, &mut found, counts.as_mut_slice())?;
    found.once = are_one(counts.as_slice());
    Ok(found)
}
