//! Visits of seats to partitions.
ghost use Rattle.std.specs.Prelude.{◌≡◌, ℕ, ◌+◌, ◌≤◌, ◌++◌, ◌∷◌, [], Option, OnOk, OnErr, vec_len, vec_capacity};
ghost use Rattle.session_table.specs.Entries.{thread_of, only};
ghost use Rattle.session_table.specs.Seats.{seen_of, mine_of};
ghost use Rattle.session_table.specs.Faces.{face, view_of, IsPartition};
ghost use Rattle.table_visits.specs.Working.{IsIdle, IsAtWork};
ghost use Rattle.table_visits.specs.Visits.{drawing, visit_of, CanBeDrawn, KeepsOthers, Visits};

use crate::sheet::Sheet;
use pk_base::Entry;
use session_table::{Claim, Drawn, Naming, Next, Seat, SessionTable};
use std::alloc::AllocError;

// Writes an entry of the seat's.
fn write(table: &SessionTable<Sheet>, seat: &Seat<Sheet>, p: u32, sheet: &mut Sheet, entry: Entry)
    requires work { IsAtWork ⟦<Sheet as Naming>⟧.named table.now seat.now p
        (⟦<Sheet as Naming>⟧.named sheet.old) }
    requires own { thread_of entry ≡ (view_of seat.now).number }
    requires room { vec_len sheet.old.journal + 1 ≤ vec_capacity sheet.old.journal }
    ensures work { IsAtWork ⟦<Sheet as Naming>⟧.named table.now seat.now p
        (⟦<Sheet as Naming>⟧.named sheet.new) }
    ensures journal { sheet.new.journal.items ≡ sheet.old.journal.items ++ entry ∷ [] }
    ensures length { vec_len sheet.new.journal ≡ vec_len sheet.old.journal + 1 }
    ensures room { vec_capacity sheet.new.journal ≡ vec_capacity sheet.old.journal }
    ensures blocks { sheet.new.blocks ≡ sheet.old.blocks }
{
    sheet.journal.push_reserved(entry);
}

// Draws a block, if there is one left, and writes its entry.
fn draw(table: &SessionTable<Sheet>, seat: &mut Seat<Sheet>, p: u32, sheet: &mut Sheet)
    requires work { IsAtWork ⟦<Sheet as Naming>⟧.named table.now seat.old p
        (⟦<Sheet as Naming>⟧.named sheet.old) }
    requires blocks { vec_len sheet.old.blocks + 1 ≤ vec_capacity sheet.old.blocks }
    requires room { vec_len sheet.old.journal + 2 ≤ vec_capacity sheet.old.journal }
    ensures work { IsAtWork ⟦<Sheet as Naming>⟧.named table.now seat.new p
        (⟦<Sheet as Naming>⟧.named sheet.new) }
    ensures number { (view_of seat.new).number ≡ (view_of seat.old).number }
    ensures journal { (drawn : Option ℕ) × CanBeDrawn (view_of seat.old).bounds drawn
        × (sheet.new.journal.items
        ≡ sheet.old.journal.items ++ drawing (view_of seat.old).number drawn) }
    ensures room { vec_len sheet.new.journal + 1 ≤ vec_capacity sheet.new.journal }
    ensures others { KeepsOthers (view_of seat.old) p (view_of seat.new) }
{
    match table.look(seat) {
        Next::Past(_) => {}
        Next::Free => match table.draw(seat, p) {
            Drawn::Past(_) => {}
            Drawn::Block(block) => {
                sheet.blocks.push_reserved(u64::from(block));
                let thread = seat.number();
                write(table, seat, p, sheet, Entry::Drew { thread, block });
            }
        },
    }
}

// The seat's entries, and a block between them if there is one left.
fn work(table: &SessionTable<Sheet>, seat: &mut Seat<Sheet>, p: u32, sheet: &mut Sheet)
    requires work { IsAtWork ⟦<Sheet as Naming>⟧.named table.now seat.old p
        (⟦<Sheet as Naming>⟧.named sheet.old) }
    requires blocks { vec_len sheet.old.blocks + 1 ≤ vec_capacity sheet.old.blocks }
    requires room { vec_len sheet.old.journal + 3 ≤ vec_capacity sheet.old.journal }
    ensures work { IsAtWork ⟦<Sheet as Naming>⟧.named table.now seat.new p
        (⟦<Sheet as Naming>⟧.named sheet.new) }
    ensures number { (view_of seat.new).number ≡ (view_of seat.old).number }
    ensures journal { (drawn : Option ℕ) × CanBeDrawn (view_of seat.old).bounds drawn
        × (sheet.new.journal.items
        ≡ sheet.old.journal.items ++ visit_of (view_of seat.old).number drawn) }
    ensures others { KeepsOthers (view_of seat.old) p (view_of seat.new) }
{
    let thread = seat.number();
    write(table, seat, p, sheet, Entry::Claimed(thread));
    draw(table, seat, p, sheet);
    write(table, seat, p, sheet, Entry::Released(thread));
}

/// Puts the partition back, and lets it go. The seat has then seen its journal.
pub fn leave(table: &SessionTable<Sheet>, seat: &mut Seat<Sheet>, p: u32, sheet: Sheet)
    requires { IsAtWork ⟦<Sheet as Naming>⟧.named table.now seat.old p
        (⟦<Sheet as Naming>⟧.named sheet) }
    ensures idle { IsIdle ⟦<Sheet as Naming>⟧.named table.now seat.new }
    ensures number { (view_of seat.new).number ≡ (view_of seat.old).number }
    ensures seen { seen_of (view_of seat.new) p ≡ sheet.journal.items }
    ensures done { mine_of (view_of seat.new) p
        ≡ only (view_of seat.old).number (seen_of (view_of seat.new) p) }
    ensures others { KeepsOthers (view_of seat.old) p (view_of seat.new) }
{
    table.put_in(seat, p, sheet);
    table.release(seat, p);
}

// Works on the partition, if there is memory, and lets it go.
fn finish(
    table: &SessionTable<Sheet>,
    seat: &mut Seat<Sheet>,
    p: u32,
    mut sheet: Sheet,
) -> Result<(), AllocError>
    requires { IsAtWork ⟦<Sheet as Naming>⟧.named table.now seat.old p
        (⟦<Sheet as Naming>⟧.named sheet) }
    ensures idle { IsIdle ⟦<Sheet as Naming>⟧.named table.now seat.new }
    ensures number { (view_of seat.new).number ≡ (view_of seat.old).number }
    ensures worked { OnOk result ((drawn : Option ℕ) × CanBeDrawn (view_of seat.old).bounds drawn
        × (seen_of (view_of seat.new) p
        ≡ sheet.journal.items ++ visit_of (view_of seat.old).number drawn)) }
    ensures failed { OnErr result (seen_of (view_of seat.new) p ≡ sheet.journal.items) }
    ensures done { mine_of (view_of seat.new) p
        ≡ only (view_of seat.old).number (seen_of (view_of seat.new) p) }
    ensures others { KeepsOthers (view_of seat.old) p (view_of seat.new) }
{
    if let Err(failed) = sheet.reserve() {
        leave(table, seat, p, sheet);
        return Err(failed);
    }
    work(table, seat, p, &mut sheet);
    leave(table, seat, p, sheet);
    Ok(())
}

/// Visits the partition, if it is free: claims it, takes it out, writes that it claims it, draws a
/// block if there is one left, writes that it releases it, puts it back and lets it go.
/// `AllocError` comes only where an allocation fails.
pub fn visit(
    table: &SessionTable<Sheet>,
    seat: &mut Seat<Sheet>,
    p: u32,
) -> Result<Claim, AllocError>
    requires idle { IsIdle ⟦<Sheet as Naming>⟧.named table.now seat.old }
    requires partition { IsPartition table.now p }
    ensures idle { IsIdle ⟦<Sheet as Naming>⟧.named table.now seat.new }
    ensures number { (view_of seat.new).number ≡ (view_of seat.old).number }
    ensures visit { Visits (face ⟦<Sheet as Naming>⟧.named seat.old) p result
        (face ⟦<Sheet as Naming>⟧.named seat.new) }
{
    seat.reserve()?;
    match table.claim(seat, p) {
        Claim::HeldBy(holder) => Ok(Claim::HeldBy(holder)),
        Claim::Won => {
            let sheet = table.take_out(seat, p);
            match finish(table, seat, p, sheet) {
                Ok(()) => Ok(Claim::Won),
                Err(failed) => Err(failed),
            }
        }
    }
}
