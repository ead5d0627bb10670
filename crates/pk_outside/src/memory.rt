ghost use Rattle.std.specs.Prelude.{◌≡◌, ◌+◌, ◌-◌, ◌<◌, ◌≤◌, ◌↔◌, ◌==◌, ◌⊎◌, if◌then◌else◌, min, length, take, [], Some, IfOk, OnOk, OnErr, IsErr, IsTrue, Contains};
ghost use Rattle.pk_outside.specs.Outside.{Takes, IsAtEnd, Grows, HasFailed, counted_on};

use crate::{Failed, Sink, Source};
use pk_base::NoMemory;
use std::alloc::Global;
use std::marker::Model;

// Whether the calls of this number are to fail.
fn is_listed(failing: &[u32], number: u64) -> bool
    ensures { IsTrue result ↔ Contains failing.now number }
{
    failing.iter().any(|listed| u64::from(*listed) == number)
}

/// Gives the bytes of a list, in pieces, and fails where it is told to.
#[derive(Debug, Drop)]
pub struct MemSource {
    bytes: Vec<u8>,
    at: usize,
    most: usize,
    failing: Vec<u32>,
    calls: u64,
    failed: u64,
}

impl Model for MemSource {
    ghost use Rattle.std.specs.Prelude.{◌≤◌, drop, vec_len};
    ghost use Rattle.pk_outside.specs.Outside.{Giving};

    ghost Value = { Giving };

    ghost view = { λ s. record {
      left = drop s.at s.bytes.items;
      most = s.most;
      failing = s.failing.items;
      calls = s.calls;
      faults = s.failed;
    } };

    ghost invariant = { λ s. (s.at ≤ vec_len s.bytes) × (1 ≤ s.most) };
}

impl MemSource {
    /// A source of these bytes. Its calls with a buffer that is not empty are numbered from 1. Such
    /// a call fails where its number is listed in `failing`, and else gives `most` bytes, which is
    /// 1 at least, or as many as the buffer takes or are left.
    pub fn new(
        alloc: Global,
        bytes: &[u8],
        most: usize,
        failing: &[u32],
    ) -> Result<MemSource, NoMemory>
        requires { 1 ≤ most }
        ensures { IfOk result (λ s. s ≡ record {
          left = bytes.now;
          most = most;
          failing = failing.now;
          calls = 0;
          faults = 0;
        }) }
    {
        Ok(MemSource {
            bytes: Vec::from_slice(alloc, bytes)?,
            at: 0,
            most,
            failing: Vec::from_slice(alloc, failing)?,
            calls: 0,
            failed: 0,
        })
    }
}

impl Source for MemSource {
    ghost left = { λ s. Some s.left };

    ghost calls = { λ s. s.calls };

    ghost faults = { λ s. s.faults };

    fn read(&mut self, into: &mut [u8]) -> Result<usize, Failed>
        ensures within { IfOk result (λ k. k ≤ length into.old) }
        ensures taken { IfOk result (λ k. Takes (Some self.old.left) (Some self.new.left)
            (take k into.new)) }
        ensures end { result ≡ Ok 0 → 0 < length into.old → IsAtEnd (Some self.old.left) }
        ensures failed { OnErr result (HasFailed self.old.faults self.new.faults) }
        ensures unread { OnErr result (Some self.new.left ≡ Some self.old.left) }
        ensures unfailed { OnOk result (self.new.faults ≡ self.old.faults) }
        ensures counted { self.old.faults ≤ self.new.faults }
        ensures called { 0 < length into.old → self.new.calls ≡ counted_on self.old.calls }
        ensures empty { length into.old ≡ 0 → result ≡ Ok 0 }
        ensures idle { length into.old ≡ 0 → self.new ≡ self.old }

        // It fails exactly where it is told to, and else gives as much as it may.
        ensures fails { IsErr result ↔ ((0 < length into.old)
            × Contains self.old.failing (counted_on self.old.calls)) }
        ensures gives { IfOk result (λ k.
            k ≡ min self.old.most (min (length into.old) (length self.old.left))) }
        ensures kept { (self.new.most ≡ self.old.most) × (self.new.failing ≡ self.old.failing) }
    {
        if into.is_empty() {
            return Ok(0);
        }
        self.calls = self.calls.saturating_add(1);
        if is_listed(&self.failing, self.calls) {
            self.failed = self.failed.saturating_add(1);
            return Err(Failed);
        }
        let rest = &self.bytes[self.at..];
        let count = self.most.min(into.len()).min(rest.len());
        into[..count].copy_from_slice(&rest[..count]);
        self.at += count;
        Ok(count)
    }
}

/// Holds bytes in room taken before, takes them in pieces, and fails where it is told to.
#[derive(Debug, Drop)]
pub struct MemSink {
    bytes: Vec<u8>,
    room: usize,
    most: usize,
    failing: Vec<u32>,
    calls: u64,
    failed: u64,
}

impl Model for MemSink {
    ghost use Rattle.std.specs.Prelude.{◌≤◌, vec_len, vec_capacity};
    ghost use Rattle.pk_outside.specs.Outside.{Taking};

    ghost Value = { Taking };

    ghost view = { λ s. record {
      held = s.bytes.items;
      room = s.room;
      most = s.most;
      failing = s.failing.items;
      calls = s.calls;
      faults = s.failed;
    } };

    ghost invariant = { λ s. (vec_len s.bytes ≤ s.room) × (s.room ≤ vec_capacity s.bytes)
        × (1 ≤ s.most) };
}

impl MemSink {
    /// A sink that holds nothing yet, with room for `room` bytes: it takes all its memory here. Its
    /// calls with a piece that is not empty are numbered from 1. Such a call fails where its number
    /// is listed in `failing` and where there is no room left, and else takes `most` bytes, which
    /// is 1 at least, or as many as the piece has or there is room for.
    pub fn new(
        alloc: Global,
        room: usize,
        most: usize,
        failing: &[u32],
    ) -> Result<MemSink, NoMemory>
        requires { 1 ≤ most }
        ensures { IfOk result (λ s. s ≡ record {
          held = [];
          room = room;
          most = most;
          failing = failing.now;
          calls = 0;
          faults = 0;
        }) }
    {
        Ok(MemSink {
            bytes: Vec::with_capacity(alloc, room)?,
            room,
            most,
            failing: Vec::from_slice(alloc, failing)?,
            calls: 0,
            failed: 0,
        })
    }

    /// The bytes that it holds.
    pub fn as_slice(&self) -> &[u8]
        ensures { result.now ≡ self.now.held }
    {
        self.bytes.as_slice()
    }
}

impl Sink for MemSink {
    ghost held = { λ s. Some s.held };

    ghost calls = { λ s. s.calls };

    ghost faults = { λ s. s.faults };

    /// Takes no memory.
    fn write(&mut self, piece: &[u8]) -> Result<usize, Failed>
        ensures within { IfOk result (λ k. k ≤ length piece.now) }
        ensures some { 0 < length piece.now → IfOk result (λ k. 0 < k) }
        ensures grown { IfOk result (λ k. Grows (Some self.old.held) (Some self.new.held)
            (take k piece.now)) }
        ensures failed { OnErr result (HasFailed self.old.faults self.new.faults) }
        ensures unwritten { OnErr result (Some self.new.held ≡ Some self.old.held) }
        ensures unfailed { OnOk result (self.new.faults ≡ self.old.faults) }
        ensures counted { self.old.faults ≤ self.new.faults }
        ensures called { 0 < length piece.now → self.new.calls ≡ counted_on self.old.calls }
        ensures empty { length piece.now ≡ 0 → result ≡ Ok 0 }
        ensures idle { length piece.now ≡ 0 → self.new ≡ self.old }

        // It fails exactly where it is told to or is full, and else takes as much as it may.
        ensures fails { IsErr result ↔ ((0 < length piece.now)
            × (Contains self.old.failing (counted_on self.old.calls)
            ⊎ (length self.old.held ≡ self.old.room))) }
        ensures takes { IfOk result (λ k.
            k ≡ min self.old.most (min (length piece.now) (self.old.room - length self.old.held))) }
        ensures kept { (self.new.room ≡ self.old.room) × (self.new.most ≡ self.old.most)
            × (self.new.failing ≡ self.old.failing) }
    {
        if piece.is_empty() {
            return Ok(0);
        }
        self.calls = self.calls.saturating_add(1);
        let spare = self.room - self.bytes.len();
        if spare == 0 || is_listed(&self.failing, self.calls) {
            self.failed = self.failed.saturating_add(1);
            return Err(Failed);
        }
        let count = self.most.min(piece.len()).min(spare);
        let Ok(()) = self.bytes.extend_from_slice(&piece[..count]) else {
            unreachable!();
        };
        Ok(count)
    }
}
