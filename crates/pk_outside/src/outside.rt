ghost use Rattle.std.specs.Prelude.{◌≡◌, ℕ, ◌<◌, ◌≤◌, List, Option, length, take, IfOk, OnOk, OnErr};
ghost use Rattle.pk_outside.specs.Outside.{Takes, IsAtEnd, Grows, HasFailed, counted_on};

use thiserror::Error;

/// A read or a write failed.
#[derive(Clone, Copy, Debug, PartialEq, Eq, Error)]
#[error("a read or a write failed")]
pub struct Failed;

/// Where bytes come from.
pub trait Source {
    /// The bytes still to come, where it tells them.
    ghost left: { Self → Option (List ℕ) };

    /// How often it was read into a buffer that is not empty. The count stands still at the
    /// greatest `u64`.
    ghost calls: { Self → ℕ };

    /// How often a read has failed. The count stands still at the greatest `u64`.
    ghost faults: { Self → ℕ };

    /// Reads the next bytes into the front of the buffer, and answers how many. Where the buffer is
    /// not empty, `Ok(0)` means the end. `Failed` leaves what is still to come. A read into an
    /// empty buffer changes nothing.
    fn read(&mut self, into: &mut [u8]) -> Result<usize, Failed>
        ensures within { IfOk result (λ k. k ≤ length into.old) }
        ensures taken { IfOk result (λ k. Takes (left self.old) (left self.new) (take k into.new)) }
        ensures end { result ≡ Ok 0 → 0 < length into.old → IsAtEnd (left self.old) }
        ensures failed { OnErr result (HasFailed (faults self.old) (faults self.new)) }
        ensures unread { OnErr result (left self.new ≡ left self.old) }
        ensures unfailed { OnOk result (faults self.new ≡ faults self.old) }
        ensures counted { faults self.old ≤ faults self.new }
        ensures called { 0 < length into.old → calls self.new ≡ counted_on (calls self.old) }
        ensures empty { length into.old ≡ 0 → result ≡ Ok 0 }
        ensures idle { length into.old ≡ 0 → self.new ≡ self.old };
}

/// Where bytes go.
pub trait Sink {
    /// The bytes that it holds, where it tells them.
    ghost held: { Self → Option (List ℕ) };

    /// How often a piece that is not empty was written. The count stands still at the greatest
    /// `u64`.
    ghost calls: { Self → ℕ };

    /// How often a write has failed. The count stands still at the greatest `u64`.
    ghost faults: { Self → ℕ };

    /// Writes bytes of the piece's front, at least one where the piece is not empty, and answers
    /// how many. `Failed` leaves what is held. A write of an empty piece changes nothing.
    fn write(&mut self, piece: &[u8]) -> Result<usize, Failed>
        ensures within { IfOk result (λ k. k ≤ length piece.now) }
        ensures some { 0 < length piece.now → IfOk result (λ k. 0 < k) }
        ensures grown { IfOk result (λ k. Grows (held self.old) (held self.new)
            (take k piece.now)) }
        ensures failed { OnErr result (HasFailed (faults self.old) (faults self.new)) }
        ensures unwritten { OnErr result (held self.new ≡ held self.old) }
        ensures unfailed { OnOk result (faults self.new ≡ faults self.old) }
        ensures counted { faults self.old ≤ faults self.new }
        ensures called { 0 < length piece.now → calls self.new ≡ counted_on (calls self.old) }
        ensures empty { length piece.now ≡ 0 → result ≡ Ok 0 }
        ensures idle { length piece.now ≡ 0 → self.new ≡ self.old };
}
