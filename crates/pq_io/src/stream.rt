ghost use Rattle.std.specs.Prelude.{ℕ, ◌^◌, ◌<◌, ◌≤◌, List, Option, length, IfOk, OnErr};
ghost use Rattle.std.specs.Io.{ReadsAtMost, WritesAtMost};
ghost use Rattle.std.specs.Io.KnownBytes.{ReadConsumes, WriteAppends};
ghost use Rattle.pq_io.specs.Faults.{Rose};

use thiserror::Error;

/// A call of a source or a sink failed.
#[derive(Clone, Copy, Debug, PartialEq, Eq, Error)]
#[error("the call failed")]
pub struct Failed;

/// Gives bytes. A call may fail, and the source counts that.
pub trait Source {
    // The bytes that are left, where the source tells them. What is told stays told.
    ghost left: { Self → Option (List ℕ) };

    // How many faults there were. The count stops at 2^64 - 1.
    ghost faults: { Self → ℕ };

    /// Takes the next bytes into the first places of `into`, and returns how many. 0 comes only at the end.
    /// `Failed` comes only where the count of faults rose in this call, and then nothing was taken.
    fn take(&mut self, into: &mut [u8]) -> Result<usize, Failed>
        requires { 0 < length into.old }
        ensures bound { ReadsAtMost result into.new }
        ensures bytes { ReadConsumes (left self.old) (left self.new) result into.new }

        ensures rose { OnErr result (Rose (faults self.old) (faults self.new)) }
        ensures never_falls { faults self.old ≤ faults self.new }
        ensures fits { faults self.new < 2 ^ 64 };
}

/// Takes bytes. A call may fail, and the sink counts that.
pub trait Sink {
    // The bytes that the sink holds, where it tells them. What is told stays told.
    ghost held: { Self → Option (List ℕ) };

    // How many faults there were. The count stops at 2^64 - 1.
    ghost faults: { Self → ℕ };

    /// Puts a prefix of `piece` behind what the sink holds, at least one byte, and returns how many.
    /// `Failed` comes only where the count of faults rose in this call, and then nothing was put.
    fn put(&mut self, piece: &[u8]) -> Result<usize, Failed>
        requires { 0 < length piece.now }
        ensures some { IfOk result (λ count. 0 < count) }
        ensures bound { WritesAtMost result piece.now }
        ensures bytes { WriteAppends (held self.old) (held self.new) result piece.now }

        ensures rose { OnErr result (Rose (faults self.old) (faults self.new)) }
        ensures never_falls { faults self.old ≤ faults self.new }
        ensures fits { faults self.new < 2 ^ 64 };
}
