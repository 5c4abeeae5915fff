// A text that is written piece by piece.

ghost use Rattle.std.specs.Prelude.{◌≡◌, ◌≤◌, ◌<◌, length, IfOk, ℕ, List, Option};
ghost use Rattle.ckc_io.specs.Counts.{SinkCounts};
ghost use Rattle.ckc_io.specs.Written.{grown, taken_by};

/// Why a piece wasn't taken.
#[derive(Clone, Copy)]
pub enum SinkFault {
    /// The device failed.
    Failed,
}

/// Takes bytes in order. What was written may be told to proofs, and each failure is counted.
pub trait Sink {
    /// The bytes written so far, where the sink tells them.
    ghost written: { Self → Option (List ℕ) };

    /// How often the device failed. It stands still at 2^64 - 1.
    ghost faults: { Self → ℕ };

    /// Takes a front of the piece, and answers how many bytes. Of a piece that isn't empty it takes at least one.
    fn put(&mut self, bytes: &[u8]) -> Result<usize, SinkFault>
        ensures count { IfOk result (λ n. n ≤ length bytes.now) }
        ensures progress { IfOk result (λ n. 0 < length bytes.now → 0 < n) }
        ensures written { written self.new ≡ grown (written self.old) (taken_by result bytes.now) }
        ensures counts { SinkCounts result (faults self.old) (faults self.new) };
}
