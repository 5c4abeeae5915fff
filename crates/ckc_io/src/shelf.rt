// Files that are read by name and offset.

ghost use Rattle.std.specs.Prelude.{◌≡◌, ◌≤◌, length, IfOk, ℕ, Option};
ghost use Rattle.ckc_io.specs.Counts.{ShelfCounts};
ghost use Rattle.ckc_io.specs.Files.{Files, Told, ShelfAnswers};

/// Why a read gave no bytes.
#[derive(Clone, Copy)]
pub enum ShelfFault {
    /// No file has the name.
    Missing,
    /// The device failed.
    Failed,
}

/// Named files. What they hold may be told to proofs, and each failure is counted.
pub trait Shelf {
    /// The files, where the shelf tells them.
    ghost files: { Self → Option Files };

    /// How often a file wasn't there. It stands still at 2^64 - 1.
    ghost misses: { Self → ℕ };

    /// How often the device failed. It stands still at 2^64 - 1.
    ghost faults: { Self → ℕ };

    /// Reads bytes of a file from an offset, and answers how many; 0 bytes are the end.
    fn read_at(&mut self, name: &str, from: u64, into: &mut [u8]) -> Result<usize, ShelfFault>
        ensures count { IfOk result (λ n. n ≤ length into.new) }
        ensures files { files self.new ≡ files self.old }
        ensures answer { Told (files self.old) (λ m. ShelfAnswers m name.now from into.new result) }
        ensures counts { ShelfCounts result (misses self.old) (misses self.new) (faults self.old) (faults self.new) };
}
