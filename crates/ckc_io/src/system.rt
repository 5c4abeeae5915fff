// What the shelf of files and the output ask of an operating system, a call each.

ghost use Rattle.std.specs.Prelude.{ℕ, List, Result, ◌≤◌, length, IfOk};
ghost use Rattle.std.specs.declared.io.Error.{Error};

use std::fs::File;
use std::io::Write;
use std::os::unix::fs::FileExt;
use std::rt::Files;
use std::{fs, io};

/// A system that opens files by their names, and reads them at an offset.
pub trait FileSystem {
    type File: Drop;

    /// That the system, asked to open the file of a name, may answer so, and is then so.
    ghost opens: { Self → List ℕ → Result Self.File Error → Self → Type 0 };

    /// That the system, asked to read a file from an offset into a buffer, may leave the buffer so, answer so, and is then
    /// so.
    ghost reads: { Self → Self.File → ℕ → List ℕ → List ℕ → Result ℕ Error → Self → Type 0 };

    fn open(&mut self, name: &str) -> io::Result<Self::File>
        ensures answer { opens self.old name.now result self.new };

    fn read(&mut self, file: &Self::File, from: u64, into: &mut [u8]) -> io::Result<usize>
        ensures count { IfOk result (λ n. n ≤ length into.new) }
        ensures answer { reads self.old file.now from into.old into.new result self.new };
}

/// A system that writes an output.
pub trait OutputSystem {
    /// That the system, asked to write a piece, may answer so, and is then so.
    ghost writes: { Self → List ℕ → Result ℕ Error → Self → Type 0 };

    fn write(&mut self, piece: &[u8]) -> io::Result<usize>
        ensures count { IfOk result (λ n. n ≤ length piece.now) }
        ensures answer { writes self.old piece.now result self.new };
}

/// The system that a program runs on. What it answers is not told to proofs.
impl<'a, R: Files<File = File>> FileSystem for &'a R {
    type File = File;

    ghost opens = { λ _ _ _ _. Unit {0} };

    ghost reads = { λ _ _ _ _ _ _ _. Unit {0} };

    fn open(&mut self, name: &str) -> io::Result<File> {
        fs::open(*self, name)
    }

    fn read(&mut self, file: &File, from: u64, into: &mut [u8]) -> io::Result<usize> {
        file.read_at(into, from)
    }
}

impl<'a, R: Print> OutputSystem for &'a R {
    ghost writes = { λ _ _ _ _. Unit {0} };

    fn write(&mut self, piece: &[u8]) -> io::Result<usize> {
        io::writer(*self).write(piece)
    }
}
