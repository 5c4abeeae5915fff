// The files of an operating system. What they hold is not told to proofs.

ghost use Rattle.std.specs.Prelude.{◌≡◌, ◌≤◌, ℕ, Option, Result, length, IfOk};
ghost use Rattle.std.specs.declared.io.Error.{Error};
ghost use Rattle.ckc_io.specs.Counts.{ShelfCounts};
ghost use Rattle.ckc_io.specs.Files.{Files, ShelfAnswers, Told};
ghost use Rattle.ckc_io.specs.MemShelf.{faults_after, misses_after};
ghost use Rattle.ckc_io.specs.System.{ReadsOpened};

use crate::shelf::{Shelf, ShelfFault};
use crate::system::FileSystem;
use std::io;
use std::marker::Model;

/// The files of an operating system, by their paths. Each read opens its file.
#[derive(Drop)]
pub struct FileShelf<S> {
    system: S,
    misses: u64,
    faults: u64,
}

impl<S> Model for FileShelf<S> {
    ghost use Rattle.ckc_io.specs.Edge.{FileShelfState};

    ghost Value = { FileShelfState S };

    ghost view = { λ s. record { system = s.system; misses = s.misses; faults = s.faults } };
}

impl<S> FileShelf<S> {
    /// The files of a system.
    pub fn new(system: S) -> FileShelf<S>
        ensures { result ≡ record { system = system; misses = 0; faults = 0 } }
    {
        FileShelf {
            system,
            misses: 0,
            faults: 0,
        }
    }
}

impl<S: FileSystem> Shelf for FileShelf<S> {
    ghost use Rattle.std.specs.Prelude.{None};

    ghost files = { λ _. None };

    ghost misses = { λ s. s.misses };

    ghost faults = { λ s. s.faults };

    fn read_at(&mut self, name: &str, from: u64, into: &mut [u8]) -> Result<usize, ShelfFault>
        ensures count { IfOk result (λ n. n ≤ length into.new) }
        ensures files { ◌≡◌ {A = Option Files} None None }
        ensures answer { Told None (λ m. ShelfAnswers m name.now from into.new result) }
        ensures counts { ShelfCounts result
            self.old.misses self.new.misses self.old.faults self.new.faults }

        // What is made of the system's answers: the file is opened, and then read once, where it was asked for.
        ensures answered { (opening : Result S.File Error) × (opened : S)
            × S.opens self.old.system name.now opening opened
            × ReadsOpened (λ file before answer after. S.reads before file from into.old into.new answer after)
            opening opened self.new.system result }
        ensures misses { self.new.misses ≡ misses_after result self.old.misses }
        ensures faults { self.new.faults ≡ faults_after result self.old.faults }
    {
        let answer = answer_of(&mut self.system, name, from, into);
        self.counted(answer)
    }
}

impl<S> FileShelf<S> {
    // Counts an answer, if it is a fault, and hands it on.
    fn counted(&mut self, answer: Result<usize, ShelfFault>) -> Result<usize, ShelfFault>
        ensures same { result ≡ answer }
        ensures counts { ShelfCounts result
            self.old.misses self.new.misses self.old.faults self.new.faults }
        ensures counted { self.new ≡ record self.old {
          misses = misses_after answer self.old.misses;
          faults = faults_after answer self.old.faults;
        } }
    {
        match answer {
            Ok(_) => {}
            Err(ShelfFault::Missing) => self.misses = self.misses.saturating_add(1),
            Err(ShelfFault::Failed) => self.faults = self.faults.saturating_add(1),
        }
        answer
    }
}

// What is made of the system's answers: the file is opened, and then read once, where it was asked for.
fn answer_of<S: FileSystem>(
    system: &mut S,
    name: &str,
    from: u64,
    into: &mut [u8],
) -> Result<usize, ShelfFault>
    ensures count { IfOk result (λ n. n ≤ length into.new) }
    ensures answer { (opening : Result S.File Error) × (opened : S) × S.opens system.old name.now opening opened
        × ReadsOpened (λ file before answer after. S.reads before file from into.old into.new answer after)
        opening opened system.new result }
{
    match system.open(name) {
        Ok(file) => match system.read(&file, from, into) {
            Ok(count) => Ok(count),
            Err(_) => Err(ShelfFault::Failed),
        },
        Err(error) if error.kind() == io::ErrorKind::NotFound => Err(ShelfFault::Missing),
        Err(_) => Err(ShelfFault::Failed),
    }
}
