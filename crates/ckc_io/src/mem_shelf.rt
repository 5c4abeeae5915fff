// Files in memory, which are told to proofs.

ghost use Rattle.std.specs.Prelude.{◌≡◌, ◌≤◌, ◌↔◌, ℕ, List, length, take, drop, IfOk, OnOk, OnErr, Some, None};
ghost use Rattle.std.specs.Option.{option_copied};
ghost use Rattle.std.specs.FinMap as map;
ghost use Rattle.ckc_io.specs.Calls.{FailsNext, also_failing, no_calls, one_more};
ghost use Rattle.ckc_io.specs.Counts.{ShelfCounts};
ghost use Rattle.ckc_io.specs.Files.{ShelfAnswers, Told, file_at};
ghost use Rattle.ckc_io.specs.MemShelf.{faults_after, misses_after, share_of};
ghost use Rattle.ckc_io.specs.StoredFiles.{files_of};

use crate::calls::Calls;
use crate::shelf::{Shelf, ShelfFault};
use ckc_text::fault::NoMemory;
use std::alloc::Global;
use std::marker::Model;

/// A file, and the name that it was added under.
#[derive(Drop)]
struct StoredFile {
    name: String,
    bytes: Vec<u8>,
}

/// Files in memory, and the reads of them that are to fail.
#[derive(Drop)]
pub struct MemShelf {
    alloc: Global,
    // The newest first.
    files: Vec<StoredFile>,
    calls: Calls,
    misses: u64,
    faults: u64,
}

impl Model for MemShelf {
    ghost use Rattle.ckc_io.specs.MemShelf.{ShelfState, coded_shelf};

    ghost Value = { ShelfState };

    ghost coded = { coded_shelf };

    ghost use Rattle.ckc_io.specs.StoredFiles.{files_of};

    ghost view = { λ s. record {
      files = files_of s.files.items;
      calls = s.calls;
      misses = s.misses;
      faults = s.faults;
    } };
}

impl MemShelf {
    /// No file. It takes no memory.
    pub fn new(alloc: Global) -> MemShelf
        ensures { result ≡ record { files = map.empty; calls = no_calls; misses = 0; faults = 0 } }
    {
        MemShelf {
            alloc,
            files: Vec::new(alloc),
            calls: Calls::new(alloc),
            misses: 0,
            faults: 0,
        }
    }

    /// Sets the bytes of a name. A file that had the name before is read no more, but keeps its
    /// memory.
    pub fn add(&mut self, name: &str, bytes: &[u8]) -> Result<(), NoMemory>
        ensures ok { OnOk result
            (self.new ≡ record self.old { files = map.insert self.old.files name.now bytes.now }) }
        ensures err { OnErr result (self.new ≡ self.old) }
    {
        let file = StoredFile {
            name: String::from_str(self.alloc, name)?,
            bytes: Vec::from_slice(self.alloc, bytes)?,
        };
        self.files.insert(0, file)?;
        Ok(())
    }

    /// Lists the number of a read that fails. The first read has the number 1.
    pub fn fail_at(&mut self, call: u64) -> Result<(), NoMemory>
        ensures ok { OnOk result
            (self.new ≡ record self.old { calls = also_failing self.old.calls call }) }
        ensures err { OnErr result (self.new ≡ self.old) }
    {
        self.calls.fail_at(call)
    }
}

impl Shelf for MemShelf {
    ghost files = { λ s. Some s.files };

    ghost misses = { λ s. s.misses };

    ghost faults = { λ s. s.faults };

    /// Reads as much as the file has from the offset and the buffer has room for. A listed read
    /// fails. Where the number of reads stands still at 2^64 - 1, each further one has that number.
    fn read_at(&mut self, name: &str, from: u64, into: &mut [u8]) -> Result<usize, ShelfFault>
        ensures count { IfOk result (λ n. n ≤ length into.new) }
        ensures files { Some self.new.files ≡ Some self.old.files }
        ensures answer { Told (Some self.old.files)
            (λ m. ShelfAnswers m name.now from into.new result) }
        ensures counts { ShelfCounts result
            self.old.misses self.new.misses self.old.faults self.new.faults }

        // Exactly which answer comes, and what it leaves.
        ensures failed { (result ≡ Err ShelfFault.Failed) ↔ FailsNext self.old.calls }
        ensures missing { (result ≡ Err ShelfFault.Missing)
            ↔ ((¬ FailsNext self.old.calls) × (file_at self.old.files name.now ≡ None)) }
        ensures share { IfOk result (λ n. (file : List ℕ)
            × (file_at self.old.files name.now ≡ Some file)
            × (n ≡ share_of file from (length into.old))) }
        ensures rest { IfOk result (λ n. drop n into.new ≡ drop n into.old) }
        ensures err { OnErr result (into.new ≡ into.old) }
        ensures after { self.new ≡ record self.old {
          calls = one_more self.old.calls;
          misses = misses_after result self.old.misses;
          faults = faults_after result self.old.faults;
        } }
    {
        if self.calls.next_fails() {
            self.faults = self.faults.saturating_add(1);
            return Err(ShelfFault::Failed);
        }
        match newest(&self.files, name) {
            Some(file) => Ok(copy_from(file, from, into)),
            None => {
                self.misses = self.misses.saturating_add(1);
                Err(ShelfFault::Missing)
            }
        }
    }
}

/// The bytes of the newest file of a name.
fn newest<'a>(files: &'a [StoredFile], name: &str) -> Option<&'a [u8]>
    ensures { option_copied result ≡ file_at (files_of files.now) name.now }
{
    for file in files {
        if name == file.name.as_str() {
            return Some(file.bytes.as_slice());
        }
    }
    None
}

/// Copies what a file has from an offset into a buffer, as much as there is room for, and answers
/// how much.
fn copy_from(file: &[u8], from: u64, into: &mut [u8]) -> usize
    ensures share { result ≡ share_of file.now from (length into.old) }
    ensures bytes { take result into.new ≡ take result (drop from file.now) }
    ensures rest { drop result into.new ≡ drop result into.old }
{
    let start = file.len().min(from as usize);
    let share = into.len().min(file.len() - start);
    into[..share].copy_from_slice(&file[start..start + share]);
    share
}
