// Whole files and whole texts, read and written piece by piece.

ghost use Rattle.std.specs.Prelude.{◌≡◌, ◌+◌, ◌≤◌, ℕ, length, take, vec_len, IfOk, OnOk};
ghost use Rattle.ckc_io.specs.Counts.{SinkCounts};
ghost use Rattle.ckc_io.specs.Files.{Told};
ghost use Rattle.ckc_io.specs.Whole.{PieceAnswers, WholeAnswers, WholeCounts};
ghost use Rattle.ckc_io.specs.Written.{grown};

use crate::shelf::{Shelf, ShelfFault};
use crate::sink::{Sink, SinkFault};
use std::alloc::{AllocError, Global};

/// How many bytes one read asks for at most.
const PIECE: usize = 4096;

/// Why a whole file wasn't read.
#[derive(Clone, Copy)]
pub enum ReadFault {
    /// No file has the name.
    Missing,
    /// The device failed.
    Failed,
    /// Memory ran out.
    NoMemory,
}

impl From<ShelfFault> for ReadFault {
    ghost use Rattle.std.specs.Prelude.{◌≡◌};
    ghost use Rattle.ckc_io.specs.Whole.{read_fault_of};

    ghost from_gives = { λ fault e. e ≡ read_fault_of fault };

    fn from(fault: ShelfFault) -> ReadFault {
        match fault {
            ShelfFault::Missing => ReadFault::Missing,
            ShelfFault::Failed => ReadFault::Failed,
        }
    }
}

impl From<AllocError> for ReadFault {
    ghost use Rattle.std.specs.Prelude.{◌≡◌};
    ghost use Rattle.ckc_io.specs.declared.whole.ReadFault.TheVariants.{NoMemory};

    ghost from_gives = { λ _ e. e ≡ NoMemory };

    fn from(_e: AllocError) -> ReadFault {
        ReadFault::NoMemory
    }
}

/// Reads a file from its start, until the shelf answers 0 bytes or `most` bytes are taken.
pub fn read_whole<F: Shelf>(
    alloc: Global,
    shelf: &mut F,
    name: &str,
    most: usize,
) -> Result<Vec<u8>, ReadFault>
    ensures files { F.files shelf.new ≡ F.files shelf.old }
    ensures content { Told (F.files shelf.old) (λ m. WholeAnswers m name.now most result) }
    ensures counts { WholeCounts result
        (F.misses shelf.old) (F.misses shelf.new) (F.faults shelf.old) (F.faults shelf.new) }
{
    let mut bytes = Vec::new(alloc);
    loop {
        let count = read_piece(shelf, name, most, &mut bytes)?;
        if count == 0 || bytes.len() == most {
            return Ok(bytes);
        }
    }
}

/// Reads the next piece of a file behind the bytes that were read before, and answers how many
/// bytes came.
fn read_piece<F: Shelf>(
    shelf: &mut F,
    name: &str,
    most: usize,
    bytes: &mut Vec<u8>,
) -> Result<usize, ReadFault>
    requires { vec_len bytes.old ≤ most }
    ensures files { F.files shelf.new ≡ F.files shelf.old }
    ensures within { vec_len bytes.new ≤ most }
    ensures longer { IfOk result (λ count. vec_len bytes.new ≡ vec_len bytes.old + count) }
    ensures content { Told (F.files shelf.old)
        (λ m. PieceAnswers m name.now most bytes.old.items bytes.new.items result) }
    ensures counts { WholeCounts result
        (F.misses shelf.old) (F.misses shelf.new) (F.faults shelf.old) (F.faults shelf.new) }
{
    let mut buffer = [0u8; PIECE];
    let taken = bytes.len();
    let into = &mut buffer[..(most - taken).min(PIECE)];
    let count = shelf.read_at(name, taken as u64, into)?;
    bytes.extend_from_slice(&into[..count])?;
    Ok(count)
}

/// Writes all of a text, piece by piece as the sink takes it.
pub fn write_whole<K: Sink>(sink: &mut K, text: &[u8]) -> Result<(), SinkFault>
    ensures all { OnOk result (K.written sink.new ≡ grown (K.written sink.old) text.now) }

    // After a fault too, a front of the text was written.
    ensures front { (n : ℕ)
        × (n ≤ length text.now)
        × (K.written sink.new ≡ grown (K.written sink.old) (take n text.now)) }
    ensures counts { SinkCounts result (K.faults sink.old) (K.faults sink.new) }
{
    let mut at = 0;
    while at < text.len() {
        at += sink.put(&text[at..])?;
    }
    Ok(())
}
