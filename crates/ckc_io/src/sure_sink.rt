// A text in memory that is written without a failure.

ghost use Rattle.std.specs.Prelude.{◌≡◌, ◌≤◌, Ok, length, OnOk, OnErr};
ghost use Rattle.ckc_io.specs.SureSink.{nothing, with_room, with_piece};

use ckc_text::fault::NoMemory;
use std::alloc::Global;
use std::marker::Model;

/// A text in memory whose room is taken before it is written, so that writing takes no memory and never fails.
#[derive(Drop)]
pub struct SureSink {
    written: Vec<u8>,
    room: usize,
}

impl Model for SureSink {
    ghost use Rattle.std.specs.Prelude.{◌+◌, ◌≤◌, vec_len, vec_capacity};
    ghost use Rattle.ckc_io.specs.SureSink.{SureState};

    ghost Value = { SureState };

    ghost view = { λ s. record {
      written = s.written.items;
      room = s.room;
    } };

    ghost invariant = { λ s. vec_len s.written + s.room ≤ vec_capacity s.written };
}

impl SureSink {
    /// An empty text without room. It takes no memory.
    pub fn new(alloc: Global) -> SureSink
        ensures { result ≡ nothing }
    {
        SureSink {
            written: Vec::new(alloc),
            room: 0,
        }
    }

    /// How many bytes more there is room for.
    pub fn room(&self) -> usize
        ensures { result ≡ self.now.room }
    {
        self.room
    }

    /// Takes memory until there is room for `more` bytes more, and none where there is.
    pub fn reserve(&mut self, more: usize) -> Result<(), NoMemory>
        ensures there { more ≤ self.old.room → (result ≡ Ok tt) × (self.new ≡ self.old) }
        ensures ok { OnOk result (self.new ≡ with_room self.old more) }
        ensures err { OnErr result (self.new ≡ self.old) }
    {
        if more <= self.room {
            return Ok(());
        }
        self.written.reserve(more)?;
        self.room = more;
        Ok(())
    }

    /// Writes the whole piece, for which there has to be room.
    pub fn put(&mut self, bytes: &[u8])
        requires { length bytes.now ≤ self.old.room }
        ensures { self.new ≡ with_piece self.old bytes.now }
    {
        self.written.extend_from_slice(bytes).unwrap();
        self.room -= bytes.len();
    }

    /// The bytes that were written.
    pub fn bytes(&self) -> &[u8]
        ensures { result.now ≡ self.now.written }
    {
        &self.written
    }
}
