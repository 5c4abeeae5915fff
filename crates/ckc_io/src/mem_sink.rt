// A text in memory, which is told to proofs.

ghost use Rattle.std.specs.Prelude.{◌≡◌, ◌≤◌, ◌<◌, ◌++◌, [], ◌↔◌, ◌⊎◌, length, IfOk, OnOk, OnErr, Some};
ghost use Rattle.ckc_io.specs.Calls.{FailsNext, also_failing, no_calls, one_more};
ghost use Rattle.ckc_io.specs.Counts.{SinkCounts};
ghost use Rattle.ckc_io.specs.MemSink.{TakesNone, faults_after, share_of};
ghost use Rattle.ckc_io.specs.Written.{grown, taken_by};

use crate::calls::Calls;
use crate::sink::{Sink, SinkFault};
use ckc_text::fault::NoMemory;
use std::alloc::Global;
use std::marker::Model;

/// A text in memory. It takes the memory of its bytes when it is made, and none when it is written.
#[derive(Drop)]
pub struct MemSink {
    written: Vec<u8>,
    room: usize,
    most: usize,
    calls: Calls,
    faults: u64,
}

impl Model for MemSink {
    ghost use Rattle.std.specs.Prelude.{◌≤◌, vec_len, vec_capacity};
    ghost use Rattle.ckc_io.specs.MemSink.{SinkState};

    ghost Value = { SinkState };

    ghost view = { λ s. record {
      written = s.written.items;
      room = s.room;
      most = s.most;
      calls = s.calls;
      faults = s.faults;
    } };

    ghost invariant = { λ s. (vec_len s.written ≤ s.room) × (s.room ≤ vec_capacity s.written) };
}

impl MemSink {
    /// An empty text with room for `room` bytes, which takes at most `most` bytes at a time.
    pub fn with_room(alloc: Global, room: usize, most: usize) -> Result<MemSink, NoMemory>
        ensures { IfOk result (λ sink. sink ≡ record {
          written = [];
          room = room;
          most = most;
          calls = no_calls;
          faults = 0;
        }) }
    {
        Ok(MemSink {
            written: Vec::with_capacity(alloc, room)?,
            room,
            most,
            calls: Calls::new(alloc),
            faults: 0,
        })
    }

    /// Lists the number of a call that fails. The first call has the number 1.
    pub fn fail_at(&mut self, call: u64) -> Result<(), NoMemory>
        ensures ok { OnOk result
            (self.new ≡ record self.old { calls = also_failing self.old.calls call }) }
        ensures err { OnErr result (self.new ≡ self.old) }
    {
        self.calls.fail_at(call)
    }

    /// The bytes that were written.
    pub fn bytes(&self) -> &[u8]
        ensures { result.now ≡ self.now.written }
    {
        &self.written
    }
}

impl Sink for MemSink {
    ghost written = { λ s. Some s.written };

    ghost faults = { λ s. s.faults };

    /// Takes as much of the piece as it has room for and as it takes at a time. A listed call
    /// fails, and so does one that can take no byte of a piece that has some. Where the number of
    /// calls stands still at 2^64 - 1, each further call has that number.
    fn put(&mut self, bytes: &[u8]) -> Result<usize, SinkFault>
        ensures count { IfOk result (λ n. n ≤ length bytes.now) }
        ensures progress { IfOk result (λ n. 0 < length bytes.now → 0 < n) }
        ensures written { Some self.new.written
            ≡ grown (Some self.old.written) (taken_by result bytes.now) }
        ensures counts { SinkCounts result self.old.faults self.new.faults }

        // Exactly which answer comes, and what it leaves.
        ensures failed { (result ≡ Err SinkFault.Failed)
            ↔ (FailsNext self.old.calls ⊎ TakesNone self.old bytes.now) }
        ensures share { IfOk result (λ n. n ≡ share_of self.old bytes.now) }
        ensures after { self.new ≡ record self.old {
          written = self.old.written ++ taken_by result bytes.now;
          calls = one_more self.old.calls;
          faults = faults_after result self.old.faults;
        } }
    {
        let left = self.room - self.written.len();
        let share = bytes.len().min(self.most.min(left));
        if self.calls.next_fails() || (share == 0 && !bytes.is_empty()) {
            self.faults = self.faults.saturating_add(1);
            return Err(SinkFault::Failed);
        }
        self.written.extend_from_slice(&bytes[..share]).unwrap();
        Ok(share)
    }
}
