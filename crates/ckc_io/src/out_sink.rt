// The output of an operating system. What it was given is not told to proofs.

ghost use Rattle.std.specs.Prelude.{◌≡◌, ◌≤◌, ◌<◌, ℕ, Result, Err, length, IfOk};
ghost use Rattle.std.specs.declared.io.Error.{Error};
ghost use Rattle.ckc_io.specs.Calls.{raised};
ghost use Rattle.ckc_io.specs.Counts.{SinkCounts};
ghost use Rattle.ckc_io.specs.MemSink.{faults_after};
ghost use Rattle.ckc_io.specs.System.{written_count};
ghost use Rattle.ckc_io.specs.Written.{grown, taken_by};

use crate::sink::{Sink, SinkFault};
use crate::system::OutputSystem;
use std::marker::Model;

/// The output of an operating system.
#[derive(Drop)]
pub struct OutSink<S> {
    system: S,
    faults: u64,
}

impl<S> Model for OutSink<S> {
    ghost use Rattle.ckc_io.specs.Edge.{OutSinkState};

    ghost Value = { OutSinkState S };

    ghost view = { λ s. record { system = s.system; faults = s.faults } };
}

impl<S> OutSink<S> {
    /// The output of a system.
    pub fn new(system: S) -> OutSink<S>
        ensures { result ≡ record { system = system; faults = 0 } }
    {
        OutSink { system, faults: 0 }
    }
}

impl<S: OutputSystem> Sink for OutSink<S> {
    ghost use Rattle.std.specs.Prelude.{None};

    ghost written = { λ _. None };

    ghost faults = { λ s. s.faults };

    /// Behind a failure every further piece fails, and none is handed to the system.
    fn put(&mut self, bytes: &[u8]) -> Result<usize, SinkFault>
        ensures count { IfOk result (λ n. n ≤ length bytes.now) }
        ensures progress { IfOk result (λ n. 0 < length bytes.now → 0 < n) }
        ensures written { None ≡ grown None (taken_by result bytes.now) }
        ensures counts { SinkCounts result self.old.faults self.new.faults }

        // What is made of the system's answer: the whole piece is handed to it once, and what it took counts.
        ensures system { self.old.faults ≡ 0 → (answer : Result ℕ Error)
            × S.writes self.old.system bytes.now answer self.new.system
            × (result ≡ written_count (length bytes.now) answer) }
        ensures once { 0 < self.old.faults
            → (result ≡ Err SinkFault.Failed) × (self.new.system ≡ self.old.system) }
        ensures faults { self.new.faults ≡ faults_after result self.old.faults }
    {
        if self.faults > 0 {
            return Err(self.failed());
        }
        match self.system.write(bytes) {
            Ok(count) if count > 0 || bytes.is_empty() => Ok(count),
            _ => Err(self.failed()),
        }
    }
}

impl<S> OutSink<S> {
    // Counts a failure.
    fn failed(&mut self) -> SinkFault
        ensures fault { result ≡ SinkFault.Failed }
        ensures counted { self.new ≡ record self.old { faults = raised self.old.faults } }
    {
        self.faults = self.faults.saturating_add(1);
        SinkFault::Failed
    }
}
