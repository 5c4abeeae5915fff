// A sink that drops what it takes.

ghost use Rattle.std.specs.Prelude.{◌≡◌, ◌≤◌, ◌<◌, length, IfOk, Ok, None};
ghost use Rattle.ckc_io.specs.Counts.{SinkCounts};
ghost use Rattle.ckc_io.specs.Written.{grown, taken_by};

use crate::sink::{Sink, SinkFault};

/// Takes every piece whole, tells no bytes, and never fails.
#[derive(Clone, Copy)]
pub struct BlankSink;

impl BlankSink {
    /// A sink that drops what it takes.
    pub fn new() -> BlankSink {
        BlankSink
    }
}

impl Sink for BlankSink {
    ghost written = { λ _. None };

    ghost faults = { λ _. 0 };

    fn put(&mut self, bytes: &[u8]) -> Result<usize, SinkFault>
        ensures count { IfOk result (λ n. n ≤ length bytes.now) }
        ensures progress { IfOk result (λ n. 0 < length bytes.now → 0 < n) }
        ensures written { None ≡ grown None (taken_by result bytes.now) }
        ensures counts { SinkCounts result 0 0 }

        // Each piece is taken whole.
        ensures whole { result ≡ Ok (length bytes.now) }
    {
        Ok(bytes.len())
    }
}
