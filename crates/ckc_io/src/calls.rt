// The calls of a device in memory: their number, and those that are to fail.

ghost use Rattle.std.specs.Prelude.{◌≡◌, ◌↔◌, IsTrue, OnOk, OnErr};
ghost use Rattle.ckc_io.specs.Calls.{FailsNext, also_failing, no_calls, one_more};

use ckc_text::fault::NoMemory;
use std::alloc::Global;
use std::marker::Model;

/// How many calls were made, and the numbers of those that fail, from 1.
#[derive(Drop)]
pub(crate) struct Calls {
    failing: Vec<u64>,
    made: u64,
}

impl Model for Calls {
    ghost use Rattle.ckc_io.specs.Calls.{CallState};

    ghost Value = { CallState };

    ghost view = { λ c. record { failing = c.failing.items; made = c.made } };
}

impl Calls {
    /// No call, of which none fails. It takes no memory.
    pub(crate) fn new(alloc: Global) -> Calls
        ensures { result ≡ no_calls }
    {
        Calls {
            failing: Vec::new(alloc),
            made: 0,
        }
    }

    /// Lists a call that fails.
    pub(crate) fn fail_at(&mut self, call: u64) -> Result<(), NoMemory>
        ensures ok { OnOk result (self.new ≡ also_failing self.old call) }
        ensures err { OnErr result (self.new ≡ self.old) }
    {
        self.failing.push(call)?;
        Ok(())
    }

    /// Counts a call, and says whether it fails. The count stands still at 2^64 - 1.
    pub(crate) fn next_fails(&mut self) -> bool
        ensures made { self.new ≡ one_more self.old }
        ensures fails { IsTrue result ↔ FailsNext self.old }
    {
        self.made = self.made.saturating_add(1);
        self.failing.contains(&self.made)
    }
}
