// Touches of the sandbox's memory: where they are asked for, and where they are made.

ghost use Rattle.std.specs.Prelude.{◌≡◌, ◌≤◌, ◌⊎◌, drop, length};
ghost use Rattle.code_words.specs.Table.{pop, touch_if, is_touchable, Loads, Stores};
ghost use Rattle.two_memory_machine_states.specs.Steps.{IsReady, GoesBy};

use crate::outcome::Outcome;
use crate::running_image::{Pending, Phase, RunningImage};
use act_words::row::Octets;

impl<'a> RunningImage<'a> {
    /// Pops an offset, and a load of so many bytes from it on waits for its acts.
    #[tactic(auto, using(std::proofs::lemmas::Bool::Decides::nat_tests))]
    #[inline(never)]
    pub fn touch_load(&mut self, len: u32) -> Outcome
        requires ready { IsReady self.old }
        requires width { (len ≡ 1) ⊎ (len ≡ 4) }
        ensures { GoesBy
            (λ s. pop self.old.frame.stack (λ at stack. touch_if (is_touchable at len s) (Loads at len) stack self.old.frame s) s)
            self.old result self.new }
    {
        let Some(at) = self.calls.word() else {
            return self.end_wild();
        };
        if at as usize + len as usize > self.sandbox.len() {
            return self.end_wild();
        }
        self.calls.pop(1);
        self.phase = Phase::Touching {
            touch: Pending::Loads { at, len },
        };
        Outcome::Asks
    }

    /// Pops two words, and a store of bytes waits for its acts.
    #[tactic(auto, using(std::proofs::lemmas::Bool::Decides::nat_tests))]
    #[inline(never)]
    pub fn touch_store(&mut self, at: u32, bytes: Octets) -> Outcome
        requires ready { IsReady self.old }
        requires there { 2 ≤ length self.old.frame.stack }
        ensures { GoesBy
            (λ s. touch_if (is_touchable at (length bytes) s) (Stores at bytes) (drop 2 self.old.frame.stack) self.old.frame s)
            self.old result self.new }
    {
        if at as usize + bytes.as_slice().len() > self.sandbox.len() {
            return self.end_wild();
        }
        self.calls.pop(2);
        self.phase = Phase::Touching {
            touch: Pending::Stores { at, bytes },
        };
        Outcome::Asks
    }
}
