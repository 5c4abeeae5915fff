// Calls of callbacks by the sandbox.

ghost use Rattle.std.specs.Prelude.{◌≡◌, ◌+◌, ◌<◌, length, slice_get};
ghost use Rattle.code_words.specs.Moves.{call_back, run_callback};
ghost use Rattle.two_memory_machine_states.specs.Steps.{MovesBy, IsSuspended};

use crate::event::Event;
use crate::running_image::{Phase, RunningImage};
use act_words::ending::Ending;
use act_words::row::Words;
use ckc_text::code::Code;
use code_words::image::Callback;
use two_memory_machine_memory::calls::Link;
use two_memory_machine_memory::limits::WILD;
use two_memory_machine_memory::{callbacks, limits};

impl<'a> RunningImage<'a> {
    /// Calls a callback for the sandbox: the count of arguments (S5), a tick (S1), an open call (S2), the arguments (C9, C4).
    pub fn call_back(&mut self, k: u32, words: &Words) -> Event
        requires going { self.old.over ≡ None }
        requires suspended { IsSuspended self.old.doing }
        ensures { MovesBy (λ s. call_back self.old.image self.old.settings k (slice_get self.old.image.layout.callbacks k) words.now s)
            self.old result self.new }
    {
        let Some(callback) = self.image.callbacks().get(k as usize) else {
            return self.stop_by_act(Code::S5);
        };
        let params = callback.signature.as_slice();
        let args = words.as_slice();
        if params.len() != args.len() {
            return self.stop_by_act(Code::S5);
        }
        if self.ticks >= self.settings.budget {
            return self.end_move(Ending::Stop {
                code: Code::S1,
                act: None,
            });
        }
        let may_call = limits::may_call(self.depth + 1);
        let size = self.sandbox.len() as u32;
        let spent = self.ticks + 1;
        self.set_ticks(spent);
        if !may_call {
            return self.end_move(Ending::Stop {
                code: Code::S2,
                act: None,
            });
        }
        match callbacks::fault_of(&callback.signature, words, size) {
            Some(ending) => self.end_move(ending),
            None => self.run_callback(k, callback, args),
        }
    }

    // Runs the function of a callback, if it is there and takes as many arguments.
    fn run_callback(&mut self, k: u32, callback: &Callback, words: &[u32]) -> Event
        requires going { self.old.over ≡ None }
        requires suspended { IsSuspended self.old.doing }
        requires few { length self.old.callers + 2 < 1000 }
        ensures { MovesBy (λ s. run_callback k callback.now (slice_get self.old.image.trusted.funs callback.now.fun) words.now s) self.old result self.new }
    {
        let Phase::Suspended { import, place } = self.phase else {
            return Event::Ran;
        };
        let Some(fun) = self.image.functions().get(callback.fun as usize) else {
            return self.end_move(WILD);
        };
        let args = fun.args() as usize;
        if args != words.len() {
            return self.end_move(WILD);
        }
        let link = Link::CallsBack {
            callback: k,
            import,
            place,
        };
        self.depth += 2;
        self.calls.enter(link, callback.fun, words);
        self.phase = Phase::Running;
        Event::Ran
    }
}
