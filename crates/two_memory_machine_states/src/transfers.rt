// Calls of the trusted side's functions, and returns.

ghost use Rattle.std.specs.Prelude.{◌≡◌, ◌≤◌, drop, length, slice_get};
ghost use Rattle.code_words.specs.Table.{return_to, reply_of, exit_with};
ghost use Rattle.two_memory_machine_states.specs.Steps.{Acts, IsReady, GoesBy};

use crate::outcome::Outcome;
use crate::running_image::{Pending, Phase, RunningImage};
use act_words::ending::Ending;
use ckc_text::code::Code;
use ckc_text::place::Place;
use code_words::op::Op;
use marshalling::kind::WordKind;
use two_memory_machine_memory::calls::Link;
use two_memory_machine_memory::limits;

impl<'a> RunningImage<'a> {
    /// Calls a function of the same side with the words that it pops (S2).
    #[inline(never)]
    pub fn call(&mut self, k: u32) -> Outcome
        requires { IsReady self.old }
        ensures { Acts (Op.Call k) self.old result self.new }
    {
        let Some(fun) = self.image.functions().get(k as usize) else {
            return self.end_wild();
        };
        let args = fun.args() as usize;
        let Some(words) = self.top_words(args) else {
            return self.end_wild();
        };
        if !limits::may_call(self.depth) {
            return self.end(Ending::Stop {
                code: Code::S2,
                act: None,
            });
        }
        self.calls.pop(args);
        self.calls.advance();
        self.depth += 1;
        self.calls.enter(Link::Called, k, words.as_slice());
        Outcome::Ran
    }

    /// A call of a tainted function with the words that it pops waits for its touch (S2).
    #[inline(never)]
    pub fn call_tainted(&mut self, import: u32, place: Place) -> Outcome
        requires { IsReady self.old }
        ensures { Acts (Op.TaintedCall import place) self.old result self.new }
    {
        let Some(tainted) = self.image.imports().get(import as usize) else {
            return self.end_wild();
        };
        let args = tainted.args() as usize;
        let Some(words) = self.top_words(args) else {
            return self.end_wild();
        };
        if !limits::may_call(self.depth) {
            return self.end(Ending::Stop {
                code: Code::S2,
                act: None,
            });
        }
        self.calls.pop(args);
        self.phase = Phase::Touching {
            touch: Pending::Passes {
                import,
                words,
                place,
            },
        };
        Outcome::Asks
    }

    /// Pops words, and goes back to what called the innermost function, with what this one returns.
    #[inline(never)]
    pub fn leave(&mut self, popped: usize, value: Option<u32>) -> Outcome
        requires ready { IsReady self.old }
        requires there { popped ≤ length self.old.frame.stack }
        ensures { GoesBy
            (λ s. return_to self.old.image s.callers value (record self.old.frame { stack = drop popped self.old.frame.stack }) s)
            self.old result self.new }
    {
        let Some(link) = self.calls.link() else {
            return self.exit(value);
        };
        match link {
            Link::Called => {
                self.calls.leave();
                self.depth -= 1;
                let Some(word) = value else {
                    return Outcome::Ran;
                };
                if !self.push_word(word) {
                    return self.end_wild();
                }
                Outcome::Ran
            }
            Link::CallsBack {
                callback,
                import: _,
                place: _,
            } => {
                let Some(reply) = self.reply_word(callback, value) else {
                    return self.end_wild();
                };
                self.calls.pop(popped);
                self.phase = Phase::Touching {
                    touch: Pending::Replies { value: reply },
                };
                Outcome::Asks
            }
        }
    }

    // Ends the run with what `main` returned.
    fn exit(&mut self, value: Option<u32>) -> Outcome
        requires { IsReady self.old }
        ensures { GoesBy (exit_with value) self.old result self.new }
    {
        match value {
            Some(word) => self.end(Ending::Exit {
                value: word.cast_signed(),
            }),
            None => self.end_wild(),
        }
    }

    // The word that a callback replies with what its function returned, if there is one.
    fn reply_word(&self, callback: u32, value: Option<u32>) -> Option<u32>
        ensures { result ≡ reply_of (slice_get self.now.image.layout.callbacks callback) value }
    {
        let callback = self.image.callbacks().get(callback as usize)?;
        match callback.result {
            WordKind::Void => Some(0),
            WordKind::Int | WordKind::Char | WordKind::Pointer => value,
        }
    }
}
