// Calls of the sandbox's functions, of callbacks, and returns.

ghost use Rattle.std.specs.Prelude.{◌≡◌, ◌∷◌, ◌<◌, IfSome, IsTrue, length};
ghost use Rattle.std.specs.Option.{option_copied};
ghost use Rattle.code_words.specs.Formats.{HasSmallFrame};
ghost use Rattle.code_words.specs.Functions.{Func as FuncData};
ghost use Rattle.code_words.specs.Paced.{is_paced};
ghost use Rattle.code_words.specs.SandboxCode.{Entered, enter, function_of};
ghost use Rattle.sandbox_actor_code.specs.Codes.{Does, IsIn, IsReady, Leads, at_rest, resume_step, return_step, running};
ghost use Rattle.sandbox_actor_code.specs.declared.code_actor.Phase.TheVariants as phases;

use crate::code_actor::{CodeActor, Phase};
use crate::find::find_function;
use crate::waiting_calls::{Awaited, MAX_OPEN};
use act_words::act::Act;
use code_words::image::Func;
use code_words::op::Op;

impl<'a> CodeActor<'a> {
    // The function of a number, if it is there.
    pub(crate) fn function(&self, number: u32) -> Option<&'a Func>
        ensures found { option_copied result ≡ function_of self.now.image number }
        ensures number { IfSome result (λ f. f.now.number ≡ number) }
        ensures paced { IsTrue (is_paced self.now.image) }
    {
        let image = self.image;
        find_function(image.sandbox.funs.as_slice(), number)
    }

    /// Calls a function of the sandbox with the words that it pops.
    pub(crate) fn call(&mut self, number: u32) -> Option<Act>
        requires { IsReady self.old }
        ensures { Does (Op.Call number) self.old result self.new }
    {
        let Some(fun) = self.function(number) else {
            return self.stop();
        };
        let args = fun.args() as usize;
        let Some(words) = self.top_words(args) else {
            return self.stop();
        };
        if self.waiting.len() + 1 >= MAX_OPEN {
            return self.stop();
        }
        self.call.pop(args);
        self.call.advance();
        self.waiting.push(&mut self.call, Awaited::Function);
        self.call.call(fun, words.as_slice());
        None
    }

    /// Calls a callback with the words that it pops, and waits for its reply.
    pub(crate) fn call_back(&mut self, number: u32) -> Option<Act>
        requires { IsReady self.old }
        ensures { Does (Op.CallBack number) self.old result self.new }
    {
        let Some(callback) = self.image.callbacks().get(number as usize) else {
            return self.stop();
        };
        let count = callback.signature.as_slice().len();
        let Some(words) = self.top_words(count) else {
            return self.stop();
        };
        self.call.pop(count);
        self.call.advance();
        self.waiting
            .push(&mut self.call, Awaited::Callback { number });
        self.phase = Phase::Rests;
        Some(Act::Call {
            fun: number,
            args: words,
        })
    }

    /// Returns the topmost word.
    pub(crate) fn return_word(&mut self) -> Option<Act>
        requires { IsReady self.old }
        ensures { Does Op.Return self.old result self.new }
    {
        let Some(word) = self.word() else {
            return self.stop();
        };
        self.leave(Some(word))
    }

    /// Returns nothing.
    pub(crate) fn return_nothing(&mut self) -> Option<Act>
        requires { IsReady self.old }
        ensures { Does Op.ReturnNothing self.old result self.new }
    {
        self.leave(None)
    }

    // Goes back to what called the innermost function, with what this one returns.
    fn leave(&mut self, value: Option<u32>) -> Option<Act>
        requires { IsReady self.old }
        ensures { (f : FuncData) → Leads (return_step self.old.image self.old.budget f self.old.call.frame value (running self.old)) self.old result self.new }
    {
        match self.waiting.awaited() {
            Some(Awaited::Function) => {
                self.waiting.pop(&mut self.call);
                self.resume(value)
            }
            Some(Awaited::Callback { number: _ }) | None => {
                self.phase = Phase::Rests;
                Some(Act::Return {
                    value: value.unwrap_or(0),
                })
            }
        }
    }

    /// The innermost call goes on with what came back to it, if something did.
    pub(crate) fn resume(&mut self, value: Option<u32>) -> Option<Act>
        requires { self.old.phase ≡ phases.Runs }
        ensures { (f : FuncData) → IsIn self.old f → Leads (resume_step f value self.old.call.frame (running self.old)) self.old result self.new }
    {
        let Some(word) = value else {
            return None;
        };
        if !self.call.push(0, word) {
            return self.stop();
        }
        None
    }

    /// A function runs with these words, unless 1,000 calls are open.
    pub(crate) fn enter(&mut self, fun: &'a Func, words: &[u32]) -> Option<Act>
        requires rests { self.old.phase ≡ phases.Rests }
        requires there { function_of self.old.image fun.now.number ≡ Some fun.now }
        requires frame { HasSmallFrame fun.now }
        requires count { length words.now ≡ fun.now.args }
        ensures { Leads (enter fun.now words.now (Entered ∷ (at_rest self.old).held) (at_rest self.old)) self.old result self.new }
    {
        if self.waiting.len() >= MAX_OPEN {
            return self.stop();
        }
        self.call.call(fun, words);
        self.phase = Phase::Runs;
        None
    }
}
