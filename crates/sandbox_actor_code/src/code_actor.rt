// The sandbox's code as an actor: its fields, and what its steps are made of.

ghost use Rattle.std.specs.Prelude.{◌≡◌, ℕ, ◌≤◌, drop, length, slice_get};
ghost use Rattle.code_words.specs.Functions.{Func as FuncData};
ghost use Rattle.code_words.specs.SandboxCode.{act, on_with, push};
ghost use Rattle.sandbox_actor_code.specs.Codes.{Does, IsIn, IsReady, Leads, Stops, running, two_topmost, top_words_of};

use crate::call_frame::CallFrame;
use crate::waiting_calls::WaitingCalls;
use act_words::act::Act;
use act_words::row::Words;
use code_words::image::Image;
use code_words::op::Op;
use marshalling::arguments::pack;
use std::marker::Model;

/// What the code does when it has the turn.
#[derive(Clone, Copy)]
pub(crate) enum Phase {
    /// The next instruction of the innermost call.
    Runs,
    /// It waits for bytes that it looks at.
    Looks,
    /// It waits to be called, or for a reply.
    Rests,
    /// It has stopped.
    Stopped,
}

/// Runs the sandbox's functions of an image. A load, a store, the call of a callback and a return to the trusted side are acts.
#[derive(Drop)]
pub struct CodeActor<'a> {
    pub(crate) image: &'a Image,
    pub(crate) budget: u32,
    // How many ticks were spent.
    pub(crate) ticks: u32,
    // Where the static blocks of the sandbox's memory stand.
    pub(crate) offsets: Vec<u32>,
    pub(crate) phase: Phase,
    // The call that runs, if one does, and those that wait.
    pub(crate) call: CallFrame<'a>,
    pub(crate) waiting: WaitingCalls<'a>,
}

impl<'a> Model for CodeActor<'a> {
    ghost use Rattle.sandbox_actor_code.specs.Codes.{Code};

    ghost Value = { Code };

    ghost use Rattle.sandbox_actor_code.specs.CodeInsides.{code, IsConsistent};

    ghost view = { code };

    ghost invariant = { IsConsistent };
}

impl<'a> CodeActor<'a> {
    /// The sandbox ends.
    pub(crate) fn stop(&mut self) -> Option<Act>
        ensures { Stops self.old result self.new }
    {
        self.phase = Phase::Stopped;
        Some(Act::Stop)
    }

    /// Pops words, and goes on to the next instruction.
    pub(crate) fn go_on(&mut self, popped: usize) -> Option<Act>
        requires ready { IsReady self.old }
        requires there { popped ≤ length self.old.call.frame.stack }
        ensures { Leads (on_with self.old.call.frame (drop popped self.old.call.frame.stack) (running self.old)) self.old result self.new }
    {
        self.call.pop(popped);
        self.call.advance();
        None
    }

    /// Pops words, pushes a word if there is room for it then, and goes on to the next instruction.
    pub(crate) fn push(&mut self, popped: usize, word: u32) -> Option<Act>
        requires ready { IsReady self.old }
        requires there { popped ≤ length self.old.call.frame.stack }
        ensures { (f : FuncData) (w : ℕ) → IsIn self.old f → w ≡ word
            → Leads (push f w (drop popped self.old.call.frame.stack) self.old.call.frame (running self.old)) self.old result self.new }
    {
        if !self.call.push(popped, word) {
            return self.stop();
        }
        self.call.advance();
        None
    }

    /// Pushes the word of a slot.
    pub(crate) fn local(&mut self, slot: u32) -> Option<Act>
        requires { IsReady self.old }
        ensures { Does (Op.Local slot) self.old result self.new }
    {
        match self.call.slot(slot) {
            Some(word) => self.push(0, word),
            None => self.stop(),
        }
    }

    /// Pushes the offset of a static block of the sandbox's memory.
    pub(crate) fn block_offset(&mut self, k: u32) -> Option<Act>
        requires { IsReady self.old }
        ensures { Does (Op.BlockOffset k) self.old result self.new }
    {
        match self.offsets.get(k as usize).copied() {
            Some(offset) => self.push(0, offset),
            None => self.stop(),
        }
    }

    /// Pops a word into a slot.
    #[tactic(auto, using(std::proofs::lemmas::Bool::Decides::nat_tests))]
    pub(crate) fn set(&mut self, slot: u32) -> Option<Act>
        requires { IsReady self.old }
        ensures { Does (Op.Set slot) self.old result self.new }
    {
        let Some(word) = self.word() else {
            return self.stop();
        };
        if !self.call.set(slot, word) {
            return self.stop();
        }
        self.go_on(1)
    }

    /// Pops words, and goes on at an instruction of the same function.
    #[tactic(auto, using(std::proofs::lemmas::Bool::Decides::nat_tests))]
    pub(crate) fn jump(&mut self, popped: usize, target: u32) -> Option<Act>
        requires ready { IsReady self.old }
        requires there { popped ≤ length self.old.call.frame.stack }
        ensures { (f : FuncData) → IsIn self.old f
            → Leads (act self.old.image self.old.budget f (Op.Jump target)
            (record self.old.call.frame { stack = drop popped self.old.call.frame.stack }) (running self.old))
            self.old result self.new }
    {
        if !self.call.jump(target) {
            return self.stop();
        }
        self.call.pop(popped);
        None
    }

    /// Spends a tick.
    #[tactic(auto, using(std::proofs::lemmas::Bool::Decides::nat_tests))]
    pub(crate) fn tick(&mut self) -> Option<Act>
        requires { IsReady self.old }
        ensures { Does Op.Tick self.old result self.new }
    {
        if self.ticks >= self.budget {
            return self.stop();
        }
        self.ticks += 1;
        self.go_on(0)
    }

    /// The topmost word, if there is one.
    pub(crate) fn word(&self) -> Option<u32>
        ensures { result ≡ slice_get self.now.call.frame.stack 0 }
    {
        self.call.words().first().copied()
    }

    /// The two topmost words, the lower one first, if there are two.
    pub(crate) fn two_words(&self) -> Option<(u32, u32)>
        ensures { result ≡ two_topmost self.now.call.frame.stack }
    {
        match self.call.words() {
            [right, left, ..] => Some((*left, *right)),
            _ => None,
        }
    }

    // So many of the topmost words, the last on top, if there are so many.
    pub(crate) fn top_words(&self, count: usize) -> Option<Words>
        requires { count ≤ 16 }
        ensures { result ≡ top_words_of count self.now.call.frame.stack }
    {
        let stack = self.call.words();
        if stack.len() < count {
            return None;
        }
        let mut words = [0; 16];
        let words = &mut words[..count];
        words.copy_from_slice(&stack[..count]);
        words.reverse();
        Some(pack(words))
    }
}
