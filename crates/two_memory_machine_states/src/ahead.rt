// What lies ahead of the innermost call, and several of its instructions at once.

ghost use Rattle.std.specs.Prelude.{◌≡◌, ◌+◌, ◌^◌, ◌<◌, ◌≤◌, ◌∷◌, drop, length, IfNone, IfSome, IsTrue};
ghost use Rattle.code_words.specs.Paced.{is_paced};
ghost use Rattle.code_words.specs.Functions.{Func as FuncData};
ghost use Rattle.two_memory_machine_states.specs.Machines.{Running};
ghost use Rattle.two_memory_machine_states.specs.Ahead.{ahead_of, moved_on};
ghost use Rattle.two_memory_machine_states.specs.Steps.{IsIn};

use crate::running_image::RunningImage;
use code_words::op::Op;

impl<'a> RunningImage<'a> {
    /// The instructions from the one that stands next on, unless that one lies past the end. Each loop of the image spends a
    /// tick.
    #[inline(always)]
    pub fn ahead(&self) -> Option<&'a [Op]>
        ensures ops { IfSome result (λ ops. ops.now ≡ ahead_of self.now) }
        ensures past { IfNone result ((f : FuncData) → IsIn self.now f → length f.ops < self.now.frame.next) }
        ensures within { IfSome result (λ ops. self.now.frame.next + length ops.now < 2 ^ 64) }
        ensures paced { IsTrue (is_paced self.now.image) }
    {
        self.calls.ahead()
    }

    /// The slots of the innermost call.
    #[inline(always)]
    pub fn slots(&self) -> &[u32]
        ensures { result.now ≡ self.now.frame.slots }
    {
        self.calls.slots()
    }

    /// How many words its stack has room for beside those on it.
    #[inline(always)]
    pub fn free(&self) -> usize
        ensures { (f : FuncData) → IsIn self.now f → length self.now.frame.stack + result ≡ f.stack }
    {
        self.calls.free()
    }

    /// Pops words, pushes a word, and goes on by so many instructions.
    #[inline(always)]
    pub fn replace(&mut self, popped: usize, word: u32, count: usize)
        requires runs { self.old.doing ≡ Running }
        requires there { popped ≤ length self.old.frame.stack }
        requires room { (f : FuncData) → IsIn self.old f → length (drop popped self.old.frame.stack) < f.stack }
        requires within { self.old.frame.next + count < 2 ^ 64 }
        ensures { self.new ≡ moved_on (self.old.frame.next + count) self.old.frame.slots (word ∷ drop popped self.old.frame.stack) self.old }
    {
        self.calls.skip(count);
        let _ = self.calls.push(popped, word);
    }
}
