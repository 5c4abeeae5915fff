// The words of an open call of the sandbox's code.

ghost use Rattle.std.specs.Prelude.{◌≡◌, ◌+◌, ◌^◌, ◌<◌, ◌≤◌, ◌-◌, ◌++◌, drop, length, nat_lt, replicate, slice_get, take, if◌then◌else◌, IfOk, IfSome};
ghost use Rattle.std.specs.Option.{option_copied};
ghost use Rattle.sandbox_actor_code.specs.CallFrames.{IsRoomFor, with_stack, at_next, slot_set_if, pushed_if, called};

use ckc_text::fault::NoMemory;
use code_words::image::Func;
use code_words::op::Op;
use std::alloc::Global;
use std::marker::Model;

/// How many slots, and how many words of a stack, a frame has room for.
#[derive(Clone, Copy)]
pub struct FrameRoom {
    pub slots: u32,
    pub stack: u32,
}

/// An open call: the number and the instructions of its function, its next instruction, and its words. Slots and stack have
/// room for the widest function, so that another one can be called in the same place.
#[derive(Drop)]
pub struct CallFrame<'a> {
    function: u32,
    ops: &'a [Op],
    next: usize,
    // The slots, of which the first `used` are the function's.
    slots: Vec<u32>,
    used: usize,
    // The stack grows towards the front, with the topmost word at `top`; it has at most `limit` words.
    stack: Vec<u32>,
    top: usize,
    limit: usize,
}

impl<'a> Model for CallFrame<'a> {
    ghost use Rattle.sandbox_actor_code.specs.CallFrames.{Call};

    ghost Value = { Call };

    ghost use Rattle.sandbox_actor_code.specs.CallFrameInsides.{call, IsConsistent};

    ghost view = { call };

    ghost invariant = { IsConsistent };
}

impl<'a> CallFrame<'a> {
    /// A frame with so much room, for a function without instructions.
    pub fn start(alloc: Global, room: FrameRoom) -> Result<CallFrame<'a>, NoMemory>
        ensures { IfOk result (λ c. c.room ≡ room) }
    {
        Ok(CallFrame {
            function: 0,
            ops: &[],
            next: 0,
            slots: vec![in alloc; 0; room.slots as usize]?,
            used: 0,
            stack: vec![in alloc; 0; room.stack as usize]?,
            top: room.stack as usize,
            limit: 0,
        })
    }

    /// Calls a function with these words, in the place of the call that was here.
    pub fn call(&mut self, fun: &'a Func, words: &[u32])
        requires room { IsRoomFor fun.now self.old.room }
        requires fits { length words.now ≤ fun.now.slots }
        ensures { self.new ≡ called fun.now words.now self.old }
    {
        self.function = fun.number();
        self.ops = fun.ops();
        self.next = 0;
        self.used = fun.slots() as usize;
        fill_slots(self.slots.as_mut_slice(), self.used, words);
        self.limit = fun.stack() as usize;
        self.top = self.stack.len();
    }

    /// The instruction that stands next, unless none does.
    #[inline]
    pub fn op(&self) -> Option<&'a Op>
        ensures op { option_copied result ≡ slice_get self.now.ops self.now.frame.next }
        ensures within { IfSome result (λ op. self.now.frame.next + 1 < 2 ^ 64) }
    {
        self.ops.get(self.next)
    }

    /// The words of the stack, the topmost first.
    #[inline]
    pub fn words(&self) -> &[u32]
        ensures { result.now ≡ self.now.frame.stack }
    {
        &self.stack[self.top..]
    }

    /// The word of a slot, if it is there.
    #[inline]
    pub fn slot(&self, k: u32) -> Option<u32>
        ensures { result ≡ slice_get self.now.frame.slots k }
    {
        self.slots[..self.used].get(k as usize).copied()
    }

    /// Stores a word in a slot, if it is there, and tells whether it is. If not, all stays.
    #[inline]
    pub fn set(&mut self, k: u32, word: u32) -> bool
        ensures there { result ≡ nat_lt k (length self.old.frame.slots) }
        ensures after { self.new ≡ slot_set_if result k word self.old }
    {
        let at = k as usize;
        if at >= self.used {
            return false;
        }
        self.slots[at] = word;
        true
    }

    /// Pops words, and pushes a word if there is room for it then, and tells whether there is. If not, all stays.
    #[inline]
    pub fn push(&mut self, popped: usize, word: u32) -> bool
        requires { popped ≤ length self.old.frame.stack }
        ensures room { result ≡ nat_lt (length (drop popped self.old.frame.stack)) self.old.limit }
        ensures after { self.new ≡ pushed_if result word (drop popped self.old.frame.stack) self.old }
    {
        let top = self.top + popped;
        if self.stack.len() - top >= self.limit {
            return false;
        }
        self.stack[top - 1] = word;
        self.top = top - 1;
        true
    }

    /// Pops words.
    #[inline]
    pub fn pop(&mut self, popped: usize)
        requires { popped ≤ length self.old.frame.stack }
        ensures { self.new ≡ with_stack (drop popped self.old.frame.stack) self.old }
    {
        self.top += popped;
    }

    /// Goes on to the next instruction.
    #[inline]
    pub fn advance(&mut self)
        requires { self.old.frame.next + 1 < 2 ^ 64 }
        ensures { self.new ≡ at_next (self.old.frame.next + 1) self.old }
    {
        self.next += 1;
    }

    /// Goes on at an instruction, if it is there, and tells whether it is. If not, all stays.
    #[inline]
    pub fn jump(&mut self, target: u32) -> bool
        ensures there { result ≡ nat_lt target (length self.old.ops) }
        ensures after { self.new ≡ at_next (if result then target else self.old.frame.next) self.old }
    {
        let target = target as usize;
        let there = target < self.ops.len();
        if there {
            self.next = target;
        }
        there
    }
}

/// Writes the slots that a function has, of those that there are: its arguments, and zeros behind them.
fn fill_slots(slots: &mut [u32], used: usize, args: &[u32])
    requires fits { length args.now ≤ used }
    requires within { used ≤ length slots.old }
    ensures len { length slots.new ≡ length slots.old }
    ensures slots { take used slots.new ≡ args.now ++ replicate (used - length args.now) 0 }
{
    write_slots(&mut slots[..used], args);
}

/// Writes the slots: the arguments, and zeros behind them.
fn write_slots(slots: &mut [u32], args: &[u32])
    requires { length args.now ≤ length slots.old }
    ensures { slots.new ≡ args.now ++ replicate (length slots.old - length args.now) 0 }
{
    slots[..args.len()].copy_from_slice(args);
    slots[args.len()..].fill(0);
}
