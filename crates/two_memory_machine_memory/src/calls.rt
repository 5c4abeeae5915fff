// The open calls of the trusted side: the words of their frames lie one behind the other.

ghost use Rattle.std.specs.Prelude.{◌≡◌, ◌+◌, ◌-◌, ◌^◌, ◌<◌, ◌≤◌, ◌++◌, ◌∷◌, List, length, take, drop, replicate, nat_lt, if◌then◌else◌, IfOk, IfSome, IfNone, Some, slice_get, All};
ghost use Rattle.std.specs.Option.{option_copied};
ghost use Rattle.code_words.specs.Functions.{Func as FuncData};
ghost use Rattle.two_memory_machine_memory.specs.CallInsides.{window};
ghost use Rattle.two_memory_machine_memory.specs.CallStacks.{Behind, CallStack, with_stack, pushed_if, slot_set_if, at_next, link_of, entered, IsFirstCall};

use crate::limits::MAX_DEPTH;
use ckc_text::fault::NoMemory;
use ckc_text::place::Place;
use code_words::image::Func;
use code_words::op::Op;
use std::alloc::Global;
use std::marker::Model;

/// Why a call waits.
#[derive(Clone, Copy)]
pub enum Link {
    /// It called a function of its own side.
    Called,
    /// It called a tainted function, and in its turn the sandbox called a callback.
    CallsBack {
        callback: u32,
        import: u32,
        place: Place,
    },
}

/// Where the words of a frame lie: its slots from `base` on, and behind them, up to `end`, the room of its stack, which
/// grows towards the front, with the topmost word at `top`.
#[derive(Clone, Copy)]
pub struct Extent {
    pub base: usize,
    pub room: usize,
    pub top: usize,
    pub end: usize,
}

/// A call that waits.
#[derive(Clone, Copy)]
pub struct Row {
    pub link: Link,
    pub function: u32,
    pub next: usize,
    pub extent: Extent,
}

/// The open calls.
#[derive(Drop)]
pub struct CallWords<'a> {
    funs: &'a [Func],
    fun: &'a Func,
    // The instructions of `fun`.
    ops: &'a [Op],
    function: u32,
    next: usize,
    extent: Extent,
    // The words of all frames; each has at most `stride`.
    words: Vec<u32>,
    stride: usize,
    // The calls behind the innermost one, of which the first `count` are there.
    rows: Vec<Row>,
    count: usize,
}

impl<'a> Model for CallWords<'a> {
    ghost use Rattle.two_memory_machine_memory.specs.CallStacks.{CallStack};

    ghost Value = { CallStack };

    ghost use Rattle.two_memory_machine_memory.specs.CallInsides.{call_stack, IsConsistent};

    ghost view = { call_stack };

    ghost invariant = { IsConsistent };
}

impl<'a> CallWords<'a> {
    /// The call of a function of a side, which takes no argument. It takes the memory of 1,000 frames.
    pub fn start(alloc: Global, funs: &'a [Func], function: u32) -> Result<CallWords<'a>, NoMemory>
        requires { function < length funs.now }
        ensures { IfOk result (λ c. IsFirstCall funs.now function c) }
    {
        let stride = widest(funs) as usize;
        let fun = &funs[function as usize];
        let room = fun.slots() as usize;
        let end = room + fun.stack() as usize;
        let extent = Extent {
            base: 0,
            room,
            top: end,
            end,
        };
        let row = Row {
            link: Link::Called,
            function,
            next: 0,
            extent,
        };
        Ok(CallWords {
            funs,
            fun,
            ops: fun.ops(),
            function,
            next: 0,
            extent,
            words: vec![in alloc; 0; stride * MAX_DEPTH as usize]?,
            stride,
            rows: vec![in alloc; row; MAX_DEPTH as usize]?,
            count: 0,
        })
    }

    /// Why the innermost call behind this one waits, if there is one.
    pub fn link(&self) -> Option<Link>
        ensures { result ≡ link_of self.now.behind }
    {
        let last = self.count.checked_sub(1)?;
        Some(self.rows[last].link)
    }

    /// Calls a function with these words. The innermost call waits for it.
    pub fn enter(&mut self, link: Link, function: u32, words: &[u32])
        requires there { function < length self.old.funs }
        requires few { length self.old.behind < 999 }
        requires fits { (f : FuncData) → slice_get self.old.funs function ≡ Some f → length words.now ≤ f.slots }
        ensures { (f : FuncData) → slice_get self.old.funs function ≡ Some f
            → self.new ≡ entered link function f words.now self.old }
    {
        let fun = &self.funs[function as usize];
        let base = self.extent.end;
        let room = base + fun.slots() as usize;
        let end = room + fun.stack() as usize;
        self.rows[self.count] = Row {
            link,
            function: self.function,
            next: self.next,
            extent: self.extent,
        };
        self.count += 1;
        fill_slots(self.words.as_mut_slice(), base, room, words);
        self.extent = Extent {
            base,
            room,
            top: end,
            end,
        };
        self.fun = fun;
        self.ops = fun.ops();
        self.function = function;
        self.next = 0;
    }

    /// Goes back to the innermost call that waits.
    pub fn leave(&mut self)
        requires { 0 < length self.old.behind }
        ensures back { (b : Behind) (rest : List Behind) → self.old.behind ≡ b ∷ rest
            → self.new ≡ record { funs = self.old.funs; fun = self.new.fun; frame = b.frame; behind = rest } }
        ensures there { slice_get self.new.funs self.new.frame.function ≡ Some self.new.fun }
    {
        self.count -= 1;
        let Row {
            link: _,
            function,
            next,
            extent,
        } = self.rows[self.count];
        self.fun = &self.funs[function as usize];
        self.ops = self.fun.ops();
        self.function = function;
        self.next = next;
        self.extent = extent;
    }

    /// The instruction that stands next, unless none does.
    #[inline]
    pub fn op(&self) -> Option<&'a Op>
        ensures op { option_copied result ≡ slice_get self.now.fun.ops self.now.frame.next }
        ensures within { IfSome result (λ op. self.now.frame.next + 1 < 2 ^ 64) }
    {
        self.ops.get(self.next)
    }

    /// The instructions from the one that stands next on, unless that one lies past the end.
    #[inline(always)]
    pub fn ahead(&self) -> Option<&'a [Op]>
        ensures ops { IfSome result (λ ops. ops.now ≡ drop self.now.frame.next self.now.fun.ops) }
        ensures past { IfNone result (length self.now.fun.ops < self.now.frame.next) }
        ensures within { IfSome result (λ ops. self.now.frame.next + length ops.now < 2 ^ 64) }
    {
        self.ops.get(self.next..)
    }

    /// The slots.
    #[inline(always)]
    pub fn slots(&self) -> &[u32]
        ensures { result.now ≡ self.now.frame.slots }
    {
        &self.words[self.extent.base..self.extent.room]
    }

    /// How many words the stack has room for beside those on it.
    #[inline(always)]
    pub fn free(&self) -> usize
        ensures { length self.now.frame.stack + result ≡ self.now.fun.stack }
    {
        self.extent.top - self.extent.room
    }

    /// Goes on by so many instructions.
    #[inline(always)]
    pub fn skip(&mut self, count: usize)
        requires { self.old.frame.next + count < 2 ^ 64 }
        ensures { self.new ≡ at_next (self.old.frame.next + count) self.old }
    {
        self.next += count;
    }

    /// The topmost word, if there is one.
    #[inline]
    pub fn word(&self) -> Option<u32>
        ensures word { result ≡ slice_get self.now.frame.stack 0 }
        ensures room { length self.now.frame.stack ≤ self.now.fun.stack }
    {
        if self.extent.top < self.extent.end {
            Some(self.words[self.extent.top])
        } else {
            None
        }
    }

    /// The words of the stack, the topmost first.
    #[inline]
    pub fn stack(&self) -> &[u32]
        ensures { result.now ≡ self.now.frame.stack }
    {
        &self.words[self.extent.top..self.extent.end]
    }

    /// The word of a slot, if it is there.
    #[inline]
    pub fn slot(&self, k: u32) -> Option<u32>
        ensures { result ≡ slice_get self.now.frame.slots k }
    {
        let at = self.extent.base + k as usize;
        if at >= self.extent.room {
            return None;
        }
        Some(self.words[at])
    }

    /// Stores a word in a slot, if it is there, and tells whether it is. If not, all stays.
    #[inline]
    pub fn set(&mut self, k: u32, word: u32) -> bool
        ensures there { result ≡ nat_lt k (length self.old.frame.slots) }
        ensures after { self.new ≡ slot_set_if result k word self.old }
    {
        let at = self.extent.base + k as usize;
        if at >= self.extent.room {
            return false;
        }
        self.words[at] = word;
        true
    }

    /// Pops words, and pushes a word if there is room for it then, and tells whether there is. If not, all stays.
    #[inline]
    pub fn push(&mut self, popped: usize, word: u32) -> bool
        requires { popped ≤ length self.old.frame.stack }
        ensures room { result ≡ nat_lt (length (drop popped self.old.frame.stack)) self.old.fun.stack }
        ensures after { self.new ≡ pushed_if result word (drop popped self.old.frame.stack) self.old }
    {
        let top = self.extent.top + popped;
        if popped == 0 && top <= self.extent.room {
            return false;
        }
        self.words[top - 1] = word;
        self.extent.top = top - 1;
        true
    }

    /// Pops words.
    #[inline]
    pub fn pop(&mut self, popped: usize)
        requires { popped ≤ length self.old.frame.stack }
        ensures { self.new ≡ with_stack (drop popped self.old.frame.stack) self.old }
    {
        self.extent.top += popped;
    }

    /// Goes on to the next instruction.
    #[inline]
    pub fn advance(&mut self)
        requires { self.old.frame.next + 1 < 2 ^ 64 }
        ensures { self.new ≡ at_next (self.old.frame.next + 1) self.old }
    {
        self.next += 1;
    }

    /// Goes on at an instruction, if it is there, and tells whether it is. If not, all stays.
    #[inline]
    pub fn jump(&mut self, target: u32) -> bool
        ensures there { result ≡ nat_lt target (length self.old.fun.ops) }
        ensures after { self.new ≡ at_next (if result then target else self.old.frame.next) self.old }
    {
        let target = target as usize;
        let there = target < self.ops.len();
        if there {
            self.next = target;
        }
        there
    }
}

/// The most words of a frame.
fn widest(funs: &[Func]) -> u32
    ensures each { All (λ f. f.slots + f.stack ≤ result) funs.now }
    ensures few { result ≤ 4096 }
{
    let mut most = 0;
    for fun in funs {
        let words = fun.slots() + fun.stack();
        if most < words {
            most = words;
        }
    }
    most
}

/// Writes the slots of a function that is called, from `base` up to `room`: its arguments, and zeros behind them.
fn fill_slots(words: &mut [u32], base: usize, room: usize, args: &[u32])
    requires fits { base + length args.now ≤ room }
    requires within { room ≤ length words.old }
    ensures len { length words.new ≡ length words.old }
    ensures front { take base words.new ≡ take base words.old }
    ensures slots { window base room words.new ≡ args.now ++ replicate (room - base - length args.now) 0 }
{
    write_slots(&mut words[base..room], args);
}

/// Writes the slots: the arguments, and zeros behind them.
fn write_slots(slots: &mut [u32], args: &[u32])
    requires { length args.now ≤ length slots.old }
    ensures { slots.new ≡ args.now ++ replicate (length slots.old - length args.now) 0 }
{
    slots[..args.len()].copy_from_slice(args);
    slots[args.len()..].fill(0);
}
