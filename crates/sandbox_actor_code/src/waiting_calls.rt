// The calls that wait for the innermost one, with room for 1,000.

ghost use Rattle.std.specs.Prelude.{◌≡◌, ◌∷◌, ◌<◌, ◌≤◌, List, [], length, IfOk};
ghost use Rattle.sandbox_actor_code.specs.declared.waiting_calls.WaitingCall.{WaitingCall as WaitingData};
ghost use Rattle.sandbox_actor_code.specs.WaitingStacks.{awaited_of};

use crate::call_frame::{CallFrame, FrameRoom};
use ckc_text::fault::NoMemory;
use std::alloc::Global;
use std::marker::Model;
use std::mem;

/// How many calls may be open.
pub const MAX_OPEN: usize = 1_000;

/// What an open call waits for.
#[derive(Clone, Copy)]
pub enum Awaited {
    /// A function of the sandbox, which it called.
    Function,
    /// The reply of a callback, which it called by its number.
    Callback { number: u32 },
}

/// A call that waits.
#[derive(Drop)]
pub struct WaitingCall<'a> {
    pub call: CallFrame<'a>,
    pub awaited: Awaited,
}

/// The calls that wait. Each has the same room.
#[derive(Drop)]
pub struct WaitingCalls<'a> {
    room: FrameRoom,
    // The calls, of which the first `count` are there; the others keep the room for more.
    rows: Vec<WaitingCall<'a>>,
    count: usize,
}

impl<'a> Model for WaitingCalls<'a> {
    ghost use Rattle.sandbox_actor_code.specs.WaitingStacks.{Waiting};

    ghost Value = { Waiting };

    ghost use Rattle.sandbox_actor_code.specs.WaitingInsides.{waiting, IsConsistent};

    ghost view = { waiting };

    ghost invariant = { IsConsistent };
}

impl<'a> WaitingCalls<'a> {
    /// No call waits. It takes the memory of 1,000 frames with so much room.
    pub fn start(alloc: Global, room: FrameRoom) -> Result<WaitingCalls<'a>, NoMemory>
        ensures { IfOk result (λ w. w ≡ record { calls = []; room = room }) }
    {
        let mut rows = Vec::with_capacity(alloc, MAX_OPEN)?;
        for _ in 0..MAX_OPEN {
            rows.push(WaitingCall {
                call: CallFrame::start(alloc, room)?,
                awaited: Awaited::Function,
            })?;
        }
        Ok(WaitingCalls {
            room,
            rows,
            count: 0,
        })
    }

    /// How many calls wait.
    pub fn len(&self) -> usize
        ensures count { result ≡ length self.now.calls }
        ensures few { result ≤ 1000 }
    {
        self.count
    }

    /// What the innermost call that waits waits for, if there is one.
    pub fn awaited(&self) -> Option<Awaited>
        ensures { result ≡ awaited_of self.now.calls }
    {
        let last = self.count.checked_sub(1)?;
        Some(self.rows[last].awaited)
    }

    /// The call that runs waits from now on. Another frame takes its place.
    pub fn push(&mut self, call: &mut CallFrame<'a>, awaited: Awaited)
        requires few { length self.old.calls < 1000 }
        requires room { call.old.room ≡ self.old.room }
        ensures calls { self.new ≡ record { calls = (record { call = call.old; awaited = awaited }) ∷ self.old.calls; room = self.old.room } }
        ensures room { call.new.room ≡ self.old.room }
    {
        let row = &mut self.rows[self.count];
        mem::swap(call, &mut row.call);
        row.awaited = awaited;
        self.count += 1;
    }

    /// The innermost call that waits goes on, in the place of another frame.
    pub fn pop(&mut self, call: &mut CallFrame<'a>)
        requires some { 0 < length self.old.calls }
        requires room { call.old.room ≡ self.old.room }
        ensures few { length self.new.calls < 1000 }
        ensures calls { (w : WaitingData) (rest : List WaitingData) → self.old.calls ≡ w ∷ rest
            → (self.new ≡ record { calls = rest; room = self.old.room }) × (call.new ≡ w.call) × (call.new.room ≡ self.old.room) }
    {
        self.count -= 1;
        mem::swap(call, &mut self.rows[self.count].call);
    }
}
