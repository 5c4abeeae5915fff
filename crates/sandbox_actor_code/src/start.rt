// Making an actor of an image's code.

ghost use Rattle.std.specs.Prelude.{◌≡◌, ◌<◌, ◌≤◌, ◌^◌, ◌↔◌, All, IfOk, IsTrue};
ghost use Rattle.flat_bytes.specs.Blocks.{first_offset};
ghost use Rattle.code_words.specs.Runs.{counter_behind};
ghost use Rattle.sandbox_actor_code.specs.Answering.{code_at_start};
ghost use Rattle.sandbox_actor_code.specs.CallFrames.{IsRoomFor};
ghost use Rattle.sandbox_actor_code.specs.Codes.{code_state};

use crate::call_frame::{CallFrame, FrameRoom};
use crate::code_actor::{CodeActor, Phase};
use crate::waiting_calls::WaitingCalls;
use ckc_text::fault::NoMemory;
use ckc_text::listed::Listed;
use code_words::image::{Func, Image};
use flat_bytes::blocks::{self, FIRST_OFFSET};
use std::alloc::Global;
use two_memory_machine_memory::memory::offsets_with;

impl<'a> CodeActor<'a> {
    /// An actor that runs the sandbox's functions of an image, and spends as many ticks at most. It takes all its memory. There
    /// is none either where the sandbox's static blocks don't lie in a memory of 2^32 bytes, so that no run can have them.
    pub fn start(alloc: Global, image: &'a Image, budget: u32) -> Result<CodeActor<'a>, NoMemory>
        ensures { IfOk result (λ actor. code_state actor ≡ code_at_start image.now budget) }
    {
        let blocks = image.sandbox_blocks();
        if !lie_in_memory(blocks) {
            return Err(NoMemory);
        }
        let room = room_for(image.sandbox.funs.as_slice());
        let _ = image.functions();
        Ok(CodeActor {
            image,
            budget,
            ticks: 0,
            offsets: offsets_with(alloc, FIRST_OFFSET, blocks)?,
            phase: Phase::Rests,
            call: CallFrame::start(alloc, room)?,
            waiting: WaitingCalls::start(alloc, room)?,
        })
    }
}

// Whether static blocks lie in a memory of 2^32 bytes.
fn lie_in_memory(blocks: &[Listed<u8>]) -> bool
    ensures { IsTrue result ↔ counter_behind first_offset blocks.now < 2 ^ 32 }
{
    let mut end = u64::from(FIRST_OFFSET);
    for block in blocks {
        let bytes = block.as_slice().len() as u64;
        if bytes > u64::from(u32::MAX) {
            return false;
        }
        end = blocks::grown(end, bytes);
        if end > u64::from(u32::MAX) {
            return false;
        }
    }
    true
}

// The room that the frame of each function has.
fn room_for(funs: &[Func]) -> FrameRoom
    ensures { All (λ f. IsRoomFor f result) funs.now }
{
    let mut room = FrameRoom { slots: 0, stack: 0 };
    for fun in funs {
        room = room.with(fun);
    }
    room
}

impl FrameRoom {
    // Room for one more function.
    fn with(self, fun: &Func) -> FrameRoom
        ensures there { IsRoomFor fun.now result }
        ensures slots { self.slots ≤ result.slots }
        ensures stack { self.stack ≤ result.stack }
    {
        FrameRoom {
            slots: self.slots.max(fun.slots()),
            stack: self.stack.max(fun.stack()),
        }
    }
}
