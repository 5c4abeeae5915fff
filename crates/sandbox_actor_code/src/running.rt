// Instructions one after another, up to an act.

ghost use Rattle.std.specs.Prelude.{◌≡◌, option_map};
ghost use Rattle.act_words.specs.Acts.{act_view, seen_view};
ghost use Rattle.act_words.specs.declared.act.Turn.TheVariants as turns;
ghost use Rattle.sandbox_actor.specs.Answers.{Lowers};
ghost use Rattle.sandbox_actor_code.specs.Answering.{AnswersFrom};
ghost use Rattle.sandbox_actor_code.specs.Codes.{Does, IsReady, IsSame, Leads, LeavesFewer, RunsOn, code_left, running, state_in};
ghost use Rattle.code_words.specs.SandboxCode.{step};
ghost use Rattle.sandbox_actor_code.specs.declared.code_actor.Phase.TheVariants as phases;

use crate::code_actor::CodeActor;
use act_words::act::{Act, Seen};
use code_words::op::Op;

impl<'a> CodeActor<'a> {
    /// The act that the code answers, where the sandbox has the turn.
    pub(crate) fn answer(&mut self, last: &Option<Seen>) -> Act
        ensures answers { AnswersFrom self.old.image self.old.budget (state_in self.old.phase self.old)
            (record { turn = turns.Sandbox; last = option_map seen_view last.now }) (act_view result) (state_in self.new.phase self.new) }
        ensures same { IsSame self.old self.new }
        ensures lowers { Lowers turns.Sandbox (act_view result) (code_left self.old) (code_left self.new) }
    {
        match self.show(last) {
            Some(act) => act,
            None => self.run(),
        }
    }

    // Makes steps up to an act.
    fn run(&mut self) -> Act
        requires { self.old.phase ≡ phases.Runs }
        ensures { RunsOn self.old result self.new }
    {
        'steps: loop {
            match self.step() {
                Some(act) => return act,
                None => {}
            }
        }
    }

    // Makes the next step.
    fn step(&mut self) -> Option<Act>
        requires { self.old.phase ≡ phases.Runs }
        ensures leads { Leads (step self.old.image self.old.budget self.old.call.frame (running self.old)) self.old result self.new }
        ensures fewer { LeavesFewer result self.old self.new }
    {
        let Some(op) = self.call.op() else {
            return self.stop();
        };
        self.perform(op)
    }

    // Makes the step of an instruction.
    fn perform(&mut self, op: &Op) -> Option<Act>
        requires { IsReady self.old }
        ensures { Does op.now self.old result self.new }
    {
        match op {
            Op::Const(number) => self.push(0, number.cast_unsigned()),
            Op::Local(slot) => self.local(*slot),
            Op::Set(slot) => self.set(*slot),
            Op::Discard => self.discard(),
            Op::Duplicate => self.duplicate(),
            Op::BlockOffset(k) => self.block_offset(*k),
            Op::WrapAdd => self.wrapping_add(),
            Op::WrapSub => self.wrapping_subtract(),
            Op::WrapMul => self.wrapping_multiply(),
            Op::WrapNeg => self.wrapping_negate(),
            Op::WrapShl => self.wrapping_shift_left(),
            Op::WrapShr => self.wrapping_shift_right(),
            Op::WrapDiv => self.wrapping_divide(),
            Op::WrapRem => self.wrapping_remain(),
            Op::Bitwise(operator) => self.combine(*operator),
            Op::Not => self.complement(),
            Op::Compare(comparison) => self.compare(*comparison),
            Op::UnsignedLess => self.unsigned_less(),
            Op::UnsignedLessEqual => self.unsigned_less_equal(),
            Op::UnsignedGreater => self.unsigned_greater(),
            Op::UnsignedGreaterEqual => self.unsigned_greater_equal(),
            Op::Zero => self.is_zero(),
            Op::Byte => self.low_byte(),
            Op::Index { size } => self.index(*size),
            Op::Load1 => self.load_1(),
            Op::Load4 => self.load_4(),
            Op::Store1 => self.store_1(),
            Op::Store4 => self.store_4(),
            Op::Jump(target) => self.jump(0, *target),
            Op::JumpIfZero(target) => self.jump_if_zero(*target),
            Op::Call(number) => self.call(*number),
            Op::CallBack(number) => self.call_back(*number),
            Op::Return => self.return_word(),
            Op::ReturnNothing => self.return_nothing(),
            Op::Tick => self.tick(),
            Op::BlockAddress(_)
            | Op::Arithmetic {
                operator: _,
                place: _,
            }
            | Op::Neg { place: _ }
            | Op::NonNull { place: _ }
            | Op::In {
                low: _,
                high: _,
                size: _,
                place: _,
            }
            | Op::UpTo {
                low: _,
                high: _,
                size: _,
                place: _,
            }
            | Op::Term {
                high: _,
                size: _,
                place: _,
            }
            | Op::Contain {
                old_low: _,
                old_high: _,
                new_low: _,
                new_high: _,
                size: _,
                place: _,
            }
            | Op::Lies {
                low: _,
                high: _,
                size: _,
                more: _,
                place: _,
            }
            | Op::Range {
                offset: _,
                len: _,
                place: _,
            }
            | Op::TouchLoad1
            | Op::TouchLoad4
            | Op::TouchStore1
            | Op::TouchStore4
            | Op::TaintedCall {
                import: _,
                place: _,
            }
            | Op::NextInput
            | Op::Print
            | Op::PutByte
            | Op::Alloc { size: _ }
            | Op::AllocTerminated { size: _ }
            | Op::SandboxAlloc { size: _ }
            | Op::TextLength => self.stop(),
        }
    }
}
