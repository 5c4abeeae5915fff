// Acts of the sandbox, before touches and in its turn.

ghost use Rattle.std.specs.Prelude.{◌≡◌, None};
ghost use Rattle.act_words.specs.Acts.{act_view};
ghost use Rattle.act_words.specs.Acting.{act_before_touch as before_touch, act_in_sandbox as in_sandbox};
ghost use Rattle.code_words.specs.Table.{Touch};
ghost use Rattle.code_words.specs.Moves.{before_touch_by, in_sandbox_by};
ghost use Rattle.two_memory_machine_states.specs.Machines.{Touching, TakesAct, Sooner, waiting_of, ending_given};
ghost use Rattle.two_memory_machine_states.specs.Steps.{MovesBy, IsSuspended};

use act_words::act::{Act, Turn};
use ckc_text::code::Code;
use two_memory_machine_states::acts::SANDBOX_ENDED;
use two_memory_machine_states::event::{Event, Waiting};
use two_memory_machine_states::running_image::RunningImage;

/// Takes an act of the sandbox.
pub fn act(machine: &mut RunningImage, act: &Act) -> Event
    requires { waiting_of machine.old ≡ Waiting.Act }
    ensures takes { TakesAct machine.old (act_view act.now) result machine.new }
    ensures over { machine.new.over ≡ ending_given result }
    ensures sooner { Sooner (act_view act.now) machine.old machine.new }
{
    machine.count_act();
    match machine.turn() {
        Turn::Trusted => act_before_touch(machine, act),
        Turn::Sandbox => act_in_sandbox(machine, act),
    }
}

// Does what an act says before a touch.
fn act_before_touch(machine: &mut RunningImage, act: &Act) -> Event
    requires going { machine.old.over ≡ None }
    requires touches { (touch : Touch) × (machine.old.doing ≡ Touching touch) }
    ensures { (touch : Touch) → machine.old.doing ≡ Touching touch
        → MovesBy (λ s. before_touch_by machine.old.image machine.old.frame touch (before_touch (act_view act.now) s.world) s) machine.old result machine.new }
{
    match act {
        Act::Go => machine.make_touch(),
        Act::Read { at, len } => machine.show(*at, len.number),
        Act::Write { at, bytes } => machine.write(*at, bytes.octets.as_slice()),
        Act::Call { fun: _, args: _ } | Act::Return { value: _ } => machine.stop_by_act(Code::S5),
        Act::Stop => machine.end_move(SANDBOX_ENDED),
    }
}

// Does what an act says while the sandbox has the turn.
fn act_in_sandbox(machine: &mut RunningImage, act: &Act) -> Event
    requires going { machine.old.over ≡ None }
    requires suspended { IsSuspended machine.old.doing }
    ensures { MovesBy (λ s. in_sandbox_by machine.old.image machine.old.settings (in_sandbox (act_view act.now) s.world) s) machine.old result machine.new }
{
    match act {
        Act::Go => Event::Ran,
        Act::Read { at, len } => machine.show(*at, len.number),
        Act::Write { at, bytes } => machine.write(*at, bytes.octets.as_slice()),
        Act::Call { fun, args } => machine.call_back(*fun, args),
        Act::Return { value } => machine.answer(*value),
        Act::Stop => machine.end_move(SANDBOX_ENDED),
    }
}
