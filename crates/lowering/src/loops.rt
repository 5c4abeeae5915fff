// The heads of loops, and where `break` and `continue` go.

ghost use Rattle.std.specs.Prelude.{◌≡◌, ◌+◌, ◌^◌, ◌≤◌, [], ◌∷◌, ◌++◌, length, OnOk};
ghost use Rattle.code_words.specs.declared.op.Op.TheVariants as ops_of;
ghost use Rattle.lowering.specs.Code.{loop_places};
ghost use Rattle.lowering.specs.Views.{targets_of};

use crate::instructions::{place_behind, put_two};
use ckc_text::fault::NoMemory;
use code_words::op::Op;

/// The slot in which a store keeps its value while its pointer is checked, and where `break` and `continue` go.
#[derive(Clone, Copy)]
pub struct Targets {
    pub scratch: u32,
    pub on_break: u32,
    pub on_continue: u32,
}

/// Where `break` and `continue` go in a loop that begins at the next instruction, by the sizes of its parts.
pub fn loop_targets(ops: &Vec<Op>, scratch: u32, body: u32, step: u32, condition: u32) -> Targets
    requires { length ops.now.items + (body + (step + (condition + 4))) ≤ 2 ^ 31 }
    ensures { targets_of result ≡ loop_places scratch (length ops.now.items) body step condition }
{
    let on_continue = place_behind(ops, body + 2);
    let test = on_continue + step;
    let on_break = test + condition + 2;
    Targets {
        scratch,
        on_break,
        on_continue,
    }
}

/// The head of a loop: a jump to its condition, and the tick with which each turn begins.
pub fn begin_loop(ops: &mut Vec<Op>, step_place: u32, step: u32) -> Result<(), NoMemory>
    requires { step_place + step ≤ 2 ^ 31 }
    ensures { OnOk result (ops.new.items ≡ ops.old.items ++ ops_of.Jump (step_place + step) ∷ ops_of.Tick ∷ []) }
{
    let test = step_place + step;
    put_two(ops, Op::Jump(test), Op::Tick)
}
