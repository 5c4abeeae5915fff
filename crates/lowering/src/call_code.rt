// The arguments and the end of a call.

ghost use Rattle.std.specs.Prelude.{◌≡◌, ◌<◌, ◌∷◌, [], ◌++◌, length, slice_get, Some, OnOk};
ghost use Rattle.code_words.specs.declared.op.Op.TheVariants as ops_of;

use crate::instructions::put_two;
use check_insertion::erased::Expr;
use ckc_text::fault::NoMemory;
use code_words::op::Op;

/// The argument at a place.
pub fn argument_at(arguments: &[Expr], place: usize) -> &Expr
    requires { place < length arguments.now }
    ensures { slice_get arguments.now place ≡ Some result.now }
{
    &arguments[place]
}

/// What follows the arguments of a call: its tick, and the call.
pub fn put_call(ops: &mut Vec<Op>, call: Op) -> Result<(), NoMemory>
    ensures { OnOk result (ops.new.items ≡ ops.old.items ++ ops_of.Tick ∷ call ∷ []) }
{
    put_two(ops, Op::Tick, call)
}
