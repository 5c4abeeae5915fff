// What a local is before it is given a value.

ghost use Rattle.std.specs.Prelude.{◌≡◌, IfOk};
ghost use Rattle.pointer_modes.specs.Types.{ctype as ctype_of};
ghost use Rattle.ckc_core.specs.Core.{expression, SetLocal};
ghost use Rattle.region_typing_rules.specs.Statements.{zero_value as zero_of};
ghost use Rattle.region_typing_scope.specs.OnHeap.{statement};

use ckc_core::program::{Expr, Stmt};
use ckc_text::fault::NoMemory;
use pointer_modes::ctype::CType;
use region_typing_scope::context::Context;

// The number 0, or a null pointer.
fn zero_value(t: &CType) -> Expr
    ensures { expression result ≡ zero_of (ctype_of t.now) }
{
    match t {
        CType::Int | CType::Char => Expr::Number(0),
        CType::Struct(_) | CType::Pointer(..) => Expr::Null,
    }
}

/// Makes a local zero or null. Without this a local of a loop's body would keep its value from the turn before.
pub fn set_to_zero(context: &Context, local: u32, t: &CType) -> Result<Box<Stmt>, NoMemory>
    ensures { IfOk result (λ s. statement s ≡ SetLocal local (zero_of (ctype_of t.now))) }
{
    let value = context.boxed(zero_value(t))?;
    context.boxed(Stmt::SetLocal { local, value })
}
