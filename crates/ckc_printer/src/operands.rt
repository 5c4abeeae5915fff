// Which operands stand in parentheses.

ghost use Rattle.std.specs.Prelude.{◌≡◌};
ghost use Rattle.ckc_tree.specs.Expressions.{expression};
ghost use Rattle.ckc_printer.specs.ExpressionPieces.{is_compound};

use ckc_tree::expr::Expr;

/// Whether it stands in parentheses as an operand or a base.
pub fn is_compound(expr: &Expr) -> bool
    ensures { result ≡ is_compound (expression expr.now) }
{
    matches!(
        expr,
        Expr::Cast { .. } | Expr::Unary { .. } | Expr::Binary { .. }
    )
}
