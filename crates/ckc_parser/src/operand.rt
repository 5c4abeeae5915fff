// Expressions as they are read: with the parentheses around them, and with their deepest node.

ghost use Rattle.std.specs.Prelude.{◌≡◌, ◌<◌};
ghost use Rattle.ckc_tree.specs.Heights as heights;
ghost use Rattle.ckc_tree.specs.Heights.{nowhere, ◌beside◌, expression_reach};
ghost use Rattle.ckc_tree.specs.Expressions.{expression};
ghost use Rattle.ckc_parser.specs.Reaches.{reach_of};

use ckc_text::place::Span;
use ckc_tree::expr::Expr;

/// How many nodes stand one inside the other, and where the first of the deepest starts.
#[derive(Clone, Copy)]
pub struct Reach {
    pub height: u32,
    pub start: u32,
}

impl Reach {
    /// No node.
    pub fn nowhere() -> Reach
        ensures { reach_of result ≡ nowhere }
    {
        Reach {
            height: 0,
            start: 0,
        }
    }

    /// Of two parts, of which the first stands first.
    pub fn beside(self, second: Reach) -> Reach
        ensures { reach_of result ≡ reach_of self beside reach_of second }
    {
        if self.height < second.height {
            second
        } else {
            self
        }
    }

    /// A node at this start around these parts.
    pub fn around(self, start: u32) -> Reach
        requires { self.height < 4294967295 }
        ensures { reach_of result ≡ heights.around start (reach_of self) }
    {
        if self.height == 0 {
            Reach { height: 1, start }
        } else {
            Reach {
                height: self.height + 1,
                start: self.start,
            }
        }
    }
}

/// An expression, the bytes that it stands on with the parentheses around it, and its reach.
#[derive(Drop)]
pub struct Operand {
    pub expr: Box<Expr>,
    pub outer: Span,
    pub reach: Reach,
    ghost exact: { reach_of reach ≡ expression_reach (expression expr.value) },
}
