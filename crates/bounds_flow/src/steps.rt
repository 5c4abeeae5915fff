// What steps of a flow are told, and what a settling answers.

use bounds_exprs::term::{Bounds, Term};
use subsumption::fact::Valuation;

/// What a pointer is assigned.
#[derive(Clone, Copy)]
pub enum Source {
    Null,
    /// A pointer of whose bounds nothing is known.
    Lost,
    /// A pointer with these bounds. A base stands for what it was before the assignment.
    Known(Bounds),
}

/// A comparison.
#[derive(Clone, Copy)]
pub enum How {
    Lt,
    Le,
    Gt,
    Ge,
    Eq,
    Ne,
}

/// A test.
#[derive(Clone, Copy)]
pub enum Test {
    /// Whether a pointer isn't null.
    NotNull { var: u32 },
    /// Whether two terms compare so.
    Compare { how: How, left: Term, right: Term },
}

/// The outcome of a settling.
#[derive(Drop)]
pub enum Settled {
    /// All pointers meet their declared bounds.
    Kept,
    /// The first pointer that doesn't lost its bounds by an assignment to another variable.
    Lost(u32),
    /// Bounds in force that aren't proved to meet the declared ones, of the first such pointer. The numbers meet the facts
    /// and break the first asked fact that isn't entailed; `None` where the bases differ or no bounds are in force.
    Unproved(u32, Option<Valuation>),
}
