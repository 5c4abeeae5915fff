// What is known of one pointer.

use bounds_exprs::term::Bounds;

/// What became of a pointer since the last settling.
#[derive(Clone, Copy)]
pub enum Mark {
    /// It is as it was.
    Settled,
    /// It was assigned, or its bounds were moved.
    Changed,
    /// Its bounds were lost by an assignment to another variable, and it was neither assigned nor given bounds after that.
    Lost,
    /// It was assigned null last.
    WasNull,
}

/// What is known of a pointer. A variable that is an `int`, or isn't in scope, has no bounds and is settled.
#[derive(Clone, Copy)]
pub struct Held {
    /// The bounds that are written at its declaration.
    pub declared: Option<Bounds>,
    /// The bounds in force.
    pub bounds: Option<Bounds>,
    /// Whether it is known not to be null.
    pub known: bool,
    pub mark: Mark,
}
