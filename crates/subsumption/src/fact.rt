// Facts, and the answers to a question about them.

/// `left` is at most `right` plus a constant. `None` is zero.
#[derive(Clone, Copy)]
pub struct Fact {
    pub left: Option<u32>,
    pub right: Option<u32>,
    pub plus: i128,
}

/// Facts that show a goal.
#[derive(Drop)]
pub struct Path {
    pub facts: Vec<Fact>,
}

/// A number for each variable.
#[derive(Drop)]
pub struct Valuation {
    pub values: Vec<i128>,
}

/// Whether facts entail a goal.
#[derive(Drop)]
pub enum Answer {
    Yes(Path),
    /// The numbers meet the facts and break the goal.
    No(Valuation),
}
