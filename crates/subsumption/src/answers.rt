// Answers that a matrix gives.

ghost use Rattle.std.specs.Prelude.{◌≡◌, ◌<◌, ◌≤◌, ◌^◌, IfOk};
ghost use Rattle.subsumption.specs.Graphs.{IsWithin, node_of};
ghost use Rattle.subsumption.specs.Facts.{AnswersFact};
ghost use Rattle.subsumption.specs.ClosedTables.{is_at_most};
ghost use Rattle.subsumption.specs.Matrices.{constants_of};
ghost use Rattle.subsumption.specs.MatrixPaths.{IsCanonical, facts_of};

use crate::fact::{Answer, Fact, Path, Valuation};
use crate::matrix::Matrix;
use crate::numbers::numbers;
use crate::relaxation::node;
use crate::walks::follow;
use ckc_text::fault::NoMemory;
use std::alloc::Global;

/// Whether the constant of a fact's two nodes is at most its own.
fn known(matrix: &Matrix, goal: &Fact) -> bool
    requires left { node_of goal.now.left < matrix.now.n }
    requires right { node_of goal.now.right < matrix.now.n }
    ensures { result ≡ is_at_most (constants_of matrix.now (node_of goal.now.left) (node_of goal.now.right)) goal.now.plus }
{
    match matrix.step(node(goal.left), node(goal.right)) {
        None => false,
        Some(step) => step.plus <= goal.plus,
    }
}

/// The answer to whether the facts of a matrix entail a goal.
pub fn answer(alloc: Global, matrix: &Matrix, goal: &Fact) -> Result<Answer, NoMemory>
    requires few { matrix.now.n ≤ 4097 }
    requires canonical { IsCanonical matrix.now }
    requires left { node_of goal.now.left < matrix.now.n }
    requires right { node_of goal.now.right < matrix.now.n }
    requires plus { IsWithin (2 ^ 66) goal.now.plus }
    ensures { IfOk result (AnswersFact matrix.now.n (facts_of matrix.now) goal.now) }
{
    if known(matrix, goal) {
        let mut facts = Vec::new(alloc);
        follow(matrix, node(goal.left), node(goal.right), &mut facts)?;
        return Ok(Answer::Yes(Path { facts }));
    }
    let values = numbers(alloc, matrix, node(goal.right))?;
    Ok(Answer::No(Valuation { values }))
}
