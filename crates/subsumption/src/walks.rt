// The facts along a path of a matrix.

ghost use Rattle.std.specs.Prelude.{◌≡◌, ◌≢◌, ◌<◌, ◌≤◌, ◌^◌, [], Some, true, IfOk, OnOk};
ghost use Rattle.subsumption.specs.Graphs.{IsWithin, at_index, fact_at, node_of};
ghost use Rattle.subsumption.specs.Distances.{is_near};
ghost use Rattle.subsumption.specs.ClosedTables.{is_broken};
ghost use Rattle.subsumption.specs.Matrices.{AreNear, constants_of, plus_of};
ghost use Rattle.subsumption.specs.MatrixPaths.{IsCanonical};
ghost use Rattle.subsumption.specs.MatrixWays.{Contradicts, GoesOn, IsWay, Reaches};

use crate::fact::Fact;
use crate::matrix::Matrix;
use crate::relaxation::node;
use crate::row::Step;
use ckc_text::fault::NoMemory;

/// The node with a number.
fn node_at(i: usize) -> Option<u32>
    requires { i ≤ 4096 }
    ensures { result ≡ at_index i }
{
    if i == 0 { None } else { Some((i - 1) as u32) }
}

/// The fact that two nodes' constant is.
fn fact_between(matrix: &Matrix, i: usize, j: usize) -> Fact
    requires few { matrix.now.n ≤ 4097 }
    requires i { i < matrix.now.n }
    requires j { j < matrix.now.n }
    requires reached { Reaches matrix.now i j }
    ensures constant { Some result.plus ≡ constants_of matrix.now i j }
    ensures nodes { result ≡ fact_at (at_index i) (at_index j) result.plus }
{
    match matrix.step(i, j) {
        None => unreachable!(),
        Some(step) => Fact {
            left: node_at(i),
            right: node_at(j),
            plus: step.plus,
        },
    }
}

/// Adds the first fact of the path from one node to another. The node that it leads to.
fn walk(matrix: &Matrix, here: usize, there: usize, path: &mut Vec<Fact>) -> Result<usize, NoMemory>
    requires few { matrix.now.n ≤ 4097 }
    requires here { here < matrix.now.n }
    requires there { there < matrix.now.n }
    requires apart { here ≢ there }
    requires reached { Reaches matrix.now here there }
    requires canonical { IsCanonical matrix.now }
    ensures { IfOk result (λ next. GoesOn matrix.now here there next path.old.items path.new.items) }
{
    match matrix.step(here, there) {
        None => unreachable!(),
        Some(step) => {
            let next = step.first as usize;
            path.push(fact_between(matrix, here, next))?;
            Ok(next)
        }
    }
}

/// Puts the facts of the path from one node to another.
pub fn follow(matrix: &Matrix, i: usize, j: usize, path: &mut Vec<Fact>) -> Result<(), NoMemory>
    requires few { matrix.now.n ≤ 4097 }
    requires i { i < matrix.now.n }
    requires j { j < matrix.now.n }
    requires reached { Reaches matrix.now i j }
    requires canonical { IsCanonical matrix.now }
    requires empty { path.old.items ≡ [] }
    ensures { OnOk result (IsWay matrix.now i j path.new.items) }
{
    let mut here = i;
    while here != j {
        here = walk(matrix, here, j, path)?;
    }
    Ok(())
}

/// Whether a fact can't be met together with what is known.
pub fn contradicts(matrix: &Matrix, fact: &Fact) -> bool
    requires left { node_of fact.now.left < matrix.now.n }
    requires right { node_of fact.now.right < matrix.now.n }
    requires near { AreNear matrix.now }
    requires plus { IsWithin (2 ^ 66) fact.now.plus }
    ensures { result ≡ is_broken (constants_of matrix.now (node_of fact.now.right) (node_of fact.now.left)) fact.now.plus }
{
    round_is_negative(matrix.step(node(fact.right), node(fact.left)), fact.plus)
}

/// Whether a way back with the constant `plus` comes to less than zero.
fn round_is_negative(step: Option<Step>, plus: i128) -> bool
    requires near { is_near (plus_of step) ≡ true }
    requires plus { IsWithin (2 ^ 66) plus }
    ensures { result ≡ is_broken (plus_of step) plus }
{
    match step {
        None => false,
        Some(step) => step.plus + plus < 0,
    }
}

/// Puts the facts that a fact can't be met together with, and the fact itself.
pub fn contradiction(matrix: &Matrix, fact: &Fact, path: &mut Vec<Fact>) -> Result<(), NoMemory>
    requires few { matrix.now.n ≤ 4097 }
    requires left { node_of fact.now.left < matrix.now.n }
    requires right { node_of fact.now.right < matrix.now.n }
    requires canonical { IsCanonical matrix.now }
    requires plus { IsWithin (2 ^ 66) fact.now.plus }
    requires broken { is_broken (constants_of matrix.now (node_of fact.now.right) (node_of fact.now.left)) fact.now.plus ≡ true }
    ensures { OnOk result (Contradicts matrix.now fact.now path.new.items) }
{
    path.clear();
    follow(matrix, node(fact.right), node(fact.left), path)?;
    path.push(*fact)?;
    Ok(())
}
