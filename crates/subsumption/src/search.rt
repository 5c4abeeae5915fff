// Questions about a list of facts, answered by a search for a path.

ghost use Rattle.std.specs.Prelude.{◌≡◌, ◌<◌, ◌≤◌, ◌+◌, ◌^◌, ◌-ℤ◌, ◌<ℤ◌, ◌+ℤ◌, length, slice_index_or, IfOk, pos};
ghost use Rattle.std.specs.List.{All};
ghost use Rattle.subsumption.specs.Graphs.{at, node_of, IsWithin};
ghost use Rattle.subsumption.specs.Facts.{AnswersFact};
ghost use Rattle.subsumption.specs.ClosedTables.{ClosedTable, entails_fact};
ghost use Rattle.subsumption.specs.ShownTables.{Shows, is_yes};
ghost use Rattle.subsumption.specs.Models.{AreEdges};
ghost use Rattle.subsumption.specs.Relaxation.{far_away, AreCounted, AreLinked, IsPath, IsSettled, last_of};

use crate::fact::{Answer, Fact, Path, Valuation};
use crate::relaxation::{Outcome, Search, distance_at, find_distances, node};
use ckc_text::fault::NoMemory;
use std::alloc::Global;

fn difference(a: i128, b: i128) -> i128
    requires a { IsWithin (2 ^ 119) a }
    requires b { IsWithin (2 ^ 119) b }
    ensures { result ≡ a -ℤ b }
{
    a - b
}

/// The number of a variable, counted from that of zero.
fn number_at(distances: &[i128], i: usize) -> i128
    requires small { All (IsWithin (2 ^ 119)) distances.now }
    requires within { i + 1 < length distances.now }
    ensures { result ≡ slice_index_or distances.now (i + 1) (pos 0) -ℤ slice_index_or distances.now 0 (pos 0) }
{
    difference(distances[i + 1], distances[0])
}

/// The numbers of the variables, counted from that of zero.
fn numbers(alloc: Global, distances: &[i128]) -> Result<Vec<i128>, NoMemory>
    requires small { All (IsWithin (2 ^ 119)) distances.now }
    requires some { 0 < length distances.now }
    ensures { IfOk result (λ v. AreCounted distances.now v.items) }
{
    let mut numbers = Vec::new(alloc);
    for i in 0..distances.len() - 1 {
        numbers.push(number_at(distances, i))?;
    }
    Ok(numbers)
}

/// The fact that lowered a node last.
fn last_at(last: &[Option<Fact>], x: Option<u32>) -> Option<Fact>
    requires { node_of x < length last.now }
    ensures { result ≡ last_of last.now x }
{
    last[node(x)]
}

/// The facts that lead from the goal's right to its left, the last one first.
fn path_of(alloc: Global, search: &Search, goal: &Fact) -> Result<Vec<Fact>, NoMemory>
    requires linked { AreLinked goal.now.right search.now.distances.items search.now.last.items }
    requires few { length search.now.last.items ≤ 4097 }
    requires left { node_of goal.now.left < length search.now.last.items }
    requires near { (at search.now.distances.items goal.now.left +ℤ pos (2 ^ 115)) <ℤ far_away }
    ensures { IfOk result (λ v. IsPath goal.now.right search.now.distances.items search.now.last.items goal.now.left v.items) }
{
    let mut path = Vec::new(alloc);
    let mut here = goal.left;
    while let Some(fact) = last_at(search.last.as_slice(), here) {
        path.push(fact)?;
        here = fact.right;
    }
    Ok(path)
}

/// The answer that distances from the goal's right give.
fn decide(
    alloc: Global,
    facts: &[Fact],
    n: usize,
    search: &Search,
    goal: &Fact,
) -> Result<Answer, NoMemory>
    requires edges { AreEdges n facts.now }
    requires settled { IsSettled facts.now goal.now.right n search.now.distances.items search.now.last.items }
    requires left { node_of goal.now.left < n }
    requires right { node_of goal.now.right < n }
    requires plus { IsWithin (2 ^ 116) goal.now.plus }
    ensures { IfOk result (AnswersFact n facts.now goal.now) }
{
    if distance_at(search.distances.as_slice(), goal.left) <= goal.plus {
        let facts = path_of(alloc, search, goal)?;
        return Ok(Answer::Yes(Path { facts }));
    }
    let values = numbers(alloc, search.distances.as_slice())?;
    Ok(Answer::No(Valuation { values }))
}

/// The answer to whether facts entail a goal: yes for the same goals as their closed table.
pub fn answer(alloc: Global, vars: u32, facts: &[Fact], goal: &Fact) -> Result<Answer, NoMemory>
    requires edges { AreEdges (vars + 1) facts.now }
    requires left { node_of goal.now.left < vars + 1 }
    requires right { node_of goal.now.right < vars + 1 }
    requires plus { IsWithin (2 ^ 116) goal.now.plus }
    ensures answers { IfOk result (AnswersFact (vars + 1) facts.now goal.now) }
    ensures table { IfOk result (λ answer. (t : ClosedTable) → Shows vars facts.now t → is_yes answer ≡ entails_fact goal.now t) }
{
    let n = vars as usize + 1;
    match find_distances(alloc, facts, n, goal.right)? {
        Outcome::Contradictory(facts) => Ok(Answer::Yes(Path { facts })),
        Outcome::Settled(found) => {
            let answer = decide(alloc, facts, n, &found, goal)?;
            Ok(answer)
        }
    }
}
