// Distances by rounds in which all facts are relaxed, after Bellman and Ford.

ghost use Rattle.std.specs.Prelude.{◌≡◌, ◌<◌, ◌^◌, ◌+ℤ◌, None, length, replicate, IfOk, OnOk};
ghost use Rattle.std.specs.List.{All};
ghost use Rattle.subsumption.specs.Graphs.{node_of, at, IsEdge, IsWithin};
ghost use Rattle.subsumption.specs.Models.{AreEdges};
ghost use Rattle.subsumption.specs.Relaxation.{far_away, Relaxes, IsRound, IsRelaxed, AreNamed, ShowsSearch, with_last};

use crate::fact::Fact;
use ckc_text::fault::NoMemory;
use std::alloc::Global;

/// Where the nodes stand at first that aren't the start: 2^118.
const FAR_AWAY: i128 = 332_306_998_946_228_968_225_951_765_070_086_144;

/// The number of a node: zero, then the variables.
pub fn node(x: Option<u32>) -> usize
    ensures { result ≡ node_of x }
{
    match x {
        None => 0,
        Some(x) => x as usize + 1,
    }
}

fn sum(distance: i128, plus: i128) -> i128
    requires distance { IsWithin (2 ^ 119) distance }
    requires plus { IsWithin (2 ^ 102) plus }
    ensures { result ≡ distance +ℤ plus }
{
    distance + plus
}

/// The distance of a node.
pub fn distance_at(distances: &[i128], x: Option<u32>) -> i128
    requires { node_of x < length distances.now }
    ensures { result ≡ at distances.now x }
{
    distances[node(x)]
}

/// Lowers the distance of the fact's left to what the fact allows. Whether it fell.
fn relax(
    before: &[i128],
    fact: &Fact,
    distances: &mut Vec<i128>,
    last: &mut Vec<Option<Fact>>,
) -> bool
    requires edge { IsEdge (length before.now) fact.now }
    requires small { All (IsWithin (2 ^ 119)) before.now }
    requires size { length distances.old.items ≡ length before.now }
    requires last_size { length last.old.items ≡ length before.now }
    ensures { Relaxes before.now fact.now distances.old.items last.old.items result distances.new.items last.new.items }
{
    let allowed = sum(distance_at(before, fact.right), fact.plus);
    let left = node(fact.left);
    if distances[left] <= allowed {
        return false;
    }
    distances[left] = allowed;
    last[left] = Some(*fact);
    true
}

/// Relaxes all facts, by the distances of the round before. Whether a distance fell.
fn relax_all(
    facts: &[Fact],
    before: &[i128],
    distances: &mut Vec<i128>,
    last: &mut Vec<Option<Fact>>,
) -> bool
    requires edges { All (IsEdge (length before.now)) facts.now }
    requires small { All (IsWithin (2 ^ 119)) before.now }
    requires same { distances.old.items ≡ before.now }
    requires last_size { length last.old.items ≡ length before.now }
    ensures { IsRound facts.now facts.now before.now last.old.items distances.new.items last.new.items result }
{
    let mut fell = false;
    for fact in facts {
        fell = relax(before, fact, distances, last) | fell;
    }
    fell
}

/// The distances of all nodes from one, and the fact that last lowered each.
#[derive(Drop)]
pub struct Search {
    pub distances: Vec<i128>,
    pub last: Vec<Option<Fact>>,
}

/// Distances that meet all facts, or facts that nothing meets.
#[derive(Drop)]
pub enum Outcome {
    Settled(Search),
    Contradictory(Vec<Fact>),
}

/// Nodes that are all far away.
fn all_far(alloc: Global, n: usize) -> Result<Vec<i128>, NoMemory>
    ensures { IfOk result (λ v. v.items ≡ replicate n far_away) }
{
    Ok(vec![in alloc; FAR_AWAY; n]?)
}

/// Nodes that no fact lowered.
fn unlowered(alloc: Global, n: usize) -> Result<Vec<Option<Fact>>, NoMemory>
    ensures { IfOk result (λ v. v.items ≡ replicate n None) }
{
    Ok(vec![in alloc; None; n]?)
}

/// The start at zero, and all other nodes far away.
fn begin(alloc: Global, facts: &[Fact], n: usize, start: Option<u32>) -> Result<Search, NoMemory>
    requires { node_of start < n }
    ensures { IfOk result (λ s. IsRelaxed facts.now start n 0 s.distances.items s.last.items) }
{
    let mut distances = all_far(alloc, n)?;
    distances[node(start)] = 0;
    let last = unlowered(alloc, n)?;
    Ok(Search { distances, last })
}

/// Adds a fact, where there is one.
fn note(facts: &mut Vec<Fact>, fact: Option<Fact>) -> Result<(), NoMemory>
    ensures { OnOk result (facts.new.items ≡ with_last facts.old.items fact) }
{
    if let Some(fact) = fact {
        facts.push(fact)?;
    }
    Ok(())
}

/// The facts that lowered a node last.
fn named(alloc: Global, last: &[Option<Fact>]) -> Result<Vec<Fact>, NoMemory>
    ensures { IfOk result (λ v. AreNamed last.now (length last.now) v.items) }
{
    let mut facts = Vec::new(alloc);
    for fact in last {
        note(&mut facts, *fact)?;
    }
    Ok(facts)
}

/// The distances of `n` nodes from one. A round that lowers none ends the search. Where the n-th still lowers one, the
/// facts that lowered nodes last lead round in a circle.
pub fn find_distances(
    alloc: Global,
    facts: &[Fact],
    n: usize,
    start: Option<u32>,
) -> Result<Outcome, NoMemory>
    requires edges { AreEdges n facts.now }
    requires start { node_of start < n }
    ensures { IfOk result (ShowsSearch facts.now start n) }
{
    let Search {
        mut distances,
        mut last,
    } = begin(alloc, facts, n, start)?;
    let mut before = Vec::from_slice(alloc, distances.as_slice())?;
    for _round in 0..n {
        if !relax_all(facts, before.as_slice(), &mut distances, &mut last) {
            return Ok(Outcome::Settled(Search { distances, last }));
        }
        before.copy_from_slice(distances.as_slice());
    }
    let path = named(alloc, last.as_slice())?;
    Ok(Outcome::Contradictory(path))
}
