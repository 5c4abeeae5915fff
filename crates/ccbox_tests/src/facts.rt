// Facts, and what they entail.

ghost use Rattle.std.specs.Prelude.{◌≡◌, ◌≤◌, ◌<◌, Some};

use crate::bounds::{counts_elements, limits_constants};
use crate::random_facts::random_questions;
use crate::rows::expect;
use bounds_exprs::term::Term;
use std::alloc::Global;
use std::test::Fail;
use subsumption::fact::Answer;
use subsumption::facts::Facts;

// A variable plus a constant.
#[derive(Clone, Copy)]
struct X(u32, i64);

// A step that changes a table of facts, or asks it whether the one is at most the other.
#[derive(Clone, Copy)]
enum Step {
    Add(X, X),
    Kill(u32),
    Shift(u32, i64),
    // The answer is yes with so many facts, yes, or no.
    With(X, X, usize),
    Yes(X, X),
    No(X, X),
}

fn term(x: X) -> Term
    ensures { result ≡ record { var = Some x.0; plus = x.1 } }
{
    let X(var, plus) = x;
    let var = Some(var);
    Term { var, plus }
}

// Whether a table takes that the one is at most the other.
fn adds(facts: &mut Facts, vars: u32, a: X, b: X) -> bool
    requires { facts.old.vars ≡ vars }
    ensures { facts.new.vars ≡ vars }
{
    a.0 < vars && b.0 < vars && facts.add(term(a), term(b)).is_ok()
}

fn kills(facts: &mut Facts, vars: u32, var: u32) -> bool
    requires { facts.old.vars ≡ vars }
    ensures { facts.new.vars ≡ vars }
{
    var < vars && facts.kill(var).is_ok()
}

fn shifts(facts: &mut Facts, vars: u32, var: u32, c: i64) -> bool
    requires { facts.old.vars ≡ vars }
    ensures { facts.new.vars ≡ vars }
{
    var < vars && facts.shift(var, c).is_ok()
}

// What a table finds, asked whether the one is at most the other.
#[derive(Drop)]
enum Found {
    // Yes, by so many facts.
    Path(usize),
    Nothing,
    // No answer.
    Fault,
}

fn asked(facts: &Facts, a: X, b: X) -> Found
    requires a_below { a.0 < facts.now.vars }
    requires b_below { b.0 < facts.now.vars }
{
    match facts.entails(&term(a), &term(b)) {
        Ok(Answer::Yes(path)) => Found::Path(path.facts.len()),
        Ok(Answer::No(_)) => Found::Nothing,
        Err(_) => Found::Fault,
    }
}

fn asked_within(facts: &Facts, vars: u32, a: X, b: X) -> Found
    requires { facts.now.vars ≡ vars }
{
    if a.0 < vars && b.0 < vars {
        asked(facts, a, b)
    } else {
        Found::Fault
    }
}

fn is_path_of(found: Found, count: usize) -> bool {
    match found {
        Found::Path(facts) => facts == count,
        _ => false,
    }
}

// Whether a table takes a step, or answers so.
fn takes(facts: &mut Facts, vars: u32, step: &Step) -> bool
    requires { facts.old.vars ≡ vars }
    ensures { facts.new.vars ≡ vars }
{
    match step {
        Step::Add(a, b) => adds(facts, vars, *a, *b),
        Step::Kill(var) => kills(facts, vars, *var),
        Step::Shift(var, c) => shifts(facts, vars, *var, *c),
        Step::With(a, b, count) => is_path_of(asked_within(facts, vars, *a, *b), *count),
        Step::Yes(a, b) => matches!(asked_within(facts, vars, *a, *b), Found::Path(_)),
        Step::No(a, b) => matches!(asked_within(facts, vars, *a, *b), Found::Nothing),
    }
}

// Whether a table takes steps, one after another.
fn takes_all(facts: &mut Facts, vars: u32, steps: &[Step]) -> bool
    requires { facts.old.vars ≡ vars }
    ensures { facts.new.vars ≡ vars }
{
    for step in steps {
        if !takes(facts, vars, step) {
            return false;
        }
    }
    true
}

// Whether a new table takes steps.
fn holds(alloc: Global, vars: u32, steps: &[Step]) -> bool
    requires { vars ≤ 4096 }
{
    match Facts::new(alloc, vars) {
        Ok(mut facts) => takes_all(&mut facts, vars, steps),
        Err(_) => false,
    }
}

// `x0 + 1 <= x1` and `x1 + 2 <= x2`.
static CHAIN: [Step; 2] = [Step::Add(X(0, 1), X(1, 0)), Step::Add(X(1, 2), X(2, 0))];

static FOLLOWED: [Step; 8] = [
    Step::Add(X(0, 1), X(1, 0)),
    Step::Add(X(1, 2), X(2, 0)),
    Step::With(X(0, 3), X(2, 0), 2),
    Step::No(X(0, 4), X(2, 0)),
    Step::Kill(1),
    Step::With(X(0, 3), X(2, 0), 1),
    Step::No(X(0, 4), X(2, 0)),
    Step::No(X(0, 1), X(1, 0)),
];

static SHIFTED: [Step; 6] = [
    Step::Add(X(0, 0), X(1, 0)),
    Step::Shift(0, 1),
    Step::With(X(0, -1), X(1, 0), 1),
    Step::No(X(0, 0), X(1, 0)),
    // A contradiction, from which all follows.
    Step::Add(X(0, 1), X(0, 0)),
    Step::Yes(X(2, 5), X(1, 0)),
];

// Sums of the greatest constants.
static FAR: [Step; 8] = [
    Step::Add(X(0, i64::MAX), X(1, 0)),
    Step::Add(X(1, i64::MAX), X(2, 0)),
    Step::Add(X(2, i64::MAX), X(3, 0)),
    Step::With(X(0, i64::MAX), X(3, -i64::MAX), 3),
    Step::No(X(3, -i64::MAX), X(0, i64::MAX)),
    Step::Kill(1),
    Step::Kill(2),
    Step::With(X(0, i64::MAX), X(3, -i64::MAX), 1),
];

// Whether facts are followed and shifted, and contradict each other.
fn entails_so(alloc: Global) -> bool {
    holds(alloc, 3, &FOLLOWED) && holds(alloc, 3, &SHIFTED) && holds(alloc, 4, &FAR)
}

static OTHER: [Step; 2] = [Step::Kill(0), Step::Add(X(0, 2), X(2, 0))];

static JOINED: [Step; 4] = [
    Step::Yes(X(0, 2), X(2, 0)),
    Step::No(X(0, 3), X(2, 0)),
    Step::Yes(X(1, 2), X(2, 0)),
    Step::No(X(0, 1), X(1, 0)),
];

// Whether a table joined with another keeps what both entail.
fn joins(facts: &mut Facts, other: &Facts) -> bool
    requires here { facts.old.vars ≡ 3 }
    requires there { other.now.vars ≡ 3 }
{
    facts.join(other).is_ok() && takes_all(facts, 3, &JOINED)
}

// Whether a table joined with its copy, which went on by itself, keeps what both entail.
fn joins_copy(facts: &mut Facts) -> bool
    requires { facts.old.vars ≡ 3 }
{
    match facts.copy() {
        Ok(mut other) => takes_all(&mut other, 3, &OTHER) && joins(facts, &other),
        Err(_) => false,
    }
}

// Whether the chain, joined with its copy, keeps what both entail.
fn chain_joins_copy(alloc: Global) -> bool {
    match Facts::new(alloc, 3) {
        Ok(mut facts) => takes_all(&mut facts, 3, &CHAIN) && joins_copy(&mut facts),
        Err(_) => false,
    }
}

static LONG: [Step; 2] = [
    Step::With(X(0, 256), X(256, 0), 256),
    Step::No(X(0, 257), X(256, 0)),
];

// Whether each of 257 variables is taken to be at least one below the next.
fn takes_chain(facts: &mut Facts) -> bool
    requires { facts.old.vars ≡ 257 }
    ensures { facts.new.vars ≡ 257 }
{
    for var in 0..256u32 {
        if !takes(facts, 257, &Step::Add(X(var, 1), X(var + 1, 0))) {
            return false;
        }
    }
    true
}

// Whether a long chain is followed.
fn follows_chain(alloc: Global) -> bool {
    match Facts::new(alloc, 257) {
        Ok(mut facts) => takes_chain(&mut facts) && takes_all(&mut facts, 257, &LONG),
        Err(_) => false,
    }
}

/// Fails unless facts entail what they must, and nothing else.
pub fn entailment(alloc: Global) -> Result<(), Fail> {
    expect(
        "facts",
        entails_so(alloc) && chain_joins_copy(alloc) && follows_chain(alloc),
    )?;
    expect("random facts", random_questions(alloc))?;
    expect(
        "elements and constants",
        counts_elements(alloc) && limits_constants(),
    )
}
