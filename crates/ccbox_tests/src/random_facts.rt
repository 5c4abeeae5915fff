// Random facts, and random questions about them.
//
// The input comes from a generator: x becomes 1,664,525 x + 1,013,904,223 modulo 2^32 (Numerical Recipes), from x = 1,
// and a pick below n is x / 256 modulo n. A table has 1 to 12 variables, in turn, and up to twice as many facts, whose
// constants lie within -3 to 3. Of each it is asked 20 questions. A `No` has to meet all facts that were added, and to
// break the goal. A `Yes` has to lead from the goal's one side to the other, or round to where it began with a sum below
// zero; and no numbers of a small box may meet the facts and break the goal: from -2 to 2 for up to 4 variables, 0 and 1 for
// more.

ghost use Rattle.std.specs.Prelude.{◌≡◌, ◌<◌, ◌≤◌, IfSome};
ghost use Rattle.subsumption.specs.Facts.{IsBelow};

use bounds_exprs::term::Term;
use std::alloc::Global;
use subsumption::fact::{Answer, Fact};
use subsumption::facts::Facts;

#[derive(Drop)]
struct Generator {
    state: u32,
}

impl Generator {
    fn pick(&mut self, n: u32) -> u32
        requires { 0 < n }
        ensures { result < n }
    {
        let next = (self.state as u64 * 1_664_525 + 1_013_904_223) % 4_294_967_296;
        self.state = next as u32;
        self.state / 256 % n
    }
}

// A variable, or zero.
fn pick_node(generator: &mut Generator, vars: u32) -> Option<u32>
    requires { vars ≤ 12 }
    ensures { IsBelow vars result }
{
    let node = generator.pick(vars + 1);
    if node == 0 { None } else { Some(node - 1) }
}

// A fact with a constant within -3 to 3.
fn pick_fact(generator: &mut Generator, vars: u32) -> Fact
    requires { vars ≤ 12 }
    ensures left { IsBelow vars result.left }
    ensures right { IsBelow vars result.right }
{
    let left = pick_node(generator, vars);
    let right = pick_node(generator, vars);
    let plus = generator.pick(7) as i128 - 3;
    Fact { left, right, plus }
}

fn number(values: &[i128], x: Option<u32>) -> i128 {
    match x {
        None => 0,
        Some(x) => {
            let place = x as usize;
            if place < values.len() {
                values[place]
            } else {
                0
            }
        }
    }
}

fn meets(values: &[i128], fact: &Fact) -> bool {
    number(values, fact.left) <= number(values, fact.right).wrapping_add(fact.plus)
}

fn meets_all(values: &[i128], facts: &[Fact]) -> bool {
    for fact in facts {
        if !meets(values, fact) {
            return false;
        }
    }
    true
}

// Where facts lead from a node, each going on where the one before ended, and what they come to.
fn chained(path: &[Fact], start: Option<u32>) -> Option<Fact> {
    let mut here = start;
    let mut sum: i128 = 0;
    for fact in path {
        if fact.left != here {
            return None;
        }
        here = fact.right;
        sum = sum.wrapping_add(fact.plus);
    }
    Some(Fact {
        left: start,
        right: here,
        plus: sum,
    })
}

// Whether what facts come to shows a goal.
fn shows(whole: &Fact, goal: &Fact) -> bool {
    let leads = whole.left == goal.left && whole.right == goal.right && whole.plus <= goal.plus;
    leads || whole.left == whole.right && whole.plus < 0
}

fn leads(path: &[Fact], goal: &Fact) -> bool {
    let start = if path.is_empty() {
        goal.left
    } else {
        path[0].left
    };
    match chained(path, start) {
        Some(whole) => shows(&whole, goal),
        None => false,
    }
}

// The numbers of a box: from the one to the other.
#[derive(Clone, Copy)]
struct Range {
    low: i128,
    high: i128,
}

// The next numbers of the box: the first that isn't the highest rises, and those before it begin again.
fn advance(values: &mut [i128], range: Range) {
    for value in values.iter_mut() {
        if *value < range.high {
            *value = value.wrapping_add(1);
            return;
        }
        *value = range.low;
    }
}

// Whether none of so many valuations of the box, from these numbers on, meets the facts and breaks the goal.
fn none_breaks_in(
    values: &mut [i128],
    range: Range,
    count: u32,
    facts: &[Fact],
    goal: &Fact,
) -> bool {
    for _ in 0..count {
        if meets_all(values, facts) && !meets(values, goal) {
            return false;
        }
        advance(values, range);
    }
    true
}

// Whether no valuation of the box meets the facts and breaks the goal: numbers from -2 to 2 of up to four variables, and
// else 0 and 1 of up to twelve.
fn none_breaks(facts: &[Fact], goal: &Fact, vars: u32) -> bool {
    if vars <= 4 {
        let mut values = [-2; 4];
        none_breaks_in(&mut values, Range { low: -2, high: 2 }, 625, facts, goal)
    } else {
        let mut values = [0; 12];
        none_breaks_in(&mut values, Range { low: 0, high: 1 }, 4_096, facts, goal)
    }
}

// Whether an answer is right.
fn is_right(answer: &Answer, facts: &[Fact], vars: u32, goal: &Fact) -> bool {
    match answer {
        Answer::Yes(path) => {
            leads(path.facts.as_slice(), goal) && none_breaks(facts, goal, vars)
        }
        Answer::No(valuation) => {
            let values = valuation.values.as_slice();
            meets_all(values, facts) && !meets(values, goal)
        }
    }
}

// The terms of a fact.
fn terms(fact: &Fact) -> Option<(Term, Term)>
    ensures left { IfSome result (λ terms. (terms.0).var ≡ fact.now.left) }
    ensures right { IfSome result (λ terms. (terms.1).var ≡ fact.now.right) }
{
    let plus = i64::try_from(fact.plus).ok()?;
    let left = Term {
        var: fact.left,
        plus: 0,
    };
    Some((
        left,
        Term {
            var: fact.right,
            plus,
        },
    ))
}

// Adds a random fact to the table and to the list.
fn adds(facts: &mut Facts, added: &mut Vec<Fact>, generator: &mut Generator, vars: u32) -> bool
    requires few { vars ≤ 12 }
    requires same { facts.old.vars ≡ vars }
    ensures { facts.new.vars ≡ vars }
{
    let fact = pick_fact(generator, vars);
    match terms(&fact) {
        Some((a, b)) => facts.add(a, b).is_ok() && added.push(fact).is_ok(),
        None => false,
    }
}

fn adds_all(
    facts: &mut Facts,
    added: &mut Vec<Fact>,
    generator: &mut Generator,
    vars: u32,
    count: u32,
) -> bool
    requires few { vars ≤ 12 }
    requires same { facts.old.vars ≡ vars }
    ensures { facts.new.vars ≡ vars }
{
    for _ in 0..count {
        if !adds(facts, added, generator, vars) {
            return false;
        }
    }
    true
}

// Whether a random question is answered rightly.
fn answers(facts: &Facts, added: &[Fact], generator: &mut Generator, vars: u32) -> bool
    requires few { vars ≤ 12 }
    requires same { facts.now.vars ≡ vars }
{
    let goal = pick_fact(generator, vars);
    match terms(&goal) {
        Some((a, b)) => match facts.entails(&a, &b) {
            Ok(answer) => is_right(&answer, added, vars, &goal),
            Err(_) => false,
        },
        None => false,
    }
}

fn answers_all(facts: &Facts, added: &[Fact], generator: &mut Generator, vars: u32) -> bool
    requires few { vars ≤ 12 }
    requires same { facts.now.vars ≡ vars }
{
    for _ in 0..20 {
        if !answers(facts, added, generator, vars) {
            return false;
        }
    }
    true
}

// Whether 20 questions about a random table are answered rightly.
fn is_table_right(alloc: Global, generator: &mut Generator, vars: u32) -> bool
    requires { vars ≤ 12 }
{
    let mut added = Vec::new(alloc);
    let count = generator.pick(2 * vars + 1);
    match Facts::new(alloc, vars) {
        Ok(mut facts) => {
            adds_all(&mut facts, &mut added, generator, vars, count)
                && answers_all(&facts, added.as_slice(), generator, vars)
        }
        Err(_) => false,
    }
}

/// Whether 10,000 random questions are answered rightly.
pub fn random_questions(alloc: Global) -> bool {
    let mut generator = Generator { state: 1 };
    for turn in 0..500u32 {
        if !is_table_right(alloc, &mut generator, turn % 12 + 1) {
            return false;
        }
    }
    true
}
