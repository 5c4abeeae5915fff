// A table of facts, and questions that it is asked.
//
// The input comes from a generator: x becomes 1,664,525 x + 1,013,904,223 modulo 2^32 (Numerical Recipes), from x = 1,
// and a pick below n is x / 256 modulo n. Variable v has the hidden number 37 v modulo 1,000. A fact picks two
// variables l and r and a slack below 100, and says of them what the hidden numbers meet with that slack; so the facts
// can be met. A question picks two variables and a slack below 200.
//
// A dense table has two facts for each variable and the next one, so that each two have a least constant. A round asks a
// question, shifts a variable, forgets it, and links it again with the next one.

ghost use Rattle.std.specs.Prelude.{◌≡◌, ◌<◌, ◌≤◌, ◌≤ℤ◌, pos, IfSome};
ghost use Rattle.subsumption.specs.Facts.{IsBelow};

use bounds_exprs::term::Term;
use std::alloc::Global;
use subsumption::fact::Answer;
use subsumption::facts::Facts;

#[derive(Drop)]
struct Generator {
    state: u32,
}

impl Generator {
    fn pick(&mut self, n: u32) -> u32
        requires { 0 < n }
        ensures { result < n }
    {
        let next = (self.state as u64 * 1_664_525 + 1_013_904_223) % 4_294_967_296;
        self.state = next as u32;
        self.state / 256 % n
    }
}

fn hidden_number(var: u32) -> i64
    requires { var < 4096 }
    ensures small { result ≤ℤ pos 999 }
    ensures positive { pos 0 ≤ℤ result }
{
    (var * 37 % 1000) as i64
}

// Two terms of which the one is at most the other by the hidden numbers, with a slack below the limit.
fn pick_terms(generator: &mut Generator, vars: u32, limit: u32) -> (Term, Term)
    requires some { 0 < vars }
    requires few { vars ≤ 4096 }
    requires limit { 0 < limit }
    ensures left { IsBelow vars (result.0).var }
    ensures right { IsBelow vars (result.1).var }
{
    let left = generator.pick(vars);
    let right = generator.pick(vars);
    let slack = generator.pick(limit) as i64;
    let plus = hidden_number(right) - hidden_number(left) - slack;
    let var = Some(left);
    (
        Term { var, plus },
        Term {
            var: Some(right),
            plus: 0,
        },
    )
}

// Adds a fact, if memory lasts.
fn add_fact(facts: &mut Facts, generator: &mut Generator, vars: u32) -> bool
    requires some { 0 < vars }
    requires few { vars ≤ 4096 }
    requires same { facts.old.vars ≡ vars }
    ensures { facts.new.vars ≡ vars }
{
    let (a, b) = pick_terms(generator, vars, 100);
    facts.add(a, b).is_ok()
}

// Adds so many facts.
fn add_facts(facts: &mut Facts, generator: &mut Generator, vars: u32, count: u32) -> bool
    requires some { 0 < vars }
    requires few { vars ≤ 4096 }
    requires same { facts.old.vars ≡ vars }
    ensures { facts.new.vars ≡ vars }
{
    for _ in 0..count {
        if !add_fact(facts, generator, vars) {
            return false;
        }
    }
    true
}

// Whether a question is answered by yes.
fn is_entailed(facts: &Facts, generator: &mut Generator, vars: u32) -> Option<bool>
    requires some { 0 < vars }
    requires few { vars ≤ 4096 }
    requires same { facts.now.vars ≡ vars }
{
    let (a, b) = pick_terms(generator, vars, 200);
    match facts.entails(&a, &b) {
        Ok(Answer::Yes(_)) => Some(true),
        Ok(Answer::No(_)) => Some(false),
        Err(_) => None,
    }
}

// How many of so many questions are answered by yes.
fn ask(facts: &Facts, generator: &mut Generator, vars: u32, questions: u32) -> Option<u32>
    requires some { 0 < vars }
    requires few { vars ≤ 4096 }
    requires same { facts.now.vars ≡ vars }
{
    let mut entailed: u32 = 0;
    for _ in 0..questions {
        if is_entailed(facts, generator, vars)? {
            entailed = entailed.saturating_add(1);
        }
    }
    Some(entailed)
}

/// How many of so many questions are answered by yes, over so many facts.
pub fn entailed(alloc: Global, vars: u32, count: u32, questions: u32) -> Option<u32>
    requires some { 0 < vars }
    requires few { vars ≤ 4096 }
{
    let mut generator = Generator { state: 1 };
    let mut facts = Facts::new(alloc, vars).ok()?;
    if add_facts(&mut facts, &mut generator, vars, count) {
        ask(&facts, &mut generator, vars, questions)
    } else {
        None
    }
}

// Adds that the one variable is at most the other, by the hidden numbers with this slack.
fn add_link(facts: &mut Facts, vars: u32, left: u32, right: u32, slack: i64) -> bool
    requires few { vars ≤ 4096 }
    requires left { left < vars }
    requires right { right < vars }
    requires same { facts.old.vars ≡ vars }
    requires low { pos 0 ≤ℤ slack }
    requires high { slack ≤ℤ pos 1000 }
    ensures { facts.new.vars ≡ vars }
{
    let plus = hidden_number(right) - hidden_number(left) - slack;
    let a = Term {
        var: Some(left),
        plus,
    };
    let b = Term {
        var: Some(right),
        plus: 0,
    };
    facts.add(a, b).is_ok()
}

// Links a variable with the next one, both ways.
fn link(facts: &mut Facts, vars: u32, var: u32, slack: i64) -> bool
    requires few { vars ≤ 4096 }
    requires var { var < vars }
    requires same { facts.old.vars ≡ vars }
    requires low { pos 0 ≤ℤ slack }
    requires high { slack ≤ℤ pos 1000 }
    ensures { facts.new.vars ≡ vars }
{
    let next = if var + 1 < vars { var + 1 } else { 0 };
    add_link(facts, vars, var, next, slack) && add_link(facts, vars, next, var, slack)
}

// Links all variables.
fn link_all(facts: &mut Facts, vars: u32, slack: i64) -> bool
    requires few { vars ≤ 4096 }
    requires same { facts.old.vars ≡ vars }
    requires low { pos 0 ≤ℤ slack }
    requires high { slack ≤ℤ pos 1000 }
    ensures { facts.new.vars ≡ vars }
{
    for var in 0..vars {
        if !link(facts, vars, var, slack) {
            return false;
        }
    }
    true
}

// A table in which each two variables have a least constant.
fn dense(alloc: Global, vars: u32, slack: i64) -> Option<Facts>
    requires few { vars ≤ 4096 }
    requires low { pos 0 ≤ℤ slack }
    requires high { slack ≤ℤ pos 1000 }
    ensures { IfSome result (λ facts. facts.vars ≡ vars) }
{
    let mut facts = Facts::new(alloc, vars).ok()?;
    if link_all(&mut facts, vars, slack) {
        Some(facts)
    } else {
        None
    }
}

fn shifts(facts: &mut Facts, vars: u32, var: u32) -> bool
    requires var { var < vars }
    requires same { facts.old.vars ≡ vars }
    ensures { facts.new.vars ≡ vars }
{
    facts.shift(var, 1).is_ok()
}

fn kills(facts: &mut Facts, vars: u32, var: u32) -> bool
    requires var { var < vars }
    requires same { facts.old.vars ≡ vars }
    ensures { facts.new.vars ≡ vars }
{
    facts.kill(var).is_ok()
}

// Shifts a variable, forgets it, and links it again.
fn turn_over(facts: &mut Facts, vars: u32, var: u32) -> bool
    requires few { vars ≤ 4096 }
    requires var { var < vars }
    requires same { facts.old.vars ≡ vars }
    ensures { facts.new.vars ≡ vars }
{
    shifts(facts, vars, var) && kills(facts, vars, var) && link(facts, vars, var, 50)
}

// A round. Whether its question was answered by yes.
fn round(facts: &mut Facts, generator: &mut Generator, vars: u32) -> Option<bool>
    requires some { 0 < vars }
    requires few { vars ≤ 4096 }
    requires same { facts.old.vars ≡ vars }
    ensures { facts.new.vars ≡ vars }
{
    let answer = is_entailed(facts, generator, vars);
    let var = generator.pick(vars);
    if turn_over(facts, vars, var) {
        answer
    } else {
        None
    }
}

// How many of so many rounds' questions are answered by yes.
fn turn(facts: &mut Facts, generator: &mut Generator, vars: u32, rounds: u32) -> Option<u32>
    requires some { 0 < vars }
    requires few { vars ≤ 4096 }
    requires same { facts.old.vars ≡ vars }
{
    let mut entailed: u32 = 0;
    for _ in 0..rounds {
        if round(facts, generator, vars)? {
            entailed = entailed.saturating_add(1);
        }
    }
    Some(entailed)
}

/// How many of so many rounds' questions are answered by yes, in a dense table.
pub fn changed(alloc: Global, vars: u32, rounds: u32) -> Option<u32>
    requires some { 0 < vars }
    requires few { vars ≤ 4096 }
{
    let mut generator = Generator { state: 1 };
    let mut facts = dense(alloc, vars, 50)?;
    turn(&mut facts, &mut generator, vars, rounds)
}

// Joins so often, and counts the joins.
fn join(facts: &mut Facts, other: &Facts, joins: u32) -> u32
    requires { facts.old.vars ≡ other.now.vars }
{
    let mut done: u32 = 0;
    for _ in 0..joins {
        if facts.join(other).is_ok() {
            done = done.saturating_add(1);
        }
    }
    done
}

/// How many of so many joins of dense tables were done.
pub fn joined(alloc: Global, vars: u32, joins: u32) -> Option<u32>
    requires { vars ≤ 4096 }
{
    let mut facts = dense(alloc, vars, 50)?;
    let other = dense(alloc, vars, 60)?;
    Some(join(&mut facts, &other, joins))
}
