// Changes of facts by the steps of a flow.

ghost use Rattle.std.specs.Prelude.{◌≡◌, ◌<◌, fold, OnOk};
ghost use Rattle.std.specs.List.{All};
ghost use Rattle.bounds_exprs.specs.Terms.{term_limit};
ghost use Rattle.subsumption.specs.Graphs.{IsWithin};
ghost use Rattle.subsumption.specs.Facts.{IsBelow, fact_of};
ghost use Rattle.subsumption.specs.ClosedTables.{with_fact, without};
ghost use Rattle.bounds_flow.specs.Flows.{next, number_facts, opposite, variable, with_comparison, with_equal};
ghost use Rattle.bounds_flow.specs.Conditions.{IsTermBelow, IsTermWithin};

use crate::steps::How;
use bounds_exprs::term::Term;
use ckc_text::fault::NoMemory;
use subsumption::facts::Facts;

/// Adds that the terms are equal.
fn add_equal(facts: &mut Facts, a: Term, b: Term) -> Result<(), NoMemory>
    requires a_below { IsBelow facts.old.vars a.var }
    requires b_below { IsBelow facts.old.vars b.var }
    ensures vars { facts.new.vars ≡ facts.old.vars }
    ensures table { OnOk result (facts.new.table ≡ with_equal facts.old.vars a b facts.old.table) }
{
    facts.add(a, b)?;
    facts.add(b, a)?;
    Ok(())
}

/// The facts after a variable was assigned a term that doesn't name it.
fn replace(facts: &mut Facts, var: u32, to: Term) -> Result<(), NoMemory>
    requires below { var < facts.old.vars }
    requires to_below { IsBelow facts.old.vars to.var }
    ensures vars { facts.new.vars ≡ facts.old.vars }
    ensures table { OnOk result (facts.new.table ≡ with_equal facts.old.vars (variable var) to (without facts.old.vars var facts.old.table)) }
{
    facts.kill(var)?;
    let own = Term {
        var: Some(var),
        plus: 0,
    };
    add_equal(facts, own, to)?;
    Ok(())
}

/// The facts after an `int` variable was assigned a term, or something that has none.
pub fn assign_number(facts: &mut Facts, var: u32, to: Option<Term>) -> Result<(), NoMemory>
    requires below { var < facts.old.vars }
    requires to_below { IsTermBelow facts.old.vars to }
    ensures vars { facts.new.vars ≡ facts.old.vars }
    ensures table { OnOk result (facts.new.table ≡ number_facts facts.old.vars var to facts.old.table) }
{
    match to {
        None => facts.kill(var)?,
        Some(t) => {
            if t.var == Some(var) {
                facts.shift(var, t.plus)?;
            } else {
                replace(facts, var, t)?;
            }
        }
    }
    Ok(())
}

/// What holds where the comparison doesn't.
pub fn negate(how: How) -> How
    ensures { result ≡ opposite how }
{
    match how {
        How::Lt => How::Ge,
        How::Le => How::Gt,
        How::Gt => How::Le,
        How::Ge => How::Lt,
        How::Eq => How::Ne,
        How::Ne => How::Eq,
    }
}

/// One more than a term.
fn next_term(t: &Term) -> Term
    requires { IsWithin term_limit t.now.plus }
    ensures { result ≡ next t.now }
{
    Term {
        var: t.var,
        plus: t.plus + 1,
    }
}

/// Adds that the first term is less than the second.
fn add_less(facts: &mut Facts, a: Term, b: Term) -> Result<(), NoMemory>
    requires a_within { IsTermWithin facts.old.vars a }
    requires b_within { IsTermWithin facts.old.vars b }
    ensures vars { facts.new.vars ≡ facts.old.vars }
    ensures table { OnOk result (facts.new.table ≡ with_fact facts.old.vars (fact_of (next a) b) facts.old.table) }
{
    facts.add(next_term(&a), b)?;
    Ok(())
}

/// Adds that the first term is at most the second.
fn add_at_most(facts: &mut Facts, a: Term, b: Term) -> Result<(), NoMemory>
    requires a_within { IsTermWithin facts.old.vars a }
    requires b_within { IsTermWithin facts.old.vars b }
    ensures vars { facts.new.vars ≡ facts.old.vars }
    ensures table { OnOk result (facts.new.table ≡ with_fact facts.old.vars (fact_of a b) facts.old.table) }
{
    facts.add(a, b)?;
    Ok(())
}

/// Adds that two terms compare so.
pub fn compare(facts: &mut Facts, how: How, a: Term, b: Term) -> Result<(), NoMemory>
    requires a_within { IsTermWithin facts.old.vars a }
    requires b_within { IsTermWithin facts.old.vars b }
    ensures vars { facts.new.vars ≡ facts.old.vars }
    ensures table { OnOk result (facts.new.table ≡ with_comparison facts.old.vars how a b facts.old.table) }
{
    match how {
        How::Lt => add_less(facts, a, b),
        How::Le => add_at_most(facts, a, b),
        How::Gt => add_less(facts, b, a),
        How::Ge => add_at_most(facts, b, a),
        How::Eq => add_equal(facts, a, b),
        How::Ne => Ok(()),
    }
}

/// The facts without each of the variables.
pub fn kill_all(facts: &mut Facts, vars: &[u32]) -> Result<(), NoMemory>
    requires { All (λ x. x < facts.old.vars) vars.now }
    ensures vars { facts.new.vars ≡ facts.old.vars }
    ensures table { OnOk result (facts.new.table ≡ fold (λ t x. without facts.old.vars x t) facts.old.table vars.now) }
{
    for var in vars {
        facts.kill(*var)?;
    }
    Ok(())
}
