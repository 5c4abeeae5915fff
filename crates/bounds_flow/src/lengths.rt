// Null-terminated pointers: elements that aren't zero, and lengths.

ghost use Rattle.std.specs.Prelude.{◌≡◌, IfOk};
ghost use Rattle.subsumption.specs.Facts.{IsBelow};
ghost use Rattle.bounds_flow.specs.Conditions.{AreBoundsBelow, IsHeldBelow};
ghost use Rattle.bounds_flow.specs.Flows.{are_equal, measured, variable, wider};
ghost use Rattle.bounds_flow.specs.Pointers.{is_own, one_further, with_bounds as with_bounds_of};

use crate::held::{Held, Mark};
use bounds_exprs::expression::constant;
use bounds_exprs::term::{Bounds, Term, limited};
use ckc_text::fault::NoMemory;
use subsumption::fact::Answer;
use subsumption::facts::Facts;

/// Whether bounds are there, and count from the pointer itself.
pub fn counts_from_itself(bounds: Option<Bounds>) -> bool
    ensures { result ≡ is_own bounds }
{
    match bounds {
        None => false,
        Some(b) => b.base.is_none(),
    }
}

/// The term of a variable.
pub fn variable_term(var: u32) -> Term
    ensures { result ≡ variable var }
{
    Term {
        var: Some(var),
        plus: 0,
    }
}

/// The bounds that end one element further, where the limit allows it.
fn further(b: Bounds) -> Option<Bounds>
    ensures { result ≡ one_further b }
{
    match limited(b.hi.var, b.hi.plus as i128 + 1) {
        None => None,
        Some(hi) => Some(Bounds { hi, ..b }),
    }
}

// Whether the facts entail that the terms are equal.
fn equal(facts: &Facts, a: &Term, b: &Term) -> Result<bool, NoMemory>
    requires a_below { IsBelow facts.now.vars a.now.var }
    requires b_below { IsBelow facts.now.vars b.now.var }
    ensures { IfOk result (λ equal. equal ≡ are_equal a.now b.now facts.now.table) }
{
    if let Answer::No(_) = facts.entails(a, b)? {
        return Ok(false);
    }
    match facts.entails(b, a)? {
        Answer::Yes(_) => Ok(true),
        Answer::No(_) => Ok(false),
    }
}

/// What the bounds become where the element at the index isn't zero, if that raises their end.
pub fn widen(
    facts: &Facts,
    index: &Term,
    bounds: Option<Bounds>,
) -> Result<Option<Bounds>, NoMemory>
    requires index_below { IsBelow facts.now.vars index.now.var }
    requires bounds_below { AreBoundsBelow facts.now.vars bounds }
    ensures { IfOk result (λ raised. raised ≡ wider index.now facts.now.table bounds) }
{
    match bounds {
        None => Ok(None),
        Some(b) => {
            if b.base.is_none() && equal(facts, index, &b.hi)? {
                Ok(further(b))
            } else {
                Ok(None)
            }
        }
    }
}

/// The pointer with these bounds in force, where there are any.
pub fn with_bounds(h: &Held, bounds: Option<Bounds>) -> Held
    ensures { result ≡ with_bounds_of bounds h.now }
{
    match bounds {
        None => *h,
        Some(b) => Held {
            bounds: Some(b),
            ..*h
        },
    }
}

/// The pointer behind the assignment of its length to a variable.
pub fn measure(facts: &Facts, var: u32, h: &Held) -> Result<Held, NoMemory>
    requires below { IsBelow facts.now.vars (variable var).var }
    requires held_below { IsHeldBelow facts.now.vars h.now }
    ensures { IfOk result (λ own. own ≡ measured var facts.now.table h.now.bounds h.now) }
{
    let length = variable_term(var);
    match h.bounds {
        None => {
            let bounds = Bounds {
                base: None,
                lo: constant(0),
                hi: length,
            };
            Ok(Held {
                bounds: Some(bounds),
                mark: Mark::Changed,
                ..*h
            })
        }
        Some(b) => match facts.entails(&b.hi, &length)? {
            Answer::Yes(_) => Ok(with_bounds(h, Some(Bounds { hi: length, ..b }))),
            Answer::No(_) => Ok(*h),
        },
    }
}
