// Settling: whether each pointer's bounds in force meet its declared ones.

ghost use Rattle.std.specs.Prelude.{◌≤◌, IfOk, length};
ghost use Rattle.std.specs.List.{All};
ghost use Rattle.subsumption.specs.Facts.{IsBelow};
ghost use Rattle.bounds_flow.specs.Settling.{Answers, AnswersAsked, Tells, bounds_find, ends_find, finding};
ghost use Rattle.bounds_flow.specs.Conditions.{AreBoundsBelow, AreEndsBelow, IsHeldBelow};

use crate::held::{Held, Mark};
use crate::steps::Settled;
use bounds_exprs::term::{Bounds, Term};
use ckc_text::fault::NoMemory;
use subsumption::fact::{Answer, Valuation};
use subsumption::facts::Facts;

/// A valuation that meets the facts and breaks that the one term is at most the other, where there is one.
fn counter(facts: &Facts, low: &Term, high: &Term) -> Result<Option<Valuation>, NoMemory>
    requires low_below { IsBelow facts.now.vars low.now.var }
    requires high_below { IsBelow facts.now.vars high.now.var }
    ensures { IfOk result (AnswersAsked facts.now.vars facts.now.table (record { low = low.now; high = high.now })) }
{
    facts.is_narrow();
    match facts.entails(low, high)? {
        Answer::Yes(_) => Ok(None),
        Answer::No(valuation) => Ok(Some(valuation)),
    }
}

/// Whether ends in force lie around the declared ones, the lower end first.
fn settle_ends(facts: &Facts, declared: &Bounds, b: &Bounds, p: u32) -> Result<Settled, NoMemory>
    requires declared_below { AreEndsBelow facts.now.vars declared.now }
    requires below { AreEndsBelow facts.now.vars b.now }
    ensures { IfOk result (Tells facts.now.vars facts.now.table (ends_find facts.now.table declared.now b.now) p) }
{
    if let Some(valuation) = counter(facts, &b.lo, &declared.lo)? {
        return Ok(Settled::Unproved(p, Some(valuation)));
    }
    if let Some(valuation) = counter(facts, &declared.hi, &b.hi)? {
        return Ok(Settled::Unproved(p, Some(valuation)));
    }
    Ok(Settled::Kept)
}

/// Whether bounds in force, if there are any, meet the declared ones.
fn settle_bounds(
    facts: &Facts,
    declared: &Bounds,
    bounds: &Option<Bounds>,
    p: u32,
) -> Result<Settled, NoMemory>
    requires declared_below { AreEndsBelow facts.now.vars declared.now }
    requires below { AreBoundsBelow facts.now.vars bounds.now }
    ensures { IfOk result (Tells facts.now.vars facts.now.table (bounds_find facts.now.table declared.now bounds.now) p) }
{
    match bounds {
        None => Ok(Settled::Unproved(p, None)),
        Some(b) => {
            if declared.base == b.base {
                settle_ends(facts, declared, b, p)
            } else {
                Ok(Settled::Unproved(p, None))
            }
        }
    }
}

/// Whether a pointer meets its declared bounds.
fn settle_one(facts: &Facts, h: &Held, p: u32) -> Result<Settled, NoMemory>
    requires { IsHeldBelow facts.now.vars h.now }
    ensures { IfOk result (Tells facts.now.vars facts.now.table (finding facts.now.table h.now) p) }
{
    match &h.declared {
        None => Ok(Settled::Kept),
        Some(declared) => match h.mark {
            Mark::WasNull => Ok(Settled::Kept),
            Mark::Lost => Ok(Settled::Lost(p)),
            Mark::Settled | Mark::Changed => settle_bounds(facts, declared, &h.bounds, p),
        },
    }
}

/// The first pointer that doesn't meet its declared bounds.
pub fn first_unmet(facts: &Facts, held: &[Held]) -> Result<Settled, NoMemory>
    requires below { All (IsHeldBelow facts.now.vars) held.now }
    requires few { length held.now ≤ 4096 }
    ensures { IfOk result (Answers facts.now.vars facts.now.table held.now) }
{
    for p in 0..held.len() {
        let answer = settle_one(facts, &held[p], p as u32)?;
        match answer {
            Settled::Kept => {}
            _ => return Ok(answer),
        }
    }
    Ok(Settled::Kept)
}
