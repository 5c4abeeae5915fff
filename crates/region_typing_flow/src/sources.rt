// What a local pointer is assigned.

ghost use Rattle.std.specs.Prelude.{◌≡◌};
ghost use Rattle.bounds_flow.specs.Conditions.{IsSourceBelow};
ghost use Rattle.ckc_core.specs.Core.{expression as expression_of};
ghost use Rattle.region_typing_rules.specs.Knowing.{are_below as are_below_of, given_bounds as given_bounds_of, given_from as given_from_of, is_below as is_below_of, known_source as known_source_of, source as source_of};

use crate::conditions::is_null;
use crate::readings::{based_bounds, own_bounds};
use bounds_exprs::term::Bounds;
use bounds_flow::steps::Source;
use ckc_core::program::Expr;
use pointer_modes::ctype::Kind;

/// Whether a variable is below this number, or there is none.
pub fn is_below(vars: u32, var: Option<u32>) -> bool
    ensures { result ≡ is_below_of vars var }
{
    match var {
        None => true,
        Some(var) => var < vars,
    }
}

// Whether both ends of bounds speak of variables below this number, or of none.
fn are_below(vars: u32, b: &Bounds) -> bool
    ensures { result ≡ are_below_of vars b.now }
{
    is_below(vars, b.lo.var) && is_below(vars, b.hi.var)
}

// The bounds from a base, where it is the declared one, and else those at the node.
fn given_from(base: Option<u32>, based: Option<Bounds>, own: Option<Bounds>) -> Option<Bounds>
    ensures { result ≡ given_from_of base based own }
{
    match based {
        None => own,
        Some(b) => { if base == b.base { Some(b) } else { own } }
    }
}

// The bounds that a local pointer is given with a value.
fn given_bounds(declared: Option<Bounds>, value: &Expr) -> Option<Bounds>
    ensures { result ≡ given_bounds_of declared (expression_of value.now) }
{
    let own = own_bounds(value);
    match declared {
        None => own,
        Some(declared) => given_from(declared.base, based_bounds(value), own),
    }
}

// A pointer with bounds that speak of variables below this number, or a pointer of whose bounds nothing is known.
fn known_source(vars: u32, bounds: Option<Bounds>) -> Source
    ensures value { result ≡ known_source_of vars bounds }
    ensures below { IsSourceBelow vars result }
{
    match bounds {
        None => Source::Lost,
        Some(b) => {
            if are_below(vars, &b) {
                Source::Known(b)
            } else {
                Source::Lost
            }
        }
    }
}

/// What a local pointer of a kind and with declared bounds is assigned, where a flow has so many variables: null, or a pointer,
/// of whose bounds something is known only where it counts elements.
pub fn source(vars: u32, kind: Kind, declared: Option<Bounds>, value: &Expr) -> Source
    ensures value { result ≡ source_of vars kind declared (expression_of value.now) }
    ensures below { IsSourceBelow vars result }
{
    if is_null(value) {
        return Source::Null;
    }
    match kind {
        Kind::Array | Kind::Nt => known_source(vars, given_bounds(declared, value)),
        Kind::One => Source::Lost,
    }
}
