// Declared functions, and what is written for the bounds of their parameters and of their results.

ghost use Rattle.std.specs.Prelude.{◌≡◌, ◌≤◌, None, length, slice_index_or, IfOk};
ghost use Rattle.bounds_flow.specs.Pointers.{same_bounds as same_bounds_of, same_term as same_term_of};
ghost use Rattle.region_typing_rules.specs.Items.{same_written as same_written_of, all_same_written as all_same_written_of};
ghost use Rattle.region_typing_rules.specs.Scopes.{bounds_in as bounds_in_written};

use crate::context::Context;
use bounds_exprs::term::{Bounds, Term};
use ckc_text::fault::NoMemory;
use ckc_text::name::Name;
use ckc_tree::item::FunctionKind;
use pointer_modes::ctype::CType;

/// A declared function: its name, its kind, its parameters, and what it returns.
#[derive(Drop)]
pub struct Signature {
    pub name: usize,
    /// How the name is written.
    pub text: Name,
    pub kind: FunctionKind,
    pub parameters: Vec<CType>,
    /// What is written for the bounds of each parameter: nothing, that they are unknown, or bounds over the parameters.
    pub bounds: Vec<Option<Option<Bounds>>>,
    pub result: Option<CType>,
    /// What is written for the bounds of the result.
    pub result_bounds: Option<Option<Bounds>>,
    ghost few: { length parameters.items ≤ 16 },
}

impl Signature {
    /// The bounds that are written for a parameter, where some are, and not that they are unknown.
    pub fn bounds_of(&self, parameter: usize) -> Option<Bounds>
        ensures { result ≡ bounds_in_written (slice_index_or self.now.bounds.items parameter None) }
    {
        match self.bounds.get(parameter) {
            Some(Some(bounds)) => *bounds,
            _ => None,
        }
    }
}

/// The bounds that are written, where some are, and not that they are unknown.
pub fn bounds_in(written: &Option<Option<Bounds>>) -> Option<Bounds>
    ensures { result ≡ bounds_in_written written.now }
{
    match written {
        None => None,
        Some(bounds) => *bounds,
    }
}

fn same_term(a: &Term, b: &Term) -> bool
    ensures { result ≡ same_term_of a.now b.now }
{
    a.var == b.var && a.plus == b.plus
}

fn same_bounds(a: &Option<Bounds>, b: &Option<Bounds>) -> bool
    ensures { result ≡ same_bounds_of a.now b.now }
{
    match (a, b) {
        (None, None) => true,
        (Some(a), Some(b)) => {
            a.base == b.base && same_term(&a.lo, &b.lo) && same_term(&a.hi, &b.hi)
        }
        _ => false,
    }
}

/// Whether the same is written for two bounds.
pub fn same_written(a: &Option<Option<Bounds>>, b: &Option<Option<Bounds>>) -> bool
    ensures { result ≡ same_written_of a.now b.now }
{
    match (a, b) {
        (None, None) => true,
        (Some(a), Some(b)) => same_bounds(a, b),
        _ => false,
    }
}

/// A copy of what is written for the bounds of parameters.
pub fn copied_bounds(
    context: &Context,
    written: &[Option<Option<Bounds>>],
) -> Result<Vec<Option<Option<Bounds>>>, NoMemory>
    ensures { IfOk result (λ copy. copy.items ≡ written.now) }
{
    let mut copy = Vec::new(context.alloc());
    copy.extend_from_slice(written)?;
    Ok(copy)
}

/// Whether the same is written for the bounds of the parameters of two functions.
pub fn all_same_written(a: &[Option<Option<Bounds>>], b: &[Option<Option<Bounds>>]) -> bool
    ensures { result ≡ all_same_written_of a.now b.now }
{
    match a {
        [] => b.is_empty(),
        [x, xs @ ..] => match b {
            [] => false,
            [y, ys @ ..] => same_written(x, y) && all_same_written(xs, ys),
        },
    }
}
