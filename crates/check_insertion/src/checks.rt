// What has to hold of a pointer before it is used.

ghost use Rattle.std.specs.Prelude.{◌≡◌, ◌∷◌, [], IfOk};
ghost use Rattle.ckc_core.specs.Core.{expression, index as index_of};
ghost use Rattle.ckc_core.specs.Meaning.{bounds_of as bounds_of_expression};
ghost use Rattle.check_insertion.specs.declared.erased.Check.TheVariants.{NotNull};
ghost use Rattle.check_insertion.specs.Insert as insert;

use crate::erased::{Check, Reading};
use ckc_core::program::{Expr, Index, PointerBounds, Site};
use ckc_text::fault::NoMemory;
use std::alloc::Global;

// The bounds at the node of a pointer.
fn bounds_of(pointer: &Expr) -> Option<PointerBounds>
    ensures { result ≡ bounds_of_expression (expression pointer.now) }
{
    match pointer {
        Expr::Local { bounds, .. }
        | Expr::Load { bounds, .. }
        | Expr::AddressOf { bounds, .. }
        | Expr::Call { bounds, .. }
        | Expr::Sum { bounds, .. }
        | Expr::Allocate { bounds, .. }
        | Expr::Cast { bounds, .. } => *bounds,
        Expr::Number(_)
        | Expr::Null
        | Expr::Negate { .. }
        | Expr::Complement(_)
        | Expr::Not(_)
        | Expr::Arithmetic { .. }
        | Expr::Compare { .. }
        | Expr::Same { .. }
        | Expr::AndAlso { .. }
        | Expr::OrElse { .. }
        | Expr::LowByte(_)
        | Expr::NextInput
        | Expr::Order { .. }
        | Expr::Length { .. } => None,
    }
}

// Bounds that a check at a site reads.
fn read_at(bounds: PointerBounds, site: Site) -> Reading
    ensures { result ≡ insert.read_at bounds site }
{
    Reading {
        bounds: bounds.bounds,
        site,
    }
}

/// The bytes of an element of a pointer that has bounds.
pub fn size_of(pointer: &Expr) -> u32
    ensures { result ≡ insert.size_of (bounds_of_expression (expression pointer.now)) }
{
    match bounds_of(pointer) {
        Some(bounds) => bounds.size,
        None => 1,
    }
}

/// That a pointer isn't null.
pub fn not_null(alloc: Global, site: Site) -> Result<Vec<Check>, NoMemory>
    ensures { IfOk result (λ checks. checks.items ≡ NotNull site ∷ []) }
{
    Ok(vec![in alloc; Check::NotNull { site }]?)
}

/// What has to hold of a pointer before an access.
pub fn access_checks(
    alloc: Global,
    pointer: &Expr,
    index: &Index,
    site: Site,
) -> Result<Vec<Check>, NoMemory>
    ensures { IfOk result (λ checks. checks.items ≡ insert.access_checks (bounds_of_expression (expression pointer.now)) (index_of index.now) site) }
{
    let mut checks = not_null(alloc, site)?;
    match (index, bounds_of(pointer)) {
        (Index::Element { terminated, .. }, Some(bounds)) => {
            checks.push(within(*terminated, read_at(bounds, site)))?;
        }
        (Index::Element { .. }, None) | (Index::First, _) => {}
    }
    Ok(checks)
}

// That an element lies within bounds, or at the upper end where these are null-terminated.
fn within(terminated: bool, reading: Reading) -> Check
    ensures { result ≡ insert.within terminated reading }
{
    if terminated {
        Check::UpTo(reading)
    } else {
        Check::Below(reading)
    }
}

/// The bounds at whose upper end nothing but 0 is stored, if there are any.
pub fn store_end(pointer: &Expr, index: &Index, site: Site) -> Option<Reading>
    ensures { result ≡ insert.store_end (bounds_of_expression (expression pointer.now)) (index_of index.now) site }
{
    match (index, bounds_of(pointer)) {
        (
            Index::Element {
                terminated: true,
                ..
            },
            Some(bounds),
        ) => Some(read_at(bounds, site)),
        (Index::Element { .. } | Index::First, _) => None,
    }
}

/// What has to hold of a pointer before it is moved, or its bytes are counted.
pub fn sum_checks(alloc: Global, pointer: &Expr, site: Site) -> Result<Vec<Check>, NoMemory>
    ensures { IfOk result (λ checks. checks.items ≡ insert.sum_checks (bounds_of_expression (expression pointer.now)) site) }
{
    let mut checks = not_null(alloc, site)?;
    if let Some(bounds) = bounds_of(pointer) {
        checks.push(Check::UpTo(read_at(bounds, site)))?;
    }
    Ok(checks)
}

/// What has to hold of a pointer before it has other bounds.
pub fn cast_checks(
    alloc: Global,
    pointer: &Expr,
    bounds: Option<PointerBounds>,
) -> Result<Vec<Check>, NoMemory>
    ensures { IfOk result (λ checks. checks.items ≡ insert.cast_checks (bounds_of_expression (expression pointer.now)) bounds) }
{
    let mut checks = Vec::new(alloc);
    if let (Some(old), Some(new)) = (bounds_of(pointer), bounds) {
        let (old, new) = (read_at(old, new.site), read_at(new, new.site));
        checks.push(Check::Contains { old, new })?;
    }
    Ok(checks)
}
