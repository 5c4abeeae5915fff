// Names in bounds.

ghost use Rattle.std.specs.Prelude.{◌≡◌, Some, slice_get};
ghost use Rattle.pointer_modes.specs.declared.ctype.Kind.{Kind};
ghost use Rattle.pointer_modes.specs.Types.{Pointer, ctype as ctype_of};
ghost use Rattle.bounds_exprs.specs.Sums.{sum};
ghost use Rattle.region_typing_rules.specs.Knowing.{local_number};
ghost use Rattle.region_typing_rules.specs.DeclaredBounds.{bounded_of, local_sum, name_sum};
ghost use Rattle.region_typing_scope.specs.DeclaredViews.{bounded as bounded_view, place as place_view};

use crate::place::Place;
use crate::types::{same_mode, same_type};
use crate::visible::innermost;
use bounds_exprs::form::SumForm;
use pointer_modes::ctype::{CType, Mode};

/// The pointer that bounds are for: its number among the locals, its mode, and its element.
#[derive(Clone, Copy)]
pub struct Bounded<'a> {
    pub own: u32,
    pub mode: Mode,
    pub element: &'a CType,
}

impl<'a> Bounded<'a> {
    /// What bounds of a local of a type are for, where those of one that is no pointer are refused.
    pub fn new(own: u32, t: &'a CType) -> Bounded<'a>
        ensures { bounded_view result ≡ bounded_of own (ctype_of t.now) }
    {
        match t {
            CType::Pointer(mode, _, element) => Bounded {
                own,
                mode: *mode,
                element,
            },
            CType::Int | CType::Char | CType::Struct(_) => Bounded {
                own,
                mode: Mode::Checked,
                element: t,
            },
        }
    }
}

// A local that is a pointer of a mode to a target.
fn pointer_form(p: &Bounded, local: u32, mode: Mode, target: &CType) -> SumForm
    ensures { (kind : Kind) → sum result ≡ local_sum (bounded_view p.now) local (Some (Pointer mode kind (ctype_of target.now))) }
{
    if local == p.own {
        return SumForm::Pointer { var: None };
    }
    if same_mode(p.mode, mode) && same_type(p.element, target) {
        SumForm::Pointer { var: Some(local) }
    } else {
        SumForm::Other
    }
}

// A local of a type.
fn local_form(p: &Bounded, local: u32, t: &CType) -> SumForm
    ensures { sum result ≡ local_sum (bounded_view p.now) local (Some (ctype_of t.now)) }
{
    match t {
        CType::Int => SumForm::Variable { var: local },
        CType::Char | CType::Struct(_) => SumForm::Other,
        CType::Pointer(mode, _, target) => pointer_form(p, local, *mode, target),
    }
}

// A local by its number.
fn numbered_form(place: &Place, p: &Bounded, local: u32) -> SumForm
    ensures { sum result ≡ local_sum (bounded_view p.now) local (slice_get (place_view place.now).locals local) }
{
    match place.locals.get(local as usize) {
        Some(t) => local_form(p, local, t),
        None => SumForm::Other,
    }
}

/// A name in bounds. `NULL` is the number 0.
pub fn name_form(place: &Place, p: &Bounded, name: usize) -> SumForm
    ensures { sum result ≡ name_sum (place_view place.now) (bounded_view p.now) name (local_number (place_view place.now).visible name) }
{
    match innermost(place.visible, name) {
        Some(local) => numbered_form(place, p, local),
        None => {
            if name == place.scope.given.null {
                SumForm::Number(0)
            } else {
                SumForm::Other
            }
        }
    }
}
