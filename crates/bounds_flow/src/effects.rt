// What becomes of one pointer.

ghost use Rattle.std.specs.Prelude.{◌≡◌};
ghost use Rattle.bounds_flow.specs.Pointers.{after_base, after_leaving, after_number, after_shift, assigned_from, bounds_from, dropped, fresh, is_assigned, is_settled, joined_over, joined_with, lost, mark_from, moved_off, moved_to, no_pointer, same_bounds, same_term, settled_pointer, speaks_of, stays_true, with_declared};
ghost use Rattle.bounds_flow.specs.Conditions.{IsSmall};

use crate::held::{Held, Mark};
use crate::steps::Source;
use bounds_exprs::term::{Bounds, Term};

/// What is known of a variable that is no pointer in scope.
pub fn nothing() -> Held
    ensures { result ≡ no_pointer }
{
    Held {
        declared: None,
        bounds: None,
        known: false,
        mark: Mark::Settled,
    }
}

/// What is known of a pointer that comes into scope.
pub fn declare(declared: Option<Bounds>) -> Held
    ensures { result ≡ fresh declared }
{
    Held {
        declared,
        bounds: declared,
        known: false,
        mark: Mark::Settled,
    }
}

/// The pointer with its declared bounds in force.
pub fn reset(h: &Held) -> Held
    ensures { result ≡ with_declared h.now }
{
    Held {
        bounds: h.declared,
        ..*h
    }
}

/// The pointer with no bounds left.
fn lose(h: &Held) -> Held
    ensures { result ≡ lost h.now }
{
    Held {
        bounds: None,
        mark: Mark::Lost,
        ..*h
    }
}

/// The pointer with these bounds, where there are any left.
fn move_to(h: &Held, bounds: Option<Bounds>) -> Held
    ensures { result ≡ moved_to bounds h.now }
{
    match bounds {
        None => lose(h),
        Some(b) => Held {
            bounds: Some(b),
            mark: Mark::Changed,
            ..*h
        },
    }
}

/// The pointer after `c` was added to the variable.
pub fn shift(h: &Held, var: u32, c: i64) -> Held
    ensures { result ≡ after_shift var c h.now }
{
    match h.bounds {
        None => *h,
        Some(b) => {
            if b.names(var) {
                move_to(h, b.after_shift(var, c))
            } else {
                *h
            }
        }
    }
}

/// Whether the variable was assigned.
fn was_assigned(assigned: &[bool], var: Option<u32>) -> bool
    ensures { result ≡ is_assigned assigned.now var }
{
    match var {
        None => false,
        Some(var) => {
            let index = var as usize;
            if index < assigned.len() {
                assigned[index]
            } else {
                false
            }
        }
    }
}

/// Whether there are bounds of which neither end names a variable that was assigned.
fn stay_true(assigned: &[bool], bounds: Option<Bounds>) -> bool
    ensures { result ≡ stays_true assigned.now bounds }
{
    match bounds {
        None => false,
        Some(b) => !(was_assigned(assigned, b.lo.var) || was_assigned(assigned, b.hi.var)),
    }
}

fn settled(mark: Mark) -> bool
    ensures { result ≡ is_settled mark }
{
    match mark {
        Mark::Settled => true,
        _ => false,
    }
}

/// The pointer whose bounds can't be kept: with its declared ones, where these hold as they did, or with none.
fn drop_bounds(h: &Held, assigned: &[bool]) -> Held
    ensures { result ≡ dropped assigned.now h.now }
{
    if settled(h.mark) && stay_true(assigned, h.declared) {
        reset(h)
    } else {
        lose(h)
    }
}

/// The pointer after the variable was assigned something else.
pub fn replace_number(h: &Held, var: u32, assigned: &[bool]) -> Held
    ensures { result ≡ after_number var assigned.now h.now }
{
    match h.bounds {
        None => *h,
        Some(b) => {
            if b.names(var) {
                drop_bounds(h, assigned)
            } else {
                *h
            }
        }
    }
}

/// The bounds after their base was assigned itself plus a constant, where it was.
fn move_off(b: &Bounds, moved: Option<i64>) -> Option<Bounds>
    requires { IsSmall moved }
    ensures { result ≡ moved_off moved b.now }
{
    match moved {
        None => None,
        Some(c) => b.moved(-c),
    }
}

/// The pointer after another one was assigned.
pub fn replace_base(h: &Held, pointer: u32, moved: Option<i64>) -> Held
    requires { IsSmall moved }
    ensures { result ≡ after_base pointer moved h.now }
{
    match h.bounds {
        None => *h,
        Some(b) => {
            if b.has_base(pointer) {
                move_to(h, move_off(&b, moved))
            } else {
                *h
            }
        }
    }
}

/// The bounds that a pointer gets.
fn bounds_of(pointer: u32, moved: Option<i64>, from: &Source) -> Option<Bounds>
    requires { IsSmall moved }
    ensures { result ≡ bounds_from pointer moved from.now }
{
    match from {
        Source::Known(b) => {
            if b.has_base(pointer) {
                let own = Bounds { base: None, ..*b };
                move_off(&own, moved)
            } else {
                Some(*b)
            }
        }
        _ => None,
    }
}

fn mark_of(from: &Source) -> Mark
    ensures { result ≡ mark_from from.now }
{
    match from {
        Source::Null => Mark::WasNull,
        _ => Mark::Changed,
    }
}

/// A pointer after it was assigned.
pub fn assign(h: &Held, pointer: u32, from: &Source, moved: Option<i64>, not_null: bool) -> Held
    requires { IsSmall moved }
    ensures { result ≡ assigned_from pointer from.now moved not_null h.now }
{
    Held {
        declared: h.declared,
        bounds: bounds_of(pointer, moved, from),
        known: not_null,
        mark: mark_of(from),
    }
}

fn are_same_terms(a: &Term, b: &Term) -> bool
    ensures { result ≡ same_term a.now b.now }
{
    a.var == b.var && a.plus == b.plus
}

fn are_same(a: &Option<Bounds>, b: &Option<Bounds>) -> bool
    ensures { result ≡ same_bounds a.now b.now }
{
    match (a, b) {
        (None, None) => true,
        (Some(a), Some(b)) => {
            a.base == b.base && are_same_terms(&a.lo, &b.lo) && are_same_terms(&a.hi, &b.hi)
        }
        _ => false,
    }
}

/// The pointer where two ways meet, which has other bounds where those of the two ways differ.
pub fn join_over(bounds: Option<Bounds>, h: &Held, other: &Held) -> Held
    ensures { result ≡ joined_over bounds h.now other.now }
{
    let bounds = if are_same(&h.bounds, &other.bounds) {
        h.bounds
    } else {
        bounds
    };
    Held {
        bounds,
        known: h.known && other.known,
        ..*h
    }
}

/// The pointer where two ways meet.
pub fn join(h: &Held, other: &Held) -> Held
    ensures { result ≡ joined_with h.now other.now }
{
    join_over(h.declared, h, other)
}

fn speak_of(b: &Bounds, var: u32) -> bool
    ensures { result ≡ speaks_of var b.now }
{
    b.has_base(var) || b.names(var)
}

/// The pointer after another variable left its scope.
pub fn leave(h: &Held, var: u32) -> Held
    ensures { result ≡ after_leaving var h.now }
{
    match h.bounds {
        None => *h,
        Some(b) => { if speak_of(&b, var) { reset(h) } else { *h } }
    }
}

/// The pointer after a settling.
pub fn settle(h: &Held) -> Held
    ensures { result ≡ settled_pointer h.now }
{
    let bounds = if settled(h.mark) {
        h.bounds
    } else {
        h.declared
    };
    Held {
        bounds,
        mark: Mark::Settled,
        ..*h
    }
}
