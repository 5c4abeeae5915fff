// What becomes of all pointers at once.

ghost use Rattle.std.specs.Prelude.{◌≡◌, ◌<◌, Bool, List, false, fold, length, map};
ghost use Rattle.std.specs.List.{All};
ghost use Rattle.bounds_flow.specs.declared.held.Held.{Held};
ghost use Rattle.bounds_flow.specs.Pointers.{maybe_null};
ghost use Rattle.bounds_flow.specs.Flows.{change_at, joined_held, number_held, rejoined_held};
ghost use Rattle.bounds_flow.specs.Changes.{IsChangeSmall, changed};

use crate::effects::{join, join_over, leave, replace_base, replace_number, reset, settle, shift};
use crate::held::Held;
use bounds_exprs::term::Term;

/// What becomes of all pointers.
#[derive(Clone, Copy)]
pub enum Change {
    /// So much was added to the variable.
    Shift(u32, i64),
    /// The variable was assigned something else.
    Number(u32),
    /// The pointer was assigned, itself plus the constant if there is one.
    Base(u32, Option<i64>),
    /// The variable left its scope.
    Leave(u32),
    /// A loop begins.
    Head,
    /// All pointers meet their declared bounds.
    Settle,
}

/// The change after an `int` variable was assigned a term, or something that has none.
pub fn number_change(var: u32, to: Option<Term>) -> Change
    ensures small { IsChangeSmall result }
    ensures change { (assigned : List Bool) (held : List Held) → number_held var to assigned held ≡ map (changed assigned result) held }
{
    match to {
        None => Change::Number(var),
        Some(t) => {
            if t.var == Some(var) {
                Change::Shift(var, t.plus)
            } else {
                Change::Number(var)
            }
        }
    }
}

/// What becomes of one pointer.
fn change_one(h: &Held, change: &Change, assigned: &[bool]) -> Held
    requires { IsChangeSmall change.now }
    ensures { result ≡ changed assigned.now change.now h.now }
{
    match change {
        Change::Shift(var, c) => shift(h, *var, *c),
        Change::Number(var) => replace_number(h, *var, assigned),
        Change::Base(pointer, moved) => replace_base(h, *pointer, *moved),
        Change::Leave(var) => leave(h, *var),
        Change::Head => reset(h),
        Change::Settle => settle(h),
    }
}

/// Changes all pointers.
pub fn change_all(held: &mut [Held], change: &Change, assigned: &[bool])
    requires { IsChangeSmall change.now }
    ensures { held.new ≡ map (changed assigned.now change.now) held.old }
{
    for h in held.iter_mut() {
        *h = change_one(h, change, assigned);
    }
}

/// These aren't known any more not to be null.
pub fn forget_all(held: &mut [Held], pointers: &[u32])
    requires { All (λ p. p < length held.old) pointers.now }
    ensures { held.new ≡ fold (λ held p. change_at p maybe_null held) held.old pointers.now }
{
    for p in pointers {
        held[*p as usize].known = false;
    }
}

/// All pointers where two ways meet.
pub fn join_all(held: &mut [Held], others: &[Held])
    requires { length others.now ≡ length held.old }
    ensures { held.new ≡ joined_held held.old others.now }
{
    for i in 0..held.len() {
        held[i] = join(&held[i], &others[i]);
    }
}

/// All pointers where two ways through one expression meet, with those from before it.
pub fn rejoin_all(held: &mut [Held], others: &[Held], before: &[Held])
    requires others { length others.now ≡ length held.old }
    requires before { length before.now ≡ length held.old }
    ensures { held.new ≡ rejoined_held before.now held.old others.now }
{
    for i in 0..held.len() {
        held[i] = join_over(before[i].bounds, &held[i], &others[i]);
    }
}

/// No `int` variable is assigned any more.
pub fn clear(assigned: &mut [bool])
    ensures { assigned.new ≡ map (λ was. false) assigned.old }
{
    for was in assigned.iter_mut() {
        *was = false;
    }
}
