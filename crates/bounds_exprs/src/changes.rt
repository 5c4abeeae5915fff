// Changes of bounds, what bounds name, and terms put for parameters.

ghost use Rattle.std.specs.Prelude.{◌≡◌, ◌+ℤ◌, ◌-ℤ◌, None, cond, pos, slice_index_or};
ghost use Rattle.bounds_exprs.specs.Changes.{between, ends_filled_in, filled_in, is_named, lowered, moved_back, moved_by, raised_term};
ghost use Rattle.bounds_exprs.specs.Terms.{is_var, within_limit};

use crate::term::{Bounds, Term, limited};

/// Whether the variable is this one.
fn is_variable(x: Option<u32>, var: u32) -> bool
    ensures { result ≡ is_var var x }
{
    match x {
        None => false,
        Some(x) => x == var,
    }
}

/// The bounds between two ends, where there are both.
fn bounds_of(base: Option<u32>, lo: Option<Term>, hi: Option<Term>) -> Option<Bounds>
    ensures { result ≡ between base lo hi }
{
    match (lo, hi) {
        (Some(lo), Some(hi)) => Some(Bounds { base, lo, hi }),
        _ => None,
    }
}

/// What is added to a term's variable where `c` is added to `var`.
fn step(x: Option<u32>, var: u32, c: i64) -> i64
    ensures { result ≡ cond (is_var var x) c (pos 0) }
{
    match x {
        None => 0,
        Some(x) => { if x == var { c } else { 0 } }
    }
}

/// The term, less a constant.
fn lessened(t: Term, c: i64) -> Option<Term>
    ensures { result ≡ within_limit t.var (t.plus -ℤ c) }
{
    limited(t.var, t.plus as i128 - c as i128)
}

/// The term once `c` was added to `var`.
fn moved_back_term(t: Term, var: u32, c: i64) -> Option<Term>
    ensures { result ≡ lowered var c t }
{
    lessened(t, step(t.var, var, c))
}

/// The term moved by a constant.
fn moved_term(t: Term, c: i64) -> Option<Term>
    ensures { result ≡ within_limit t.var (t.plus +ℤ c) }
{
    limited(t.var, t.plus as i128 + c as i128)
}

/// A constant more than a term, where this is there and the limit allows it.
fn raised(t: Option<Term>, c: i64) -> Option<Term>
    ensures { result ≡ raised_term t c }
{
    match t {
        None => None,
        Some(t) => limited(t.var, c as i128 + t.plus as i128),
    }
}

/// The term at an index, where there is one.
fn term_behind(terms: &[Option<Term>], index: usize) -> Option<Term>
    ensures { result ≡ slice_index_or terms.now index None }
{
    if index < terms.len() {
        terms[index]
    } else {
        None
    }
}

impl Term {
    /// The term with the n-th of `terms` put for the variable n. What is put in isn't looked at again. `None` exactly
    /// where that one isn't there, or the constant would lie outside -2^40 to 2^40.
    pub fn subst_all(&self, terms: &[Option<Term>]) -> Option<Term>
        ensures { result ≡ filled_in terms.now self.now }
    {
        match self.var {
            None => limited(None, self.plus as i128),
            Some(var) => raised(term_behind(terms, var as usize), self.plus),
        }
    }
}

impl Bounds {
    /// Both ends moved by `c` elements; `None` exactly where a constant would lie outside -2^40 to 2^40.
    pub fn moved(&self, c: i64) -> Option<Bounds>
        ensures { result ≡ moved_by c self.now }
    {
        bounds_of(self.base, moved_term(self.lo, c), moved_term(self.hi, c))
    }

    /// Whether an end names the variable.
    pub fn names(&self, var: u32) -> bool
        ensures { result ≡ is_named var self.now }
    {
        is_variable(self.lo.var, var) || is_variable(self.hi.var, var)
    }

    /// Whether this pointer variable is the base.
    pub fn has_base(&self, pointer: u32) -> bool
        ensures { result ≡ is_var pointer self.now.base }
    {
        is_variable(self.base, pointer)
    }

    /// The bounds once `c` was added to `var`: what it was is what it is, minus `c`. `None` exactly where a constant
    /// would lie outside -2^40 to 2^40.
    pub fn after_shift(&self, var: u32, c: i64) -> Option<Bounds>
        ensures { result ≡ moved_back var c self.now }
    {
        bounds_of(
            self.base,
            moved_back_term(self.lo, var, c),
            moved_back_term(self.hi, var, c),
        )
    }

    /// Both ends with the n-th of `terms` put for the variable n; the base stays. `None` exactly where one that is named
    /// isn't there, or a constant would lie outside -2^40 to 2^40.
    pub fn subst_all(&self, terms: &[Option<Term>]) -> Option<Bounds>
        ensures { result ≡ ends_filled_in terms.now self.now }
    {
        bounds_of(
            self.base,
            self.lo.subst_all(terms),
            self.hi.subst_all(terms),
        )
    }
}
