// Normal bounds of what is written.

ghost use Rattle.std.specs.Prelude.{◌≡◌, ◌<◌, ◌^◌, option_map};
ghost use Rattle.bounds_exprs.specs.Normal.{NormalAnswers, how, elements_in, elements_of, is_element_size, negated, end_of, pointer_of, end_at, counted, paired, bounds_within, bounds_of};
ghost use Rattle.bounds_exprs.specs.Places.{end_here};
ghost use Rattle.bounds_exprs.specs.Terms.{is_within};
ghost use Rattle.bounds_exprs.specs.Sums.{sum, term_of as sum_term};

use crate::expression::{add, constant, multiply, subtract};
use crate::form::{BoundsForm, BoundsHow, SumForm};
use crate::term::{Bounds, Term, limited};
use ckc_text::code::Code;
use ckc_text::fault::SourceFault;

/// The largest constant of an end; the smallest is its negative.
const MAX_END: i64 = 2_147_483_648;

/// The term that a sum comes to. Each sum in it is asked for the limit of constants.
fn term_of(s: &SumForm) -> Option<Term>
    ensures { result ≡ sum_term (sum s.now) }
{
    match s {
        SumForm::Number(value) => limited(None, *value as i128),
        SumForm::Variable { var } => Some(Term {
            var: Some(*var),
            plus: 0,
        }),
        SumForm::Pointer { .. } => None,
        SumForm::Size { bytes, .. } => {
            if *bytes == 0 {
                None
            } else {
                Some(constant(*bytes as i64))
            }
        }
        SumForm::Plus(left, right) => add(term_of(left), term_of(right)),
        SumForm::Minus(left, right) => subtract(term_of(left), term_of(right)),
        SumForm::Times(left, right) => multiply(term_of(left), term_of(right)),
        SumForm::Other => None,
    }
}

/// Whether the sum is the size of the element.
fn is_element(s: &SumForm) -> bool
    ensures { result ≡ is_element_size (sum s.now) }
{
    match s {
        SumForm::Size { element, .. } => *element,
        _ => false,
    }
}

/// The elements in so many bytes.
fn divide(bytes: Option<Term>, size: u32) -> Option<Term>
    requires { 0 < size }
    ensures { result ≡ elements_in size bytes }
{
    match bytes {
        None => None,
        Some(bytes) => {
            if bytes.var.is_none() {
                Some(constant(bytes.plus.div_euclid(size as i64)))
            } else if size == 1 {
                Some(bytes)
            } else {
                None
            }
        }
    }
}

/// The elements in a sum of bytes.
fn elements(bytes: &SumForm, size: u32) -> Option<Term>
    requires { 0 < size }
    ensures { result ≡ elements_of size (sum bytes.now) }
{
    if let SumForm::Times(left, right) = bytes {
        if is_element(right) {
            return term_of(left);
        }
        if is_element(left) {
            return term_of(right);
        }
    }
    divide(term_of(bytes), size)
}

/// The negative of a constant.
fn negative(t: Option<Term>) -> Option<Term>
    ensures { result ≡ negated t }
{
    match t {
        None => None,
        Some(t) => {
            if t.var.is_none() {
                limited(None, -(t.plus as i128))
            } else {
                None
            }
        }
    }
}

/// A pointer, and how far from it.
#[derive(Clone, Copy)]
struct Place {
    pointer: Option<u32>,
    offset: Term,
}

/// The pointer that a sum is.
fn pointer(s: &SumForm) -> Option<Option<u32>>
    ensures { result ≡ pointer_of (sum s.now) }
{
    match s {
        SumForm::Pointer { var } => Some(*var),
        _ => None,
    }
}

fn place_from(pointer: Option<Option<u32>>, offset: Option<Term>) -> Option<Place>
    ensures { option_map end_here result ≡ end_at pointer offset }
{
    match (pointer, offset) {
        (Some(pointer), Some(offset)) => Some(Place { pointer, offset }),
        _ => None,
    }
}

/// An end of a pair.
fn end(s: &SumForm) -> Option<Place>
    ensures { option_map end_here result ≡ end_of (sum s.now) }
{
    match s {
        SumForm::Pointer { var } => place_from(Some(*var), Some(constant(0))),
        SumForm::Plus(left, right) => place_from(pointer(left), term_of(right)),
        SumForm::Minus(left, right) => place_from(pointer(left), negative(term_of(right))),
        _ => None,
    }
}

fn is_within_end(plus: i64) -> bool
    ensures { result ≡ is_within (2 ^ 31) plus }
{
    -MAX_END <= plus && plus <= MAX_END
}

fn bounds_between(base: Option<u32>, lo: Term, hi: Term) -> Option<Bounds>
    ensures { result ≡ bounds_within base lo hi }
{
    if is_within_end(lo.plus) && is_within_end(hi.plus) {
        Some(Bounds { base, lo, hi })
    } else {
        None
    }
}

fn count(elements: Option<Term>) -> Option<Bounds>
    ensures { result ≡ counted elements }
{
    match elements {
        None => None,
        Some(elements) => bounds_between(None, constant(0), elements),
    }
}

fn pair(lo: &SumForm, hi: &SumForm) -> Option<Bounds>
    ensures { result ≡ paired (end_of (sum lo.now)) (end_of (sum hi.now)) }
{
    match (end(lo), end(hi)) {
        (Some(lo), Some(hi)) => {
            if lo.pointer == hi.pointer {
                bounds_between(lo.pointer, lo.offset, hi.offset)
            } else {
                None
            }
        }
        _ => None,
    }
}

fn known(form: &BoundsHow, size: u32) -> Option<Bounds>
    ensures { result ≡ bounds_of (how form.now) size }
{
    match form {
        BoundsHow::Count(sum) => count(term_of(sum)),
        BoundsHow::ByteCount(bytes) => {
            if size == 0 {
                None
            } else {
                count(elements(bytes, size))
            }
        }
        BoundsHow::Pair(lo, hi) => pair(lo, hi),
        BoundsHow::Unknown => None,
    }
}

/// The normal bounds of what is written, for a pointer whose element has `size` bytes, 0 where the element is the
/// struct that is being declared. `None` is for `bounds(unknown)`.
///
/// # Errors
///
/// E16 at the form exactly where it has no normal bounds.
pub fn normal(form: &BoundsForm, size: u32) -> Result<Option<Bounds>, SourceFault>
    ensures { NormalAnswers (how form.now.how) size form.now.span result }
{
    if let BoundsHow::Unknown = form.how {
        return Ok(None);
    }
    match known(&form.how, size) {
        Some(bounds) => Ok(Some(bounds)),
        None => Err(SourceFault {
            code: Code::E16,
            span: form.span,
        }),
    }
}
