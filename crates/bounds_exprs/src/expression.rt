// Terms of expressions.

ghost use Rattle.std.specs.Prelude.{◌≡◌, ◌*ℤ◌};
ghost use Rattle.bounds_exprs.specs.Parts.{added, subtracted, multiplied};
ghost use Rattle.bounds_exprs.specs.Steps.{term_at};

use crate::term::{Term, limited};

/// An expression, with the terms of its parts.
#[derive(Clone, Copy)]
pub enum TermForm {
    /// A number, or a character constant.
    Number(i64),
    /// `sizeof`: the bytes, 0 where the type is the struct that is being declared.
    Size(u32),
    /// A tracked variable.
    Variable(u32),
    /// A sum.
    Plus(Option<Term>, Option<Term>),
    /// A difference.
    Minus(Option<Term>, Option<Term>),
    /// A product.
    Times(Option<Term>, Option<Term>),
    /// Anything else; the negative of an expression too.
    Other,
}

/// The term of a constant.
pub fn constant(plus: i64) -> Term
    ensures { result ≡ record { var = None; plus = plus } }
{
    Term { var: None, plus }
}

/// The sum, where one of the two is a constant.
pub fn add(a: Option<Term>, b: Option<Term>) -> Option<Term>
    ensures { result ≡ added a b }
{
    match (a, b) {
        (Some(a), Some(b)) => {
            let plus = a.plus as i128 + b.plus as i128;
            if a.var.is_none() {
                limited(b.var, plus)
            } else if b.var.is_none() {
                limited(a.var, plus)
            } else {
                None
            }
        }
        _ => None,
    }
}

/// The difference, where the second is a constant.
pub fn subtract(a: Option<Term>, b: Option<Term>) -> Option<Term>
    ensures { result ≡ subtracted a b }
{
    match (a, b) {
        (Some(a), Some(b)) => {
            if b.var.is_none() {
                limited(a.var, a.plus as i128 - b.plus as i128)
            } else {
                None
            }
        }
        _ => None,
    }
}

fn product(a: i64, b: i64) -> i128
    ensures { result ≡ a *ℤ b }
{
    a as i128 * b as i128
}

/// The product, where both are constants.
pub fn multiply(a: Option<Term>, b: Option<Term>) -> Option<Term>
    ensures { result ≡ multiplied a b }
{
    match (a, b) {
        (Some(a), Some(b)) => {
            if a.var.is_none() {
                if b.var.is_none() {
                    limited(None, product(a.plus, b.plus))
                } else {
                    None
                }
            } else {
                None
            }
        }
        _ => None,
    }
}

/// The term of an expression, by the terms of its parts. A constant is an expression whose term has no variable.
pub fn term_from(form: &TermForm) -> Option<Term>
    ensures { result ≡ term_at form.now }
{
    match form {
        TermForm::Number(value) => limited(None, *value as i128),
        TermForm::Size(bytes) => {
            if *bytes == 0 {
                None
            } else {
                Some(constant(*bytes as i64))
            }
        }
        TermForm::Variable(var) => Some(Term {
            var: Some(*var),
            plus: 0,
        }),
        TermForm::Plus(left, right) => add(*left, *right),
        TermForm::Minus(left, right) => subtract(*left, *right),
        TermForm::Times(left, right) => multiply(*left, *right),
        TermForm::Other => None,
    }
}
