// Normal bounds of what is written.

use bounds_exprs::form::{BoundsForm, BoundsHow, SumForm};
use bounds_exprs::normalize::normal;
use bounds_exprs::term::{Bounds, Term};
use ckc_text::code::Code;
use ckc_text::fault::SourceFault;
use ckc_text::place::Span;
use std::alloc::{AllocError, Global};

const SPAN: Span = Span { from: 3, to: 9 };

const ZERO: Term = Term { var: None, plus: 0 };

const ONE: Term = Term { var: None, plus: 1 };

const TWO: Term = Term { var: None, plus: 2 };

// Whether bounds have this normal form, for elements of four bytes.
fn is_normal(how: BoundsHow, expected: &Result<Option<Bounds>, SourceFault>) -> bool {
    normal(&BoundsForm { span: SPAN, how }, 4) == *expected
}

// Two times a variable.
fn twice(alloc: Global) -> Result<SumForm, AllocError> {
    let two = Box::new(alloc, SumForm::Number(2))?;
    let variable = Box::new(alloc, SumForm::Variable { var: 0 })?;
    Ok(SumForm::Times(two, variable))
}

// Whether the count of two times a variable has no normal form.
fn has_no_normal(alloc: Global) -> bool {
    let fault = SourceFault {
        code: Code::E16,
        span: SPAN,
    };
    match twice(alloc) {
        Ok(count) => is_normal(BoundsHow::Count(count), &Err(fault)),
        Err(_) => false,
    }
}

/// Whether elements and bytes are counted.
pub fn counts_elements(alloc: Global) -> bool {
    let two = Bounds {
        base: None,
        lo: ZERO,
        hi: TWO,
    };
    is_normal(BoundsHow::ByteCount(SumForm::Number(10)), &Ok(Some(two)))
        && has_no_normal(alloc)
        && is_normal(BoundsHow::Unknown, &Ok(None))
}

// The greatest constant, behind a variable and alone.
const LIMIT: Term = Term {
    var: Some(1),
    plus: 1_099_511_627_776,
};

const MOST: Term = Term {
    var: None,
    plus: 1_099_511_627_776,
};

/// Whether a constant has a limit.
pub fn limits_constants() -> bool {
    LIMIT.subst(1, ONE) == None
        && LIMIT.subst(1, ZERO) == Some(MOST)
        && LIMIT.shift(1, 1) == None
        && LIMIT.shift(2, 1) == Some(LIMIT)
}
