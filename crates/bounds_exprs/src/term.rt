// Terms, and bounds whose ends are terms.

ghost use Rattle.std.specs.Prelude.{◌≡◌};
ghost use Rattle.bounds_exprs.specs.Terms.{within_limit, substituted, shifted};

/// The largest constant of a term; the smallest is its negative: 2^40.
const MAX_CONSTANT: i128 = 1_099_511_627_776;

/// A constant, or a variable plus a constant.
#[derive(Clone, Copy, PartialEq, Eq)]
pub struct Term {
    pub var: Option<u32>,
    pub plus: i64,
}

/// The bounds of a pointer, counted in elements: from `lo` to just before `hi`, both from `base`.
#[derive(Clone, Copy, PartialEq, Eq)]
pub struct Bounds {
    /// A pointer variable; `None` is the pointer that the bounds are for.
    pub base: Option<u32>,
    pub lo: Term,
    pub hi: Term,
}

/// The term of this variable and this constant, where the constant lies within -2^40 to 2^40.
pub fn limited(var: Option<u32>, plus: i128) -> Option<Term>
    ensures { result ≡ within_limit var plus }
{
    if -MAX_CONSTANT <= plus && plus <= MAX_CONSTANT {
        Some(Term {
            var,
            plus: plus as i64,
        })
    } else {
        None
    }
}

impl Term {
    /// The term with `by` put for a variable; `None` exactly where its constant lies outside -2^40 to 2^40.
    pub fn subst(&self, var: u32, by: Term) -> Option<Term>
        ensures { result ≡ substituted self.now var by }
    {
        if self.var == Some(var) {
            limited(by.var, self.plus as i128 + by.plus as i128)
        } else {
            limited(self.var, self.plus as i128)
        }
    }

    /// The term with `var` plus `c` put for `var`; `None` exactly where its constant lies outside -2^40 to 2^40.
    pub fn shift(&self, var: u32, c: i64) -> Option<Term>
        ensures { result ≡ shifted self.now var c }
    {
        let by = Term {
            var: Some(var),
            plus: c,
        };
        self.subst(var, by)
    }
}
