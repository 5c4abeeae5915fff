// Names in bounds.

ghost use Rattle.std.specs.Prelude.{◌≡◌};
ghost use Rattle.bounds_exprs.specs.Names.{sum_of};
ghost use Rattle.bounds_exprs.specs.Sums.{sum};

use crate::form::SumForm;

/// What a name in bounds stands for.
#[derive(Clone, Copy)]
pub enum NameForm {
    /// An `int` variable, and whether the rules allow it in these bounds.
    Int {
        var: u32,
        allowed: bool,
    },
    /// A pointer variable, whether the rules allow it in these bounds, and whether it has the mode and the element of the
    /// pointer that they are for.
    Pointer {
        var: u32,
        allowed: bool,
        alike: bool,
    },
    /// The pointer that the bounds are for.
    Itself,
    /// Anything else.
    Other,
}

/// What a name is in the sum that it stands in.
pub fn name_in_bounds(name: &NameForm) -> SumForm
    ensures { sum result ≡ sum_of name.now }
{
    match name {
        NameForm::Int { var, allowed } => {
            if *allowed {
                SumForm::Variable { var: *var }
            } else {
                SumForm::Other
            }
        }
        NameForm::Pointer {
            var,
            allowed,
            alike,
        } => {
            if *allowed && *alike {
                SumForm::Pointer { var: Some(*var) }
            } else {
                SumForm::Other
            }
        }
        NameForm::Itself => SumForm::Pointer { var: None },
        NameForm::Other => SumForm::Other,
    }
}
