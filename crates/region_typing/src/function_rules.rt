// What is asked of a function whose body was walked, in its order.

ghost use Rattle.region_typing_scope.specs.Answering.{Answers};
ghost use Rattle.ckc_text.specs.declared.code.Code.TheVariants.{E10, E13, E15};
ghost use Rattle.region_typing_rules.specs.Items.{without_change};
ghost use Rattle.region_typing_rules.specs.Verdicts.{Passes, needs};

use ckc_text::code::Code;
use ckc_text::place::Span;
use region_typing_scope::refusals::{CheckError, refusal};

/// The first rule that a function breaks: its declaration fits the others and has scalars (E13), its body is there where
/// it needs one (E10), the body assigns no parameter that the bounds of its result name (E29, at the assignment), and neither it
/// nor its region is unchecked (E15).
pub fn keep_function_rules(
    fits: bool,
    has_body: bool,
    changed: Option<Span>,
    is_checked: bool,
    span: Span,
) -> Result<(), CheckError>
    ensures { Answers (λ x. x) (needs fits E13 span (needs has_body E10 span (without_change changed (needs is_checked E15 span (Passes tt))))) result }
{
    if !fits {
        return Err(refusal(Code::E13, span));
    }
    if !has_body {
        return Err(refusal(Code::E10, span));
    }
    if let Some(at) = changed {
        return Err(refusal(Code::E29, at));
    }
    if !is_checked {
        return Err(refusal(Code::E15, span));
    }
    Ok(())
}
