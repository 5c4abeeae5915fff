// Marks of blocks and functions.

ghost use Rattle.std.specs.Prelude.{◌≡◌, ◌||◌, not};
ghost use Rattle.region_typing_rules.specs.Statements.{is_unchecked as unchecked_mark};

use ckc_tree::stmt::Mark;
use region_typing_scope::scope::Scope;

// Whether a mark says unchecked.
fn is_unchecked(mark: Option<Mark>) -> bool
    ensures { result ≡ unchecked_mark mark }
{
    match mark {
        None => false,
        Some(Mark::Checked) => false,
        Some(Mark::Unchecked) => true,
    }
}

/// Whether neither a block nor its region is unchecked.
pub fn is_checked(scope: &Scope, mark: Option<Mark>) -> bool
    ensures { result ≡ not (unchecked_mark mark || scope.now.is_off) }
{
    !(is_unchecked(mark) || scope.is_off)
}
