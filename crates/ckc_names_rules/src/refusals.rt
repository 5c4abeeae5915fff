// What a program is refused for.

ghost use Rattle.std.specs.Prelude.{◌≡◌};
ghost use Rattle.ckc_names_rules.specs.Naming as naming;
ghost use Rattle.ckc_names_rules.specs.Scopes as scopes;

use ckc_text::code::Code;
use ckc_text::fault::Refused;
use ckc_text::place::Span;
use ckc_tree::identifier::Identifier;

/// A name that is refused, at its place.
pub fn refusal(code: Code, name: &Identifier) -> Refused
    ensures { result ≡ Refused.Source (scopes.fault code name.now) }
{
    Refused::at(code, name.span)
}

/// Goes on where a program has a `main`.
///
/// # Errors
///
/// E28 at the start of the source, where it has none.
pub fn need_main(has_main: bool) -> Result<(), Refused>
    ensures { result ≡ naming.need_main has_main }
{
    if has_main {
        Ok(())
    } else {
        Err(Refused::at(Code::E28, Span { from: 0, to: 0 }))
    }
}
