// Spans of forms.

ghost use Rattle.std.specs.Prelude.{◌≡◌};
ghost use Rattle.ckc_parser_grammar.specs.Tokens as words;

use ckc_text::place::Span;

/// From the start of the first to the end of the last.
pub fn join(first: Span, last: Span) -> Span
    ensures { result ≡ words.join first last }
{
    Span {
        from: first.from,
        to: last.to,
    }
}
