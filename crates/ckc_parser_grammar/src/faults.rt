// Where a source is refused.

ghost use Rattle.std.specs.Prelude.{◌≡◌};
ghost use Rattle.ckc_parser_grammar.specs.Parsing.{point};
ghost use Rattle.ckc_parser_grammar.specs.Faults.{first_span};

use ckc_lexer::token::Token;
use ckc_text::place::Span;

/// No bytes, at this one.
pub fn point(at: u32) -> Span
    ensures { result ≡ point at }
{
    Span { from: at, to: at }
}

/// The bytes of the first token that is left, and the end of a source of so many bytes where none is.
pub fn first_span(source_len: u32, rest: &[Token]) -> Span
    ensures { result ≡ first_span source_len rest.now }
{
    match rest.split_first() {
        Some((token, _)) => token.span,
        None => point(source_len),
    }
}
