// Reading single tokens: each function takes what it reads from the front of the tokens that are left.

ghost use Rattle.std.specs.Prelude.{◌≡◌, ◌∷◌, IfOk};
ghost use Rattle.ckc_lexer.specs.declared.token.TokenKind.TheVariants as kinds;
ghost use Rattle.ckc_parser_grammar.specs.Tokens as words;
ghost use Rattle.ckc_parser_grammar.specs.StuckTypes as type_words;
ghost use Rattle.ckc_parser_grammar.specs.StuckExpressions as expression_words;
ghost use Rattle.ckc_parser_grammar.specs.StuckStatements as statement_words;
ghost use Rattle.ckc_parser_grammar.specs.Answers.{Reads, ReadsMark, ReadsName, FailsName};

use crate::stuck::Stuck;
use crate::terminal::{Terminal, expect};
use ckc_lexer::token::{Token, TokenKind};
use ckc_text::fault::NoMemory;
use ckc_text::name::Name;
use ckc_text::place::Span;
use ckc_tree::identifier::Identifier;
use std::alloc::Global;

/// The span of a mark `(`.
pub fn open_paren(tokens: &mut &[Token]) -> Result<Span, Stuck>
    ensures { ReadsMark kinds.OpenParen words.open_paren tokens.old.now result tokens.new.now }
{
    expect(Terminal::OpenParen, tokens)
}

/// The span of a mark `)`.
pub fn close_paren(tokens: &mut &[Token]) -> Result<Span, Stuck>
    ensures { ReadsMark kinds.CloseParen expression_words.close_paren tokens.old.now result tokens.new.now }
{
    expect(Terminal::CloseParen, tokens)
}

/// The span of a mark `{`.
pub fn open_brace(tokens: &mut &[Token]) -> Result<Span, Stuck>
    ensures { ReadsMark kinds.OpenBrace statement_words.open_brace tokens.old.now result tokens.new.now }
{
    expect(Terminal::OpenBrace, tokens)
}

/// The span of a mark `}`.
pub fn close_brace(tokens: &mut &[Token]) -> Result<Span, Stuck>
    ensures { ReadsMark kinds.CloseBrace statement_words.close_brace tokens.old.now result tokens.new.now }
{
    expect(Terminal::CloseBrace, tokens)
}

/// The span of a mark `[`.
pub fn open_bracket(tokens: &mut &[Token]) -> Result<Span, Stuck>
    ensures { ReadsMark kinds.OpenBracket statement_words.open_bracket tokens.old.now result tokens.new.now }
{
    expect(Terminal::OpenBracket, tokens)
}

/// The span of a mark `]`.
pub fn close_bracket(tokens: &mut &[Token]) -> Result<Span, Stuck>
    ensures { ReadsMark kinds.CloseBracket expression_words.close_bracket tokens.old.now result tokens.new.now }
{
    expect(Terminal::CloseBracket, tokens)
}

/// The span of a mark `<`.
pub fn less(tokens: &mut &[Token]) -> Result<Span, Stuck>
    ensures { ReadsMark kinds.Less type_words.less tokens.old.now result tokens.new.now }
{
    expect(Terminal::Less, tokens)
}

/// The span of a mark `>`.
pub fn greater(tokens: &mut &[Token]) -> Result<Span, Stuck>
    ensures { ReadsMark kinds.Greater type_words.greater tokens.old.now result tokens.new.now }
{
    expect(Terminal::Greater, tokens)
}

/// The span of a mark `,`.
pub fn comma(tokens: &mut &[Token]) -> Result<Span, Stuck>
    ensures { ReadsMark kinds.Comma words.comma tokens.old.now result tokens.new.now }
{
    expect(Terminal::Comma, tokens)
}

/// The span of a mark `*`.
pub fn star(tokens: &mut &[Token]) -> Result<Span, Stuck>
    ensures { ReadsMark kinds.Star words.star tokens.old.now result tokens.new.now }
{
    expect(Terminal::Star, tokens)
}

/// The span of a mark `;`.
pub fn semicolon(tokens: &mut &[Token]) -> Result<Span, Stuck>
    ensures { ReadsMark kinds.Semicolon statement_words.semicolon tokens.old.now result tokens.new.now }
{
    expect(Terminal::Semicolon, tokens)
}

/// A name and its span.
pub fn name<'t>(tokens: &mut &'t [Token]) -> Result<(&'t Name, Span), Stuck>
    ensures { ReadsName type_words.name_token tokens.old.now result tokens.new.now }
{
    let Some((token, rest)) = tokens.split_first() else {
        return Err(Stuck::Unexpected);
    };
    match &token.kind {
        TokenKind::Name(name) => {
            *tokens = rest;
            Ok((name, token.span))
        }
        _ => Err(Stuck::Unexpected),
    }
}

/// A name with its span, of its own.
pub fn copied(alloc: Global, name: &Name, span: Span) -> Result<Identifier, NoMemory>
    ensures { IfOk result (λ copy. copy ≡ words.identifier name.now span) }
{
    let name = name.copy(alloc)?;
    Ok(Identifier {
        name,
        number: 0,
        span,
    })
}

/// A name with its span, of its own, which stands next.
pub fn identifier(alloc: Global, tokens: &mut &[Token]) -> Result<Identifier, Stuck>
    ensures { Reads (λ x rest. (x.number ≡ 0) × (tokens.old.now ≡ words.token (kinds.Name x.name) x.span ∷ rest)) (FailsName tokens.old.now)
        result tokens.new.now }
{
    let (name, span) = name(tokens)?;
    Ok(copied(alloc, name, span)?)
}
