// Reading single words and marks that say one thing each: each function takes what it reads from the front of the tokens
// that are left.

ghost use Rattle.ckc_lexer.specs.declared.token.TokenKind.TheVariants as kinds;
ghost use Rattle.ckc_parser_grammar.specs.Tokens as words;
ghost use Rattle.ckc_parser_grammar.specs.StuckStatements as marks;
ghost use Rattle.ckc_parser_grammar.specs.Answers.{ReadsMark, ReadsWord};

use crate::kinds;
use crate::stuck::Stuck;
use crate::terminal::{Terminal, expect};
use ckc_lexer::token::Token;
use ckc_text::place::Span;
use ckc_tree::stmt::{ArrayKind, Constant, Mark, StepOperator, StoreOperator};

/// The span of a mark `:`.
pub fn colon(tokens: &mut &[Token]) -> Result<Span, Stuck>
    ensures { ReadsMark kinds.Colon words.colon tokens.old.now result tokens.new.now }
{
    expect(Terminal::Colon, tokens)
}

/// The span of a mark `=`.
pub fn equal(tokens: &mut &[Token]) -> Result<Span, Stuck>
    ensures { ReadsMark kinds.Equal words.equal tokens.old.now result tokens.new.now }
{
    expect(Terminal::Equal, tokens)
}

/// The span of a mark `-`.
pub fn minus(tokens: &mut &[Token]) -> Result<Span, Stuck>
    ensures { ReadsMark kinds.Minus marks.minus tokens.old.now result tokens.new.now }
{
    expect(Terminal::Minus, tokens)
}

/// A number with its span.
pub fn number(tokens: &mut &[Token]) -> Result<(u32, Span), Stuck>
    ensures { ReadsWord words.number_of tokens.old.now result tokens.new.now }
{
    let Some((token, rest)) = tokens.split_first() else {
        return Err(Stuck::Unexpected);
    };
    match kinds::number(&token.kind) {
        Some(word) => {
            *tokens = rest;
            Ok((word, token.span))
        }
        None => Err(Stuck::Unexpected),
    }
}

/// A number or a character with its span.
pub fn constant(tokens: &mut &[Token]) -> Result<(Constant, Span), Stuck>
    ensures { ReadsWord words.constant_of tokens.old.now result tokens.new.now }
{
    let Some((token, rest)) = tokens.split_first() else {
        return Err(Stuck::Unexpected);
    };
    match kinds::constant(&token.kind) {
        Some(word) => {
            *tokens = rest;
            Ok((word, token.span))
        }
        None => Err(Stuck::Unexpected),
    }
}

/// The word that makes a variable an array, with its span.
pub fn array_word(tokens: &mut &[Token]) -> Result<(ArrayKind, Span), Stuck>
    ensures { ReadsWord words.array_kind_of tokens.old.now result tokens.new.now }
{
    let Some((token, rest)) = tokens.split_first() else {
        return Err(Stuck::Unexpected);
    };
    match kinds::array_kind(&token.kind) {
        Some(word) => {
            *tokens = rest;
            Ok((word, token.span))
        }
        None => Err(Stuck::Unexpected),
    }
}

/// What makes a block or a function a checked or an unchecked one, with its span.
pub fn mark(tokens: &mut &[Token]) -> Result<(Mark, Span), Stuck>
    ensures { ReadsWord words.mark_of tokens.old.now result tokens.new.now }
{
    let Some((token, rest)) = tokens.split_first() else {
        return Err(Stuck::Unexpected);
    };
    match kinds::mark(&token.kind) {
        Some(word) => {
            *tokens = rest;
            Ok((word, token.span))
        }
        None => Err(Stuck::Unexpected),
    }
}

/// The operator that stores, with its span.
pub fn store_operator(tokens: &mut &[Token]) -> Result<(StoreOperator, Span), Stuck>
    ensures { ReadsWord words.store_operator_of tokens.old.now result tokens.new.now }
{
    let Some((token, rest)) = tokens.split_first() else {
        return Err(Stuck::Unexpected);
    };
    match kinds::store_operator(&token.kind) {
        Some(word) => {
            *tokens = rest;
            Ok((word, token.span))
        }
        None => Err(Stuck::Unexpected),
    }
}

/// The operator that adds or takes one, with its span.
pub fn step_operator(tokens: &mut &[Token]) -> Result<(StepOperator, Span), Stuck>
    ensures { ReadsWord words.step_operator_of tokens.old.now result tokens.new.now }
{
    let Some((token, rest)) = tokens.split_first() else {
        return Err(Stuck::Unexpected);
    };
    match kinds::step_operator(&token.kind) {
        Some(word) => {
            *tokens = rest;
            Ok((word, token.span))
        }
        None => Err(Stuck::Unexpected),
    }
}
