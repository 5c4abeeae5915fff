// Reading bounds.

ghost use Rattle.std.specs.Prelude.{◌≡◌, ◌≤◌, ◌∷◌, codes, false};
ghost use Rattle.std.specs.Str.{bytes_eq};
ghost use Rattle.ckc_text.specs.declared.place.Span.{Span as Place};
ghost use Rattle.ckc_lexer.specs.declared.token.TokenKind.TheVariants as kinds;
ghost use Rattle.ckc_tree.specs.Expressions.{expression, bounds as bounds_of};
ghost use Rattle.ckc_tree.specs.Expressions as trees;
ghost use Rattle.ckc_tree.specs.Heights.{bounds_reach};
ghost use Rattle.ckc_parser_grammar.specs.Tokens as words;
ghost use Rattle.ckc_parser_grammar.specs.Tokens.{token};
ghost use Rattle.ckc_parser_grammar.specs.StuckExpressions.{goes_on, is_unknown, StuckBounds};
ghost use Rattle.ckc_parser_grammar.specs.Answers.{Reads, TakesTokens};
ghost use Rattle.ckc_parser.specs.Forms.{IsBoundsForm, ReadsBoundsWord};
ghost use Rattle.ckc_parser.specs.Reaches.{reach_of};
ghost use Rattle.ckc_parser.specs.Readings.{counted, count_word, IsBounds, ReadsUnknown, RefusesUnknown};

use crate::expressions::{Ended, expression_before};
use crate::operand::Reach;
use ckc_lexer::token::{Token, TokenKind};
use ckc_parser_grammar::depth::{Depth, MAX_DEPTH};
use ckc_parser_grammar::operators::binary_operator;
use ckc_parser_grammar::spans::join;
use ckc_parser_grammar::stuck::Stuck;
use ckc_parser_grammar::terminal::Terminal;
use ckc_parser_grammar::tokens::{close_paren, name, open_paren};
use ckc_text::name::Name;
use ckc_text::place::Span;
use ckc_tree::expr::BoundsText;

/// Bounds, with their span and their reach.
#[derive(Drop)]
pub struct ReadBounds {
    pub text: BoundsText,
    pub span: Span,
    pub reach: Reach,
    ghost exact: { reach_of reach ≡ bounds_reach (bounds_of text) },
}

/// The bounds of a form with at most `depth` nodes up to and with it.
#[cycle(expressions)]
pub fn bounds(depth: Depth, tokens: &mut &[Token]) -> Result<ReadBounds, Stuck>
    requires { depth ≤ 200 }
    ensures reads { Reads (λ x rest. IsBounds depth tokens.old.now (bounds_of x.text) x.span rest) (StuckBounds depth tokens.old.now) result tokens.new.now }
    ensures shorter { TakesTokens tokens.old.now result tokens.new.now }
{
    let (form, start) = bounds_word(tokens)?;
    open_paren(tokens)?;
    match form {
        BoundsForm::Count => count(depth, true, start, tokens),
        BoundsForm::ByteCount => count(depth, false, start, tokens),
        BoundsForm::Ends => ends(depth, start, tokens),
    }
}

/// What bounds say.
#[derive(Clone, Copy)]
pub enum BoundsForm {
    Count,
    ByteCount,
    Ends,
}

/// What bounds say by their word, with its span.
fn bounds_word(tokens: &mut &[Token]) -> Result<(BoundsForm, Span), Stuck>
    ensures { ReadsBoundsWord tokens.old.now result tokens.new.now }
{
    let mut ahead: &[Token] = *tokens;
    let (word, span) = name(&mut ahead)?;
    let Some(form) = bounds_form(word) else {
        return Err(Stuck::Unexpected);
    };
    *tokens = ahead;
    Ok((form, span))
}

/// What bounds with this word say, if it is one of bounds.
fn bounds_form(word: &Name) -> Option<BoundsForm>
    ensures { IsBoundsForm word.now result }
{
    if is_word(word, b"count") {
        Some(BoundsForm::Count)
    } else if is_word(word, b"byte_count") {
        Some(BoundsForm::ByteCount)
    } else if is_word(word, b"bounds") {
        Some(BoundsForm::Ends)
    } else {
        None
    }
}

/// Whether a name has these bytes.
fn is_word(name: &Name, word: &[u8]) -> bool
    ensures { result ≡ bytes_eq name.now word.now }
{
    name.as_bytes() == word
}

/// A count of elements or of bytes, behind the parenthesis.
#[cycle(expressions)]
fn count(
    depth: Depth,
    is_count: bool,
    start: Span,
    tokens: &mut &[Token],
) -> Result<ReadBounds, Stuck>
    requires { depth ≤ 200 }
    ensures reads { (p : Place) → Reads (λ x rest. IsBounds depth (token (kinds.Name (count_word is_count)) start ∷ token kinds.OpenParen p
        ∷ tokens.old.now) (bounds_of x.text) x.span rest) (StuckBounds depth
        (token (kinds.Name (count_word is_count)) start ∷ token kinds.OpenParen p ∷ tokens.old.now)) result tokens.new.now }
    ensures shorter { TakesTokens tokens.old.now result tokens.new.now }
{
    let count = expression_before(depth, Terminal::CloseParen, tokens)?;
    Ok(counted(is_count, start, count))
}

/// The bounds with this count.
fn counted(is_count: bool, start: Span, count: Ended) -> ReadBounds
    ensures tree { bounds_of result.text ≡ counted is_count (expression count.operand.expr.value) (words.join start count.end) }
    ensures placed { result.span ≡ words.join start count.end }
{
    let span = join(start, count.end);
    let reach = count.operand.reach;
    let count = count.operand.expr;
    if is_count {
        let text = BoundsText::Count { count, span };
        return ReadBounds { text, span, reach };
    }
    let text = BoundsText::ByteCount { count, span };
    ReadBounds { text, span, reach }
}

/// Two ends, or the word `unknown`, behind the parenthesis.
#[cycle(expressions)]
fn ends(depth: Depth, start: Span, tokens: &mut &[Token]) -> Result<ReadBounds, Stuck>
    requires { depth ≤ 200 }
    ensures reads { (p : Place) → Reads
        (λ x rest. IsBounds depth (token (kinds.Name (codes "bounds")) start ∷ token kinds.OpenParen p ∷ tokens.old.now)
        (bounds_of x.text) x.span rest)
        (StuckBounds depth (token (kinds.Name (codes "bounds")) start ∷ token kinds.OpenParen p ∷ tokens.old.now)) result tokens.new.now }
    ensures shorter { TakesTokens tokens.old.now result tokens.new.now }
{
    if let Some((end, rest)) = unknown(tokens) {
        *tokens = rest;
        let span = join(start, end);
        let text = BoundsText::Unknown { span };
        let reach = Reach::nowhere();
        return Ok(ReadBounds { text, span, reach });
    }
    range(depth, start, tokens)
}

/// The parenthesis behind the word `unknown`, where these two stand next, and the tokens behind them.
fn unknown(tokens: &[Token]) -> Option<(Span, &[Token])>
    ensures { ReadsUnknown tokens.now result }
{
    let mut rest = tokens;
    let Ok((word, _)) = name(&mut rest) else {
        return None;
    };
    if !is_word(word, b"unknown") {
        return None;
    }
    let Ok(end) = close_paren(&mut rest) else {
        return None;
    };
    Some((end, rest))
}

/// Whether the tokens go on behind a name as an expression that a comma ends.
fn goes_on(tokens: &[Token]) -> bool
    ensures { result ≡ goes_on tokens.now }
{
    if binary_operator(tokens).is_some() {
        return true;
    }
    match tokens.split_first() {
        Some((token, _)) => matches!(
            token.kind,
            TokenKind::Comma
                | TokenKind::OpenParen
                | TokenKind::OpenBracket
                | TokenKind::Dot
                | TokenKind::Arrow
        ),
        None => false,
    }
}

/// Two ends. The word `unknown` is an expression as soon as the token behind it shows that it is.
#[cycle(expressions)]
fn range(depth: Depth, start: Span, tokens: &mut &[Token]) -> Result<ReadBounds, Stuck>
    requires high { depth ≤ 200 }
    requires known { is_unknown tokens.old.now ≡ false }
    ensures reads { (p : Place) → Reads
        (λ x rest. IsBounds depth (token (kinds.Name (codes "bounds")) start ∷ token kinds.OpenParen p ∷ tokens.old.now)
        (bounds_of x.text) x.span rest)
        (StuckBounds depth (token (kinds.Name (codes "bounds")) start ∷ token kinds.OpenParen p ∷ tokens.old.now)) result tokens.new.now }
    ensures shorter { TakesTokens tokens.old.now result tokens.new.now }
{
    too_deep(depth, tokens)?;
    let low = expression_before(depth, Terminal::Comma, tokens)?;
    let high = expression_before(depth, Terminal::CloseParen, tokens)?;
    Ok(between(start, low, high))
}

/// The bounds with these two ends.
fn between(start: Span, low: Ended, high: Ended) -> ReadBounds
    ensures tree { bounds_of result.text ≡ trees.Range (expression low.operand.expr.value) (expression high.operand.expr.value) (words.join start high.end) }
    ensures placed { result.span ≡ words.join start high.end }
{
    let span = join(start, high.end);
    let reach = low.operand.reach.beside(high.operand.reach);
    let text = BoundsText::Range {
        low: low.operand.expr,
        high: high.operand.expr,
        span,
    };
    ReadBounds { text, span, reach }
}

/// The refusal of the word `unknown` where no node may stand; nothing where another token is first.
fn too_deep(depth: Depth, tokens: &mut &[Token]) -> Result<(), Stuck>
    ensures { RefusesUnknown depth tokens.old.now result tokens.new.now }
{
    if depth.nodes() < MAX_DEPTH {
        return Ok(());
    }
    let mut ahead: &[Token] = *tokens;
    let Ok((word, span)) = name(&mut ahead) else {
        return Ok(());
    };
    if !is_word(word, b"unknown") {
        return Ok(());
    }
    if goes_on(ahead) {
        return Err(Stuck::TooDeep { start: span.from });
    }
    *tokens = ahead;
    Err(Stuck::Unexpected)
}
