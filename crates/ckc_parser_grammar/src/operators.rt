// Operators between operands, and how they bind.

ghost use Rattle.std.specs.Prelude.{◌≡◌, Some, nat_le};
ghost use Rattle.std.specs.Option.{option_map};
ghost use Rattle.ckc_parser_grammar.specs.Tokens as words;

use ckc_lexer::token::{Token, TokenKind};
use ckc_tree::expr::BinaryOperator;

/// The operator that a mark is between operands. A mark `>` is one here, also where the next touches it.
fn mark_operator(kind: &TokenKind) -> Option<BinaryOperator>
    ensures { result ≡ words.operator_of kind.now }
{
    match kind {
        TokenKind::OrOr => Some(BinaryOperator::Or),
        TokenKind::AndAnd => Some(BinaryOperator::And),
        TokenKind::Bar => Some(BinaryOperator::BitOr),
        TokenKind::Caret => Some(BinaryOperator::BitXor),
        TokenKind::Ampersand => Some(BinaryOperator::BitAnd),
        TokenKind::EqualEqual => Some(BinaryOperator::Equal),
        TokenKind::NotEqual => Some(BinaryOperator::NotEqual),
        TokenKind::Less => Some(BinaryOperator::Less),
        TokenKind::LessEqual => Some(BinaryOperator::LessEqual),
        TokenKind::Greater => Some(BinaryOperator::Greater),
        TokenKind::GreaterEqual => Some(BinaryOperator::GreaterEqual),
        TokenKind::ShiftLeft => Some(BinaryOperator::ShiftLeft),
        TokenKind::Plus => Some(BinaryOperator::Add),
        TokenKind::Minus => Some(BinaryOperator::Subtract),
        TokenKind::Star => Some(BinaryOperator::Multiply),
        TokenKind::Slash => Some(BinaryOperator::Divide),
        TokenKind::Percent => Some(BinaryOperator::Remainder),
        _ => None,
    }
}

/// The operator that a mark `>` which ends at this byte begins, and the tokens behind it: a right shift where the next
/// mark is a `>` that touches it.
fn greater_or_shift(to: u32, tokens: &[Token]) -> (BinaryOperator, &[Token])
    ensures { Some (result.0, result.1.now) ≡ words.behind_greater to tokens.now }
{
    match tokens.split_first() {
        Some((token, rest)) if matches!(token.kind, TokenKind::Greater) && token.span.from == to =>
            { (BinaryOperator::ShiftRight, rest) }
        _ => (BinaryOperator::Greater, tokens),
    }
}

/// The operator between operands that the tokens begin with, and the tokens behind it.
pub fn binary_operator(tokens: &[Token]) -> Option<(BinaryOperator, &[Token])>
    ensures { option_map (λ found. (found.0, found.1.now)) result ≡ words.operator_at tokens.now }
{
    let (token, rest) = tokens.split_first()?;
    match &token.kind {
        TokenKind::Greater => Some(greater_or_shift(token.span.to, rest)),
        kind => Some((mark_operator(kind)?, rest)),
    }
}

/// How loosely an operator binds: from 1, the tightest, to 10.
pub fn level(operator: BinaryOperator) -> u32
    ensures { result ≡ words.level operator }
{
    match operator {
        BinaryOperator::Multiply | BinaryOperator::Divide | BinaryOperator::Remainder => 1,
        BinaryOperator::Add | BinaryOperator::Subtract => 2,
        BinaryOperator::ShiftLeft | BinaryOperator::ShiftRight => 3,
        BinaryOperator::Less
        | BinaryOperator::LessEqual
        | BinaryOperator::Greater
        | BinaryOperator::GreaterEqual => 4,
        BinaryOperator::Equal | BinaryOperator::NotEqual => 5,
        BinaryOperator::BitAnd => 6,
        BinaryOperator::BitXor => 7,
        BinaryOperator::BitOr => 8,
        BinaryOperator::And => 9,
        BinaryOperator::Or => 10,
    }
}

/// Whether an operator takes what stands between it and an operator of this level behind it: of one level the first
/// takes it, so such operators group to the left.
pub fn takes_before(operator: BinaryOperator, looser: u32) -> bool
    ensures { result ≡ nat_le (words.level operator) looser }
{
    level(operator) <= looser
}
