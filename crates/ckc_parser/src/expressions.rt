// Reading expressions. What the depth of a tree counts is read by recursion; parentheses, and operators whose operand
// isn't read yet, wait on a stack of the heap.

ghost use Rattle.std.specs.Prelude.{◌≡◌, ◌≤◌, ◌<◌, ◌∷◌, ◌+◌, ℕ, List, length, false, Some, IfOk};
ghost use Rattle.ckc_text.specs.declared.place.Span.{Span as Place};
ghost use Rattle.ckc_lexer.specs.declared.token.Token.{Token as Sign};
ghost use Rattle.ckc_lexer.specs.declared.token.TokenKind.TheVariants as kinds;
ghost use Rattle.ckc_tree.specs.Expressions.{expression};
ghost use Rattle.ckc_tree.specs.Heights.{expression_reach};
ghost use Rattle.ckc_parser_grammar.specs.Tokens as words;
ghost use Rattle.ckc_parser_grammar.specs.StuckExpressions.{unary_word, StuckBinary, StuckExpression, StuckUnary, StuckSelectors};
ghost use Rattle.ckc_parser_grammar.specs.Failures.{IsLow};
ghost use Rattle.ckc_parser_grammar.specs.Answers.{Reads, OrNoMemory, TakesTokens, MayTakeTokens};
ghost use Rattle.ckc_parser.specs.Contexts.{frame, waiting, limit, looser_at, takes_before, Base, IsAround, NeedsOperand, HasOperand, HasTight, paren_start};
ghost use Rattle.ckc_parser.specs.Readings.{member_word, IsBinary, IsUnary, IsSelected, SelectsOne};
ghost use Rattle.ckc_parser.specs.Selectors.{selector_kind, IsSelector, SelectsBy};
ghost use Rattle.ckc_parser.specs.ContextAnswers.{IsPrefix, IsShorter, IsPrefixed, IsRead, IsNextOperator, IsWaiting, IsUnwrapped, IsSmall, Applies};
ghost use Rattle.ckc_parser.specs.Endings.{IsEnded, StuckEnded};

use crate::build::{binary_with, index_with, member_with, unary_with};
use crate::operand::Operand;
use crate::primary::{primary, starts_primary};
use ckc_lexer::token::{Token, TokenKind};
use ckc_parser_grammar::depth::Depth;
use ckc_parser_grammar::kinds::unary_operator;
use ckc_parser_grammar::operators::{self, binary_operator, level};
use ckc_parser_grammar::spans::join;
use ckc_parser_grammar::stuck::Stuck;
use ckc_parser_grammar::terminal::{Terminal, expect};
use ckc_parser_grammar::tokens::{close_paren, identifier, open_paren};
use ckc_text::on_heap::push;
use ckc_text::place::Span;
use ckc_tree::expr::{BinaryOperator, UnaryOperator};
use std::alloc::Global;

/// A form whose last operand isn't read yet.
#[derive(Drop)]
enum Pending {
    Paren {
        start: Span,
    },
    Unary {
        operator: UnaryOperator,
        start: Span,
    },
    Binary {
        operator: BinaryOperator,
        left: Operand,
    },
}

/// The forms around the operand that is read next.
#[derive(Drop)]
struct Around {
    pending: Vec<Pending>,
    /// The nodes around it, those around the whole expression included.
    depth: Depth,
    /// The loosest level of an operator that stands in no parentheses.
    loosest: u32,
}

/// Whether a token is the first of an expression without binary operators.
pub fn starts_unary(kind: &TokenKind) -> bool
    ensures { result ≡ unary_word kind.now }
{
    matches!(kind, TokenKind::OpenParen) || unary_operator(kind).is_some() || starts_primary(kind)
}

/// An expression with at most `depth` nodes around it.
#[cycle(expressions)]
pub fn expression(depth: Depth, tokens: &mut &[Token]) -> Result<Operand, Stuck>
    requires { depth ≤ 200 }
    ensures reads { Reads (λ x rest. IsBinary 10 depth tokens.old.now (expression x.expr.value) x.outer rest)
        (StuckExpression depth tokens.old.now) result tokens.new.now }
    ensures shorter { TakesTokens tokens.old.now result tokens.new.now }
{
    operators(depth, 10, tokens)
}

/// An expression without binary operators outside parentheses.
pub fn unary(depth: Depth, tokens: &mut &[Token]) -> Result<Operand, Stuck>
    requires { depth ≤ 200 }
    ensures reads { Reads (λ x rest. IsUnary depth tokens.old.now (expression x.expr.value) x.outer rest) (StuckUnary depth tokens.old.now)
        result tokens.new.now }
    ensures shorter { TakesTokens tokens.old.now result tokens.new.now }
{
    operators(depth, 0, tokens)
}

/// An expression, and the mark behind it.
#[derive(Drop)]
pub struct Ended {
    pub operand: Operand,
    /// The span of the mark.
    pub end: Span,
}

/// An expression, and this mark behind it.
#[cycle(expressions)]
pub fn expression_before(
    depth: Depth,
    mark: Terminal,
    tokens: &mut &[Token],
) -> Result<Ended, Stuck>
    requires { depth ≤ 200 }
    ensures reads { Reads (IsEnded mark depth tokens.old.now) (StuckEnded mark depth tokens.old.now) result tokens.new.now }
    ensures shorter { TakesTokens tokens.old.now result tokens.new.now }
{
    let operand = expression(depth, tokens)?;
    let end = expect(mark, tokens)?;
    Ok(Ended { operand, end })
}

/// An expression with operators up to a level.
#[cycle(expressions)]
fn operators(depth: Depth, loosest: u32, tokens: &mut &[Token]) -> Result<Operand, Stuck>
    requires high { depth ≤ 200 }
    requires loose { loosest ≤ 10 }
    ensures reads { Reads (λ x rest. IsBinary loosest depth tokens.old.now (expression x.expr.value) x.outer rest)
        (StuckBinary loosest depth tokens.old.now) result tokens.new.now }
    ensures shorter { TakesTokens tokens.old.now result tokens.new.now }
{
    let mut around = Around {
        pending: Vec::new(depth.alloc()),
        depth,
        loosest,
    };
    'operators: loop {
        prefixes(&mut around, tokens)?;
        let operand = primary(around.depth, tokens)?;
        let operand = closed(&mut around, operand, tokens)?;
        let Some(operator) = next_operator(&around, tokens) else {
            return Ok(operand);
        };
        wait_for_right(&mut around, operator, operand)?;
    }
}

/// Takes the operators and parentheses before an operand.
fn prefixes(around: &mut Around, tokens: &mut &[Token]) -> Result<(), Stuck>
    ensures reads { (b : Base) → NeedsOperand b around.old tokens.old.now → IsPrefixed b around.new result tokens.new.now }
    ensures shorter { IfOk result (λ done. length tokens.new.now ≤ length tokens.old.now) }
{
    'prefixes: loop {
        if !prefix(around, tokens)? {
            return Ok(());
        }
    }
}

/// Takes the operator or the parenthesis before an operand, where one stands next, and says whether one does.
fn prefix(around: &mut Around, tokens: &mut &[Token]) -> Result<bool, Stuck>
    ensures reads { (b : Base) → NeedsOperand b around.old tokens.old.now → IsPrefix b around.new result tokens.new.now }
    ensures shorter { IfOk result (λ found. IsShorter tokens.old.now found tokens.new.now) }
{
    if let Ok(start) = open_paren(tokens) {
        push(&mut around.pending, Pending::Paren { start })?;
        return Ok(true);
    }
    let Some((token, rest)) = tokens.split_first() else {
        return Ok(false);
    };
    let Some(operator) = unary_operator(&token.kind) else {
        return Ok(false);
    };
    let start = token.span;
    around.depth.check(start.from)?;
    push(&mut around.pending, Pending::Unary { operator, start })?;
    around.depth = around.depth.deeper();
    *tokens = rest;
    Ok(true)
}

/// Reads on behind an operand: what selects a part of it, and the parentheses that end behind it. What comes back is
/// followed by an operator that takes it as its left operand, or it is the whole expression.
#[cycle(expressions)]
fn closed(around: &mut Around, operand: Operand, tokens: &mut &[Token]) -> Result<Operand, Stuck>
    requires { (b : Base) × HasOperand b around.old (expression operand.expr.value) operand.outer tokens.old.now }
    ensures reads { (b : Base) → HasOperand b around.old (expression operand.expr.value) operand.outer tokens.old.now
        → IsRead b around.new result tokens.new.now }
    ensures shorter { MayTakeTokens tokens.old.now result tokens.new.now }
{
    let mut operand = operand;
    'closed: loop {
        let selected = selectors(around.depth, operand, tokens)?;
        let looser = looseness(tokens);
        let whole = reduced(around, looser, selected)?;
        if looser <= 10 {
            return Ok(whole);
        }
        let Some(start) = last_paren(around.pending.as_slice()) else {
            return Ok(whole);
        };
        let end = close_paren(tokens)?;
        operand = unwrapped(around, whole, join(start, end));
    }
}

/// The level of the operator that stands next, and 11 where none does.
fn looseness(tokens: &[Token]) -> u32
    ensures { result ≡ looser_at tokens.now }
{
    match binary_operator(tokens) {
        Some((operator, _)) => level(operator),
        None => 11,
    }
}

/// The loosest level of an operator that belongs to the operand of the form that waits last; outside all forms it is
/// given.
fn loosest(pending: &[Pending], outside: u32) -> u32
    ensures { result ≡ limit outside (waiting pending.now) }
{
    let Some((last, _)) = pending.split_last() else {
        return outside;
    };
    match last {
        Pending::Paren { .. } => 10,
        Pending::Unary { .. } => 0,
        Pending::Binary { operator, .. } => level(*operator) - 1,
    }
}

/// Takes the operator that stands next, where it belongs to this expression.
fn next_operator(around: &Around, tokens: &mut &[Token]) -> Option<BinaryOperator>
    ensures { IsNextOperator (limit around.now.loosest (waiting around.now.pending.items)) tokens.old.now result tokens.new.now }
{
    let (operator, rest) = binary_operator(tokens)?;
    if level(operator) <= loosest(around.pending.as_slice(), around.loosest) {
        *tokens = rest;
        Some(operator)
    } else {
        None
    }
}

/// Lets an operand wait as the left one of an operator, which makes it deeper by one.
fn wait_for_right(around: &mut Around, operator: BinaryOperator, left: Operand) -> Result<(), Stuck>
    requires low { IsLow around.old.depth (expression_reach (expression left.expr.value)) }
    requires depth { around.old.depth ≤ 200 }
    ensures { (b : Base) (ts us : List Sign) → words.operator_at ts ≡ Some (operator, us)
        → words.level operator ≤ limit around.old.loosest (waiting around.old.pending.items)
        → HasTight b around.old (words.level operator) (expression left.expr.value) left.outer ts → IsWaiting b around.new us result }
{
    around
        .depth
        .check_around(left.reach.height, left.reach.start)?;
    push(&mut around.pending, Pending::Binary { operator, left })?;
    around.depth = around.depth.deeper();
    Ok(())
}

/// Where the parenthesis starts that waits last, if one does.
fn last_paren(pending: &[Pending]) -> Option<Span>
    ensures { result ≡ paren_start (waiting pending.now) }
{
    let (last, _) = pending.split_last()?;
    match last {
        Pending::Paren { start } => Some(*start),
        _ => None,
    }
}

/// The operand with the parentheses around it, which were the last form that waited.
fn unwrapped(around: &mut Around, operand: Operand, outer: Span) -> Operand
    requires { 0 < length around.old.pending.items }
    ensures { IsUnwrapped around.old around.new operand outer result }
{
    let others = around.pending.len() - 1;
    around.pending.truncate(others);
    Operand {
        expr: operand.expr,
        outer,
        reach: operand.reach,
    }
}

/// Whether the last form that waits takes an operand before an operator of this level.
fn takes_before(pending: &[Pending], looser: u32) -> bool
    ensures { result ≡ takes_before (waiting pending.now) looser }
{
    let Some((last, _)) = pending.split_last() else {
        return false;
    };
    match last {
        Pending::Paren { .. } => false,
        Pending::Unary { .. } => true,
        Pending::Binary { operator, .. } => operators::takes_before(*operator, looser),
    }
}

/// Gives an operand to the forms that wait for it and bind no looser than this level.
fn reduced(around: &mut Around, looser: u32, operand: Operand) -> Result<Operand, Stuck>
    requires { (b : Base) × IsAround b around.old × IsLow around.old.depth (expression_reach (expression operand.expr.value)) }
    ensures { (b : Base) (ts : List Sign) → looser ≡ looser_at ts → HasTight b around.old looser (expression operand.expr.value) operand.outer ts
        → OrNoMemory (λ whole. HasTight b around.new looser (expression whole.expr.value) whole.outer ts
        × (takes_before (waiting around.new.pending.items) looser ≡ false)) result }
{
    let mut operand = operand;
    while takes_before(around.pending.as_slice(), looser) {
        if let Some(pending) = around.pending.pop() {
            around.depth = around.depth.shallower();
            operand = applied(around.depth.alloc(), pending, operand)?;
        }
    }
    Ok(operand)
}

/// The form that waited, with its last operand.
fn applied(alloc: Global, pending: Pending, operand: Operand) -> Result<Operand, Stuck>
    requires last { operand.reach.height ≤ 200 }
    requires others { IsSmall pending }
    ensures { OrNoMemory (λ whole. Applies (frame pending) (expression operand.expr.value) operand.outer (expression whole.expr.value) whole.outer) result }
{
    match pending {
        Pending::Paren { .. } => Ok(operand),
        Pending::Unary { operator, start } => unary_with(alloc, operator, start, operand),
        Pending::Binary { operator, left } => binary_with(alloc, operator, left, operand),
    }
}

/// Takes the indices and members behind an operand, each of which makes it deeper by one.
#[cycle(expressions)]
fn selectors(depth: Depth, operand: Operand, tokens: &mut &[Token]) -> Result<Operand, Stuck>
    requires high { depth ≤ 200 }
    requires low { IsLow depth (expression_reach (expression operand.expr.value)) }
    ensures reads { Reads (λ x rest. IsSelected (expression operand.expr.value) operand.outer depth tokens.old.now (expression x.expr.value)
        x.outer rest) (StuckSelectors (expression operand.expr.value) operand.outer depth tokens.old.now) result tokens.new.now }
    ensures shorter { MayTakeTokens tokens.old.now result tokens.new.now }
{
    let mut operand = operand;
    'selectors: while let Some(selector) = next_selector(tokens) {
        depth.check_around(operand.reach.height, operand.reach.start)?;
        operand = selected(depth, operand, selector, tokens)?;
    }
    Ok(operand)
}

/// What selects a part of the expression before it.
#[derive(Clone, Copy)]
pub enum Selector {
    Index,
    Dot,
    Arrow,
}

/// Takes the first token of an index or a member, where one stands next.
fn next_selector(tokens: &mut &[Token]) -> Option<Selector>
    ensures { IsSelector tokens.old.now result tokens.new.now }
{
    let (token, rest) = tokens.split_first()?;
    let selector = selector_of(&token.kind)?;
    *tokens = rest;
    Some(selector)
}

/// What a token selects.
fn selector_of(kind: &TokenKind) -> Option<Selector>
    ensures { SelectsBy kind.now result }
{
    match kind {
        TokenKind::OpenBracket => Some(Selector::Index),
        TokenKind::Dot => Some(Selector::Dot),
        TokenKind::Arrow => Some(Selector::Arrow),
        _ => None,
    }
}

/// The operand with what the tokens behind the first one of an index or a member select of it.
#[cycle(expressions)]
fn selected(
    depth: Depth,
    operand: Operand,
    selector: Selector,
    tokens: &mut &[Token],
) -> Result<Operand, Stuck>
    requires { depth + operand.reach.height < 200 }
    ensures reads { (start : Place) → Reads (λ x rest. SelectsOne (expression operand.expr.value) operand.outer depth
        (words.token (selector_kind selector) start ∷ tokens.old.now) (expression x.expr.value) x.outer rest)
        (StuckSelectors (expression operand.expr.value) operand.outer depth (words.token (selector_kind selector) start ∷ tokens.old.now))
        result tokens.new.now }
    ensures shorter { TakesTokens tokens.old.now result tokens.new.now }
{
    match selector {
        Selector::Index => indexed(depth, operand, tokens),
        Selector::Dot => member(depth.alloc(), operand, false, tokens),
        Selector::Arrow => member(depth.alloc(), operand, true, tokens),
    }
}

/// The element of an array or a pointer with the index that these tokens give.
#[cycle(expressions)]
fn indexed(depth: Depth, operand: Operand, tokens: &mut &[Token]) -> Result<Operand, Stuck>
    requires { depth + operand.reach.height < 200 }
    ensures reads { (start : Place) → Reads (λ x rest. SelectsOne (expression operand.expr.value) operand.outer depth
        (words.token kinds.OpenBracket start ∷ tokens.old.now) (expression x.expr.value) x.outer rest)
        (StuckSelectors (expression operand.expr.value) operand.outer depth (words.token kinds.OpenBracket start ∷ tokens.old.now)) result
        tokens.new.now }
    ensures shorter { TakesTokens tokens.old.now result tokens.new.now }
{
    let index = expression_before(depth.deeper(), Terminal::CloseBracket, tokens)?;
    index_with(depth.alloc(), operand, index)
}

/// The member with the name that the tokens give, of a struct or, by an arrow, of what a pointer points to.
fn member(
    alloc: Global,
    operand: Operand,
    is_arrow: bool,
    tokens: &mut &[Token],
) -> Result<Operand, Stuck>
    requires { operand.reach.height < 200 }
    ensures reads { (depth : ℕ) (start : Place) → depth + operand.reach.height < 200
        → Reads (λ x rest. SelectsOne (expression operand.expr.value) operand.outer depth
        (words.token (member_word is_arrow) start ∷ tokens.old.now) (expression x.expr.value) x.outer rest)
        (StuckSelectors (expression operand.expr.value) operand.outer depth (words.token (member_word is_arrow) start ∷ tokens.old.now))
        result tokens.new.now }
    ensures shorter { TakesTokens tokens.old.now result tokens.new.now }
{
    let member = identifier(alloc, tokens)?;
    member_with(alloc, operand, is_arrow, member)
}
