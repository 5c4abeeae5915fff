// Reading declarations and assignments.

ghost use Rattle.std.specs.Prelude.{◌≡◌, ◌≤◌, ◌<◌, suc, true, map, Some};
ghost use Rattle.std.specs.Option.{option_map};
ghost use Rattle.ckc_tree.specs.Expressions.{expression, bounds};
ghost use Rattle.ckc_tree.specs.Statements as views;
ghost use Rattle.ckc_tree.specs.Heights.{around, expression_reach, optional_bounds_reach, optional_initializer_reach, declarator_reach, declarators_reach, declared_reach, assignment_reach};
ghost use Rattle.ckc_parser_grammar.specs.Tokens.{start_of, from_first, next_is};
ghost use Rattle.ckc_parser_grammar.specs.StatementGrammar.{SpellsOptionalBounds, SpellsOptionalArray, SpellsSigned, SpellsConstants, SpellsOptionalInitializer, SpellsDeclarator, SpellsDeclarators, SpellsDeclaration, SpellsAssignment};
ghost use Rattle.ckc_parser_grammar.specs.Failures.{IsLow};
ghost use Rattle.ckc_parser_grammar.specs.Answers.{Reads};
ghost use Rattle.ckc_parser_grammar.specs.StuckTypes.{type_word};
ghost use Rattle.ckc_parser_grammar.specs.StuckStatements.{assignment_word, StuckOptionalBounds, StuckOptionalArray, StuckSigned, StuckConstants, StuckOptionalInitializer, StuckDeclarator, StuckDeclarators, StuckDeclaration, StuckAssignment};
ghost use Rattle.ckc_parser.specs.StatementReadings.{SpellsAssigned, StuckAssigned};

use crate::bounds::bounds;
use crate::expressions::{expression, starts_unary, unary};
use crate::operand::Operand;
use crate::types::{stars, type_form};
use ckc_lexer::token::{Token, TokenKind};
use ckc_parser_grammar::depth::Depth;
use ckc_parser_grammar::kinds;
use ckc_parser_grammar::spans::join;
use ckc_parser_grammar::stuck::Stuck;
use ckc_parser_grammar::tokens::{
    close_brace, close_bracket, comma, identifier, open_brace, open_bracket,
};
use ckc_parser_grammar::words::{
    array_word, colon, constant, equal, minus, number, step_operator, store_operator,
};
use ckc_text::on_heap::push;
use ckc_text::place::Span;
use ckc_tree::expr::{BoundsText, Expr};
use ckc_tree::stmt::{
    ArrayForm, Assignment, Declaration, Declarator, Initializer, SignedConstant, StepOperator,
    StepSide, StoreOperator,
};
use std::alloc::Global;

/// A form, and the bytes that it stands on or that all so far stands on with it.
#[derive(Drop)]
pub struct Read<T> {
    pub form: T,
    pub span: Span,
}

/// Where the tokens start.
fn start_of(tokens: &[Token]) -> u32
    ensures { result ≡ start_of tokens.now }
{
    match tokens.split_first() {
        Some((token, _)) => token.span.from,
        None => 0,
    }
}

/// From where the tokens start to the end of a span.
pub fn from_first(tokens: &[Token], last: Span) -> Span
    ensures { result ≡ from_first tokens.now last }
{
    Span {
        from: start_of(tokens),
        to: last.to,
    }
}

/// Bounds behind a colon, where one stands next. The span is that of the whole so far, and with the bounds.
pub fn optional_bounds(
    depth: Depth,
    so_far: Span,
    tokens: &mut &[Token],
) -> Result<Read<Option<BoundsText>>, Stuck>
    requires { depth ≤ 200 }
    ensures { Reads (λ x rest. SpellsOptionalBounds so_far tokens.old.now (option_map bounds x.form) x.span rest
        × IsLow depth (optional_bounds_reach (option_map bounds x.form))) (StuckOptionalBounds depth tokens.old.now) result tokens.new.now }
{
    let Ok(_) = colon(tokens) else {
        let form = None;
        let span = so_far;
        return Ok(Read { form, span });
    };
    let read = bounds(depth, tokens)?;
    let span = join(so_far, read.span);
    let form = Some(read.text);
    Ok(Read { form, span })
}

/// What makes a variable an array, where it stands next.
fn optional_array(so_far: Span, tokens: &mut &[Token]) -> Result<Read<Option<ArrayForm>>, Stuck>
    ensures { Reads (λ x rest. SpellsOptionalArray so_far tokens.old.now x.form x.span rest) (StuckOptionalArray tokens.old.now) result tokens.new.now }
{
    let Ok((kind, start)) = array_word(tokens) else {
        let form = None;
        let span = so_far;
        return Ok(Read { form, span });
    };
    open_bracket(tokens)?;
    let (length, _) = number(tokens)?;
    let end = close_bracket(tokens)?;
    let span = join(start, end);
    let form = Some(ArrayForm { kind, length, span });
    let span = join(so_far, end);
    Ok(Read { form, span })
}

/// A number or a character, with a minus before it or none.
fn signed(tokens: &mut &[Token]) -> Result<SignedConstant, Stuck>
    ensures { Reads (SpellsSigned tokens.old.now) (StuckSigned tokens.old.now) result tokens.new.now }
{
    if let Ok(start) = minus(tokens) {
        let negative = true;
        let (constant, end) = constant(tokens)?;
        let span = join(start, end);
        return Ok(SignedConstant {
            negative,
            constant,
            span,
        });
    }
    let negative = false;
    let (constant, span) = constant(tokens)?;
    Ok(SignedConstant {
        negative,
        constant,
        span,
    })
}

/// At least one constant, and the brace behind them, whose span is given.
fn constants(alloc: Global, tokens: &mut &[Token]) -> Result<Read<Vec<SignedConstant>>, Stuck>
    ensures { Reads (λ x rest. SpellsConstants tokens.old.now x.form.items x.span rest) (StuckConstants tokens.old.now) result tokens.new.now }
{
    let mut form = Vec::new(alloc);
    'constants: loop {
        let item = signed(tokens)?;
        push(&mut form, item)?;
        if let Ok(span) = close_brace(tokens) {
            return Ok(Read { form, span });
        }
        comma(tokens)?;
    }
}

/// What a variable is initialised with, where an equals sign stands next. The span is that of the whole so far, and with
/// it.
fn optional_initializer(
    depth: Depth,
    so_far: Span,
    tokens: &mut &[Token],
) -> Result<Read<Option<Initializer>>, Stuck>
    requires { depth ≤ 200 }
    ensures { Reads (λ x rest. SpellsOptionalInitializer so_far tokens.old.now (option_map views.initializer x.form) x.span rest
        × IsLow depth (optional_initializer_reach (option_map views.initializer x.form))) (StuckOptionalInitializer depth tokens.old.now)
        result tokens.new.now }
{
    let Ok(_) = equal(tokens) else {
        let form = None;
        let span = so_far;
        return Ok(Read { form, span });
    };
    if let Ok(start) = open_brace(tokens) {
        let read = constants(depth.alloc(), tokens)?;
        let constants = read.form;
        let span = join(start, read.span);
        let form = Some(Initializer::List { constants, span });
        let span = join(so_far, read.span);
        return Ok(Read { form, span });
    }
    let read = expression(depth, tokens)?;
    let span = join(so_far, read.outer);
    let form = Some(Initializer::Value { value: read.expr });
    Ok(Read { form, span })
}

/// One variable of a declaration.
fn declarator(depth: Depth, tokens: &mut &[Token]) -> Result<Declarator, Stuck>
    requires { depth ≤ 200 }
    ensures { Reads (λ x rest. SpellsDeclarator tokens.old.now (views.declarator x) rest
        × IsLow depth (declarator_reach (views.declarator x))) (StuckDeclarator depth tokens.old.now) result tokens.new.now }
{
    let whole: &[Token] = *tokens;
    let stars = stars(tokens);
    let name = identifier(depth.alloc(), tokens)?;
    let so_far = from_first(whole, name.span);
    let array = optional_array(so_far, tokens)?;
    let bounds = optional_bounds(depth, array.span, tokens)?;
    let initializer = optional_initializer(depth, bounds.span, tokens)?;
    let declarator = Declarator {
        stars,
        name,
        array: array.form,
        bounds: bounds.form,
        initializer: initializer.form,
        span: initializer.span,
    };
    Ok(declarator)
}

/// At least one variable, and all that stand here. The span is that of the last.
pub fn declarators(depth: Depth, tokens: &mut &[Token]) -> Result<Read<Vec<Declarator>>, Stuck>
    requires { depth ≤ 200 }
    ensures { Reads (λ x rest. SpellsDeclarators tokens.old.now (map views.declarator x.form.items) x.span rest
        × IsLow depth (declarators_reach (map views.declarator x.form.items))) (StuckDeclarators depth tokens.old.now) result
        tokens.new.now }
{
    let mut form = Vec::new(depth.alloc());
    'declarators: loop {
        let item = declarator(depth, tokens)?;
        let span = item.span;
        push(&mut form, item)?;
        let Ok(_) = comma(tokens) else {
            return Ok(Read { form, span });
        };
    }
}

/// A declaration with at most `depth` nodes around it.
pub fn declaration(depth: Depth, tokens: &mut &[Token]) -> Result<Declaration, Stuck>
    requires low { depth ≤ 200 }
    requires typed { next_is type_word tokens.old.now ≡ true }
    ensures { Reads (λ x rest. SpellsDeclaration tokens.old.now (views.declaration x) rest
        × IsLow depth (around x.span.from (declared_reach (views.declaration x)))) (StuckDeclaration depth tokens.old.now) result
        tokens.new.now }
{
    depth.check(start_of(tokens))?;
    let below = depth.deeper();
    let base = type_form(below, tokens)?;
    let declarators = declarators(below, tokens)?;
    let base = base.form;
    let span = join(base.span(), declarators.span);
    let declarators = declarators.form;
    let declaration = Declaration {
        base,
        declarators,
        span,
    };
    Ok(declaration)
}

/// Whether a token is the first of an assignment.
pub fn starts_assignment(kind: &TokenKind) -> bool
    ensures { result ≡ assignment_word kind.now }
{
    kinds::step_operator(kind).is_some() || starts_unary(kind)
}

/// An assignment with at most `depth` nodes around it.
pub fn assignment(depth: Depth, tokens: &mut &[Token]) -> Result<Assignment, Stuck>
    requires { depth ≤ 200 }
    ensures { Reads (λ x rest. SpellsAssignment tokens.old.now (views.assignment x) rest
        × IsLow depth (assignment_reach (views.assignment x))) (StuckAssignment depth tokens.old.now) result tokens.new.now }
{
    let Some((token, _)) = tokens.split_first() else {
        return Err(Stuck::Unexpected);
    };
    if !starts_assignment(&token.kind) {
        return Err(Stuck::Unexpected);
    }
    depth.check(token.span.from)?;
    let below = depth.deeper();
    if let Ok((operator, start)) = step_operator(tokens) {
        let read = unary(below, tokens)?;
        let span = join(start, read.outer);
        return Ok(step(operator, StepSide::Before, read.expr, span));
    }
    let target = unary(below, tokens)?;
    assigned(depth, target, tokens)
}

/// The assignment to a target that is read.
pub fn assigned(depth: Depth, read: Operand, tokens: &mut &[Token]) -> Result<Assignment, Stuck>
    requires deep { depth < 200 }
    requires low { IsLow (suc depth) (expression_reach (expression read.expr.value)) }
    ensures { Reads (λ x rest. SpellsAssigned (expression read.expr.value) read.outer tokens.old.now (views.assignment x) rest
        × IsLow depth (assignment_reach (views.assignment x))) (StuckAssigned depth tokens.old.now) result tokens.new.now }
{
    if let Ok((operator, end)) = step_operator(tokens) {
        let span = join(read.outer, end);
        return Ok(step(operator, StepSide::After, read.expr, span));
    }
    let (operator, _) = store_operator(tokens)?;
    let stored = expression(depth.deeper(), tokens)?;
    let span = join(read.outer, stored.outer);
    Ok(store(operator, read.expr, stored.expr, span))
}

/// A step, before or behind its target.
fn step(operator: StepOperator, side: StepSide, target: Box<Expr>, span: Span) -> Assignment
    ensures { views.assignment result ≡ views.Step operator side (expression target.value) span }
{
    Assignment::Step {
        operator,
        side,
        target,
        span,
    }
}

/// A value that is stored.
fn store(operator: StoreOperator, target: Box<Expr>, value: Box<Expr>, span: Span) -> Assignment
    ensures { views.assignment result ≡ views.Store operator (expression target.value) (expression value.value) span }
{
    Assignment::Store {
        operator,
        target,
        value,
        span,
    }
}
