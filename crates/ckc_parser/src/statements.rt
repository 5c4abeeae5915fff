// Reading statements.

ghost use Rattle.std.specs.Prelude.{◌≡◌, ℕ, ◌∷◌, ◌≤◌, ◌<◌, true, false, map, None, Some};
ghost use Rattle.std.specs.Option.{option_map};
ghost use Rattle.ckc_lexer.specs.declared.keyword.Keyword.TheVariants as keywords;
ghost use Rattle.ckc_lexer.specs.declared.token.TokenKind.TheVariants as kinds;
ghost use Rattle.ckc_tree.specs.Expressions.{expression};
ghost use Rattle.ckc_tree.specs.Statements as views;
ghost use Rattle.ckc_tree.specs.Items.{statement_list};
ghost use Rattle.ckc_tree.specs.Heights.{expression_reach, assignments_reach, for_initial_reach, optional_expression_reach, optional_assignment_reach, statement_reach, statements_reach};
ghost use Rattle.ckc_parser_grammar.specs.Tokens.{token, join, next_is};
ghost use Rattle.ckc_parser_grammar.specs.StatementGrammar.{SpellsAssignments, SpellsForInitial, SpellsForStep, SpellsStatement, SpellsStatements};
ghost use Rattle.ckc_parser_grammar.specs.Failures.{IsLow};
ghost use Rattle.ckc_parser_grammar.specs.Answers.{Reads};
ghost use Rattle.ckc_parser_grammar.specs.StuckTypes.{type_word, name_token};
ghost use Rattle.ckc_parser_grammar.specs.StuckStatements.{plain_word, statement_word, assignment_word, StuckAssignments, StuckForInitial, StuckForCondition, StuckForStep, StuckCondition, StuckStatement, StuckStatements};
ghost use Rattle.ckc_parser.specs.StatementReadings.{SpellsCondition, SpellsEnd, EndsCall, IsForHead, jump_word, jump};

use crate::declarations::{Read, assigned, assignment, declaration, starts_assignment};
use crate::expressions::{expression, unary};
use crate::types::starts_type;
use ckc_lexer::keyword::Keyword;
use ckc_lexer::token::{Token, TokenKind};
use ckc_parser_grammar::depth::Depth;
use ckc_parser_grammar::kinds;
use ckc_parser_grammar::spans::join;
use ckc_parser_grammar::stuck::Stuck;
use ckc_parser_grammar::terminal::{Terminal, expect};
use ckc_parser_grammar::tokens::{close_brace, close_paren, open_brace, open_paren, semicolon};
use ckc_parser_grammar::words::mark;
use ckc_text::on_heap::{boxed, push};
use ckc_text::place::Span;
use ckc_tree::expr::Expr;
use ckc_tree::stmt::{Assignment, ForInitial, Mark, Stmt};
use std::alloc::Global;

/// Whether a token is the first of a statement that begins with none of a type, an expression or an assignment.
fn starts_plain(kind: &TokenKind) -> bool
    ensures { result ≡ plain_word kind.now }
{
    matches!(
        kind,
        TokenKind::OpenBrace
            | TokenKind::Keyword(Keyword::Bundled)
            | TokenKind::Semicolon
            | TokenKind::Keyword(Keyword::If)
            | TokenKind::Keyword(Keyword::While)
            | TokenKind::Keyword(Keyword::For)
            | TokenKind::Keyword(Keyword::Return)
            | TokenKind::Keyword(Keyword::Break)
            | TokenKind::Keyword(Keyword::Continue)
    ) || kinds::mark(kind).is_some()
}

/// Whether a token is the first of a statement.
fn starts_statement(kind: &TokenKind) -> bool
    ensures { result ≡ statement_word kind.now }
{
    starts_plain(kind) || starts_type(kind) || starts_assignment(kind)
}

/// A statement with at most `depth` nodes around it.
#[cycle(statements)]
pub fn statement(depth: Depth, tokens: &mut &[Token]) -> Result<Box<Stmt>, Stuck>
    requires { depth ≤ 200 }
    ensures { Reads (λ x rest. SpellsStatement tokens.old.now (views.statement x.value) rest
        × IsLow depth (statement_reach (views.statement x.value))) (StuckStatement depth tokens.old.now) result tokens.new.now }
{
    let Some((token, _)) = tokens.split_first() else {
        return Err(Stuck::Unexpected);
    };
    if !starts_statement(&token.kind) {
        return Err(Stuck::Unexpected);
    }
    depth.check(token.span.from)?;
    if starts_type(&token.kind) {
        return declared(depth, tokens);
    }
    if starts_assignment(&token.kind) {
        return stored_or_called(depth, tokens);
    }
    plain(depth, tokens)
}

/// A statement that begins with none of a type, an expression or an assignment.
#[cycle(statements)]
fn plain(depth: Depth, tokens: &mut &[Token]) -> Result<Box<Stmt>, Stuck>
    requires deep { depth < 200 }
    requires word { next_is plain_word tokens.old.now ≡ true }
    ensures { Reads (λ x rest. SpellsStatement tokens.old.now (views.statement x.value) rest
        × IsLow depth (statement_reach (views.statement x.value))) (StuckStatement depth tokens.old.now) result tokens.new.now }
{
    let below = depth.deeper();
    if let Ok((mark, start)) = mark(tokens) {
        open_brace(tokens)?;
        let read = statements(below, tokens)?;
        return Ok(depth.boxed(block(Some(mark), start, read))?);
    }
    if let Ok(start) = open_brace(tokens) {
        let inner = statements(below, tokens)?;
        return Ok(depth.boxed(block(None, start, inner))?);
    }
    let Some((token, rest)) = tokens.split_first() else {
        return Err(Stuck::Unexpected);
    };
    let start = token.span;
    *tokens = rest;
    match &token.kind {
        TokenKind::Keyword(Keyword::Bundled) => bundle(depth, start, tokens),
        TokenKind::Keyword(Keyword::If) => if_statement(depth, start, tokens),
        TokenKind::Keyword(Keyword::While) => while_statement(depth, start, tokens),
        TokenKind::Keyword(Keyword::For) => for_statement(depth, start, tokens),
        TokenKind::Keyword(Keyword::Return) => return_statement(depth, start, tokens),
        TokenKind::Keyword(Keyword::Break) => jump(depth.alloc(), true, start, tokens),
        TokenKind::Keyword(Keyword::Continue) => jump(depth.alloc(), false, start, tokens),
        TokenKind::Semicolon => Ok(depth.boxed(Stmt::Empty { span: start })?),
        _ => Err(Stuck::Unexpected),
    }
}

/// What stands behind the word `break`, or `continue`.
fn jump(
    alloc: Global,
    is_break: bool,
    start: Span,
    tokens: &mut &[Token],
) -> Result<Box<Stmt>, Stuck>
    ensures { (depth : ℕ) → depth < 200 → Reads (λ x rest. SpellsStatement (token (jump_word is_break) start ∷ tokens.old.now)
        (views.statement x.value) rest × IsLow depth (statement_reach (views.statement x.value)))
        (StuckStatement depth (token (jump_word is_break) start ∷ tokens.old.now)) result tokens.new.now }
{
    let end = semicolon(tokens)?;
    let span = join(start, end);
    Ok(boxed(alloc, jumped(is_break, span))?)
}

/// A `break`, or a `continue`.
fn jumped(is_break: bool, span: Span) -> Stmt
    ensures { views.statement result ≡ jump is_break span }
{
    if is_break {
        Stmt::Break { span }
    } else {
        Stmt::Continue { span }
    }
}

/// The statements of a block, and the brace behind them, whose span is given.
#[cycle(statements)]
pub fn statements(depth: Depth, tokens: &mut &[Token]) -> Result<Read<Vec<Stmt>>, Stuck>
    requires { depth ≤ 200 }
    ensures { Reads (λ x rest. SpellsStatements tokens.old.now (statement_list x.form.items) x.span rest
        × IsLow depth (statements_reach (statement_list x.form.items))) (StuckStatements depth tokens.old.now) result tokens.new.now }
{
    let mut form = Vec::new(depth.alloc());
    'statements: loop {
        if let Ok(span) = close_brace(tokens) {
            return Ok(Read { form, span });
        }
        let item = statement(depth, tokens)?;
        push(&mut form, Box::into_inner(item))?;
    }
}

/// The block of these statements.
fn block(mark: Option<Mark>, start: Span, read: Read<Vec<Stmt>>) -> Stmt
    ensures { views.statement result ≡ views.Block mark (statement_list read.form.items) (join start read.span) }
{
    let statements = read.form;
    let span = join(start, read.span);
    Stmt::Block {
        mark,
        statements,
        span,
    }
}

/// Assignments with a semicolon behind each, and the brace behind them, whose span is given.
fn assignments(depth: Depth, tokens: &mut &[Token]) -> Result<Read<Vec<Assignment>>, Stuck>
    requires { depth ≤ 200 }
    ensures { Reads (λ x rest. SpellsAssignments tokens.old.now (map views.assignment x.form.items) x.span rest
        × IsLow depth (assignments_reach (map views.assignment x.form.items))) (StuckAssignments depth tokens.old.now) result
        tokens.new.now }
{
    let mut form = Vec::new(depth.alloc());
    'assignments: loop {
        if let Ok(span) = close_brace(tokens) {
            return Ok(Read { form, span });
        }
        let item = assignment(depth, tokens)?;
        semicolon(tokens)?;
        push(&mut form, item)?;
    }
}

/// What stands behind the word of a bundle.
fn bundle(depth: Depth, start: Span, tokens: &mut &[Token]) -> Result<Box<Stmt>, Stuck>
    requires { depth < 200 }
    ensures { Reads (λ x rest. SpellsStatement (token (kinds.Keyword keywords.Bundled) start ∷ tokens.old.now) (views.statement x.value)
        rest × IsLow depth (statement_reach (views.statement x.value)))
        (StuckStatement depth (token (kinds.Keyword keywords.Bundled) start ∷ tokens.old.now)) result tokens.new.now }
{
    open_brace(tokens)?;
    let read = assignments(depth.deeper(), tokens)?;
    let assignments = read.form;
    let span = join(start, read.span);
    Ok(depth.boxed(Stmt::Bundle { assignments, span })?)
}

/// A declaration and its semicolon.
fn declared(depth: Depth, tokens: &mut &[Token]) -> Result<Box<Stmt>, Stuck>
    requires deep { depth < 200 }
    requires typed { next_is type_word tokens.old.now ≡ true }
    ensures { Reads (λ x rest. SpellsStatement tokens.old.now (views.statement x.value) rest
        × IsLow depth (statement_reach (views.statement x.value))) (StuckStatement depth tokens.old.now) result tokens.new.now }
{
    let declaration = declaration(depth, tokens)?;
    let end = semicolon(tokens)?;
    let span = join(declaration.span, end);
    Ok(depth.boxed(Stmt::Declare { declaration, span })?)
}

/// An assignment or a call, and its semicolon.
fn stored_or_called(depth: Depth, tokens: &mut &[Token]) -> Result<Box<Stmt>, Stuck>
    requires deep { depth < 200 }
    requires word { next_is assignment_word tokens.old.now ≡ true }
    ensures { Reads (λ x rest. SpellsStatement tokens.old.now (views.statement x.value) rest
        × IsLow depth (statement_reach (views.statement x.value))) (StuckStatement depth tokens.old.now) result tokens.new.now }
{
    if next_is_name(tokens) {
        named(depth, tokens)
    } else {
        stored(depth, tokens)
    }
}

/// Whether the first token is a name.
fn next_is_name(tokens: &[Token]) -> bool
    ensures { result ≡ next_is name_token tokens.now }
{
    match tokens.split_first() {
        Some((token, _)) => matches!(token.kind, TokenKind::Name(_)),
        None => false,
    }
}

/// An assignment that begins with no name, and its semicolon.
fn stored(depth: Depth, tokens: &mut &[Token]) -> Result<Box<Stmt>, Stuck>
    requires deep { depth < 200 }
    requires word { next_is assignment_word tokens.old.now ≡ true }
    requires unnamed { next_is name_token tokens.old.now ≡ false }
    ensures { Reads (λ x rest. SpellsStatement tokens.old.now (views.statement x.value) rest
        × IsLow depth (statement_reach (views.statement x.value))) (StuckStatement depth tokens.old.now) result tokens.new.now }
{
    let assignment = assignment(depth, tokens)?;
    let end = semicolon(tokens)?;
    let span = join(assignment.span(), end);
    Ok(depth.boxed(Stmt::Assign { assignment, span })?)
}

/// The semicolon behind a call. It is left where no call stands before it.
fn call_end(target: &Expr, tokens: &mut &[Token]) -> Option<Span>
    ensures { EndsCall (expression target.now) tokens.old.now result tokens.new.now }
{
    if !matches!(target, Expr::Call { .. }) {
        return None;
    }
    match semicolon(tokens) {
        Ok(end) => Some(end),
        Err(_) => None,
    }
}

/// What begins with a name, and its semicolon: a call where nothing but arguments stands behind the name, and else an
/// assignment.
fn named(depth: Depth, tokens: &mut &[Token]) -> Result<Box<Stmt>, Stuck>
    requires deep { depth < 200 }
    requires named { next_is name_token tokens.old.now ≡ true }
    ensures { Reads (λ x rest. SpellsStatement tokens.old.now (views.statement x.value) rest
        × IsLow depth (statement_reach (views.statement x.value))) (StuckStatement depth tokens.old.now) result tokens.new.now }
{
    let target = unary(depth.deeper(), tokens)?;
    if let Some(end) = call_end(&target.expr, tokens) {
        let span = join(target.outer, end);
        let call = target.expr;
        return Ok(depth.boxed(Stmt::Call { call, span })?);
    }
    let assignment = assigned(depth, target, tokens)?;
    let end = semicolon(tokens)?;
    let span = join(assignment.span(), end);
    Ok(depth.boxed(Stmt::Assign { assignment, span })?)
}

/// An expression in parentheses that belong to a statement.
fn condition(depth: Depth, tokens: &mut &[Token]) -> Result<Box<Expr>, Stuck>
    requires { depth ≤ 200 }
    ensures { Reads (λ x rest. SpellsCondition tokens.old.now (expression x.value) rest
        × IsLow depth (expression_reach (expression x.value))) (StuckCondition depth tokens.old.now) result tokens.new.now }
{
    open_paren(tokens)?;
    let read = expression(depth, tokens)?;
    close_paren(tokens)?;
    Ok(read.expr)
}

/// What stands behind the word `if`.
#[cycle(statements)]
fn if_statement(depth: Depth, start: Span, tokens: &mut &[Token]) -> Result<Box<Stmt>, Stuck>
    requires { depth < 200 }
    ensures { Reads (λ x rest. SpellsStatement (token (kinds.Keyword keywords.If) start ∷ tokens.old.now) (views.statement x.value) rest
        × IsLow depth (statement_reach (views.statement x.value))) (StuckStatement depth
        (token (kinds.Keyword keywords.If) start ∷ tokens.old.now)) result tokens.new.now }
{
    let below = depth.deeper();
    let condition = condition(below, tokens)?;
    let consequent = statement(below, tokens)?;
    // The innermost `if` that an `else` stands behind takes it.
    if let Ok(_) = expect(Terminal::Else, tokens) {
        let alternative = statement(below, tokens)?;
        let span = join(start, alternative.span());
        return Ok(depth.boxed(if_else(condition, consequent, alternative, span))?);
    }
    let span = join(start, consequent.span());
    Ok(depth.boxed(if_alone(condition, consequent, span))?)
}

/// An `if` without `else`.
fn if_alone(condition: Box<Expr>, consequent: Box<Stmt>, span: Span) -> Stmt
    ensures { views.statement result ≡ views.If (expression condition.value) (views.statement consequent.value) span }
{
    Stmt::If {
        condition,
        consequent,
        alternative: None,
        span,
    }
}

/// An `if` with its `else`.
fn if_else(condition: Box<Expr>, consequent: Box<Stmt>, alternative: Box<Stmt>, span: Span) -> Stmt
    ensures { views.statement result ≡ views.IfElse (expression condition.value) (views.statement consequent.value) (views.statement alternative.value) span }
{
    Stmt::If {
        condition,
        consequent,
        alternative: Some(alternative),
        span,
    }
}

/// What stands behind the word `while`.
#[cycle(statements)]
fn while_statement(depth: Depth, start: Span, tokens: &mut &[Token]) -> Result<Box<Stmt>, Stuck>
    requires { depth < 200 }
    ensures { Reads (λ x rest. SpellsStatement (token (kinds.Keyword keywords.While) start ∷ tokens.old.now) (views.statement x.value) rest
        × IsLow depth (statement_reach (views.statement x.value))) (StuckStatement depth
        (token (kinds.Keyword keywords.While) start ∷ tokens.old.now)) result tokens.new.now }
{
    let below = depth.deeper();
    let condition = condition(below, tokens)?;
    let body = statement(below, tokens)?;
    let span = join(start, body.span());
    Ok(depth.boxed(while_loop(condition, body, span))?)
}

/// A `while` with its body.
fn while_loop(condition: Box<Expr>, body: Box<Stmt>, span: Span) -> Stmt
    ensures { views.statement result ≡ views.While (expression condition.value) (views.statement body.value) span }
{
    Stmt::While {
        condition,
        body,
        span,
    }
}

/// The first part of the head of a `for`, and its semicolon.
fn for_initial(depth: Depth, tokens: &mut &[Token]) -> Result<ForInitial, Stuck>
    requires { depth ≤ 200 }
    ensures { Reads (λ x rest. SpellsForInitial tokens.old.now (views.for_initial x) rest
        × IsLow depth (for_initial_reach (views.for_initial x))) (StuckForInitial depth tokens.old.now) result tokens.new.now }
{
    if let Ok(_) = semicolon(tokens) {
        return Ok(ForInitial::Nothing);
    }
    if next_starts_type(tokens) {
        let declaration = declaration(depth, tokens)?;
        semicolon(tokens)?;
        return Ok(ForInitial::Declare { declaration });
    }
    let assignment = assignment(depth, tokens)?;
    semicolon(tokens)?;
    Ok(ForInitial::Assign { assignment })
}

/// Whether the first token is that of a type.
fn next_starts_type(tokens: &[Token]) -> bool
    ensures { result ≡ next_is type_word tokens.now }
{
    match tokens.split_first() {
        Some((token, _)) => starts_type(&token.kind),
        None => false,
    }
}

/// An expression that may be left out before a semicolon, and the semicolon, whose span is given.
fn optional_value(depth: Depth, tokens: &mut &[Token]) -> Result<Read<Option<Box<Expr>>>, Stuck>
    requires { depth ≤ 200 }
    ensures { Reads (λ x rest. SpellsEnd tokens.old.now (option_map views.on_heap x.form) x.span rest
        × IsLow depth (optional_expression_reach (option_map views.on_heap x.form))) (StuckForCondition depth tokens.old.now) result
        tokens.new.now }
{
    if let Ok(span) = semicolon(tokens) {
        let form = None;
        return Ok(Read { form, span });
    }
    let read = expression(depth, tokens)?;
    let span = semicolon(tokens)?;
    let form = Some(read.expr);
    Ok(Read { form, span })
}

/// The last part of the head of a `for`, and its parenthesis.
fn for_step(depth: Depth, tokens: &mut &[Token]) -> Result<Option<Assignment>, Stuck>
    requires { depth ≤ 200 }
    ensures { Reads (λ x rest. SpellsForStep tokens.old.now (option_map views.assignment x) rest
        × IsLow depth (optional_assignment_reach (option_map views.assignment x))) (StuckForStep depth tokens.old.now) result
        tokens.new.now }
{
    if let Ok(_) = close_paren(tokens) {
        return Ok(None);
    }
    let assignment = assignment(depth, tokens)?;
    close_paren(tokens)?;
    Ok(Some(assignment))
}

/// What stands in the parentheses of a `for`.
#[derive(Drop)]
struct ForHead {
    initial: ForInitial,
    condition: Option<Box<Expr>>,
    step: Option<Assignment>,
}

/// What stands between the word `for` and its body.
fn for_head(depth: Depth, start: Span, tokens: &mut &[Token]) -> Result<Box<ForHead>, Stuck>
    requires { depth < 200 }
    ensures { Reads (λ x rest. IsForHead depth tokens.old.now (views.for_initial x.value.initial)
        (option_map views.on_heap x.value.condition) (option_map views.assignment x.value.step) rest)
        (StuckStatement depth (token (kinds.Keyword keywords.For) start ∷ tokens.old.now)) result tokens.new.now }
{
    open_paren(tokens)?;
    let below = depth.deeper();
    let initial = for_initial(below, tokens)?;
    let read = optional_value(below, tokens)?;
    let step = for_step(below, tokens)?;
    let condition = read.form;
    let head = ForHead {
        initial,
        condition,
        step,
    };
    Ok(depth.boxed(head)?)
}

/// What stands behind the word `for`.
#[cycle(statements)]
fn for_statement(depth: Depth, start: Span, tokens: &mut &[Token]) -> Result<Box<Stmt>, Stuck>
    requires { depth < 200 }
    ensures { Reads (λ x rest. SpellsStatement (token (kinds.Keyword keywords.For) start ∷ tokens.old.now) (views.statement x.value) rest
        × IsLow depth (statement_reach (views.statement x.value))) (StuckStatement depth
        (token (kinds.Keyword keywords.For) start ∷ tokens.old.now)) result tokens.new.now }
{
    let head = for_head(depth, start, tokens)?;
    let body = statement(depth.deeper(), tokens)?;
    let span = join(start, body.span());
    Ok(depth.boxed(for_loop(Box::into_inner(head), body, span))?)
}

/// A `for` with its body.
fn for_loop(head: ForHead, body: Box<Stmt>, span: Span) -> Stmt
    ensures { views.statement result ≡ views.For (views.for_initial head.initial) (option_map views.on_heap head.condition)
        (option_map views.assignment head.step) (views.statement body.value) span }
{
    Stmt::For {
        initial: head.initial,
        condition: head.condition,
        step: head.step,
        body,
        span,
    }
}

/// What stands behind the word `return`.
fn return_statement(depth: Depth, start: Span, tokens: &mut &[Token]) -> Result<Box<Stmt>, Stuck>
    requires { depth < 200 }
    ensures { Reads (λ x rest. SpellsStatement (token (kinds.Keyword keywords.Return) start ∷ tokens.old.now) (views.statement x.value) rest
        × IsLow depth (statement_reach (views.statement x.value))) (StuckStatement depth
        (token (kinds.Keyword keywords.Return) start ∷ tokens.old.now)) result tokens.new.now }
{
    let read = optional_value(depth.deeper(), tokens)?;
    let value = read.form;
    let span = join(start, read.span);
    Ok(depth.boxed(Stmt::Return { value, span })?)
}
