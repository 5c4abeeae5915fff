// Reading the smallest expressions, with what stands in their own parentheses.

ghost use Rattle.std.specs.Prelude.{◌≡◌, ◌≤◌, ◌<◌, ◌∷◌, ◌++◌, [], IfOk, Some};
ghost use Rattle.ckc_lexer.specs.declared.token.TokenKind.{TokenKind as Kind};
ghost use Rattle.ckc_lexer.specs.declared.keyword.Keyword.TheVariants as keywords;
ghost use Rattle.ckc_lexer.specs.declared.token.TokenKind.TheVariants as kinds;
ghost use Rattle.ckc_tree.specs.Types.{type_tree};
ghost use Rattle.ckc_tree.specs.Expressions as trees;
ghost use Rattle.ckc_tree.specs.Expressions.{expression};
ghost use Rattle.ckc_tree.specs.Heights.{◌beside◌, type_reach, expression_reach, expressions_reach};
ghost use Rattle.ckc_parser_grammar.specs.Tokens.{token, cast_word_of, malloc_word_of, calloc_word_of};
ghost use Rattle.ckc_parser_grammar.specs.StuckExpressions.{primary_word, StuckPrimary, StuckArguments, StuckMoreArguments};
ghost use Rattle.ckc_parser_grammar.specs.Failures.{IsLow};
ghost use Rattle.ckc_parser_grammar.specs.Answers.{Reads, Opens, TakesTokens, MayTakeTokens};
ghost use Rattle.ckc_parser.specs.Reaches.{reach_of};
ghost use Rattle.ckc_parser.specs.Readings.{listed, Builds, IsPrimary, IsArguments, IsMore, FailsPrimary};
ghost use Rattle.ckc_parser.specs.Parts.{IsTyped, StuckTyped, IsLastBounds, StuckLastBounds};

use crate::bounds::{ReadBounds, bounds};
use crate::build::{
    bounded_cast_with, call_with, calloc_with, cast_with, leaf, malloc_with, size_of_with,
};
use crate::expressions::{expression, expression_before};
use crate::operand::{Operand, Reach};
use crate::types::{ReadTypeName, angled, type_name};
use ckc_lexer::keyword::Keyword;
use ckc_lexer::token::{Token, TokenKind};
use ckc_parser_grammar::depth::Depth;
use ckc_parser_grammar::kinds::{calloc_word, cast_word, malloc_word};
use ckc_parser_grammar::spans::join;
use ckc_parser_grammar::stuck::Stuck;
use ckc_parser_grammar::terminal::Terminal;
use ckc_parser_grammar::tokens::{close_paren, comma, copied, open_paren};
use ckc_text::fault::NoMemory;
use ckc_text::listed::Listed;
use ckc_text::name::Name;
use ckc_text::on_heap::push;
use ckc_text::place::Span;
use ckc_tree::expr::{CallocWord, CastWord, Expr, MallocWord};
use std::alloc::Global;

/// Whether a token is the first of an expression without operators and parentheses around it.
pub fn starts_primary(kind: &TokenKind) -> bool
    ensures { result ≡ primary_word kind.now }
{
    matches!(
        kind,
        TokenKind::Number(_)
            | TokenKind::Character(_)
            | TokenKind::Text(_)
            | TokenKind::Name(_)
            | TokenKind::Keyword(Keyword::Sizeof)
    ) || cast_word(kind).is_some()
        || malloc_word(kind).is_some()
        || calloc_word(kind).is_some()
}

/// The first token of an expression without operators and parentheses around it, with at most `depth` nodes around it.
fn primary_word<'t>(depth: Depth, tokens: &mut &'t [Token]) -> Result<&'t Token, Stuck>
    ensures { Opens primary_word (FailsPrimary depth tokens.old.now) depth tokens.old.now result tokens.new.now }
{
    let Some((token, rest)) = tokens.split_first() else {
        return Err(Stuck::Unexpected);
    };
    if !starts_primary(&token.kind) {
        return Err(Stuck::Unexpected);
    }
    depth.check(token.span.from)?;
    *tokens = rest;
    Ok(token)
}

/// An expression without operators and parentheses around it, with at most `depth` nodes around it.
#[cycle(expressions)]
pub fn primary(depth: Depth, tokens: &mut &[Token]) -> Result<Operand, Stuck>
    requires { depth ≤ 200 }
    ensures reads { Reads (λ x rest. IsPrimary depth tokens.old.now (expression x.expr.value) x.outer rest)
        (FailsPrimary depth tokens.old.now) result tokens.new.now }
    ensures shorter { TakesTokens tokens.old.now result tokens.new.now }
{
    let token = primary_word(depth, tokens)?;
    let alloc = depth.alloc();
    let span = token.span;
    match &token.kind {
        TokenKind::Number(value) => {
            let value = *value;
            leaf(alloc, Expr::Number { value, span }, span)
        }
        TokenKind::Character(value) => {
            let value = *value;
            leaf(alloc, Expr::Character { value, span }, span)
        }
        TokenKind::Text(text) => text_literal(alloc, text, span),
        TokenKind::Name(name) => name_or_call(depth, name, span, tokens),
        TokenKind::Keyword(Keyword::Sizeof) => size_of(depth, span, tokens),
        kind => match (cast_word(kind), malloc_word(kind), calloc_word(kind)) {
            (Some(word), _, _) => cast(depth, word, span, tokens),
            (_, Some(word), _) => malloc(depth, word, span, tokens),
            (_, _, Some(word)) => calloc(depth, word, span, tokens),
            _ => Err(Stuck::Unexpected),
        },
    }
}

/// The bytes of a text.
fn text_literal(alloc: Global, text: &Listed<u8>, span: Span) -> Result<Operand, Stuck>
    ensures { Builds (trees.Text text.now span) span result }
{
    let bytes = Vec::from_slice(alloc, text.as_slice())?;
    leaf(alloc, Expr::Text { bytes, span }, span)
}

/// A name, or a call where a parenthesis stands behind it.
#[cycle(expressions)]
fn name_or_call(
    depth: Depth,
    name: &Name,
    span: Span,
    tokens: &mut &[Token],
) -> Result<Operand, Stuck>
    requires { depth < 200 }
    ensures reads { Reads (λ x rest. IsPrimary depth (token (kinds.Name name.now) span ∷ tokens.old.now) (expression x.expr.value) x.outer
        rest) (StuckPrimary depth (token (kinds.Name name.now) span ∷ tokens.old.now)) result tokens.new.now }
    ensures shorter { MayTakeTokens tokens.old.now result tokens.new.now }
{
    let alloc = depth.alloc();
    let name = copied(alloc, name, span)?;
    let Ok(_) = open_paren(tokens) else {
        return leaf(alloc, Expr::Name { name }, span);
    };
    let (read, end) = arguments(depth.deeper(), tokens)?;
    call_with(alloc, name, read, end)
}

/// The arguments of a call, and their reach.
#[derive(Drop)]
pub struct ReadArguments {
    pub items: Vec<Expr>,
    pub reach: Reach,
    ghost exact: { reach_of reach ≡ expressions_reach (listed items.items) },
}

/// No arguments.
fn no_arguments(alloc: Global) -> ReadArguments
    ensures { result.items.items ≡ [] }
{
    ReadArguments {
        items: Vec::new(alloc),
        reach: Reach::nowhere(),
    }
}

/// The arguments with one more behind them.
fn with_argument(arguments: ReadArguments, argument: Operand) -> Result<ReadArguments, NoMemory>
    ensures { IfOk result (λ all. all.items.items ≡ arguments.items.items ++ argument.expr.value ∷ []) }
{
    let mut items = arguments.items;
    let reach = arguments.reach.beside(argument.reach);
    push(&mut items, Box::into_inner(argument.expr))?;
    Ok(ReadArguments { items, reach })
}

/// The arguments of a call, and the parenthesis behind them, with its span.
#[cycle(expressions)]
fn arguments(depth: Depth, tokens: &mut &[Token]) -> Result<(ReadArguments, Span), Stuck>
    requires { depth ≤ 200 }
    ensures reads { Reads (λ x rest. IsArguments depth tokens.old.now (listed x.0.items.items) x.1 rest)
        (StuckArguments depth tokens.old.now) result tokens.new.now }
    ensures shorter { TakesTokens tokens.old.now result tokens.new.now }
{
    if let Ok(end) = close_paren(tokens) {
        return Ok((no_arguments(depth.alloc()), end));
    }
    let first = expression(depth, tokens)?;
    let arguments = with_argument(no_arguments(depth.alloc()), first)?;
    more_arguments(depth, arguments, tokens)
}

/// The arguments and those that follow behind commas, up to the parenthesis.
#[cycle(expressions)]
fn more_arguments(
    depth: Depth,
    mut arguments: ReadArguments,
    tokens: &mut &[Token],
) -> Result<(ReadArguments, Span), Stuck>
    requires high { depth ≤ 200 }
    requires low { IsLow depth (expressions_reach (listed arguments.items.items)) }
    ensures reads { Reads (λ x rest. IsMore depth arguments.items.items tokens.old.now x.0.items.items x.1 rest)
        (StuckMoreArguments depth tokens.old.now) result tokens.new.now }
    ensures shorter { TakesTokens tokens.old.now result tokens.new.now }
{
    'arguments: while let Ok(_) = comma(tokens) {
        let argument = expression(depth, tokens)?;
        arguments = with_argument(arguments, argument)?;
    }
    let end = close_paren(tokens)?;
    Ok((arguments, end))
}

/// The type and the parentheses behind the word `sizeof`.
fn size_of(depth: Depth, word: Span, tokens: &mut &[Token]) -> Result<Operand, Stuck>
    requires { depth < 200 }
    ensures reads { Reads (λ x rest. IsPrimary depth (token (kinds.Keyword keywords.Sizeof) word ∷ tokens.old.now) (expression x.expr.value)
        x.outer rest) (StuckPrimary depth (token (kinds.Keyword keywords.Sizeof) word ∷ tokens.old.now)) result tokens.new.now }
    ensures shorter { TakesTokens tokens.old.now result tokens.new.now }
{
    open_paren(tokens)?;
    let read = type_name(depth.deeper(), tokens)?;
    let end = close_paren(tokens)?;
    size_of_with(depth.alloc(), read, join(word, end))
}

/// A type in angle brackets, and the expression behind the parenthesis.
#[derive(Drop)]
pub struct Typed {
    pub read: ReadTypeName,
    pub operand: Operand,
}

impl Typed {
    /// The reach of the type and the expression.
    pub fn reach(&self) -> Reach
        ensures { reach_of result ≡ type_reach (type_tree self.now.read.type_name.base) beside expression_reach (expression self.now.operand.expr.value) }
    {
        self.read.reach.beside(self.operand.reach)
    }
}

/// What a cast or an allocation has behind its word, up to the end of the first expression.
#[cycle(expressions)]
fn typed_operand(depth: Depth, tokens: &mut &[Token]) -> Result<Typed, Stuck>
    requires { depth ≤ 200 }
    ensures reads { Reads (IsTyped depth tokens.old.now) (StuckTyped depth tokens.old.now) result tokens.new.now }
    ensures shorter { TakesTokens tokens.old.now result tokens.new.now }
{
    let read = angled(depth, tokens)?;
    let operand = expression(depth, tokens)?;
    Ok(Typed { read, operand })
}

/// What stands behind the word of a cast.
#[cycle(expressions)]
fn cast(depth: Depth, word: CastWord, start: Span, tokens: &mut &[Token]) -> Result<Operand, Stuck>
    requires { depth < 200 }
    ensures reads { (k : Kind) → cast_word_of k ≡ Some word → Reads (λ x rest. IsPrimary depth (token k start ∷ tokens.old.now)
        (expression x.expr.value) x.outer rest) (StuckPrimary depth (token k start ∷ tokens.old.now)) result tokens.new.now }
    ensures shorter { TakesTokens tokens.old.now result tokens.new.now }
{
    let alloc = depth.alloc();
    let below = depth.deeper();
    let parts = typed_operand(below, tokens)?;
    if let Ok(end) = close_paren(tokens) {
        return cast_with(alloc, word, parts, join(start, end));
    }
    let (written, end) = last_bounds(below, tokens)?;
    bounded_cast_with(alloc, word, parts, written, join(start, end))
}

/// The bounds behind the operand of a cast, between a comma and a parenthesis, whose span is given.
#[cycle(expressions)]
fn last_bounds(depth: Depth, tokens: &mut &[Token]) -> Result<(ReadBounds, Span), Stuck>
    requires { depth ≤ 200 }
    ensures reads { Reads (IsLastBounds depth tokens.old.now) (StuckLastBounds depth tokens.old.now) result tokens.new.now }
    ensures shorter { TakesTokens tokens.old.now result tokens.new.now }
{
    comma(tokens)?;
    let written = bounds(depth, tokens)?;
    let end = close_paren(tokens)?;
    Ok((written, end))
}

/// What stands behind the word of an allocation of a size.
#[cycle(expressions)]
fn malloc(
    depth: Depth,
    word: MallocWord,
    start: Span,
    tokens: &mut &[Token],
) -> Result<Operand, Stuck>
    requires { depth < 200 }
    ensures reads { (k : Kind) → malloc_word_of k ≡ Some word → Reads (λ x rest. IsPrimary depth (token k start ∷ tokens.old.now)
        (expression x.expr.value) x.outer rest) (StuckPrimary depth (token k start ∷ tokens.old.now)) result tokens.new.now }
    ensures shorter { TakesTokens tokens.old.now result tokens.new.now }
{
    let parts = typed_operand(depth.deeper(), tokens)?;
    let end = close_paren(tokens)?;
    malloc_with(depth.alloc(), word, parts, join(start, end))
}

/// What stands behind the word of an allocation of elements.
#[cycle(expressions)]
fn calloc(
    depth: Depth,
    word: CallocWord,
    start: Span,
    tokens: &mut &[Token],
) -> Result<Operand, Stuck>
    requires { depth < 200 }
    ensures reads { (k : Kind) → calloc_word_of k ≡ Some word → Reads (λ x rest. IsPrimary depth (token k start ∷ tokens.old.now)
        (expression x.expr.value) x.outer rest) (StuckPrimary depth (token k start ∷ tokens.old.now)) result tokens.new.now }
    ensures shorter { TakesTokens tokens.old.now result tokens.new.now }
{
    let below = depth.deeper();
    let parts = typed_operand(below, tokens)?;
    comma(tokens)?;
    let size = expression_before(below, Terminal::CloseParen, tokens)?;
    calloc_with(depth.alloc(), word, parts, size, start)
}
