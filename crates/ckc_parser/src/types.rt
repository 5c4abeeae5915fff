// Reading types.

ghost use Rattle.std.specs.Prelude.{◌≡◌, ◌≤◌, ◌<◌, ◌∷◌, ℕ, length, Some};
ghost use Rattle.ckc_tree.specs.Heights.{node, type_reach};
ghost use Rattle.ckc_tree.specs.Types.{type_tree, type_span, type_name as type_name_of};
ghost use Rattle.ckc_parser_grammar.specs.TypeGrammar.{SpellsStars};
ghost use Rattle.ckc_parser_grammar.specs.StuckTypes.{type_word, StuckType, StuckTypeName, StuckAngled};
ghost use Rattle.ckc_parser_grammar.specs.Answers.{Reads, Opens, TakesTokens};
ghost use Rattle.ckc_parser.specs.Reaches.{reach_of};
ghost use Rattle.ckc_parser.specs.Readings.{IsType, IsTypeName, IsAngled};
ghost use Rattle.ckc_parser_grammar.specs.Tokens.{token, pointer_word_of};
ghost use Rattle.ckc_lexer.specs.declared.token.TokenKind.{TokenKind as Kind};
ghost use Rattle.ckc_lexer.specs.declared.keyword.Keyword.TheVariants as keywords;
ghost use Rattle.ckc_lexer.specs.declared.token.TokenKind.TheVariants as kinds;

use crate::operand::Reach;
use ckc_lexer::keyword::Keyword;
use ckc_lexer::token::{Token, TokenKind};
use ckc_parser_grammar::depth::Depth;
use ckc_parser_grammar::kinds::pointer_word;
use ckc_parser_grammar::spans::join;
use ckc_parser_grammar::stuck::Stuck;
use ckc_parser_grammar::tokens::{greater, identifier, less, open_paren, star};
use ckc_text::place::Span;
use ckc_tree::type_form::{PointerWord, TypeForm, TypeName};
use std::alloc::Global;

/// A type without stars, with its span and its reach.
#[derive(Drop)]
pub struct ReadType {
    pub form: TypeForm,
    pub span: Span,
    pub reach: Reach,
    ghost placed: { span ≡ type_span (type_tree form) },
    ghost exact: { reach_of reach ≡ type_reach (type_tree form) },
}

/// A type with its stars, with the span of the type and its reach.
#[derive(Drop)]
pub struct ReadTypeName {
    pub type_name: TypeName,
    pub span: Span,
    pub reach: Reach,
    ghost placed: { span ≡ type_span (type_tree type_name.base) },
    ghost exact: { reach_of reach ≡ type_reach (type_tree type_name.base) },
}

/// Whether a token is the first of a type.
pub fn starts_type(kind: &TokenKind) -> bool
    ensures { result ≡ type_word kind.now }
{
    matches!(
        kind,
        TokenKind::Keyword(Keyword::Int)
            | TokenKind::Keyword(Keyword::Char)
            | TokenKind::Keyword(Keyword::Struct)
    ) || pointer_word(kind).is_some()
}

/// Takes all stars that stand here, and counts them.
pub fn stars(tokens: &mut &[Token]) -> usize
    ensures spelled { SpellsStars tokens.old.now result tokens.new.now }
    ensures shorter { length tokens.new.now ≤ length tokens.old.now }
{
    let mut count = 0;
    'stars: while let Ok(_) = star(tokens) {
        count += 1;
    }
    count
}

/// The first token of a type with at most `depth` nodes around it.
fn type_word<'t>(depth: Depth, tokens: &mut &'t [Token]) -> Result<&'t Token, Stuck>
    ensures { Opens type_word (StuckType depth tokens.old.now) depth tokens.old.now result tokens.new.now }
{
    let Some((token, rest)) = tokens.split_first() else {
        return Err(Stuck::Unexpected);
    };
    if !starts_type(&token.kind) {
        return Err(Stuck::Unexpected);
    }
    depth.check(token.span.from)?;
    *tokens = rest;
    Ok(token)
}

/// A type with at most `depth` nodes around it.
#[cycle(types)]
pub fn type_form(depth: Depth, tokens: &mut &[Token]) -> Result<ReadType, Stuck>
    requires { depth ≤ 200 }
    ensures reads { Reads (λ x rest. IsType depth tokens.old.now (type_tree x.form) rest) (StuckType depth tokens.old.now) result tokens.new.now }
    ensures shorter { TakesTokens tokens.old.now result tokens.new.now }
{
    let token = type_word(depth, tokens)?;
    let span = token.span;
    match &token.kind {
        TokenKind::Keyword(Keyword::Int) => Ok(innermost(TypeForm::Int { span }, span)),
        TokenKind::Keyword(Keyword::Char) => Ok(innermost(TypeForm::Char { span }, span)),
        TokenKind::Keyword(Keyword::Struct) => struct_type(depth.alloc(), span, tokens),
        kind => match pointer_word(kind) {
            Some(word) => pointer_type(depth, word, span, tokens),
            None => Err(Stuck::Unexpected),
        },
    }
}

/// A type with no other in it.
fn innermost(form: TypeForm, span: Span) -> ReadType
    requires placed { span ≡ type_span (type_tree form) }
    requires alone { type_reach (type_tree form) ≡ node span.from }
    ensures { result.form ≡ form }
{
    let reach = Reach::nowhere().around(span.from);
    ReadType { form, span, reach }
}

/// The type behind the word `struct` with this span.
fn struct_type(alloc: Global, word: Span, tokens: &mut &[Token]) -> Result<ReadType, Stuck>
    ensures reads { (d : ℕ) → d < 200 → Reads (λ x rest. IsType d (token (kinds.Keyword keywords.Struct) word ∷ tokens.old.now)
        (type_tree x.form) rest) (StuckType d (token (kinds.Keyword keywords.Struct) word ∷ tokens.old.now)) result tokens.new.now }
    ensures shorter { TakesTokens tokens.old.now result tokens.new.now }
{
    let tag = identifier(alloc, tokens)?;
    let span = join(word, tag.span);
    Ok(innermost(TypeForm::Struct { tag, span }, span))
}

/// The type behind a pointer word with this span.
#[cycle(types)]
fn pointer_type(
    depth: Depth,
    word: PointerWord,
    start: Span,
    tokens: &mut &[Token],
) -> Result<ReadType, Stuck>
    requires { depth < 200 }
    ensures reads { (k : Kind) → pointer_word_of k ≡ Some word → Reads
        (λ x rest. IsType depth (token k start ∷ tokens.old.now) (type_tree x.form) rest) (StuckType depth (token k start ∷ tokens.old.now))
        result tokens.new.now }
    ensures shorter { TakesTokens tokens.old.now result tokens.new.now }
{
    less(tokens)?;
    let element = type_form(depth.deeper(), tokens)?;
    let stars = stars(tokens);
    let end = greater(tokens)?;
    let reach = element.reach.around(start.from);
    let element = depth.boxed(element.form)?;
    let span = join(start, end);
    let form = TypeForm::Pointer {
        word,
        element,
        stars,
        span,
    };
    Ok(ReadType { form, span, reach })
}

/// A type and the stars behind it.
pub fn type_name(depth: Depth, tokens: &mut &[Token]) -> Result<ReadTypeName, Stuck>
    requires { depth ≤ 200 }
    ensures reads { Reads (λ x rest. IsTypeName depth tokens.old.now (type_name_of x.type_name) rest) (StuckTypeName depth tokens.old.now)
        result tokens.new.now }
    ensures shorter { TakesTokens tokens.old.now result tokens.new.now }
{
    let base = type_form(depth, tokens)?;
    let stars = stars(tokens);
    let span = base.span;
    let reach = base.reach;
    let base = base.form;
    let type_name = TypeName { base, stars };
    Ok(ReadTypeName {
        type_name,
        span,
        reach,
    })
}

/// A type in angle brackets, and the parenthesis behind them.
pub fn angled(depth: Depth, tokens: &mut &[Token]) -> Result<ReadTypeName, Stuck>
    requires { depth ≤ 200 }
    ensures reads { Reads (λ x rest. IsAngled depth tokens.old.now (type_name_of x.type_name) rest) (StuckAngled depth tokens.old.now) result tokens.new.now }
    ensures shorter { TakesTokens tokens.old.now result tokens.new.now }
{
    less(tokens)?;
    let read = type_name(depth, tokens)?;
    greater(tokens)?;
    open_paren(tokens)?;
    Ok(read)
}
