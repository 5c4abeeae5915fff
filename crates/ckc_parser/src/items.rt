// Reading what stands at file level.

ghost use Rattle.std.specs.Prelude.{◌≡◌, false, map, None, MatchOption};
ghost use Rattle.std.specs.Option.{option_map};
ghost use Rattle.ckc_lexer.specs.declared.keyword.Keyword.TheVariants as keywords;
ghost use Rattle.ckc_lexer.specs.declared.token.TokenKind.TheVariants as kinds;
ghost use Rattle.ckc_tree.specs.Types.{type_tree, type_name};
ghost use Rattle.ckc_tree.specs.Expressions.{bounds};
ghost use Rattle.ckc_tree.specs.Statements as statements;
ghost use Rattle.ckc_tree.specs.Items as views;
ghost use Rattle.ckc_tree.specs.Heights.{members_reach, result_reach, parameters_reach, optional_body_reach, item_reach};
ghost use Rattle.ckc_parser_grammar.specs.ItemGrammar.{SpellsTainted, SpellsKind, SpellsOptionalMark, SpellsMember, SpellsMembers, SpellsListed, SpellsParameters, SpellsResult, SpellsBody, SpellsRegion, SpellsItem};
ghost use Rattle.ckc_parser_grammar.specs.Failures.{IsLow};
ghost use Rattle.ckc_parser_grammar.specs.Answers.{Reads, ReadsMark};
ghost use Rattle.ckc_parser_grammar.specs.StuckItems as marks;
ghost use Rattle.ckc_parser_grammar.specs.StuckItems.{IsLowMember, StuckMember, StuckMembers, StuckListed, StuckParameters, StuckBody, StuckItem};
ghost use Rattle.ckc_parser.specs.ItemReadings.{ReadsRegion, ReadsKind, SideAnswers, IsLed, IsBase, IsStructureHead, IsStructure, IsNamed, StuckNamed, StuckResult, IsHead};

use crate::declarations::{Read, declarators, from_first, optional_bounds};
use crate::statements::statements;
use crate::types::{stars, type_form, type_name};
use ckc_lexer::keyword::Keyword;
use ckc_lexer::token::{CheckedScope, Token, TokenKind};
use ckc_parser_grammar::depth::Depth;
use ckc_parser_grammar::spans::join;
use ckc_parser_grammar::stuck::Stuck;
use ckc_parser_grammar::terminal::{Terminal, expect};
use ckc_parser_grammar::tokens::{
    close_brace, close_paren, comma, copied, identifier, name, open_brace, open_paren, semicolon,
};
use ckc_parser_grammar::words::mark;
use ckc_text::name::Name;
use ckc_text::on_heap::push;
use ckc_text::place::Span;
use ckc_tree::item::{
    Block, Function, FunctionKind, Global as Variables, Item, Member, Parameter, Parameters,
    Region, ResultForm, Structure,
};
use ckc_tree::stmt::Mark;
use ckc_tree::type_form::TypeForm;
use std::alloc::Global;

// ---- words

/// The span of the word `void`.
fn void_word(tokens: &mut &[Token]) -> Result<Span, Stuck>
    ensures { ReadsMark (kinds.Keyword keywords.Void) marks.void_word tokens.old.now result tokens.new.now }
{
    expect(Terminal::Void, tokens)
}

/// The span of the word `struct`.
fn struct_word(tokens: &mut &[Token]) -> Result<Span, Stuck>
    ensures { ReadsMark (kinds.Keyword keywords.Struct) marks.struct_word tokens.old.now result tokens.new.now }
{
    expect(Terminal::Struct, tokens)
}

/// What a directive says of all that stands behind it, with its span.
fn region(tokens: &mut &[Token]) -> Result<(Region, Span), Stuck>
    ensures { ReadsRegion tokens.old.now result tokens.new.now }
{
    let Some((token, rest)) = tokens.split_first() else {
        return Err(Stuck::Unexpected);
    };
    match &token.kind {
        TokenKind::Scope(scope) => {
            *tokens = rest;
            Ok((region_of(*scope), token.span))
        }
        _ => Err(Stuck::Unexpected),
    }
}

/// The region that a scope begins.
fn region_of(scope: CheckedScope) -> Region
    ensures { SpellsRegion scope result }
{
    match scope {
        CheckedScope::On => Region::On,
        CheckedScope::Off => Region::Off,
    }
}

/// The word that says on which side a function runs, with its span.
fn kind_word(tokens: &mut &[Token]) -> Result<(FunctionKind, Span), Stuck>
    ensures { ReadsKind tokens.old.now result tokens.new.now }
{
    let Some((token, rest)) = tokens.split_first() else {
        return Err(Stuck::Unexpected);
    };
    match &token.kind {
        TokenKind::Keyword(Keyword::Tainted) => {
            *tokens = rest;
            Ok((FunctionKind::Tainted, token.span))
        }
        TokenKind::Keyword(Keyword::Callback) => {
            *tokens = rest;
            Ok((FunctionKind::Callback, token.span))
        }
        _ => Err(Stuck::Unexpected),
    }
}

/// On which side a function runs, by the word that may stand before it.
fn function_kind(tokens: &mut &[Token]) -> FunctionKind
    ensures { SpellsKind tokens.old.now result tokens.new.now }
{
    match kind_word(tokens) {
        Ok((kind, _)) => kind,
        Err(_) => FunctionKind::Trusted,
    }
}

/// What makes a function or its body a checked or an unchecked one, where it stands next.
fn optional_mark(tokens: &mut &[Token]) -> Option<Mark>
    ensures { SpellsOptionalMark tokens.old.now result tokens.new.now }
{
    match mark(tokens) {
        Ok((mark, _)) => Some(mark),
        Err(_) => None,
    }
}

// ---- items

/// One item.
pub fn item(alloc: Global, tokens: &mut &[Token]) -> Result<Item, Stuck>
    ensures { Reads (λ x rest. SpellsItem tokens.old.now (views.item x) rest × IsLow 0 (item_reach (views.item x)))
        (StuckItem tokens.old.now) result tokens.new.now }
{
    let whole: &[Token] = *tokens;
    if let Ok((region, span)) = region(tokens) {
        return Ok(Item::Region { region, span });
    }
    let kind = function_kind(tokens);
    let mark = optional_mark(tokens);
    match side(kind, mark) {
        Some(tainted) => unmarked(alloc, whole, kind, tainted, tokens),
        None => alone(alloc, whole, kind, mark, tokens),
    }
}

/// Whether an item is tainted, where it can be another than a function.
fn side(kind: FunctionKind, mark: Option<Mark>) -> Option<bool>
    ensures { SideAnswers kind mark result }
{
    match mark {
        Some(_) => None,
        None => match kind {
            FunctionKind::Trusted => Some(false),
            FunctionKind::Tainted => Some(true),
            FunctionKind::Callback => None,
        },
    }
}

/// A function, of which the words before its result are read.
fn alone(
    alloc: Global,
    whole: &[Token],
    kind: FunctionKind,
    mark: Option<Mark>,
    tokens: &mut &[Token],
) -> Result<Item, Stuck>
    requires led { IsLed whole.now kind mark tokens.old.now }
    requires alone { SideAnswers kind mark None }
    ensures { Reads (λ x rest. SpellsItem whole.now (views.item x) rest × IsLow 0 (item_reach (views.item x))) (StuckItem whole.now) result tokens.new.now }
{
    let returned = returned(alloc, tokens)?;
    let named = named(tokens)?;
    function(alloc, whole, kind, mark, returned, named, tokens)
}

/// An item behind the word that may say that it is tainted, without a mark.
fn unmarked(
    alloc: Global,
    whole: &[Token],
    kind: FunctionKind,
    tainted: bool,
    tokens: &mut &[Token],
) -> Result<Item, Stuck>
    requires led { IsLed whole.now kind None tokens.old.now }
    requires tainted { SpellsTainted whole.now tainted tokens.old.now }
    ensures { Reads (λ x rest. SpellsItem whole.now (views.item x) rest × IsLow 0 (item_reach (views.item x))) (StuckItem whole.now) result tokens.new.now }
{
    if let Ok(span) = void_word(tokens) {
        let returned = ResultForm::Void { span };
        let named = named(tokens)?;
        return function(alloc, whole, kind, None, returned, named, tokens);
    }
    if let Some((tag, span, rest)) = structure_head(tokens) {
        *tokens = rest;
        return structure(alloc, whole, tainted, tag, span, tokens);
    }
    let base = type_form(Depth::new(alloc), tokens)?;
    let mut ahead: &[Token] = *tokens;
    match named(&mut ahead) {
        Ok(named) => {
            *tokens = ahead;
            let returned = ResultForm::Value { base: base.form };
            function(alloc, whole, kind, None, returned, named, tokens)
        }
        Err(_) => variables(alloc, whole, tainted, base.form, tokens),
    }
}

/// File-level variables behind their type.
fn variables(
    alloc: Global,
    whole: &[Token],
    tainted: bool,
    base: TypeForm,
    tokens: &mut &[Token],
) -> Result<Item, Stuck>
    requires { IsBase whole.now tainted (type_tree base) tokens.old.now }
    ensures { Reads (λ x rest. SpellsItem whole.now (views.item x) rest × IsLow 0 (item_reach (views.item x))) (StuckItem whole.now) result tokens.new.now }
{
    let read = declarators(Depth::new(alloc), tokens)?;
    let end = semicolon(tokens)?;
    let declarators = read.form;
    let span = from_first(whole, end);
    let global = Variables {
        tainted,
        base,
        declarators,
        span,
    };
    Ok(Item::Global { global })
}

// ---- structures

/// The name of a struct that is declared here, with its span, and what stands behind its brace.
fn structure_head(tokens: &[Token]) -> Option<(&Name, Span, &[Token])>
    ensures { MatchOption result (marks.is_structure tokens.now ≡ false) (λ found. IsStructureHead found.0.now found.1 tokens.now found.2.now) }
{
    let mut rest = tokens;
    let Ok(_) = struct_word(&mut rest) else {
        return None;
    };
    let Ok((tag, span)) = name(&mut rest) else {
        return None;
    };
    match open_brace(&mut rest) {
        Ok(_) => Some((tag, span, rest)),
        Err(_) => None,
    }
}

/// A struct behind its brace.
fn structure(
    alloc: Global,
    whole: &[Token],
    tainted: bool,
    tag: &Name,
    span: Span,
    tokens: &mut &[Token],
) -> Result<Item, Stuck>
    requires { IsStructure whole.now tainted tag.now span tokens.old.now }
    ensures { Reads (λ x rest. SpellsItem whole.now (views.item x) rest × IsLow 0 (item_reach (views.item x))) (StuckItem whole.now) result tokens.new.now }
{
    let members = members(alloc, tokens)?;
    let end = semicolon(tokens)?;
    let tag = copied(alloc, tag, span)?;
    let span = from_first(whole, end);
    let structure = Structure {
        tainted,
        tag,
        members,
        span,
    };
    Ok(Item::Structure { structure })
}

/// A type with stars and a name, and bounds where they are written. The span is that of all.
fn member(alloc: Global, tokens: &mut &[Token]) -> Result<Member, Stuck>
    ensures { Reads (λ x rest. SpellsMember tokens.old.now (type_name x.type_name) x.name (option_map bounds x.bounds) x.span rest
        × IsLowMember (type_name x.type_name) (option_map bounds x.bounds)) (StuckMember tokens.old.now) result tokens.new.now }
{
    let whole: &[Token] = *tokens;
    let outermost = Depth::new(alloc);
    let read = type_name(outermost, tokens)?;
    let name = identifier(alloc, tokens)?;
    let so_far = from_first(whole, name.span);
    let bounds = optional_bounds(outermost, so_far, tokens)?;
    let member = Member {
        type_name: read.type_name,
        name,
        bounds: bounds.form,
        span: bounds.span,
    };
    Ok(member)
}

/// At least one member, each with its semicolon, and the brace behind them.
fn members(alloc: Global, tokens: &mut &[Token]) -> Result<Vec<Member>, Stuck>
    ensures { Reads (λ x rest. SpellsMembers tokens.old.now (map views.member x.items) rest
        × IsLow 0 (members_reach (map views.member x.items))) (StuckMembers tokens.old.now) result tokens.new.now }
{
    let mut members = Vec::new(alloc);
    'members: loop {
        let mut item = member(alloc, tokens)?;
        let end = semicolon(tokens)?;
        item.span = join(item.span, end);
        push(&mut members, item)?;
        if let Ok(_) = close_brace(tokens) {
            return Ok(members);
        }
    }
}

// ---- functions

/// The stars and the name of a function.
#[derive(Drop)]
struct Callee<'t> {
    stars: usize,
    name: &'t Name,
    span: Span,
}

/// Stars, a name and a parenthesis.
fn named<'t>(tokens: &mut &'t [Token]) -> Result<Callee<'t>, Stuck>
    ensures { Reads (λ x rest. IsNamed x.stars x.name.now x.span tokens.old.now rest) (StuckNamed tokens.old.now) result tokens.new.now }
{
    let stars = stars(tokens);
    let (name, span) = name(tokens)?;
    open_paren(tokens)?;
    Ok(Callee { stars, name, span })
}

/// What a function returns, without stars.
fn returned(alloc: Global, tokens: &mut &[Token]) -> Result<ResultForm, Stuck>
    ensures { Reads (λ x rest. SpellsResult tokens.old.now (views.result_form x) rest × IsLow 0 (result_reach (views.result_form x)))
        (StuckResult tokens.old.now) result tokens.new.now }
{
    if let Ok(span) = void_word(tokens) {
        return Ok(ResultForm::Void { span });
    }
    let base = type_form(Depth::new(alloc), tokens)?;
    Ok(ResultForm::Value { base: base.form })
}

/// A function behind the parenthesis that opens.
fn function(
    alloc: Global,
    whole: &[Token],
    kind: FunctionKind,
    mark: Option<Mark>,
    returned: ResultForm,
    named: Callee<'_>,
    tokens: &mut &[Token],
) -> Result<Item, Stuck>
    requires { IsHead whole.now kind mark (views.result_form returned) named.stars named.name.now named.span tokens.old.now }
    ensures { Reads (λ x rest. SpellsItem whole.now (views.item x) rest × IsLow 0 (item_reach (views.item x))) (StuckItem whole.now) result tokens.new.now }
{
    let name = copied(alloc, named.name, named.span)?;
    let parameters = parameters(alloc, tokens)?;
    let so_far = from_first(whole, parameters.span);
    let bounds = optional_bounds(Depth::new(alloc), so_far, tokens)?;
    let body = body(alloc, tokens)?;
    let function = Function {
        kind,
        mark,
        result: returned,
        stars: named.stars,
        name,
        parameters: parameters.form,
        bounds: bounds.form,
        body: body.form,
        span: from_first(whole, body.span),
    };
    Ok(Item::Function { function })
}

/// The parameters of a function, and the parenthesis behind them, whose span is given.
fn parameters(alloc: Global, tokens: &mut &[Token]) -> Result<Read<Parameters>, Stuck>
    ensures { Reads (λ x rest. SpellsParameters tokens.old.now (views.parameters x.form) x.span rest
        × IsLow 0 (parameters_reach (views.parameters x.form))) (StuckParameters tokens.old.now) result tokens.new.now }
{
    if let Ok(span) = close_paren(tokens) {
        let form = Parameters::Nothing;
        return Ok(Read { form, span });
    }
    if let Ok(_) = void_word(tokens) {
        let span = close_paren(tokens)?;
        let form = Parameters::Void;
        return Ok(Read { form, span });
    }
    let read = listed(alloc, tokens)?;
    let span = read.span;
    let parameters = read.form;
    let form = Parameters::Listed { parameters };
    Ok(Read { form, span })
}

/// A parameter, which reads as a member does.
fn parameter(member: Member) -> Parameter
    ensures { views.parameter result ≡ views.member member }
{
    Parameter {
        type_name: member.type_name,
        name: member.name,
        bounds: member.bounds,
        span: member.span,
    }
}

/// At least one parameter, and the parenthesis behind them, whose span is given.
fn listed(alloc: Global, tokens: &mut &[Token]) -> Result<Read<Vec<Parameter>>, Stuck>
    ensures { Reads (λ x rest. SpellsListed tokens.old.now (map views.parameter x.form.items) x.span rest
        × IsLow 0 (members_reach (map views.parameter x.form.items))) (StuckListed tokens.old.now) result tokens.new.now }
{
    let mut form = Vec::new(alloc);
    'listed: loop {
        let item = member(alloc, tokens)?;
        push(&mut form, parameter(item))?;
        if let Ok(span) = close_paren(tokens) {
            return Ok(Read { form, span });
        }
        comma(tokens)?;
    }
}

/// What ends a function: a semicolon or a body, with its span.
fn body(alloc: Global, tokens: &mut &[Token]) -> Result<Read<Option<Block>>, Stuck>
    ensures { Reads (λ x rest. SpellsBody tokens.old.now (option_map views.body x.form) x.span rest
        × IsLow 0 (optional_body_reach (option_map views.body x.form))) (StuckBody tokens.old.now) result tokens.new.now }
{
    if let Ok(span) = semicolon(tokens) {
        let form = None;
        return Ok(Read { form, span });
    }
    let whole: &[Token] = *tokens;
    let mark = optional_mark(tokens);
    open_brace(tokens)?;
    let read = statements(Depth::new(alloc).deeper(), tokens)?;
    let statements = read.form;
    let span = from_first(whole, read.span);
    let form = Some(Block {
        mark,
        statements,
        span,
    });
    Ok(Read { form, span })
}
