// Reading a tree from tokens.

ghost use Rattle.std.specs.Prelude.{List, map, Err, MatchResult};
ghost use Rattle.ckc_lexer.specs.declared.token.Token.{Token as TokenOf};
ghost use Rattle.ckc_parser_grammar.specs.Parsing.{ParseAnswers};
ghost use Rattle.ckc_parser_grammar.specs.Refusals.{FaultIs};
ghost use Rattle.ckc_tree.specs.Items.{item};
ghost use Rattle.ckc_tree.specs.Heights.{items_reach};
ghost use Rattle.ckc_parser_grammar.specs.ItemGrammar.{SpellsItems};
ghost use Rattle.ckc_parser_grammar.specs.StuckItems.{StuckItems};
ghost use Rattle.ckc_parser_grammar.specs.Failures.{IsLow};
ghost use Rattle.ckc_parser_grammar.specs.Answers.{failure};

use crate::items::item;
use ckc_lexer::token::Token;
use ckc_parser_grammar::faults::{first_span, point};
use ckc_parser_grammar::stuck::Stuck;
use ckc_text::code::Code;
use ckc_text::fault::Refused;
use ckc_text::on_heap::push;
use ckc_text::place::Span;
use ckc_tree::item::{Item, Program};
use std::alloc::Global;

/// The tree that the tokens of a source of so many bytes spell.
///
/// # Errors
///
/// E06 at the first token with which the tokens so far begin no source, and at the end of the source where there is no
/// such token. E07 at the first node of depth 201, as soon as the tokens so far have put it there. Where both could be
/// named, the one whose token stands first.
pub fn parse(alloc: Global, source_len: u32, tokens: &[Token]) -> Result<Program, Refused>
    ensures { ParseAnswers source_len tokens.now result }
{
    let mut rest = tokens;
    match items(alloc, &mut rest) {
        Ok(items) => {
            let span = Span {
                from: 0,
                to: source_len,
            };
            Ok(Program { items, span })
        }
        Err(stuck) => Err(refused(source_len, stuck, rest)),
    }
}

/// All items.
fn items(alloc: Global, tokens: &mut &[Token]) -> Result<Vec<Item>, Stuck>
    ensures { MatchResult result (λ found. SpellsItems tokens.old.now (map item found.items) × IsLow 0 (items_reach (map item found.items)))
        (λ e. StuckItems tokens.old.now (failure e tokens.new.now)) }
{
    let mut items = Vec::new(alloc);
    'items: while let Some(_) = tokens.split_first() {
        let item = item(alloc, tokens)?;
        push(&mut items, item)?;
    }
    Ok(items)
}

/// The refusal of a source of so many bytes, where reading stopped before these tokens.
fn refused(source_len: u32, stuck: Stuck, rest: &[Token]) -> Refused
    ensures { (tokens : List TokenOf) → FaultIs source_len tokens (failure stuck rest.now) → ParseAnswers source_len tokens (Err result) }
{
    match stuck {
        Stuck::Unexpected => {
            let span = first_span(source_len, rest);
            Refused::at(Code::E06, span)
        }
        Stuck::TooDeep { start } => {
            let span = point(start);
            Refused::at(Code::E07, span)
        }
        Stuck::NoMemory => Refused::NoMemory,
    }
}
