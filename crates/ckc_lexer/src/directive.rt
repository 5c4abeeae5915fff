// Directives.

ghost use Rattle.std.specs.Prelude.{◌≡◌, ◌≤◌, true, length, IfOk};
ghost use Rattle.std.specs.List.{list_all, prefix_len};
ghost use Rattle.ckc_text.specs.Names.{is_letter, is_word_byte, begins_with, IsName};
ghost use Rattle.ckc_lexer.specs.Bytes.{is_blank};
ghost use Rattle.ckc_lexer.specs.Directives.{part, part_len, unblanked, is_keyword, numbered_definition, signed_definition, definition_of, scope_word, scope_of, pragma_of, named_directive};
ghost use Rattle.ckc_lexer.specs.Pieces.{word_len, line_len, is_include, include_piece, directive_piece, IsHash};

use crate::front::{is_blank, is_control, is_word_byte};
use crate::number::number_of;
use crate::piece::{Definition, Piece, ScopeWord};
use crate::quoted::{has_control, has_forbidden};
use crate::run::{Run, extent};
use crate::word::{begins_with_digit, keyword};
use ckc_text::code::Code;
use ckc_text::fault::NoMemory;
use ckc_text::name::Name;
use std::alloc::Global;

/// How many letters and digits a text begins with.
pub fn word_len(text: &[u8]) -> usize
    ensures len { result ≡ word_len text.now }
    ensures within { result ≤ length text.now }
{
    for (len, b) in text.iter().enumerate() {
        if !is_word_byte(*b) {
            return len;
        }
    }
    text.len()
}

/// How many bytes stand before the end of the line.
pub fn line_len(text: &[u8]) -> usize
    ensures len { result ≡ line_len text.now }
    ensures within { result ≤ length text.now }
{
    for (len, b) in text.iter().enumerate() {
        if *b == b'\n' {
            return len;
        }
    }
    text.len()
}

fn blanks_len(text: &[u8]) -> usize
    ensures len { result ≡ prefix_len is_blank text.now }
    ensures within { result ≤ length text.now }
{
    for (len, b) in text.iter().enumerate() {
        if !is_blank(*b) {
            return len;
        }
    }
    text.len()
}

fn unblanked(text: &[u8]) -> &[u8]
    ensures { result.now ≡ unblanked text.now }
{
    &text[blanks_len(text)..]
}

fn part_len(text: &[u8]) -> usize
    ensures len { result ≡ part_len text.now }
    ensures within { result ≤ length text.now }
{
    word_len(text).max(text.len().min(1))
}

/// The first part of a text and what stands behind it.
#[tactic(auto, unfolding(crate::specs::Directives::part))]
fn part(text: &[u8]) -> (&[u8], &[u8])
    ensures { (result.0.now, result.1.now) ≡ part text.now }
{
    let text = unblanked(text);
    text.split_at(part_len(text))
}

fn are_blanks(text: &[u8]) -> bool
    ensures { result ≡ list_all is_blank text.now }
{
    for b in text {
        if !is_blank(*b) {
            return false;
        }
    }
    true
}

fn is_keyword(word: &[u8]) -> bool
    ensures { result ≡ is_keyword word.now }
{
    keyword(word).is_some()
}

#[tactic(auto, unfolding(crate::specs::Directives::numbered_definition))]
fn numbered_definition(
    alloc: Global,
    name: &[u8],
    negative: bool,
    rest: &[u8],
    number: Result<u32, Code>,
) -> Result<Piece, NoMemory>
    requires { IsName name.now }
    ensures { IfOk result (λ piece. piece ≡ numbered_definition name.now negative rest.now number) }
{
    let value = match number {
        Ok(value) => value,
        Err(code) => return Ok(Piece::Fault(code)),
    };
    if is_keyword(name) || !are_blanks(rest) {
        return Ok(Piece::Fault(Code::E05));
    }
    let name = Name::from_slice(alloc, name)?;
    Ok(Piece::Define(Definition {
        name,
        negative,
        value,
    }))
}

fn begins_with_letter(text: &[u8]) -> bool
    ensures { result ≡ begins_with is_letter text.now }
{
    matches!(text, [b'a'..=b'z' | b'A'..=b'Z' | b'_', ..])
}

#[tactic(auto, unfolding(crate::specs::Directives::signed_definition))]
fn signed_definition(
    alloc: Global,
    name: &[u8],
    negative: bool,
    number: &[u8],
    rest: &[u8],
) -> Result<Piece, NoMemory>
    requires { begins_with is_letter name.now ≡ true → IsName name.now }
    ensures { IfOk result (λ piece. piece ≡ signed_definition name.now negative (number.now, rest.now)) }
{
    if begins_with_letter(name) && begins_with_digit(number) {
        numbered_definition(alloc, name, negative, rest, number_of(number))
    } else {
        Ok(Piece::Fault(Code::E05))
    }
}

#[tactic(auto, unfolding(crate::specs::Directives::definition_of))]
fn definition_of(alloc: Global, name: &[u8], rest: &[u8]) -> Result<Piece, NoMemory>
    requires { begins_with is_letter name.now ≡ true → IsName name.now }
    ensures { IfOk result (λ piece. piece ≡ definition_of name.now (part rest.now)) }
{
    let (sign, rest) = part(rest);
    if sign == b"-".as_slice() {
        let (number, rest) = part(rest);
        signed_definition(alloc, name, true, number, rest)
    } else {
        signed_definition(alloc, name, false, sign, rest)
    }
}

fn scope_word(word: &[u8]) -> Option<ScopeWord>
    ensures { result ≡ scope_word word.now }
{
    if word.eq_ignore_ascii_case(b"on") {
        Some(ScopeWord::On)
    } else if word.eq_ignore_ascii_case(b"off") {
        Some(ScopeWord::Off)
    } else if word.eq_ignore_ascii_case(b"push") {
        Some(ScopeWord::Push)
    } else if word.eq_ignore_ascii_case(b"pop") {
        Some(ScopeWord::Pop)
    } else {
        None
    }
}

#[tactic(auto, unfolding(crate::specs::Directives::scope_of))]
fn scope_of(rest: &[u8]) -> Piece
    ensures { result ≡ scope_of (part rest.now) }
{
    let (word, rest) = part(rest);
    if !are_blanks(rest) {
        return Piece::Fault(Code::E05);
    }
    match scope_word(word) {
        Some(word) => Piece::Scope(word),
        None => Piece::Fault(Code::E05),
    }
}

#[tactic(auto, unfolding(crate::specs::Directives::pragma_of))]
fn pragma_of(rest: &[u8]) -> Piece
    ensures { result ≡ pragma_of (part rest.now) }
{
    let (word, rest) = part(rest);
    if word == b"CHECKED_SCOPE".as_slice() {
        scope_of(rest)
    } else {
        Piece::Fault(Code::E05)
    }
}

#[tactic(auto, unfolding(crate::specs::Directives::named_directive))]
fn named_directive(alloc: Global, shown: &[u8]) -> Result<Piece, NoMemory>
    ensures { IfOk result (λ piece. piece ≡ named_directive (part shown.now)) }
{
    let (word, rest) = part(shown);
    if word == b"define".as_slice() {
        let (name, rest) = part(rest);
        definition_of(alloc, name, rest)
    } else if word == b"pragma".as_slice() {
        Ok(pragma_of(rest))
    } else {
        Ok(Piece::Fault(Code::E05))
    }
}

fn directive_piece(alloc: Global, shown: &[u8]) -> Result<Piece, NoMemory>
    ensures { IfOk result (λ piece. piece ≡ directive_piece shown.now) }
{
    if has_forbidden(shown) {
        Ok(Piece::Forbidden)
    } else {
        named_directive(alloc, shown)
    }
}

fn include_piece(line: &[u8]) -> Piece
    ensures { result ≡ include_piece line.now }
{
    if has_control(line) {
        Piece::Forbidden
    } else {
        Piece::Include
    }
}

fn is_include(shown: &[u8]) -> bool
    ensures { result ≡ is_include shown.now }
{
    let (word, _) = part(shown);
    word == b"include".as_slice()
}

/// What stands at a `#`, by the text behind it, and its length. It begins a directive where it is the
/// first mark of its line.
pub fn hash(alloc: Global, first: bool, inner: &[u8]) -> Result<(Piece, usize), NoMemory>
    ensures { IfOk result (λ found. IsHash first inner.now found.0 found.1) }
{
    if !first {
        return Ok((Piece::Fault(Code::E02), 1));
    }
    let len = extent(Run::Directive, inner);
    let shown = &inner[..len];
    if is_include(shown) {
        let len = line_len(inner);
        return Ok((include_piece(&inner[..len]), 1 + len));
    }
    Ok((directive_piece(alloc, shown)?, 1 + len))
}
