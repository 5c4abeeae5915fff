// Cutting a source into tokens.

ghost use Rattle.std.specs.Prelude.{◌≡◌, ◌+◌, ◌-◌, ◌<◌, ◌≤◌, length, OnOk};
ghost use Rattle.ckc_text.specs.declared.fault.Refused.TheVariants.{Source};
ghost use Rattle.ckc_lexer.specs.Tokens.{fault_at, push, definition_for, number_tokens, name_tokens, behind_mark, forbidden, fault, define, go_on, scope_from, change_scope, is_first, next, LexAnswers};
ghost use Rattle.ckc_lexer.specs.declared.piece.Piece.TheVariants.{Gap};
ghost use Rattle.ckc_lexer.specs.Progress.{state_of, Gives, Steps};

use crate::definitions::Definitions;
use crate::limits::{MAX_SOURCE, MAX_TOKENS};
use crate::line::Line;
use crate::piece::{Definition, Piece, ScopeWord};
use crate::pieces::piece_at;
use crate::token::{CheckedScope, Token, TokenKind};
use ckc_text::code::Code;
use ckc_text::fault::Refused;
use ckc_text::name::Name;
use ckc_text::place::Span;
use std::alloc::Global;

/// What stands before a place of a source: the tokens, the definitions, the scope and those that were kept.
#[derive(Drop)]
struct Lexer {
    at: usize,
    line: Line,
    tokens: Vec<Token>,
    definitions: Definitions,
    scope: CheckedScope,
    kept: Vec<CheckedScope>,
}

/// A fault at a place.
fn fault_at(code: Code, at: u32) -> Refused
    ensures { result ≡ Source (fault_at code at) }
{
    Refused::at(code, Span { from: at, to: at })
}

impl Lexer {
    fn go_on(&mut self, len: usize, line: Line)
        requires { self.old.at + len ≤ 1048576 }
        ensures { Gives (Ok (tt)) self.new (go_on len line (Ok (state_of self.old))) }
    {
        self.at += len;
        self.line = line;
    }

    /// One more token, of the bytes that stand here.
    #[tactic(auto, unfolding(crate::specs::Tokens::push))]
    fn push(&mut self, kind: TokenKind, len: usize) -> Result<(), Refused>
        requires { self.old.at + len ≤ 1048576 }
        ensures gives { Gives result self.new (push (state_of self.old) kind len) }
        ensures place { self.new.at ≡ self.old.at }
    {
        let from = self.at as u32;
        let to = (self.at + len) as u32;
        if self.tokens.len() >= MAX_TOKENS {
            return Err(fault_at(Code::E08, from));
        }
        let span = Span { from, to };
        self.tokens.push(Token { kind, span })?;
        Ok(())
    }

    /// The number that a name stands for.
    fn push_number(&mut self, negative: bool, value: u32, len: usize) -> Result<(), Refused>
        requires { self.old.at + len ≤ 1048576 }
        ensures gives { Gives result self.new (number_tokens negative value (state_of self.old) len) }
        ensures place { self.new.at ≡ self.old.at }
    {
        if negative {
            self.push(TokenKind::Minus, len)?;
        }
        self.push(TokenKind::Number(value), len)
    }

    /// A name, or what it stands for.
    fn push_name(&mut self, name: Name, len: usize) -> Result<(), Refused>
        requires { self.old.at + len ≤ 1048576 }
        ensures gives { Gives result self.new (name_tokens name (definition_for name self.old.definitions) (state_of self.old) len) }
        ensures place { self.new.at ≡ self.old.at }
    {
        match self.definitions.get(name.as_bytes()) {
            None => self.push(TokenKind::Name(name), len),
            Some((negative, value)) => self.push_number(negative, value, len),
        }
    }

    /// One more definition, unless it stands already.
    fn define(&mut self, definition: Definition) -> Result<(), Refused>
        requires { self.old.at ≤ 1048576 }
        ensures gives { Gives result self.new (define (definition_for definition.name self.old.definitions) definition (state_of self.old)) }
        ensures place { self.new.at ≡ self.old.at }
    {
        match self.definitions.get(definition.name.as_bytes()) {
            None => {
                self.definitions.add(definition)?;
                Ok(())
            }
            Some((negative, value))
                if negative == definition.negative && value == definition.value => { Ok(()) }
            Some(_) => Err(fault_at(Code::E05, self.at as u32)),
        }
    }

    /// From here on this scope stands.
    fn scope_from(&mut self, scope: CheckedScope, len: usize) -> Result<(), Refused>
        requires { self.old.at + len ≤ 1048576 }
        ensures gives { Gives result self.new (scope_from (state_of self.old) scope (state_of self.old).kept len) }
        ensures place { self.new.at ≡ self.old.at }
    {
        self.scope = scope;
        self.push(TokenKind::Scope(scope), len)
    }

    /// The scope that a word leads to.
    fn change_scope(&mut self, word: ScopeWord, len: usize) -> Result<(), Refused>
        requires { self.old.at + len ≤ 1048576 }
        ensures gives { Gives result self.new (change_scope word (state_of self.old) len) }
        ensures place { self.new.at ≡ self.old.at }
    {
        match word {
            ScopeWord::On => self.scope_from(CheckedScope::On, len),
            ScopeWord::Off => self.scope_from(CheckedScope::Off, len),
            ScopeWord::Push => {
                let scope = self.scope;
                self.kept.push(scope)?;
                self.scope_from(scope, len)
            }
            ScopeWord::Pop => match self.kept.pop() {
                Some(scope) => self.scope_from(scope, len),
                None => Err(fault_at(Code::E05, self.at as u32)),
            },
        }
    }

    /// A fault of what stands here: behind a directive it is that directive's.
    fn fault(&self, code: Code) -> Refused
        requires { self.now.at ≤ 1048576 }
        ensures { result ≡ Source (fault self.now.line code self.now.at) }
    {
        match self.line {
            Line::Behind(directive) => fault_at(Code::E05, directive),
            Line::Fresh | Line::Marked => fault_at(code, self.at as u32),
        }
    }

    /// A byte that may not stand here: behind a directive it is that directive's.
    fn forbidden(&self) -> Refused
        requires { self.now.at ≤ 1048576 }
        ensures { result ≡ Source (forbidden self.now.line self.now.at) }
    {
        match self.line {
            Line::Behind(directive) => fault_at(Code::E01, directive),
            Line::Fresh | Line::Marked => fault_at(Code::E01, self.at as u32),
        }
    }

    /// A token other than a name.
    fn lexeme(&mut self, kind: TokenKind, len: usize) -> Result<(), Refused>
        requires { self.old.at + len ≤ 1048576 }
        ensures { Gives result self.new (behind_mark self.old.line (push (state_of self.old) kind len) len) }
    {
        if let Line::Behind(directive) = self.line {
            return Err(fault_at(Code::E05, directive));
        }
        self.push(kind, len)?;
        self.go_on(len, Line::Marked);
        Ok(())
    }

    /// A name.
    fn named(&mut self, name: Name, len: usize) -> Result<(), Refused>
        requires { self.old.at + len ≤ 1048576 }
        ensures { Gives result self.new (behind_mark self.old.line (name_tokens name (definition_for name self.old.definitions) (state_of self.old) len) len) }
    {
        if let Line::Behind(directive) = self.line {
            return Err(fault_at(Code::E05, directive));
        }
        self.push_name(name, len)?;
        self.go_on(len, Line::Marked);
        Ok(())
    }

    /// A blank or a comment.
    fn gap(&mut self, ends_line: bool, len: usize)
        requires { self.old.at + len ≤ 1048576 }
        ensures { next (Gap ends_line) (state_of self.old) len ≡ Ok (state_of self.new) }
    {
        let line = if ends_line { Line::Fresh } else { self.line };
        self.go_on(len, line);
    }

    /// What a piece leads to.
    fn advance(&mut self, piece: Piece, len: usize) -> Result<(), Refused>
        requires { self.old.at + len ≤ 1048576 }
        ensures { Gives result self.new (next piece (state_of self.old) len) }
    {
        let directive = Line::Behind(self.at as u32);
        match piece {
            Piece::Gap(ends_line) => self.gap(ends_line, len),
            Piece::Lexeme(kind) => self.lexeme(kind, len)?,
            Piece::Named(name) => self.named(name, len)?,
            Piece::Include => self.go_on(len, directive),
            Piece::Define(definition) => {
                self.define(definition)?;
                self.go_on(len, directive);
            }
            Piece::Scope(word) => {
                self.change_scope(word, len)?;
                self.go_on(len, directive);
            }
            Piece::CommentFault(code) => return Err(fault_at(code, self.at as u32)),
            Piece::Forbidden => return Err(self.forbidden()),
            Piece::Fault(code) => return Err(self.fault(code)),
        }
        Ok(())
    }

    /// Whether no mark stands before this place on its line.
    fn is_first(&self) -> bool
        ensures { result ≡ is_first self.now.line }
    {
        matches!(self.line, Line::Fresh)
    }

    /// Reads the piece that stands here.
    fn step(&mut self, alloc: Global, src: &[u8]) -> Result<(), Refused>
        requires within { self.old.at < length src.now }
        requires small { length src.now ≤ 1048576 }
        ensures step { Steps src.now self.old result self.new }
        ensures further { OnOk result (self.old.at < self.new.at × self.new.at ≤ length src.now) }
    {
        let (piece, len) = piece_at(alloc, self.is_first(), &src[self.at..])?;
        self.advance(piece, len)
    }
}

/// The tokens of a source, in order.
///
/// # Errors
///
/// E01 to E05 and E08, at the first place where no blank, comment, directive or token can be read. A source
/// of more than 1,048,576 bytes is E08 at its start. The span of a fault is empty: it is the place alone.
pub fn lex(alloc: Global, src: &[u8]) -> Result<Vec<Token>, Refused>
    ensures { LexAnswers src.now result }
{
    if src.len() > MAX_SOURCE {
        return Err(fault_at(Code::E08, 0));
    }
    let mut lexer = Lexer {
        at: 0,
        line: Line::Fresh,
        tokens: Vec::new(alloc),
        definitions: Definitions::new(alloc),
        scope: CheckedScope::On,
        kept: Vec::new(alloc),
    };
    while lexer.at < src.len() {
        if let Err(refused) = lexer.step(alloc, src) {
            return Err(refused);
        }
    }
    Ok(lexer.tokens)
}
