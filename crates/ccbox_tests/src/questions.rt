// What is asked about the case of a row.

use crate::actors::gives_all;
use crate::acts::is_act;
use crate::calls::call_prints;
use crate::lines::is_number;
use crate::sources::tree_of;
use ckc_lexer::lexer::lex;
use ckc_text::fault::{Refused, SourceFault};
use std::alloc::Global;

/// What is asked about a case.
#[derive(Clone, Copy)]
pub enum Question {
    /// How many tokens it has.
    Count,
    /// Whether it has a tree.
    Tree,
    /// The line that the act of this line is written as.
    Act,
    /// The lines of the acts that a file gives, and why no more come.
    ActFile,
    /// What a call prints; the case has the words, the acts and the source.
    Call,
}

/// Whether a case has this answer. What is printed stands without its last line feed.
pub fn is_answer(alloc: Global, question: Question, case: &str, expected: &str) -> bool {
    match question {
        Question::Count => has_count(alloc, case.as_bytes(), expected),
        Question::Tree => has_tree(alloc, case.as_bytes(), expected),
        Question::Act => is_act(alloc, case.as_bytes(), expected),
        Question::ActFile => gives_all(alloc, case.as_bytes(), expected),
        Question::Call => call_prints(alloc, case, expected),
    }
}

/// Whether a text has so many tokens, or this fault.
pub fn has_count(alloc: Global, text: &[u8], expected: &str) -> bool {
    match lex(alloc, text) {
        Ok(tokens) => is_number(expected, tokens.len() as u64),
        Err(refused) => is_refusal(&refused, expected),
    }
}

// Whether a text has a tree, or this fault.
fn has_tree(alloc: Global, text: &[u8], expected: &str) -> bool {
    match tree_of(alloc, text) {
        Ok(_) => expected == "ok",
        Err(refused) => is_refusal(&refused, expected),
    }
}

// Whether a refusal has this code and byte.
fn is_refusal(refused: &Refused, expected: &str) -> bool {
    match refused {
        Refused::Source(fault) => is_fault(fault, expected),
        Refused::NoMemory => false,
    }
}

fn is_fault(fault: &SourceFault, expected: &str) -> bool {
    match expected.split_once(' ') {
        Some((number, from)) => {
            fault.code.number() == number && is_number(from, u64::from(fault.span.from))
        }
        None => false,
    }
}
