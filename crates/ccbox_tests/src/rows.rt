// Tables of rows, and how a test ends.

use crate::lines::add;
use crate::questions::{Question, is_answer};
use std::alloc::{AllocError, Global};
use std::test::Fail;

// A row of a table is an answer and a case, which may have more fields, with an `@` between two of them. A `¶` stands
// for a line feed, and a count, a `×` and a piece between two backticks for so many of the piece. No field but the last has
// one of these characters. Where the answer is `=` it is the case.

/// What is asked, and the rows that answer it.
pub struct Table(pub Question, pub &'static str);

/// What stands before the first `@`, and behind it.
pub fn field(row: &str) -> (&str, &str) {
    row.split_once('@').unwrap_or((row, ""))
}

// Puts what a part of a row between backticks, or outside of them, stands for at the end of a text.
fn add_part(text: &mut String, alloc: Global, part: &str) {
    match part.split_once('×') {
        Some((times, piece)) => add_pieces(text, alloc, piece, times),
        None => add(text, part),
    }
}

fn add_pieces(text: &mut String, alloc: Global, piece: &str, times: &str) {
    let times = times.parse::<usize>().unwrap_or(0);
    if let Ok(pieces) = piece.repeat(alloc, times) {
        add(text, pieces.as_str());
    }
}

// What a row stands for.
fn written_out(alloc: Global, row: &str) -> Result<String, AllocError> {
    let mut text = String::new(alloc);
    for part in row.split('`') {
        add_part(&mut text, alloc, part);
    }
    text.replace(alloc, '¶', "\n")
}

// Whether a row is right.
fn is_right(alloc: Global, question: Question, row: &str) -> bool {
    match written_out(alloc, row) {
        Ok(row) => has_answer(alloc, question, row.as_str()),
        Err(_) => false,
    }
}

fn has_answer(alloc: Global, question: Question, row: &str) -> bool {
    let (expected, case) = field(row);
    let expected = if expected == "=" { case } else { expected };
    is_answer(alloc, question, case, expected)
}

// Fails with the first row that is wrong.
fn expect_rows(alloc: Global, question: Question, rows: &str) -> Result<(), Fail> {
    for row in rows.lines() {
        if !is_right(alloc, question, row) {
            return Err(Fail::new(row));
        }
    }
    Ok(())
}

/// Fails with the first row of the tables that is wrong.
pub fn expect_tables(alloc: Global, tables: &[Table]) -> Result<(), Fail> {
    for Table(question, rows) in tables {
        expect_rows(alloc, *question, rows)?;
    }
    Ok(())
}

/// Fails, and says of what, unless all is right.
pub fn expect(of: &str, right: bool) -> Result<(), Fail> {
    if right { Ok(()) } else { Err(Fail::new(of)) }
}
