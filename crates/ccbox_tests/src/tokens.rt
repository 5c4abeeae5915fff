// The tokens of texts.

use crate::lines::{add, add_number};
use crate::places::has_places;
use crate::questions::{Question, has_count};
use crate::rows::{Table, expect, expect_tables};
use ckc_lexer::lexer::lex;
use ckc_lexer::token::Token;
use ckc_text::place::Span;
use std::alloc::Global;
use std::test::Fail;

// Bytes that are no text, with the number of their tokens, or their fault.
struct BytesRow(&'static [u8], &'static str);

static BYTES_ROWS: [BytesRow; 7] = [
    BytesRow(b"/* \xc3 */ a", "1"),
    BytesRow(b"\x80", "E01 0"),
    BytesRow(b"a '\x80' b", "E01 2"),
    BytesRow(b"#define N 4\xc3", "E01 0"),
    BytesRow(b"a\xff", "E01 1"),
    BytesRow(b"#include \xc3\na", "1"),
    BytesRow(b"#define N 4 // \xc3\nN", "1"),
];

// Whether bytes that are no text stand in comments and behind `#include` alone.
fn takes_bytes(alloc: Global) -> bool {
    for BytesRow(src, want) in &BYTES_ROWS {
        if !has_count(alloc, src, want) {
            return false;
        }
    }
    true
}

// The bytes that a token stands on.
fn add_span(spans: &mut String, span: Span) {
    add_number(spans, "", span.from);
    add_number(spans, "-", span.to);
    add(spans, " ");
}

// The bytes that the tokens of a text stand on.
fn spans_of(alloc: Global, tokens: &[Token]) -> String {
    let mut spans = String::new(alloc);
    for token in tokens {
        add_span(&mut spans, token.span);
    }
    spans
}

// Whether tokens stand on these bytes.
fn stand_on(alloc: Global, tokens: &[Token], expected: &str) -> bool {
    spans_of(alloc, tokens).as_str() == expected
}

// Whether the tokens of a function stand on its bytes.
fn has_spans(alloc: Global) -> bool {
    match lex(alloc, b"int main(void) { return 0; }") {
        Ok(tokens) => stand_on(
            alloc,
            tokens.as_slice(),
            "0-3 4-8 8-9 9-13 13-14 15-16 17-23 24-25 25-26 27-28 ",
        ),
        Err(_) => false,
    }
}

// How many tokens texts have, up to the limit of a source.
const COUNTS: &str = "0@
0@ \t\r¶
1@returns
16@a<b>c=d+e-f*g&h;
9@ptr<int> p = &x;
2@_Ptr9 2147483647
7@_Tainted t(a, b)
1@while
1@_Checked
3@a / b
1@a // b
4@a >>= b
2@<< =
18@{}()[]<=>===!=+=-=++--&&||<<->
3@1.5
2@#define N -4¶N
200000@`200000×;`
200000@#define N -1¶`199998×;`N
0@`1048576× `";

static TABLES: [Table; 1] = [Table(Question::Count, COUNTS)];

/// Fails unless tokens are counted, and stand where they must.
pub fn lexing(alloc: Global) -> Result<(), Fail> {
    expect(
        "bytes, spans and places",
        takes_bytes(alloc) && has_spans(alloc) && has_places(alloc),
    )?;
    expect_tables(alloc, &TABLES)
}
