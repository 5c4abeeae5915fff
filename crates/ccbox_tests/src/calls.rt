// The call over files and an output in memory.

use crate::lines::add;
use crate::rows::field;
use ccbox_call::call::ccbox;
use ckc_io::mem_shelf::MemShelf;
use ckc_io::mem_sink::MemSink;
use ckc_io::shelf::Shelf;
use std::alloc::Global;

/// A call, and what it answers.
#[derive(Clone, Copy)]
pub struct Call<'a> {
    /// The words, with one space between two of them; an empty text has none.
    pub words: &'a str,
    /// What stands in the file `a.c`.
    pub source: &'a str,
    /// What stands in the file `f`.
    pub acts: &'a str,
    /// What is printed.
    pub text: &'a [u8],
    pub status: u8,
    /// The numbers of the read and of the put that fail; 0 for none.
    pub read: u64,
    pub put: u64,
}

/// The words of a text.
pub fn words_of(alloc: Global, text: &str) -> Vec<&str> {
    let mut words = Vec::new(alloc);
    if !text.is_empty() {
        for word in text.split(' ') {
            let _ = words.push(word);
        }
    }
    words
}

/// The files of a call.
pub fn files(alloc: Global, call: &Call) -> MemShelf {
    let mut shelf = MemShelf::new(alloc);
    let _ = shelf.add("a.c", call.source.as_bytes());
    let _ = shelf.add("f", call.acts.as_bytes());
    let _ = shelf.fail_at(call.read);
    shelf
}

/// Whether a call over a shelf, with an output that takes one byte at a time and has room for one more, answers so.
pub fn answers_over<F: Shelf>(alloc: Global, call: &Call, shelf: &mut F) -> bool {
    match MemSink::with_room(alloc, call.text.len().saturating_add(1), 1) {
        Ok(mut sink) => answers_into(alloc, call, shelf, &mut sink),
        Err(_) => false,
    }
}

fn answers_into<F: Shelf>(alloc: Global, call: &Call, shelf: &mut F, sink: &mut MemSink) -> bool {
    let _ = sink.fail_at(call.put);
    let words = words_of(alloc, call.words);
    let status = ccbox(alloc, words.as_slice(), shelf, sink).number();
    status == call.status && sink.bytes() == call.text
}

/// Whether a call answers so.
pub fn answers(alloc: Global, call: &Call) -> bool {
    let mut shelf = files(alloc, call);
    answers_over(alloc, call, &mut shelf)
}

// How a line begins that tells of no return, and the status of the call that prints it.
struct Ending(&'static str, u8);

static ENDINGS: [Ending; 7] = [
    Ending("[refused ", 1),
    Ending("[usage]", 2),
    Ending("[missing ", 3),
    Ending("[check ", 6),
    Ending("[stop ", 7),
    Ending("[act line ", 8),
    Ending("[listing ", 11),
];

// The status of the call that prints a text.
fn status_of(text: &str) -> u8 {
    for Ending(mark, status) in &ENDINGS {
        if text.split_once(*mark).is_some() {
            return *status;
        }
    }
    0
}

// Whether a call prints this text and a line feed, with the status that belongs to it.
fn prints(alloc: Global, words: &str, acts: &str, source: &str, expected: &str) -> bool {
    let mut text = String::new(alloc);
    add(&mut text, expected);
    add(&mut text, "\n");
    let call = Call {
        words,
        source,
        acts,
        text: text.as_bytes(),
        status: status_of(expected),
        read: 0,
        put: 0,
    };
    answers(alloc, &call)
}

/// Whether the call of a row prints this: it has the words, the acts and the source.
pub fn call_prints(alloc: Global, row: &str, expected: &str) -> bool {
    let (words, row) = field(row);
    let (acts, source) = field(row);
    prints(alloc, words, acts, source, expected)
}
