// The lines of a text of acts.

ghost use Rattle.std.specs.Prelude.{◌≡◌, ◌≤◌, ◌<◌, length, IfSome, IfNone, position};
ghost use Rattle.std.specs.List.{list_all};
ghost use Rattle.sandbox_actor.specs.ActLists.{is_blank, is_feed, is_skipped, is_space, no_acts, reading_to};
ghost use Rattle.sandbox_actor.specs.Lines.{acts_at, bytes_of, IsFirst, IsNext, LineAnswers};

use crate::actor::ActorFault;
use act_words::act::Act;
use act_words::reading::{ActFault, LINE_LIMIT, read_act};
use ckc_text::code::Code;
use std::alloc::Global;

/// The most bytes of a file before which a line has to end.
pub const TEXT_LIMIT: usize = 1_048_576;

/// The number of the last line that is read.
pub const LAST_LINE: u64 = 16_777_216;

/// A line of a text, by its number and by the offsets of its first byte, of the byte behind its last one, and of the
/// next line.
#[derive(Clone, Copy)]
pub struct Line {
    pub number: u64,
    pub from: usize,
    pub to: usize,
    pub end: usize,
}

/// The first line from a place on that isn't skipped.
pub fn next_line(text: &[u8], number: u64, at: usize) -> Option<Line>
    requires { at ≤ length text.now }
    ensures next { IfSome result (IsNext text.now number at) }
    ensures ended { IfNone result (acts_at text.now number at ≡ no_acts) }
{
    let mut number = number;
    let mut from = at;
    while from < text.len() && number <= LAST_LINE {
        let (length, size) = first_line(&text[from..]);
        let (to, end) = (from + length, from + size);
        if !is_skipped(end, &text[from..to]) {
            return Some(Line {
                number,
                from,
                to,
                end,
            });
        }
        from = end;
        number += 1;
    }
    None
}

/// How many bytes the first line has, without its line feed and with it.
fn first_line(text: &[u8]) -> (usize, usize)
    requires { 0 < length text.now }
    ensures { IsFirst text.now result.0 result.1 }
{
    match feed_in(text) {
        Some(at) => (at, at + 1),
        None => (text.len(), text.len()),
    }
}

/// Where the first line feed is.
fn feed_in(text: &[u8]) -> Option<usize>
    ensures { result ≡ position is_feed text.now }
{
    text.iter().position(|b| *b == b'\n')
}

/// Whether a line is passed over that ends before this byte.
fn is_skipped(end: usize, line: &[u8]) -> bool
    ensures { result ≡ is_skipped end line.now }
{
    end <= TEXT_LIMIT && is_blank(line)
}

fn is_blank(line: &[u8]) -> bool
    ensures { result ≡ is_blank line.now }
{
    line.len() <= LINE_LIMIT && has_spaces_alone(line)
}

fn has_spaces_alone(line: &[u8]) -> bool
    ensures { result ≡ list_all is_space line.now }
{
    line.iter().all(|b| matches!(*b, b' ' | b'\t' | b'\r'))
}

/// The act that a line says.
pub fn act_at(alloc: Global, text: &[u8], line: &Line) -> Result<Act, ActorFault>
    requires ordered { line.now.from ≤ line.now.to }
    requires within { line.now.to ≤ length text.now }
    ensures { LineAnswers line.now.number (reading_to line.now.end (bytes_of text.now line.now)) result }
{
    if line.end > TEXT_LIMIT {
        return Err(ActorFault::Line {
            line: line.number,
            code: Code::A4,
        });
    }
    match read_act(alloc, &text[line.from..line.to]) {
        Ok(act) => Ok(act),
        Err(ActFault::Bad(code)) => Err(ActorFault::Line {
            line: line.number,
            code,
        }),
        Err(ActFault::NoMemory) => Err(ActorFault::NoMemory),
    }
}
