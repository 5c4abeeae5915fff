// The actor of a file, over files in memory.

use crate::acts::is_written;
use crate::lines::is_number;
use act_words::act::Turn;
use ckc_io::mem_shelf::MemShelf;
use ckc_text::code::Code;
use sandbox_actor::actor::{Actor, ActorFault, Now};
use sandbox_actor::list_actor::ListActor;
use std::alloc::Global;

// The files of a test: `acts`, with this text, of which the read of this number fails.
fn shelf_of(alloc: Global, text: &[u8], read: u64) -> MemShelf {
    let mut shelf = MemShelf::new(alloc);
    let _ = shelf.add("acts", text);
    let _ = shelf.fail_at(read);
    shelf
}

// Whether no act came for this reason.
fn is_reason(fault: &ActorFault, expected: &str) -> bool {
    match fault {
        ActorFault::Ended => expected == "end",
        ActorFault::Line { line, code } => is_refused_line(*line, *code, expected),
        _ => false,
    }
}

fn is_refused_line(line: u64, code: Code, expected: &str) -> bool {
    match expected.split_once(' ') {
        Some((number, refusal)) => is_number(number, line) && code.number() == refusal,
        None => false,
    }
}

// Whether the actor gives this next.
fn gives(
    alloc: Global,
    shelf: &mut MemShelf,
    actor: &mut ListActor,
    now: &Now,
    expected: &str,
) -> bool {
    match actor.next(shelf, now) {
        Ok(act) => is_written(alloc, &act, expected),
        Err(fault) => is_reason(&fault, expected),
    }
}

// Whether the actor gives the acts of these lines, and then no more for the reason of the last line.
fn gives_lines(
    alloc: Global,
    shelf: &mut MemShelf,
    actor: &mut ListActor,
    turn: Turn,
    expected: &str,
) -> bool {
    let now = Now { turn, last: None };
    for line in expected.lines() {
        if !gives(alloc, shelf, actor, &now, line) {
            return false;
        }
    }
    true
}

// Whether the actor of the files gives these lines.
fn starts_and_gives(alloc: Global, mut shelf: MemShelf, turn: Turn, expected: &str) -> bool {
    match ListActor::start(alloc, &mut shelf, "acts") {
        Ok(mut actor) => gives_lines(alloc, &mut shelf, &mut actor, turn, expected),
        Err(_) => false,
    }
}

/// Whether a file gives the acts of these lines, and then no more for the reason of the last line.
pub fn gives_all(alloc: Global, text: &[u8], expected: &str) -> bool {
    starts_and_gives(alloc, shelf_of(alloc, text, 0), Turn::Trusted, expected)
}

// Whether no actor starts over these files, since the file is missing, or else since it can't be read.
fn is_unread(alloc: Global, shelf: &mut MemShelf, missing: bool) -> bool {
    match ListActor::start(alloc, shelf, "acts") {
        Err(ActorFault::Missing) => missing,
        Err(ActorFault::Failed) => !missing,
        _ => false,
    }
}

// Whether no actor starts where there is no file.
fn is_missing(alloc: Global) -> bool {
    is_unread(alloc, &mut MemShelf::new(alloc), true)
}

const GO: &[u8] = b"{\"act\":\"go\"}\n";

// Whether no actor starts where the read of this number fails.
fn start_fails(alloc: Global, read: u64) -> bool {
    is_unread(alloc, &mut shelf_of(alloc, GO, read), false)
}

// Whether the acts of a file are read with no more than two reads.
fn reads_twice(alloc: Global) -> bool {
    let shelf = shelf_of(alloc, GO, 3);
    starts_and_gives(alloc, shelf, Turn::Sandbox, "{\"act\":\"go\"}\nend")
}

/// Whether an actor starts where its file is there and can be read, which takes two reads.
pub fn starts_so(alloc: Global) -> bool {
    is_missing(alloc) && start_fails(alloc, 1) && start_fails(alloc, 2) && reads_twice(alloc)
}
