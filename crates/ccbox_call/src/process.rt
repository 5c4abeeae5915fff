// The process around the call: from the outcome of reading the words of the command line to the status that it ends with.

ghost use Rattle.std.specs.Prelude.{◌≡◌, ℕ, List, [], None, Some, IfOk, map, drop};
ghost use Rattle.std.specs.Process.{exit_status};
ghost use Rattle.std.specs.String.{string_bytes};
ghost use Rattle.std.specs.Vec.Iter.{into_iter_items};
ghost use Rattle.ccbox_call.specs.Calls.{CallEnds};
ghost use Rattle.ccbox_call_words.specs.Statuses.{number_of};
ghost use Rattle.ccbox_call.specs.Process.{Answers, IsUnmade, ProcessEnds, words_given};

use crate::call::status_of_call;
use ccbox_call_words::status::Status;
use ckc_io::shelf::Shelf;
use ckc_io::sink::Sink;
use std::alloc::{AllocError, Global};
use std::env::Args;
use std::io;
use std::process::ExitCode;

/// Makes the call with the words of the command line, and gives the status that the process ends with.
///
/// The first of the arguments is the program's own name. Where one of them is no text, the words count as none.
pub fn process<F: Shelf, K: Sink>(
    alloc: Global,
    arguments: io::Result<Args>,
    shelf: &mut F,
    sink: &mut K,
) -> ExitCode
    // Over the words as they came, all that the call ensures.
    ensures answers { (words : List (List ℕ)) → words_given arguments ≡ Some words
        → Answers (F.files shelf.old) words (K.written sink.old) (K.written sink.new)
        (record { misses = F.misses shelf.old; faults = F.faults shelf.old; sink = K.faults sink.old })
        (record { misses = F.misses shelf.new; faults = F.faults shelf.new; sink = K.faults sink.new }) (exit_status result) }

    // Where memory ran out while they were read.
    ensures unmade { words_given arguments ≡ None
        → IsUnmade (K.written sink.old) (K.written sink.new)
        (record { misses = F.misses shelf.old; faults = F.faults shelf.old; sink = K.faults sink.old })
        (record { misses = F.misses shelf.new; faults = F.faults shelf.new; sink = K.faults sink.new }) (exit_status result) }
{
    let status = status_by_words(alloc, arguments, shelf, sink);
    ExitCode::from(status.number())
}

// The status of a call with the words that were read, if they were.
fn status_by_words<F: Shelf, K: Sink>(
    alloc: Global,
    arguments: io::Result<Args>,
    shelf: &mut F,
    sink: &mut K,
) -> Status
    ensures { ProcessEnds (words_given arguments) (F.files shelf.old) (K.written sink.old) (K.written sink.new)
        (record { misses = F.misses shelf.old; faults = F.faults shelf.old; sink = K.faults sink.old })
        (record { misses = F.misses shelf.new; faults = F.faults shelf.new; sink = K.faults sink.new }) (number_of result) }
{
    match arguments {
        Ok(arguments) => status_of_arguments(alloc, arguments, shelf, sink),
        Err(error) if error.kind() == io::ErrorKind::OutOfMemory => Status::NoMemory,
        // A word that is no text spells no request.
        Err(_) => status_of_call(alloc, &[], shelf, sink),
    }
}

// The status of a call with the arguments behind the first one.
fn status_of_arguments<F: Shelf, K: Sink>(
    alloc: Global,
    arguments: Args,
    shelf: &mut F,
    sink: &mut K,
) -> Status
    ensures { CallEnds (drop 1 (map string_bytes (into_iter_items arguments))) (F.files shelf.old) (K.written sink.old) (K.written sink.new)
        (record { misses = F.misses shelf.old; faults = F.faults shelf.old; sink = K.faults sink.old })
        (record { misses = F.misses shelf.new; faults = F.faults shelf.new; sink = K.faults sink.new }) (number_of result) }
{
    match texts_behind_first(alloc, arguments) {
        Ok(texts) => status_of_texts(alloc, texts.as_slice(), shelf, sink),
        Err(_) => Status::NoMemory,
    }
}

// The status of a call with these words.
fn status_of_texts<F: Shelf, K: Sink>(
    alloc: Global,
    texts: &[String],
    shelf: &mut F,
    sink: &mut K,
) -> Status
    ensures { CallEnds (map string_bytes texts.now) (F.files shelf.old) (K.written sink.old) (K.written sink.new)
        (record { misses = F.misses shelf.old; faults = F.faults shelf.old; sink = K.faults sink.old })
        (record { misses = F.misses shelf.new; faults = F.faults shelf.new; sink = K.faults sink.new }) (number_of result) }
{
    match words_of(alloc, texts) {
        Ok(words) => status_of_call(alloc, words.as_slice(), shelf, sink),
        Err(_) => Status::NoMemory,
    }
}

// The arguments behind the first one.
fn texts_behind_first(alloc: Global, mut arguments: Args) -> Result<Vec<String>, AllocError>
    ensures { IfOk result (λ texts. texts.items ≡ drop 1 (into_iter_items arguments)) }
{
    let mut texts = Vec::new(alloc);
    let _name = arguments.next();
    for text in arguments {
        texts.push(text)?;
    }
    Ok(texts)
}

// The bytes of texts, which are lent.
fn words_of(alloc: Global, texts: &[String]) -> Result<Vec<&str>, AllocError>
    ensures { IfOk result (λ words. map (λ word. word.now) words.items ≡ map string_bytes texts.now) }
{
    let mut words = Vec::new(alloc);
    for text in texts {
        words.push(text.as_str())?;
    }
    Ok(words)
}
