// Calls whose files or outputs fail.

use crate::calls::{Call, answers, answers_over, files, words_of};
use crate::lines::add;
use crate::rows::expect;
use act_recorder::endings::answer_text;
use act_words::ending::Ending;
use ccbox_call::call::ccbox;
use ckc_io::blank_sink::BlankSink;
use ckc_io::mem_shelf::MemShelf;
use ckc_io::shelf::{Shelf, ShelfFault};
use ckc_io::sink::Sink;
use ckc_io::sure_sink::SureSink;
use std::alloc::Global;
use std::test::Fail;

// A shelf that gives one byte a call, and tells nothing of its files.
#[derive(Drop)]
struct OneByteShelf {
    inner: MemShelf,
}

impl Shelf for OneByteShelf {
    ghost use Rattle.std.specs.Prelude.{None};

    ghost files = { λ _. None };

    ghost misses = { λ s. s.inner.misses };

    ghost faults = { λ s. s.inner.faults };

    fn read_at(&mut self, name: &str, from: u64, into: &mut [u8]) -> Result<usize, ShelfFault> {
        let most = into.len().min(1);
        self.inner.read_at(name, from, &mut into[..most])
    }
}

// Whether a call answers so over a shelf that gives one byte a call.
fn answers_by_bytes(alloc: Global, call: &Call) -> bool {
    let mut shelf = OneByteShelf {
        inner: files(alloc, call),
    };
    answers_over(alloc, call, &mut shelf)
}

// Whether a call prints nothing where the read of this number fails.
fn read_fails(alloc: Global, call: &Call, read: u64) -> bool {
    let failing = Call {
        text: b"",
        status: 4,
        read,
        ..*call
    };
    answers(alloc, &failing)
}

// Whether a call prints nothing where one of its first reads fails.
fn reads_fail(alloc: Global, call: &Call, reads: u64) -> bool {
    for read in 1..=reads {
        if !read_fails(alloc, call, read) {
            return false;
        }
    }
    true
}

// Whether a call prints this front of its text where the put behind it fails.
fn put_fails(alloc: Global, call: &Call, front: &[u8]) -> bool {
    let failing = Call {
        text: front,
        status: 5,
        put: (front.len() as u64).saturating_add(1),
        ..*call
    };
    answers(alloc, &failing)
}

// Whether a call prints a front of its text where one of its puts fails.
fn puts_fail(alloc: Global, call: &Call) -> bool {
    for before in 0..call.text.len() {
        if !put_fails(alloc, call, &call.text[..before]) {
            return false;
        }
    }
    true
}

// A call that reads its source alone.
const SOURCE_ALONE: Call = Call {
    words: "run a.c --sandbox 65536 --trusted 65536",
    source: "int g = 1; int main(void) { ptr<int> p = &g; *p = 41; return g + 1; }\n",
    acts: "",
    text: b"[exit 42]\n",
    status: 0,
    read: 0,
    put: 0,
};

// A call that needs an act, and has none.
const WITH_ACTS: Call = Call {
    words: "run a.c --acts=f --sandbox 65536 --trusted 65536",
    source: "_Tainted int t(void);\nint main(void) { return t(); }\n",
    acts: "?",
    text: b"[act line 1 A1 not JSON]\n",
    status: 8,
    read: 0,
    put: 0,
};

// A call whose program writes before it ends.
const WITH_OUTPUT: Call = Call {
    words: "run a.c --dump --sandbox 65536 --trusted 65536",
    source: "int g = 7; int main(void) { print_int(g); return 0; }\n",
    acts: "",
    text: b"7\n[exit 0]\n[block 65552 4 07000000]\n",
    status: 0,
    read: 0,
    put: 0,
};

// A call whose program writes what it worked out in memory of the run.
const WITH_SQUARES: Call = Call {
    words: "run a.c --sandbox 65536 --trusted 65536",
    source: "int main(void) {\n  array_ptr<int> a : count(10) = malloc<int>(10 * sizeof(int));\n  int i = 0;\n  int s = 0;\n  while (i < 10) {\n    a[i] = i * i;\n    i = i + 1;\n  }\n  for (int j = 0; j < 10; j++) {\n    s = s + a[j];\n  }\n  print_int(s);\n  return 0;\n}\n",
    acts: "",
    text: b"285\n[exit 0]\n",
    status: 0,
    read: 0,
    put: 0,
};

// A call each of whose puts fails, and how many of its first reads do. A file takes two reads.
struct Failing(Call<'static>, u64);

static FAILING: [Failing; 4] = [
    Failing(SOURCE_ALONE, 2),
    Failing(WITH_ACTS, 4),
    Failing(WITH_OUTPUT, 0),
    Failing(WITH_SQUARES, 0),
];

// Whether calls fail as their files and outputs do.
fn fails_so(alloc: Global) -> bool {
    for Failing(call, reads) in &FAILING {
        if !reads_fail(alloc, call, *reads) || !puts_fail(alloc, call) {
            return false;
        }
    }
    true
}

static BY_BYTES: [Call<'static>; 2] = [SOURCE_ALONE, WITH_OUTPUT];

// Whether calls answer over a shelf that gives one byte a call.
fn answers_all_by_bytes(alloc: Global) -> bool {
    for call in &BY_BYTES {
        if !answers_by_bytes(alloc, call) {
            return false;
        }
    }
    true
}

static SOURCE_READ: Call<'static> = SOURCE_ALONE;

// What stands before the blanks of a source.
const PADDED: &str = "int main(void) { return 7; }";

// Whether a call with this source answers so where the read of a number fails.
fn answers_from(
    alloc: Global,
    call: &Call,
    source: &str,
    text: &[u8],
    status: u8,
    read: u64,
) -> bool {
    let from = Call {
        source,
        text,
        status,
        read,
        ..*call
    };
    answers(alloc, &from)
}

// Whether a call with a source of so many bytes answers so where the read of a number fails.
fn answers_padded(alloc: Global, bytes: usize, read: u64, text: &[u8], status: u8) -> bool {
    let mut source = String::new(alloc);
    add(&mut source, PADDED);
    if let Ok(blanks) = " ".repeat(alloc, bytes.saturating_sub(PADDED.len())) {
        add(&mut source, blanks.as_str());
    }
    source.len() == bytes && answers_from(alloc, &SOURCE_READ, source.as_str(), text, status, read)
}

// Whether a source of so many bytes takes so many reads.
fn takes_reads(alloc: Global, bytes: usize, reads: u64) -> bool {
    answers_padded(alloc, bytes, reads, b"", 4)
        && answers_padded(alloc, bytes, reads.saturating_add(1), b"[exit 7]\n", 0)
}

// Whether calls answer as their files and outputs let them. A file is read in pieces of 4,096 bytes, and once more.
fn answers_so(alloc: Global) -> bool {
    fails_so(alloc)
        && answers_all_by_bytes(alloc)
        && takes_reads(alloc, 100, 2)
        && takes_reads(alloc, 4096, 2)
        && takes_reads(alloc, 4097, 3)
        && takes_reads(alloc, 8193, 4)
}

// Whether a line is collected twice in a text for which room is taken before, as much as is needed.
fn collects(alloc: Global) -> bool {
    let Ok(line) = answer_text(alloc, &Ending::Exit { value: 42 }) else {
        return false;
    };
    let mut text = SureSink::new(alloc);
    let empty = text.room() == 0 && text.bytes().is_empty();
    for _ in 0..2 {
        if text.reserve(line.len()).is_err() || text.room() < line.len() {
            return false;
        }
        text.put(line.as_slice());
    }
    let whole = text.bytes() == b"[exit 42]\n[exit 42]\n".as_slice();
    empty && whole && text.room() == 0 && text.reserve(usize::MAX).is_err() && text.room() == 0
}

// Whether a call whose output is dropped has the status of one whose output is kept.
fn drops(alloc: Global) -> bool {
    let mut sink = BlankSink::new();
    let words = words_of(alloc, SOURCE_READ.words);
    let mut shelf = files(alloc, &SOURCE_READ);
    let status = ccbox(alloc, words.as_slice(), &mut shelf, &mut sink).number();
    status == SOURCE_READ.status
        && matches!(sink.put(b""), Ok(0))
        && matches!(sink.put(b"abc"), Ok(3))
}

/// Fails unless files and outputs that fail are answered as they must be.
pub fn files_and_outputs(alloc: Global) -> Result<(), Fail> {
    expect(
        "files and outputs",
        answers_so(alloc) && collects(alloc) && drops(alloc),
    )
}
