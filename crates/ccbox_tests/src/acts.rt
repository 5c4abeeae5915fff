// Act lines both ways, and the lines of what is seen and released.

use crate::actors::starts_so;
use crate::questions::Question;
use crate::rows::{Table, expect, expect_tables};
use act_recorder::lines::{release_line, seen_line};
use act_words::act::{Act, Release, Seen};
use act_words::reading::{ActFault, read_act};
use act_words::writing::write_act;
use ckc_text::fault::NoMemory;
use std::alloc::Global;
use std::test::Fail;

// Whether a line was made, with a line feed behind it.
fn is_line(made: &Result<Vec<u8>, NoMemory>, expected: &str) -> bool {
    match made {
        Ok(line) => is_line_of(line.as_slice(), expected.as_bytes()),
        Err(NoMemory) => false,
    }
}

// Whether a line has this text, and a line feed behind it.
fn is_line_of(line: &[u8], text: &[u8]) -> bool {
    match line.split_last() {
        Some((b'\n', front)) => front == text,
        _ => false,
    }
}

/// Whether an act is written as this line.
pub fn is_written(alloc: Global, act: &Act, expected: &str) -> bool {
    is_line(&write_act(alloc, act), expected)
}

/// Whether the act of a line is written as this line, or the line is refused with this number.
pub fn is_act(alloc: Global, line: &[u8], expected: &str) -> bool {
    match read_act(alloc, line) {
        Ok(act) => is_written(alloc, &act, expected),
        Err(ActFault::Bad(code)) => code.number() == expected,
        Err(ActFault::NoMemory) => false,
    }
}

const ACTS: &str = r#"=@{"act":"go"}
=@{"act":"read","at":0,"len":1}
=@{"act":"read","at":4294967295,"len":64}
=@{"act":"write","at":16,"hex":"0a1f"}
=@{"act":"call","args":[],"fun":1}
=@{"act":"call","args":[1,4294967295],"fun":0}
=@{"act":"return","value":0}
=@{"act":"stop"}
{"act":"read","at":16,"len":4}@{"at":16,"len":1.5,"act":"go","act":"read","len":4}
{"act":"write","at":16,"hex":"0a1f"}@{"hex":"0A1f","at":16,"act":"write"}"#;

const REFUSED: &str = r#"A1@
A1@{"act":"go"
A1@{"act":"return","value":01}
A1@{"act":"return","value":1e400}
A2@{"act":"jump"}
A2@{"act":7}
A2@[]
A2@{"act":"go","value":7}
A2@{"act":"read","at":16}
A2@{"act":"read","at":16,"size":4}
A2@{"act":"return","value":"7"}
A2@{"act":"return","value":-1,"x":0}
A2@{"act":"call","args":["x",-1],"fun":0}
A2@{"act":"call","args":1,"fun":0}
A2@{"act":"write","at":-1,"hex":"012"}
A2@{"act":"write","at":16,"hex":"0g"}
A3@{"act":"return","value":-1}
A3@{"act":"return","value":-0}
A3@{"act":"return","value":1.0}
A3@{"act":"return","value":1e0}
A3@{"act":"return","value":4294967296}
A3@{"act":"return","value":18446744073709551616}
A3@{"act":"call","args":[1,-1],"fun":0}
A3@{"act":"read","at":-1,"len":0}
A3@{"act":"write","at":1.5,"hex":""}
A5@{"act":"read","at":0,"len":0}
A5@{"act":"read","at":0,"len":65}
A5@{"act":"write","at":0,"hex":""}"#;

const LIMITS: &str = r#"{"act":"go"}@{"act":"go"}`4084× `
A4@{"act":"go"}`4085× `
=@{"act":"write","at":0,"hex":"`64×0f`"}
A5@{"act":"write","at":0,"hex":"`65×0f`"}
=@{"act":"call","args":[0`15×,4294967295`],"fun":9}
A5@{"act":"call","args":[0`16×,4294967295`],"fun":9}
A2@`127×[``127×]`
A1@[`127×[``128×]`"#;

const SPACED: &[u8] = b" { \"len\" : 4, \"act\" : \"read\", \"at\" : 16 }\t\r";

const NO_TEXT: &[u8] = b"{\"act\":\"g\xffo\"}";

// Whether lines that are no rows are taken so.
fn takes_spaces(alloc: Global) -> bool {
    is_act(alloc, SPACED, r#"{"act":"read","at":16,"len":4}"#) && is_act(alloc, NO_TEXT, "A1")
}

// Whether what is seen and released is written so.
fn writes_lines(alloc: Global) -> bool {
    let seen = seen_line(alloc, &Seen::Replied { value: 7 });
    let released = release_line(alloc, &Release::Looked);
    is_line(&seen, r#"{"seen":"replied","value":7}"#)
        && is_line(&released, r#"{"release":"looked"}"#)
}

// What files give, line by line, and why they give no more.
const FILES: &str = r#"end@
{"act":"go"}¶{"act":"stop"}¶end@{"act":"go"}¶¶{"act":"stop"}
{"act":"go"}¶3 A1@{"act":"go"}¶ ¶x¶{"act":"go"}¶
2 A5@¶{"act":"read","at":0,"len":65}
end@`4096× `
1 A4@`4097× `
end@`1048576×¶`
1048577 A4@`1048577×¶`
1048577 A4@`1048600×¶`"#;

const SPACED_FILES: &str =
    "{\"act\":\"return\",\"value\":7}¶end@ \t\r¶{\"value\":7,\"act\":\"return\"}\r¶¶
1 A1@\u{b}¶";

static TABLES: [Table; 5] = [
    Table(Question::Act, ACTS),
    Table(Question::Act, REFUSED),
    Table(Question::Act, LIMITS),
    Table(Question::ActFile, FILES),
    Table(Question::ActFile, SPACED_FILES),
];

/// Fails unless lines of acts are read, and refused, as they must be.
pub fn acts(alloc: Global) -> Result<(), Fail> {
    expect(
        "acts",
        takes_spaces(alloc) && writes_lines(alloc) && starts_so(alloc),
    )?;
    expect_tables(alloc, &TABLES)
}
