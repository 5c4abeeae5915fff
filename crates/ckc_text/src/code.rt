// The numbered answers: refusals of a source, failed checks, stops and refusals of an act line.

ghost use Rattle.std.specs.Prelude.{◌≡◌};
ghost use Rattle.ckc_text.specs.Texts.{number_of, name_of};

use std::fmt::{self, Debug, Formatter, Write};

/// One variant for each number that `ccbox` prints.
#[derive(Clone, Copy, PartialEq, Eq)]
pub enum Code {
    E01,
    E02,
    E03,
    E04,
    E05,
    E06,
    E07,
    E08,
    E09,
    E10,
    E11,
    E12,
    E13,
    E14,
    E15,
    E16,
    E17,
    E18,
    E19,
    E20,
    E21,
    E22,
    E23,
    E24,
    E25,
    E26,
    E27,
    E28,
    E29,
    E30,
    C1,
    C2,
    C3,
    C4,
    C5,
    C6,
    C7,
    C8,
    C9,
    S1,
    S2,
    S3,
    S4,
    S5,
    S6,
    A1,
    A2,
    A3,
    A4,
    A5,
}

/// The number of each variant, in their order.
static NUMBERS: [&str; 50] = [
    "E01", "E02", "E03", "E04", "E05", "E06", "E07", "E08", "E09", "E10", "E11", "E12", "E13",
    "E14", "E15", "E16", "E17", "E18", "E19", "E20", "E21", "E22", "E23", "E24", "E25", "E26",
    "E27", "E28", "E29", "E30", "C1", "C2", "C3", "C4", "C5", "C6", "C7", "C8", "C9", "S1", "S2",
    "S3", "S4", "S5", "S6", "A1", "A2", "A3", "A4", "A5",
];

/// The name of each variant, in their order.
static TEXTS: [&str; 50] = [
    "byte not allowed",
    "no token",
    "open comment or string",
    "number too large",
    "directive",
    "syntax",
    "nesting too deep",
    "limit",
    "not built yet",
    "unknown name",
    "name twice",
    "not an lvalue",
    "type",
    "argument count",
    "unchecked in a checked region",
    "bounds form",
    "bounds not proved",
    "no bounds",
    "arithmetic on ptr",
    "bounds lost",
    "member outside bundle",
    "address not allowed",
    "checked pointer in tainted memory",
    "checked pointer to tainted code",
    "not for tainted code",
    "order of unrelated pointers",
    "member type",
    "no main",
    "return bounds parameter assigned",
    "break outside a loop",
    "null",
    "bounds",
    "terminator",
    "sandbox range",
    "dynamic cast",
    "overflow",
    "zero divisor",
    "shift",
    "marshalled value",
    "budget",
    "depth",
    "sandbox ended",
    "sandbox access",
    "protocol",
    "wild step",
    "not JSON",
    "no act",
    "number",
    "line length",
    "size",
];

impl Code {
    /// The number, as `E17`.
    pub fn number(self) -> &'static str
        ensures { result.now ≡ number_of self }
    {
        NUMBERS[self as usize]
    }

    /// The name, as `bounds not proved`.
    pub fn text(self) -> &'static str
        ensures { result.now ≡ name_of self }
    {
        TEXTS[self as usize]
    }
}

impl Debug for Code {
    fn fmt<W: Write>(&self, f: &mut Formatter<W>) -> fmt::Result {
        f.write_str(self.number())
    }
}
