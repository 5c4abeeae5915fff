// The line that a text spells.

ghost use Rattle.std.specs.Prelude.{◌≡◌, None, Some, option_map, IfOk};
ghost use Rattle.code_words_listing.specs.declared.read_lines.Head.TheVariants as heads;
ghost use Rattle.code_words_listing.specs.Lines.{Parameter, Instruction, Main};
ghost use Rattle.code_words_listing.specs.Left.{words_left};
ghost use Rattle.code_words_listing.specs.ReadLines as spells;
ghost use Rattle.code_words_listing.specs.Reading.{done};
ghost use Rattle.code_words_listing.specs.Reached.{is_instruction};
ghost use Rattle.code_words_listing.specs.Told.{told};

use crate::instructions::read_instruction;
use crate::line_words::Words;
use crate::words::{bytes, parameter_kind};
use ckc_text::fault::NoMemory;
use code_words::op::Op;
use marshalling::kind::WordKind;
use marshalling::signature::{Param, Region};
use std::alloc::Global;

/// The first words of lines that are no instructions.
#[derive(Clone, Copy)]
pub enum Head {
    Heading,
    Trusted,
    Block,
    Import,
    Callback,
    Parameter,
    Function,
    End,
    Main,
    Sandbox,
    Close,
}

static HEADS: [Head; 11] = [
    Head::Heading,
    Head::Trusted,
    Head::Block,
    Head::Import,
    Head::Callback,
    Head::Parameter,
    Head::Function,
    Head::End,
    Head::Main,
    Head::Sandbox,
    Head::Close,
];

fn head_word(head: Head) -> &'static str
    ensures { result.now ≡ spells.head_word head }
{
    match head {
        Head::Heading => "ccbox",
        Head::Trusted => "trusted",
        Head::Block => "block",
        Head::Import => "import",
        Head::Callback => "callback",
        Head::Parameter => "arg",
        Head::Function => "fun",
        Head::End => "end",
        Head::Main => "main",
        Head::Sandbox => "sandbox",
        Head::Close => "close",
    }
}

// The first word of a line, unless that is an instruction's.
fn read_head(word: &[u8]) -> Option<Head>
    ensures { result ≡ spells.head_of word.now }
{
    HEADS
        .iter()
        .copied()
        .find(|head| head_word(*head).as_bytes() == word)
}

/// A line of a listing, as it is read.
#[derive(Drop)]
pub enum ReadLine<'a> {
    Heading,
    TrustedSide,
    StaticBlock {
        number: u32,
        bytes: Vec<u8>,
    },
    TaintedFunction {
        number: u32,
        name: &'a [u8],
        args: u32,
        result: WordKind,
    },
    Entry {
        number: u32,
        fun: u32,
        args: u32,
        result: WordKind,
    },
    Parameter(Param),
    Begin {
        number: u32,
        name: &'a [u8],
        args: u32,
        slots: u32,
        stack: u32,
        result: WordKind,
    },
    Instruction(Op),
    End,
    Main(u32),
    SandboxSide,
    Close,
}

impl ReadLine<'_> {
    /// Whether the line is an instruction.
    pub fn is_instruction(&self) -> bool
        ensures { result ≡ is_instruction (told self.now) }
    {
        matches!(self, ReadLine::Instruction(_))
    }
}

// The first line of a listing.
fn read_heading<'a>(words: Words<'a>) -> Option<ReadLine<'a>>
    ensures { option_map told result ≡ spells.line_with heads.Heading (words_left words.entry) }
{
    let mut words = words;
    words.fixed("listing")?;
    words.fixed("1")?;
    words.end()?;
    Some(ReadLine::Heading)
}

// A line that is its first word alone.
fn alone<'a>(words: Words<'_>, line: ReadLine<'a>) -> Option<ReadLine<'a>>
    ensures { option_map told result ≡ done (told line.entry) (words_left words.entry) }
{
    words.end()?;
    Some(line)
}

// A static block, which has as many bytes as are told.
fn read_block<'a>(alloc: Global, words: Words<'a>) -> Result<Option<ReadLine<'a>>, NoMemory>
    ensures { IfOk result (λ line. option_map told line ≡ spells.block_of (words_left words.entry)) }
{
    let mut words = words;
    let Some(number) = words.number() else {
        return Ok(None);
    };
    let Some(count) = words.number() else {
        return Ok(None);
    };
    let Some(word) = words.word() else {
        return Ok(None);
    };
    let Some(bytes) = bytes(alloc, word)? else {
        return Ok(None);
    };
    if words.end().is_none() || count as usize != bytes.len() {
        return Ok(None);
    }
    Ok(Some(ReadLine::StaticBlock { number, bytes }))
}

// A tainted function.
fn read_import<'a>(words: Words<'a>) -> Option<ReadLine<'a>>
    ensures { option_map told result ≡ spells.import_of (words_left words.entry) }
{
    let mut words = words;
    let number = words.number()?;
    let name = words.name()?;
    words.fixed("args")?;
    let args = words.number()?;
    words.fixed("result")?;
    let result = words.kind()?;
    words.end()?;
    if args <= 16 {
        Some(ReadLine::TaintedFunction {
            number,
            name,
            args,
            result,
        })
    } else {
        None
    }
}

// The first line of a callback.
fn read_callback<'a>(words: Words<'a>) -> Option<ReadLine<'a>>
    ensures { option_map told result ≡ spells.callback_of (words_left words.entry) }
{
    let mut words = words;
    let number = words.number()?;
    words.fixed("fun")?;
    let fun = words.number()?;
    words.fixed("args")?;
    let args = words.number()?;
    words.fixed("result")?;
    let result = words.kind()?;
    words.end()?;
    if args <= 16 {
        Some(ReadLine::Entry {
            number,
            fun,
            args,
            result,
        })
    } else {
        None
    }
}

// The first line of a function.
fn read_function<'a>(words: Words<'a>) -> Option<ReadLine<'a>>
    ensures { option_map told result ≡ spells.function_of (words_left words.entry) }
{
    let mut words = words;
    let number = words.number()?;
    let name = words.name()?;
    words.fixed("args")?;
    let args = words.number()?;
    words.fixed("slots")?;
    let slots = words.number()?;
    words.fixed("stack")?;
    let stack = words.number()?;
    words.fixed("result")?;
    let result = words.kind()?;
    words.end()?;
    if u64::from(slots) + u64::from(stack) <= 4096 && args <= 16 && args <= slots {
        Some(ReadLine::Begin {
            number,
            name,
            args,
            slots,
            stack,
            result,
        })
    } else {
        None
    }
}

// A pointer with bounds.
fn read_region(words: Words<'_>) -> Option<Param>
    ensures { option_map Parameter result ≡ spells.region_of (words_left words.entry) }
{
    let mut words = words;
    let base = words.number()?;
    let lo_var = words.number_or_none()?;
    let lo_plus = words.signed_64()?;
    let hi_var = words.number_or_none()?;
    let hi_plus = words.signed_64()?;
    let size = words.size()?;
    let more = words.number()?;
    let place = words.place()?;
    words.end()?;
    let region = Region {
        base,
        lo_var,
        lo_plus,
        hi_var,
        hi_plus,
        size,
        more,
    };
    Some(Param {
        kind: WordKind::Pointer,
        place,
        region: Some(region),
    })
}

// A parameter.
fn read_parameter(words: Words<'_>) -> Option<Param>
    ensures { option_map Parameter result ≡ spells.param_of (words_left words.entry) }
{
    let mut words = words;
    let word = words.word()?;
    if word == b"region".as_slice() {
        return read_region(words);
    }
    let kind = parameter_kind(word)?;
    let place = words.place()?;
    words.end()?;
    Some(Param {
        kind,
        place,
        region: None,
    })
}

// The number of `main`.
fn read_main(words: Words<'_>) -> Option<u32>
    ensures { option_map Main result ≡ spells.line_with heads.Main (words_left words.entry) }
{
    let mut words = words;
    let number = words.number()?;
    words.end()?;
    Some(number)
}

// The line with such a first word.
fn read_line_with<'a>(
    alloc: Global,
    head: Head,
    words: Words<'a>,
) -> Result<Option<ReadLine<'a>>, NoMemory>
    ensures { IfOk result (λ line. option_map told line ≡ spells.line_with head (words_left words.entry)) }
{
    match head {
        Head::Heading => Ok(read_heading(words)),
        Head::Trusted => Ok(alone(words, ReadLine::TrustedSide)),
        Head::Block => read_block(alloc, words),
        Head::Import => Ok(read_import(words)),
        Head::Callback => Ok(read_callback(words)),
        Head::Parameter => Ok(parameter_line(read_parameter(words))),
        Head::Function => Ok(read_function(words)),
        Head::End => Ok(alone(words, ReadLine::End)),
        Head::Main => Ok(main_line(read_main(words))),
        Head::Sandbox => Ok(alone(words, ReadLine::SandboxSide)),
        Head::Close => Ok(alone(words, ReadLine::Close)),
    }
}

fn parameter_line<'a>(param: Option<Param>) -> Option<ReadLine<'a>>
    ensures { option_map told result ≡ option_map Parameter param }
{
    Some(ReadLine::Parameter(param?))
}

fn main_line<'a>(number: Option<u32>) -> Option<ReadLine<'a>>
    ensures { option_map told result ≡ option_map Main number }
{
    Some(ReadLine::Main(number?))
}

fn instruction_line<'a>(op: Option<Op>) -> Option<ReadLine<'a>>
    ensures { option_map told result ≡ option_map Instruction op }
{
    Some(ReadLine::Instruction(op?))
}

/// The line that a text spells, if it spells one.
pub fn read_line<'a>(alloc: Global, text: &'a [u8]) -> Result<Option<ReadLine<'a>>, NoMemory>
    ensures { IfOk result (λ line. option_map told line ≡ spells.line_of text.now) }
{
    let mut words = Words::new(text);
    let Some(word) = words.word() else {
        return Ok(None);
    };
    match read_head(word) {
        Some(head) => read_line_with(alloc, head, words),
        None => Ok(instruction_line(read_instruction(word, words))),
    }
}
