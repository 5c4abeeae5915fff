// What a compiled program consists of.

ghost use Rattle.std.specs.Prelude.{◌≡◌, ◌≤◌};
ghost use Rattle.ckc_text.specs.Names.{IsName};
ghost use Rattle.code_words.specs.Formats.{HasSmallFrame, IsFunc, KeepsFormat, HasNames};

use crate::op::Op;
use ckc_text::listed::Listed;
use ckc_text::name::Name;
use marshalling::kind::WordKind;
use marshalling::signature::Signature;
use std::marker::Model;

/// The instructions of a function.
pub type Ops = Listed<Op>;

/// Static blocks, each with its bytes, in order of number.
pub type Blocks = Listed<Listed<u8>>;

/// Functions, in order of number.
pub type Funs = Listed<Func>;

/// A function: its number and name, the number of its arguments, the words of its frame, what it returns, and its
/// instructions. Each has a small frame with a slot for each argument, the elements that it counts have a size, and between two
/// ticks of its code control moves forward only, or returns.
#[derive(Drop)]
pub struct Func {
    number: u32,
    name: Name,
    args: u32,
    slots: u32,
    stack: u32,
    result: WordKind,
    ops: Ops,
}

impl Model for Func {
    ghost use Rattle.code_words.specs.Functions.{Func};

    ghost Value = { Func };

    ghost use Rattle.code_words.specs.Formats.{IsFunc};
    ghost use Rattle.code_words.specs.Parts.{func};

    ghost view = { func };

    ghost invariant = { λ f. IsFunc (func f) };
}

impl Func {
    /// The function of these parts.
    pub fn new(
        number: u32,
        name: Name,
        args: u32,
        slots: u32,
        stack: u32,
        returned: WordKind,
        ops: Ops,
    ) -> Func
        requires { IsFunc (record { number = number; name = name; args = args; slots = slots; stack = stack; result = returned; ops = ops }) }
        ensures { result ≡ record { number = number; name = name; args = args; slots = slots; stack = stack; result = returned; ops = ops } }
    {
        Func {
            number,
            name,
            args,
            slots,
            stack,
            result: returned,
            ops,
        }
    }

    /// The number of the function.
    pub fn number(&self) -> u32
        ensures { result ≡ self.now.number }
    {
        self.number
    }

    /// The name of the function.
    pub fn name(&self) -> &Name
        ensures name { result.now ≡ self.now.name }
        ensures word { IsName self.now.name }
    {
        &self.name
    }

    /// The number of its arguments.
    #[inline]
    pub fn args(&self) -> u32
        ensures args { result ≡ self.now.args }
        ensures frame { HasSmallFrame self.now }
    {
        self.args
    }

    /// The words of its frame that are slots.
    #[inline]
    pub fn slots(&self) -> u32
        ensures slots { result ≡ self.now.slots }
        ensures frame { HasSmallFrame self.now }
    {
        self.slots
    }

    /// The words of its frame that its stack has room for.
    #[inline]
    pub fn stack(&self) -> u32
        ensures stack { result ≡ self.now.stack }
        ensures frame { HasSmallFrame self.now }
    {
        self.stack
    }

    /// What it returns.
    #[inline]
    pub fn result(&self) -> WordKind
        ensures { result ≡ self.now.result }
    {
        self.result
    }

    /// Its instructions.
    #[inline]
    pub fn ops(&self) -> &[Op]
        ensures ops { result.now ≡ self.now.ops }
        ensures function { IsFunc self.now }
    {
        self.ops.as_slice()
    }
}

/// The static blocks and the functions of one side.
#[derive(Drop)]
pub struct SideCode {
    pub blocks: Blocks,
    pub funs: Funs,
}

/// Tainted functions, in order of number.
pub type Imports = Listed<Import>;

/// A tainted function: its number and name, the number of its arguments, which is 16 at most, and what it returns.
#[derive(Drop)]
pub struct Import {
    number: u32,
    name: Name,
    args: u32,
    result: WordKind,
}

impl Model for Import {
    ghost use Rattle.code_words.specs.Functions.{Import};

    ghost Value = { Import };

    ghost use Rattle.code_words.specs.Formats.{IsImport};
    ghost use Rattle.code_words.specs.Parts.{import};

    ghost view = { import };

    ghost invariant = { λ i. IsImport (import i) };
}

impl Import {
    /// The tainted function of these parts.
    pub fn new(number: u32, name: Name, args: u32, returned: WordKind) -> Import
        requires named { IsName name }
        requires few { args ≤ 16 }
        ensures { result ≡ record { number = number; name = name; args = args; result = returned } }
    {
        Import {
            number,
            name,
            args,
            result: returned,
        }
    }

    /// The number of the tainted function.
    pub fn number(&self) -> u32
        ensures { result ≡ self.now.number }
    {
        self.number
    }

    /// The name of the tainted function.
    pub fn name(&self) -> &Name
        ensures name { result.now ≡ self.now.name }
        ensures word { IsName self.now.name }
    {
        &self.name
    }

    /// The number of its arguments.
    #[inline]
    pub fn args(&self) -> u32
        ensures args { result ≡ self.now.args }
        ensures few { self.now.args ≤ 16 }
    {
        self.args
    }

    /// What it returns.
    #[inline]
    pub fn result(&self) -> WordKind
        ensures { result ≡ self.now.result }
    {
        self.result
    }
}

/// Callbacks, in order of number.
pub type Callbacks = Listed<Callback>;

/// A callback: its number, the trusted function that it is, its parameters, and what it returns.
#[derive(Drop)]
pub struct Callback {
    pub number: u32,
    pub fun: u32,
    pub signature: Signature,
    pub result: WordKind,
}

/// What ties an image together: the tainted functions, the callbacks, and the number of `main`, if it has one.
#[derive(Drop)]
pub struct Layout {
    pub imports: Imports,
    pub callbacks: Callbacks,
    pub main: Option<u32>,
}

/// A whole compiled program. It keeps the orders and limits of a listing: functions, tainted functions and callbacks are
/// numbered from 0, frames and counts of arguments are small, and between two ticks control moves forward only, or returns.
#[derive(Drop)]
pub struct Image {
    pub trusted: SideCode,
    pub sandbox: SideCode,
    pub layout: Layout,
}

impl Model for Image {
    ghost use Rattle.code_words.specs.Images.{Image};

    ghost Value = { Image };

    ghost use Rattle.code_words.specs.Parts.{image, IsImage};

    ghost view = { image };

    ghost invariant = { IsImage };
}

impl Image {
    /// The functions of the trusted side.
    #[inline]
    pub fn functions(&self) -> &[Func]
        ensures functions { result.now ≡ self.now.trusted.funs }
        ensures format { KeepsFormat self.now }
        ensures names { HasNames self.now }
    {
        self.trusted.funs.as_slice()
    }

    /// The static blocks of the trusted memory.
    pub fn trusted_blocks(&self) -> &[Listed<u8>]
        ensures { result.now ≡ self.now.trusted.blocks }
    {
        self.trusted.blocks.as_slice()
    }

    /// The static blocks of the sandbox's memory.
    pub fn sandbox_blocks(&self) -> &[Listed<u8>]
        ensures { result.now ≡ self.now.sandbox.blocks }
    {
        self.sandbox.blocks.as_slice()
    }

    /// The tainted functions.
    #[inline]
    pub fn imports(&self) -> &[Import]
        ensures { result.now ≡ self.now.layout.imports }
    {
        self.layout.imports.as_slice()
    }

    /// The callbacks.
    #[inline]
    pub fn callbacks(&self) -> &[Callback]
        ensures { result.now ≡ self.now.layout.callbacks }
    {
        self.layout.callbacks.as_slice()
    }

    /// The number of `main`, if there is one.
    pub fn main(&self) -> Option<u32>
        ensures { result ≡ self.now.layout.main }
    {
        self.layout.main
    }
}
