// Images and their parts, as far as their lines have been read.

ghost use Rattle.std.specs.Prelude.{◌≡◌, nat_le};
ghost use Rattle.code_words.specs.Formats.{IsFunc, KeepsFormat, HasNames};
ghost use Rattle.code_words_listing.specs.Drafts as drafts;
ghost use Rattle.code_words_listing.specs.Steps as steps;

use ckc_text::listed::Listed;
use ckc_text::name::Name;
use code_words::image::{Callback, Func, Image, Import, Layout, SideCode};
use code_words::op::Op;
use marshalling::kind::WordKind;
use marshalling::signature::Param;
use std::alloc::Global;

/// The static blocks and the functions of a side that have been read.
#[derive(Drop)]
pub struct DraftSide {
    pub blocks: Vec<Listed<u8>>,
    pub funs: Vec<Func>,
}

/// What has been read of an image before its sandbox's side: the trusted side, the tainted functions, the callbacks, and the
/// number of `main`.
#[derive(Drop)]
pub struct Draft {
    pub code: DraftSide,
    pub imports: Vec<Import>,
    pub callbacks: Vec<Callback>,
    pub main: Option<u32>,
}

/// A callback of which some parameters have been read.
#[derive(Drop)]
pub struct BegunCallback {
    pub number: u32,
    pub fun: u32,
    pub params: Vec<Param>,
    pub result: WordKind,
}

/// A function of which some instructions have been read.
#[derive(Drop)]
pub struct BegunFunction {
    pub number: u32,
    pub name: Name,
    pub args: u32,
    pub slots: u32,
    pub stack: u32,
    pub result: WordKind,
    pub ops: Vec<Op>,
}

impl DraftSide {
    /// A side of which nothing has been read.
    pub fn new(alloc: Global) -> DraftSide
        ensures { drafts.side result ≡ steps.no_side }
    {
        DraftSide {
            blocks: Vec::new(alloc),
            funs: Vec::new(alloc),
        }
    }

    /// The code of the side.
    pub fn into_code(self) -> SideCode
        ensures { result ≡ drafts.side self }
    {
        SideCode {
            blocks: Listed::from_vec(self.blocks),
            funs: Listed::from_vec(self.funs),
        }
    }

    /// Whether a function with this number may come next, where the numbers rise.
    pub fn rises_to(&self, number: u32) -> bool
        ensures { result ≡ nat_le (steps.least_behind 0 self.now.funs.items) number }
    {
        match self.funs.last() {
            Some(f) => f.number() < number,
            None => true,
        }
    }
}

impl Draft {
    /// An image of which nothing has been read.
    pub fn new(alloc: Global) -> Draft
        ensures { drafts.image result steps.no_side ≡ steps.no_image }
    {
        Draft {
            code: DraftSide::new(alloc),
            imports: Vec::new(alloc),
            callbacks: Vec::new(alloc),
            main: None,
        }
    }

    /// The image with such a side of the sandbox.
    pub fn into_image(self, sandbox: DraftSide) -> Image
        requires format { KeepsFormat (drafts.image self (drafts.side sandbox)) }
        requires names { HasNames (drafts.image self (drafts.side sandbox)) }
        ensures { result ≡ drafts.image self (drafts.side sandbox) }
    {
        Image {
            trusted: self.code.into_code(),
            sandbox: sandbox.into_code(),
            layout: Layout {
                imports: Listed::from_vec(self.imports),
                callbacks: Listed::from_vec(self.callbacks),
                main: self.main,
            },
        }
    }

    /// Whether `main` may come next.
    pub fn is_before_main(&self) -> bool
        ensures { result ≡ steps.before_main (drafts.image self.now steps.no_side) }
    {
        self.main.is_none()
    }

    /// Whether functions may come next.
    pub fn is_before_functions(&self) -> bool
        ensures { result ≡ steps.before_functions (drafts.image self.now steps.no_side) }
    {
        self.code.funs.is_empty() && self.is_before_main()
    }

    /// Whether callbacks may come next.
    pub fn is_before_callbacks(&self) -> bool
        ensures { result ≡ steps.before_callbacks (drafts.image self.now steps.no_side) }
    {
        self.callbacks.is_empty() && self.is_before_functions()
    }

    /// Whether tainted functions may come next.
    pub fn is_before_imports(&self) -> bool
        ensures { result ≡ steps.before_imports (drafts.image self.now steps.no_side) }
    {
        self.imports.is_empty() && self.is_before_callbacks()
    }
}

impl BegunFunction {
    /// The function, which has all its instructions.
    pub fn end(self) -> Func
        requires { IsFunc (drafts.function self) }
        ensures { result ≡ drafts.function self }
    {
        Func::new(
            self.number,
            self.name,
            self.args,
            self.slots,
            self.stack,
            self.result,
            Listed::from_vec(self.ops),
        )
    }
}
