// What the walk over a source has at hand everywhere: the memory for what is built, and the source's places.

ghost use Rattle.std.specs.Prelude.{◌≡◌, ◌≤◌, length, IfOk};
ghost use Rattle.ckc_text.specs.Places.{place_at};
ghost use Rattle.region_typing_rules.specs.Operands.{site_at};

use ckc_core::program::Site;
use ckc_text::fault::NoMemory;
use ckc_text::line_index::LineIndex;
use ckc_text::on_heap;
use ckc_text::place::Span;
use std::alloc::Global;
use std::marker::Model;

/// The memory for what is built, and the places of a source, which failed checks name. Contracts see the source's bytes.
#[derive(Drop)]
pub struct Context<'a> {
    alloc: Global,
    src: &'a [u8],
    lines: LineIndex,
}

impl<'a> Model for Context<'a> {
    ghost use Rattle.std.specs.Prelude.{◌≡◌, ℕ, List, ◌≤◌, length};
    ghost use Rattle.ckc_text.specs.Places.{line_feeds_of};

    ghost Value = { List ℕ };

    ghost view = { λ s. s.src.now };

    ghost invariant = { λ s. (length s.src.now ≤ 1048576) × (s.lines ≡ line_feeds_of s.src.now) };
}

impl<'a> Context<'a> {
    /// The memory, and the places of a source of at most 1,048,576 bytes.
    pub fn new(alloc: Global, src: &'a [u8]) -> Result<Context<'a>, NoMemory>
        requires { length src.now ≤ 1048576 }
        ensures { IfOk result (λ context. context ≡ src.now) }
    {
        let lines = LineIndex::new(alloc, src)?;
        Ok(Context { alloc, src, lines })
    }

    /// The memory, for what grows.
    pub fn alloc(&self) -> Global {
        self.alloc
    }

    /// A value on the heap.
    pub fn boxed<T: Drop>(&self, value: T) -> Result<Box<T>, NoMemory>
        ensures { IfOk result (λ b. b.value ≡ value) }
    {
        on_heap::boxed(self.alloc, value)
    }

    /// The site at the start of a span.
    pub fn site(&self, span: Span) -> Site
        ensures { result ≡ site_at (place_at self.now) span }
    {
        let at = span.from.min(self.src.len() as u32);
        Site {
            place: self.lines.place(at),
        }
    }
}
