// A place that moves on through a source.

ghost use Rattle.std.specs.Prelude.{◌≡◌};
ghost use Rattle.ckc_tree.specs.Cursors.{begun, reached, passed};

use ckc_text::place::Span;

/// A place in a source, and whether it never moved back.
#[derive(Drop)]
pub struct Cursor {
    pub at: u32,
    pub in_order: bool,
}

impl Cursor {
    /// The first byte of a source.
    pub fn start() -> Cursor
        ensures { result ≡ begun }
    {
        Cursor {
            at: 0,
            in_order: true,
        }
    }

    /// Moves to this byte.
    pub fn reach(&mut self, byte: u32)
        ensures { self.new ≡ reached self.old byte }
    {
        self.in_order = self.in_order && self.at <= byte;
        self.at = byte;
    }

    /// Moves to where a span begins.
    pub fn enter(&mut self, span: Span)
        ensures { self.new ≡ reached self.old span.from }
    {
        self.reach(span.from);
    }

    /// Moves to where a span ends.
    pub fn leave(&mut self, span: Span)
        ensures { self.new ≡ reached self.old span.to }
    {
        self.reach(span.to);
    }

    /// Moves to where a span begins, and then to where it ends.
    pub fn pass(&mut self, span: Span)
        ensures { self.new ≡ passed self.old span }
    {
        self.enter(span);
        self.leave(span);
    }
}
