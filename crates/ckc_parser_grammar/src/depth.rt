// How deep a tree may be, and the memory that its nodes take.

ghost use Rattle.std.specs.Prelude.{◌≡◌, ◌<◌, ◌≤◌, ◌+◌, ◌-◌, suc, IfOk};
ghost use Rattle.ckc_parser_grammar.specs.Depths.{MayStand};

use crate::stuck::Stuck;
use ckc_text::fault::NoMemory;
use ckc_text::on_heap;
use std::alloc::Global;
use std::marker::Model;

/// The greatest depth of a node.
pub const MAX_DEPTH: u32 = 200;

/// How many nodes stand around what is read, and the memory for the nodes in it. Contracts see the number alone.
#[derive(Clone, Copy)]
pub struct Depth {
    alloc: Global,
    nodes: u32,
}

impl Model for Depth {
    ghost use Rattle.std.specs.Prelude.{ℕ};

    ghost Value = { ℕ };

    ghost view = { λ d. d.nodes };

    ghost inverse = { λ n. record { alloc = record { memory = record { seal = tt } }; nodes = n } };
}

impl Depth {
    /// No node around.
    pub fn new(alloc: Global) -> Depth
        ensures { result ≡ 0 }
    {
        Depth { alloc, nodes: 0 }
    }

    /// The memory.
    pub fn alloc(self) -> Global {
        self.alloc
    }

    /// How many nodes stand around.
    pub fn nodes(self) -> u32
        ensures { result ≡ self }
    {
        self.nodes
    }

    /// A value on the heap.
    pub fn boxed<T: Drop>(self, value: T) -> Result<Box<T>, NoMemory>
        ensures { IfOk result (λ b. b.value ≡ value) }
    {
        on_heap::boxed(self.alloc, value)
    }

    /// One node more around.
    pub fn deeper(self) -> Depth
        requires { self < 200 }
        ensures { result ≡ suc self }
    {
        Depth {
            alloc: self.alloc,
            nodes: self.nodes + 1,
        }
    }

    /// One node fewer around, where one is.
    pub fn shallower(self) -> Depth
        ensures { result ≡ self - 1 }
    {
        Depth {
            alloc: self.alloc,
            nodes: self.nodes.saturating_sub(1),
        }
    }

    /// Refuses a node here that starts at this byte, where it would be too deep.
    pub fn check(self, start: u32) -> Result<(), Stuck>
        ensures { MayStand self start result }
    {
        if self.nodes >= MAX_DEPTH {
            return Err(Stuck::TooDeep { start });
        }
        Ok(())
    }

    /// Refuses a node here around a tree of this height that starts at this byte, where something would be too deep.
    pub fn check_around(self, height: u32, start: u32) -> Result<(), Stuck>
        requires { self + height ≤ 200 }
        ensures { MayStand (self + height) start result }
    {
        if self.nodes + height >= MAX_DEPTH {
            return Err(Stuck::TooDeep { start });
        }
        Ok(())
    }
}
