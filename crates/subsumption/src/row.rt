// The steps from one node.

ghost use Rattle.std.specs.Prelude.{◌≡◌, ◌≤◌, ◌<◌, ◌==◌, None, Some, true, length, IfOk};
ghost use Rattle.subsumption.specs.Squares.{is_open, no_line};
ghost use Rattle.subsumption.specs.Matrices.{alone, cleared, line_cell, line_with};

use ckc_text::fault::NoMemory;
use std::alloc::Global;
use std::marker::Model;

/// A constant for two nodes, and the node that its path leads to first.
#[derive(Clone, Copy)]
pub struct Step {
    pub plus: i128,
    pub first: u32,
}

/// A step to each node, where there is one, or nothing where no node is known but the row's own.
#[derive(Drop)]
pub struct Row {
    constants: Vec<i128>,
    firsts: Vec<Option<u32>>,
}

impl Model for Row {
    ghost use Rattle.subsumption.specs.Squares.{Line};

    ghost Value = { Line };

    ghost view = { λ r. record { constants = r.constants.items; firsts = r.firsts.items } };
}

impl Row {
    /// The row of a node of which nothing is known.
    pub fn new(alloc: Global) -> Row
        ensures { result ≡ no_line }
    {
        Row {
            constants: Vec::new(alloc),
            firsts: Vec::new(alloc),
        }
    }

    /// The row of the node `i` of which nothing is known, with room for steps to so many nodes.
    pub fn alone(alloc: Global, n: usize, i: usize) -> Result<Row, NoMemory>
        requires i { i < n }
        requires few { n ≤ 4097 }
        ensures { IfOk result (λ row. row ≡ alone n i) }
    {
        let constants = vec![in alloc; 0; n]?;
        let mut firsts = vec![in alloc; None; n]?;
        firsts[i] = Some(i as u32);
        Ok(Row { constants, firsts })
    }

    /// The same row once more.
    pub fn copy(&self, alloc: Global) -> Result<Row, NoMemory>
        ensures { IfOk result (λ row. row ≡ self.now) }
    {
        let constants = Vec::from_slice(alloc, self.constants.as_slice())?;
        let firsts = Vec::from_slice(alloc, self.firsts.as_slice())?;
        Ok(Row { constants, firsts })
    }

    /// Whether there is room for steps.
    pub fn is_open(&self) -> bool
        ensures { result ≡ is_open self.now }
    {
        !self.firsts.is_empty()
    }

    /// Leaves nothing known.
    pub fn clear(&mut self)
        ensures { self.new ≡ no_line }
    {
        self.constants.clear();
        self.firsts.clear();
    }

    /// The step to a node, in the row of `i`.
    pub fn step(&self, i: usize, j: usize) -> Option<Step>
        requires few { j < 4097 }
        requires below { is_open self.now ≡ true → j < length self.now.firsts }
        requires constants { length self.now.constants ≡ length self.now.firsts }
        ensures { result ≡ line_cell self.now i j }
    {
        if !self.is_open() {
            return cleared(i, j);
        }
        match self.firsts[j] {
            None => None,
            Some(first) => Some(Step {
                plus: self.constants[j],
                first,
            }),
        }
    }

    /// Puts a step to a node.
    pub fn put(&mut self, j: usize, step: Option<Step>)
        requires below { j < length self.old.firsts }
        requires constants { length self.old.constants ≡ length self.old.firsts }
        ensures { self.new ≡ line_with self.old j step }
    {
        match step {
            None => self.firsts[j] = None,
            Some(step) => {
                self.constants[j] = step.plus;
                self.firsts[j] = Some(step.first);
            }
        }
    }
}

/// The step of two nodes where nothing is known.
fn cleared(i: usize, j: usize) -> Option<Step>
    requires { j < 4097 }
    ensures { result ≡ cleared i j }
{
    if i == j {
        Some(Step {
            plus: 0,
            first: j as u32,
        })
    } else {
        None
    }
}
