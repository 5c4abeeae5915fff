// The constants of all pairs of nodes, and where their paths begin.

ghost use Rattle.std.specs.Prelude.{ℕ, ◌≡◌, ◌<◌, ◌≤◌, ◌^◌, Some, cond, ◌==◌, ◌&&◌, ◌-ℤ◌, pos, true, replicate, IfOk, OnErr, OnOk};
ghost use Rattle.subsumption.specs.Graphs.{IsWithin};
ghost use Rattle.subsumption.specs.Distances.{is_near};
ghost use Rattle.subsumption.specs.Squares.{is_open, line, no_line};
ghost use Rattle.subsumption.specs.ClosedTables.{are_near, is_at_most, rows_of, shared, sum_of};
ghost use Rattle.subsumption.specs.MatrixPaths.{IsCanonical, IsCleared, IsMet, guarded_rows, pairs_after};
ghost use Rattle.subsumption.specs.declared.matrix.Change.TheVariants.{Add};
ghost use Rattle.subsumption.specs.Matrices.{AreChanged, AreColumns, AreColumnsOf, AreNear, Closes, HasRoom, IsPlaced, IsRowChanged, IsRowNear, IsTurnPlaced, Keeps, LeavesOut, Opens, Puts, ReadsNear, RowsNear, ShowsRow, Spares, TurnsNear, better_of, cell, changed, cleared, columns_of, constants_of, forget_of, joined_step, killed_step, longer_step, lowers, lowers_by, more_of, own, plus_of, turn_of, turned, with_column};

use crate::row::{Row, Step};
use ckc_text::fault::NoMemory;
use std::alloc::Global;
use std::marker::Model;

/// The largest of the least constants; the smallest is its negative: 2^100.
const MAX_CONSTANT: i128 = 1_267_650_600_228_229_401_496_703_205_376;

/// What becomes of all steps.
#[derive(Drop)]
pub enum Change {
    /// The first node is at most the second plus the constant.
    Add(usize, usize, i128),
    /// Nothing is known of the node any more.
    Kill(usize),
    /// So much was added to the node.
    Shift(usize, i128),
}

/// What becomes of the steps from one node.
#[derive(Drop)]
enum Turn {
    /// A path leads to the node with this constant, and to that node first.
    Reach(usize, i128, u32),
    /// Nothing is known of the node any more.
    Forget(usize),
    /// So much was added to the node.
    Gain(usize, i128),
}

impl Turn {
    /// Of these columns those in which the turn changes a step from the node.
    fn columns(&self, i: usize, columns: Columns) -> Columns
        requires { AreColumns 4097 columns }
        ensures { result ≡ columns_of self.now i columns }
    {
        match self {
            Turn::Gain(x, _) if *x != i && *x < columns.to => Columns {
                from: *x,
                to: *x + 1,
            },
            _ => columns,
        }
    }
}

/// The columns from one on, and up to another.
#[derive(Clone, Copy)]
struct Columns {
    from: usize,
    to: usize,
}

impl Columns {
    /// The same columns and one behind them.
    fn with(&self, j: usize) -> Columns
        requires { j < 4097 }
        ensures { result ≡ with_column self.now j }
    {
        let from = if self.from < j { self.from } else { j };
        Columns { from, to: j + 1 }
    }
}

/// For each two of `n` nodes a step, where there is one.
#[derive(Drop)]
pub struct Matrix {
    n: usize,
    rows: Vec<Row>,
}

impl Model for Matrix {
    ghost use Rattle.subsumption.specs.Squares.{Cells, IsSquare};

    ghost Value = { Cells };

    ghost view = { λ m. record { n = m.n; rows = m.rows.items } };

    ghost invariant = { λ m. IsSquare (record { n = m.n; rows = m.rows.items }) };
}

/// Rows of nodes of which nothing is known.
fn closed_rows(alloc: Global, n: usize) -> Result<Vec<Row>, NoMemory>
    ensures { IfOk result (λ v. v.items ≡ replicate n no_line) }
{
    let mut rows = Vec::with_capacity(alloc, n)?;
    for _i in 0..n {
        rows.push(Row::new(alloc))?;
    }
    Ok(rows)
}

/// The same rows once more.
fn copied_rows(alloc: Global, rows: &[Row]) -> Result<Vec<Row>, NoMemory>
    ensures { IfOk result (λ v. v.items ≡ rows.now) }
{
    let mut copied = Vec::with_capacity(alloc, rows.len())?;
    for row in rows {
        copied.push(row.copy(alloc)?)?;
    }
    Ok(copied)
}

impl Matrix {
    /// The steps of so many nodes, of which nothing is known.
    pub fn new(alloc: Global, n: usize) -> Result<Matrix, NoMemory>
        requires { n ≤ 4097 }
        ensures size { IfOk result (λ m. m.n ≡ n) }
        ensures cleared { IfOk result IsCleared }
    {
        let rows = closed_rows(alloc, n)?;
        Ok(Matrix { n, rows })
    }

    /// The same steps once more.
    pub fn copy(&self, alloc: Global) -> Result<Matrix, NoMemory>
        ensures { IfOk result (λ m. m ≡ self.now) }
    {
        let rows = copied_rows(alloc, self.rows.as_slice())?;
        Ok(Matrix { n: self.n, rows })
    }

    /// The number of nodes.
    pub fn size(&self) -> usize
        ensures value { result ≡ self.now.n }
        ensures few { result ≤ 4097 }
    {
        self.n
    }

    /// The step of two nodes.
    pub fn step(&self, i: usize, j: usize) -> Option<Step>
        requires i { i < self.now.n }
        requires j { j < self.now.n }
        ensures { result ≡ cell self.now i j }
    {
        self.rows[i].step(i, j)
    }

    /// Whether more is known from a node than of it alone.
    fn is_open(&self, i: usize) -> bool
        requires { i < self.now.n }
        ensures { result ≡ is_open (line self.now i) }
    {
        self.rows[i].is_open()
    }

    /// Makes room for steps from a node.
    fn make_room(&mut self, alloc: Global, i: usize) -> Result<(), NoMemory>
        requires { i < self.old.n }
        ensures ok { OnOk result (Opens self.old i self.new) }
        ensures err { OnErr result (self.new ≡ self.old) }
    {
        if !self.is_open(i) {
            self.rows[i] = Row::alone(alloc, self.n, i)?;
        }
        Ok(())
    }

    fn put(&mut self, i: usize, j: usize, step: Option<Step>)
        requires i { i < self.old.n }
        requires j { j < self.old.n }
        requires ready { is_open (line self.old i) ≡ true }
        ensures { Puts self.old i j step self.new }
    {
        self.rows[i].put(j, step);
    }

    /// Forgets all that is known from a node.
    fn close(&mut self, i: usize)
        requires i { i < self.old.n }
        ensures { Closes self.old i self.new }
    {
        self.rows[i].clear();
    }

    /// The step of two nodes once nothing is known of `x`.
    fn killed(&self, x: usize, i: usize, j: usize) -> Option<Step>
        requires i { i < self.now.n }
        requires j { j < self.now.n }
        ensures { result ≡ killed_step x (cell self.now i j) i j }
    {
        if i == j {
            return self.step(i, j);
        }
        if i == x {
            return None;
        }
        if j == x {
            return None;
        }
        self.step(i, j)
    }

    /// What becomes of the steps from `i` once `x` is at most `y` plus `c`: nothing, where the path to `y` is no better. Then
    /// no other path is.
    fn reach(&self, x: usize, y: usize, c: i128, i: usize) -> Option<Turn>
        requires few { self.now.n ≤ 4097 }
        requires i { i < self.now.n }
        requires x { x < self.now.n }
        requires y { y < self.now.n }
        requires c { IsWithin (2 ^ 66) c }
        requires near { is_near (constants_of self.now i x) ≡ true }
        ensures { result ≡ turn_of (Add x y c) self.now i }
    {
        match self.step(i, x) {
            None => None,
            Some(before) => {
                let plus = before.plus + c;
                if known(self.step(i, y), plus) {
                    None
                } else {
                    let first = if i == x { y as u32 } else { before.first };
                    Some(Turn::Reach(y, plus, first))
                }
            }
        }
    }

    /// What a change makes of the steps from a node, where it changes any.
    fn turn(&self, change: &Change, i: usize) -> Option<Turn>
        requires few { self.now.n ≤ 4097 }
        requires i { i < self.now.n }
        requires placed { IsPlaced change.now self.now.n }
        requires near { ReadsNear change.now self.now i }
        ensures { result ≡ turn_of change.now self.now i }
    {
        match change {
            Change::Add(x, y, c) => self.reach(*x, *y, *c, i),
            Change::Kill(x) => forget(self.is_open(i), self.step(i, *x), *x),
            Change::Shift(x, c) => {
                if self.is_open(i) {
                    Some(Turn::Gain(*x, *c))
                } else {
                    None
                }
            }
        }
    }

    /// The columns and the next one, where `x` comes nearer to that.
    fn widened(&self, columns: Columns, x: usize, y: usize, c: i128, j: usize) -> Columns
        requires few { self.now.n ≤ 4097 }
        requires x { x < self.now.n }
        requires y { y < self.now.n }
        requires j { j < self.now.n }
        requires c { IsWithin (2 ^ 66) c }
        requires near { is_near (constants_of self.now y j) ≡ true }
        ensures { result ≡ cond (lowers x y c self.now j) (with_column columns j) columns }
    {
        if is_nearer(self.step(y, j), c, self.step(x, j)) {
            columns.with(j)
        } else {
            columns
        }
    }

    /// The columns in which `x` comes nearer to a node once it is at most `y` plus `c`.
    fn lowered(&self, x: usize, y: usize, c: i128) -> Columns
        requires x { x < self.now.n }
        requires y { y < self.now.n }
        requires c { IsWithin (2 ^ 66) c }
        requires near { IsRowNear self.now y }
        ensures columns { AreColumns self.now.n result }
        ensures others { LeavesOut (lowers x y c self.now) self.now.n result }
    {
        let n = self.size();
        let mut columns = Columns { from: n, to: 0 };
        for j in 0..n {
            columns = self.widened(columns, x, y, c, j);
        }
        columns
    }

    /// The columns in which a change changes any step.
    fn columns(&self, change: &Change) -> Columns
        requires placed { IsPlaced change.now self.now.n }
        requires near { AreNear self.now }
        ensures columns { AreColumns self.now.n result }
        ensures others { AreColumnsOf change.now self.now result }
    {
        match change {
            Change::Add(x, y, c) => self.lowered(*x, *y, *c),
            _ => Columns {
                from: 0,
                to: self.n,
            },
        }
    }

    /// What a turn makes of the step of two nodes.
    fn turned(&self, turn: &Turn, i: usize, j: usize) -> Option<Step>
        requires few { self.now.n ≤ 4097 }
        requires i { i < self.now.n }
        requires j { j < self.now.n }
        requires placed { IsTurnPlaced turn.now self.now.n }
        requires near { TurnsNear turn.now self.now i j }
        ensures { result ≡ turned turn.now self.now i j }
    {
        match turn {
            Turn::Reach(y, plus, first) => {
                better(self.step(i, j), through(*plus, self.step(*y, j)), *first)
            }
            Turn::Forget(x) => own(j, self.killed(*x, i, j)),
            Turn::Gain(x, c) => more(self.step(i, j), gain(i, j, *x, *c)),
        }
    }

    /// Turns a step. Whether its constant isn't too large.
    fn turn_at(&mut self, turn: &Turn, i: usize, j: usize) -> bool
        requires few { self.old.n ≤ 4097 }
        requires i { i < self.old.n }
        requires j { j < self.old.n }
        requires ready { is_open (line self.old i) ≡ true }
        requires placed { IsTurnPlaced turn.now self.old.n }
        requires near { TurnsNear turn.now self.old i j }
        ensures puts { Puts self.old i j (turned turn.now self.old i j) self.new }
        ensures near { result ≡ is_near (plus_of (turned turn.now self.old i j)) }
    {
        let step = self.turned(turn, i, j);
        self.put(i, j, step);
        near(step)
    }

    /// Turns the steps from a node in some columns, where it leaves the others as they are. Whether no constant is too large.
    fn turn_row(&mut self, turn: &Turn, i: usize, columns: Columns) -> bool
        requires i { i < self.old.n }
        requires columns { AreColumns self.old.n columns }
        requires spares { Spares (turned turn.now self.old i) self.old i columns }
        requires row { IsRowNear self.old i }
        requires ready { is_open (line self.old i) ≡ true }
        requires placed { IsTurnPlaced turn.now self.old.n }
        requires near { (j : ℕ) → j < self.old.n → TurnsNear turn.now self.old i j }
        ensures turned { IsRowChanged (turned turn.now self.old i) self.old self.new i self.old.n }
        ensures near { ShowsRow result (turned turn.now self.old i) self.old.n }
    {
        let _ = self.size();
        let mut all_near = true;
        for j in columns.from..columns.to {
            all_near = both(self.turn_at(turn, i, j), all_near);
        }
        all_near
    }

    /// Changes all steps from a node. Whether no constant is too large.
    fn change_row(&mut self, change: &Change, i: usize, columns: Columns) -> bool
        requires few { self.old.n ≤ 4097 }
        requires i { i < self.old.n }
        requires placed { IsPlaced change.now self.old.n }
        requires near { RowsNear change.now self.old i }
        requires room { HasRoom change.now self.old i }
        requires keeps { Keeps change.now self.old i }
        requires columns { AreColumns self.old.n columns }
        requires spares { Spares (changed change.now self.old i) self.old i columns }
        ensures changed { IsRowChanged (changed change.now self.old i) self.old self.new i self.old.n }
        ensures near { ShowsRow result (changed change.now self.old i) self.old.n }
    {
        match self.turn(change, i) {
            None => true,
            Some(turn) => self.turn_row(&turn, i, turn.columns(i, columns)),
        }
    }

    /// Changes all steps. Whether no constant is too large.
    fn change(&mut self, change: &Change) -> bool
        requires placed { IsPlaced change.now self.old.n }
        requires canonical { IsCanonical self.old }
        requires met { IsMet change.now self.old }
        requires room { (i : ℕ) → HasRoom change.now self.old i }
        ensures changed { AreChanged (changed change.now self.old) self.old self.new }
        ensures near { result ≡ are_near (rows_of self.old.n (constants_of self.new)) }
    {
        let mut all_near = true;
        let n = self.size();
        let columns = self.columns(change);
        for i in 0..n {
            all_near = both(self.change_row(change, i, columns), all_near);
        }
        all_near
    }

    /// Forgets all that is known.
    fn clear(&mut self)
        ensures { AreChanged cleared self.old self.new }
    {
        let n = self.size();
        for i in 0..n {
            self.close(i);
        }
    }

    /// Changes all steps. Where a constant is too large then, nothing is known any more.
    pub fn apply(&mut self, change: &Change)
        requires placed { IsPlaced change.now self.old.n }
        requires canonical { IsCanonical self.old }
        requires met { IsMet change.now self.old }
        requires room { (i : ℕ) → HasRoom change.now self.old i }
        ensures size { self.new.n ≡ self.old.n }
        ensures canonical { IsCanonical self.new }
        ensures table { rows_of self.new.n (constants_of self.new) ≡ guarded_rows self.old.n (pairs_after change.now (constants_of self.old)) }
    {
        if !self.change(change) {
            self.clear();
        }
    }

    /// Adds that `x` is at most `y` plus `c`. Where a constant is too large then, nothing is known any more.
    pub fn add(&mut self, alloc: Global, x: usize, y: usize, c: i128) -> Result<(), NoMemory>
        requires placed { IsPlaced (Add x y c) self.old.n }
        requires canonical { IsCanonical self.old }
        requires met { IsMet (Add x y c) self.old }
        ensures size { OnOk result (self.new.n ≡ self.old.n) }
        ensures canonical { OnOk result (IsCanonical self.new) }
        ensures table { OnOk result (rows_of self.new.n (constants_of self.new) ≡ guarded_rows self.old.n (pairs_after (Add x y c) (constants_of self.old))) }
        ensures err { OnErr result (self.new ≡ self.old) }
    {
        self.make_room(alloc, x)?;
        self.apply(&Change::Add(x, y, c));
        Ok(())
    }

    /// Puts the longer of two steps at a place.
    fn join_at(&mut self, other: &Matrix, i: usize, j: usize)
        requires few { self.old.n ≤ 4097 }
        requires i { i < self.old.n }
        requires j { j < self.old.n }
        requires same { other.now.n ≡ self.old.n }
        requires ready { is_open (line self.old i) ≡ true }
        ensures { Puts self.old i j (joined_step self.old other.now i j) self.new }
    {
        let step = longer(j, self.step(i, j), other.step(i, j));
        self.put(i, j, step);
    }

    /// Puts the longer of two steps everywhere from a node.
    fn join_each(&mut self, other: &Matrix, i: usize)
        requires i { i < self.old.n }
        requires same { other.now.n ≡ self.old.n }
        requires ready { is_open (line self.old i) ≡ true }
        ensures { IsRowChanged (joined_step self.old other.now i) self.old self.new i self.old.n }
    {
        let n = self.size();
        for j in 0..n {
            self.join_at(other, i, j);
        }
    }

    /// Keeps what is known in both from a node.
    fn join_row(&mut self, other: &Matrix, i: usize)
        requires i { i < self.old.n }
        requires same { other.now.n ≡ self.old.n }
        requires own { constants_of self.old i i ≡ Some (pos 0) }
        requires other { constants_of other.now i i ≡ Some (pos 0) }
        ensures { IsRowChanged (joined_step self.old other.now i) self.old self.new i self.old.n }
    {
        if self.is_open(i) {
            if other.is_open(i) {
                self.join_each(other, i);
            } else {
                self.close(i);
            }
        }
    }

    /// Puts the longer of two steps everywhere.
    fn join_all(&mut self, other: &Matrix)
        requires same { other.now.n ≡ self.old.n }
        requires canonical { IsCanonical self.old }
        requires other { IsCanonical other.now }
        ensures { AreChanged (joined_step self.old other.now) self.old self.new }
    {
        let n = self.size();
        for i in 0..n {
            self.join_row(other, i);
        }
    }

    /// Keeps what is known in both.
    pub fn join(&mut self, other: &Matrix)
        requires same { other.now.n ≡ self.old.n }
        requires canonical { IsCanonical self.old }
        requires other { IsCanonical other.now }
        ensures size { self.new.n ≡ self.old.n }
        ensures canonical { IsCanonical self.new }
        ensures table { rows_of self.new.n (constants_of self.new) ≡ guarded_rows self.old.n (shared (constants_of self.old) (constants_of other.now)) }
    {
        self.join_all(other);
    }
}

/// What becomes of the steps from a node once nothing is known of `x`: nothing, where there is no way to `x`.
fn forget(is_open: bool, step: Option<Step>, x: usize) -> Option<Turn>
    ensures { result ≡ forget_of is_open step x }
{
    match step {
        None => None,
        Some(_) => { if is_open { Some(Turn::Forget(x)) } else { None } }
    }
}

/// Whether a step's constant is at most this one.
fn known(step: Option<Step>, plus: i128) -> bool
    ensures { result ≡ is_at_most (plus_of step) plus }
{
    match step {
        None => false,
        Some(step) => step.plus <= plus,
    }
}

fn both(a: bool, b: bool) -> bool
    ensures { result ≡ a && b }
{
    a && b
}

/// A step that leads to `j` at once.
fn own(j: usize, step: Option<Step>) -> Option<Step>
    requires { j < 4097 }
    ensures { result ≡ own j step }
{
    match step {
        None => None,
        Some(step) => Some(Step {
            plus: step.plus,
            first: j as u32,
        }),
    }
}

/// What two nodes gain where `c` is added to `x`.
fn gain(i: usize, j: usize, x: usize, c: i128) -> i128
    requires { IsWithin (2 ^ 64) c }
    ensures value { result ≡ cond (i == x) c (pos 0) -ℤ cond (j == x) c (pos 0) }
    ensures small { IsWithin (2 ^ 65) result }
{
    part(i, x, c) - part(j, x, c)
}

/// What a node gains where `c` is added to `x`.
fn part(i: usize, x: usize, c: i128) -> i128
    requires { IsWithin (2 ^ 64) c }
    ensures value { result ≡ cond (i == x) c (pos 0) }
    ensures small { IsWithin (2 ^ 64) result }
{
    if i == x { c } else { 0 }
}

/// A step with so much more.
fn more(step: Option<Step>, gain: i128) -> Option<Step>
    requires near { is_near (plus_of step) ≡ true }
    requires gain { IsWithin (2 ^ 65) gain }
    ensures { result ≡ more_of step gain }
{
    match step {
        None => None,
        Some(step) => Some(Step {
            plus: step.plus + gain,
            first: step.first,
        }),
    }
}

/// The constant of a path whose front has the constant `plus`.
fn through(plus: i128, behind: Option<Step>) -> Option<i128>
    requires plus { IsWithin (2 ^ 101) plus }
    requires behind { is_near (plus_of behind) ≡ true }
    ensures { result ≡ sum_of (Some plus) (plus_of behind) }
{
    match behind {
        None => None,
        Some(behind) => Some(plus + behind.plus),
    }
}

/// Whether a path through a fact with the constant `c` is better than a step.
fn is_nearer(behind: Option<Step>, c: i128, step: Option<Step>) -> bool
    requires behind { is_near (plus_of behind) ≡ true }
    requires c { IsWithin (2 ^ 66) c }
    ensures { result ≡ lowers_by behind c (plus_of step) }
{
    match behind {
        None => false,
        Some(behind) => !known(step, c + behind.plus),
    }
}

/// The better of a step and one with this constant.
fn better(step: Option<Step>, constant: Option<i128>, first: u32) -> Option<Step>
    ensures { result ≡ better_of step constant first }
{
    match constant {
        None => step,
        Some(plus) => match step {
            None => Some(Step { plus, first }),
            Some(step) => {
                if step.plus <= plus {
                    Some(step)
                } else {
                    Some(Step { plus, first })
                }
            }
        },
    }
}

/// The longer of two steps, as one that leads to `j` at once.
fn longer(j: usize, first: Option<Step>, second: Option<Step>) -> Option<Step>
    requires { j < 4097 }
    ensures { result ≡ longer_step j first second }
{
    match first {
        None => None,
        Some(first) => match second {
            None => None,
            Some(second) => {
                let plus = if first.plus <= second.plus {
                    second.plus
                } else {
                    first.plus
                };
                Some(Step {
                    plus,
                    first: j as u32,
                })
            }
        },
    }
}

/// Whether a step's constant isn't too large.
fn near(step: Option<Step>) -> bool
    ensures { result ≡ is_near (plus_of step) }
{
    match step {
        None => true,
        Some(step) => -MAX_CONSTANT <= step.plus && step.plus <= MAX_CONSTANT,
    }
}
