// Numbers that meet all that a matrix knows and break what it doesn't.

ghost use Rattle.std.specs.Prelude.{◌≡◌, ◌<◌, ◌≤◌, ◌+◌, ◌^◌, ◌+ℤ◌, ◌-ℤ◌, IfOk};
ghost use Rattle.subsumption.specs.Graphs.{IsWithin};
ghost use Rattle.subsumption.specs.ClosedTables.{smaller_of};
ghost use Rattle.subsumption.specs.Matrices.{AreNear};
ghost use Rattle.subsumption.specs.MatrixWays.{AreNumbers, IsSmall, cost_of, least_below, number_of, start_of};

use crate::matrix::Matrix;
use ckc_text::fault::NoMemory;
use std::alloc::Global;

/// Where the nodes start that aren't the one: 2^102.
const FAR: i128 = 5_070_602_400_912_917_605_986_812_821_504;

/// Where a node starts.
fn start(w: usize, y: usize) -> i128
    ensures value { result ≡ start_of y w }
    ensures small { IsWithin (2 ^ 102) result }
{
    if w == y { 0 } else { FAR }
}

fn sum(plus: i128, from: i128) -> i128
    requires plus { IsWithin (2 ^ 100) plus }
    requires from { IsWithin (2 ^ 102) from }
    ensures value { result ≡ plus +ℤ from }
    ensures small { IsWithin (2 ^ 103) result }
{
    plus + from
}

/// What `w` allows for `z`.
fn cost(matrix: &Matrix, y: usize, z: usize, w: usize) -> Option<i128>
    requires z { z < matrix.now.n }
    requires w { w < matrix.now.n }
    requires near { AreNear matrix.now }
    ensures value { result ≡ cost_of matrix.now y z w }
    ensures small { IsSmall result }
{
    let from = start(w, y);
    match matrix.step(z, w) {
        None => None,
        Some(step) => Some(sum(step.plus, from)),
    }
}

/// The smaller of two, or the one that is there.
fn smaller(first: Option<i128>, second: Option<i128>) -> Option<i128>
    requires first { IsSmall first }
    requires second { IsSmall second }
    ensures value { result ≡ smaller_of first second }
    ensures small { IsSmall result }
{
    match first {
        None => second,
        Some(d) => match second {
            None => Some(d),
            Some(e) => { if d <= e { Some(d) } else { Some(e) } }
        },
    }
}

/// The least of what all nodes allow for `z`, one after another.
fn searched(matrix: &Matrix, y: usize, z: usize) -> Option<i128>
    requires z { z < matrix.now.n }
    requires near { AreNear matrix.now }
    ensures value { result ≡ least_below (cost_of matrix.now y z) matrix.now.n }
    ensures small { IsSmall result }
{
    let mut least = None;
    for w in 0..matrix.size() {
        least = smaller(least, cost(matrix, y, z, w));
    }
    least
}

/// The least of what all nodes allow for `z`. Where a path leads to `y`, no other node allows less.
fn least(matrix: &Matrix, y: usize, z: usize) -> Option<i128>
    requires y { y < matrix.now.n }
    requires z { z < matrix.now.n }
    requires near { AreNear matrix.now }
    ensures value { result ≡ least_below (cost_of matrix.now y z) matrix.now.n }
    ensures small { IsSmall result }
{
    match matrix.step(z, y) {
        None => searched(matrix, y, z),
        Some(step) => Some(step.plus),
    }
}

/// The number of a node.
fn number(matrix: &Matrix, y: usize, z: usize) -> i128
    requires y { y < matrix.now.n }
    requires z { z < matrix.now.n }
    requires near { AreNear matrix.now }
    ensures value { result ≡ number_of matrix.now y z }
    ensures small { IsWithin (2 ^ 103) result }
{
    match least(matrix, y, z) {
        None => 0,
        Some(number) => number,
    }
}

/// The number of a variable, counted from that of zero.
fn counted(matrix: &Matrix, y: usize, i: usize, zero: i128) -> i128
    requires few { matrix.now.n ≤ 4097 }
    requires y { y < matrix.now.n }
    requires i { i + 1 < matrix.now.n }
    requires near { AreNear matrix.now }
    requires zero { IsWithin (2 ^ 103) zero }
    ensures { result ≡ number_of matrix.now y (i + 1) -ℤ zero }
{
    number(matrix, y, i + 1) - zero
}

/// The numbers of the variables.
pub fn numbers(alloc: Global, matrix: &Matrix, y: usize) -> Result<Vec<i128>, NoMemory>
    requires y { y < matrix.now.n }
    requires near { AreNear matrix.now }
    ensures { IfOk result (λ v. AreNumbers matrix.now y v.items) }
{
    let zero = number(matrix, y, 0);
    let mut values = Vec::new(alloc);
    for i in 0..matrix.size() - 1 {
        values.push(counted(matrix, y, i, zero))?;
    }
    Ok(values)
}
