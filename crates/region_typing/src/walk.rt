// What is known behind an item.

ghost use Rattle.std.specs.Prelude.{◌≤◌};

use ckc_core::program::{Function, Object};
use region_typing_scope::scope::Scope;

/// A function with its body, and the number of its name.
#[derive(Drop)]
pub struct Defined {
    pub name: usize,
    pub function: Function,
}

/// What is known behind an item: what stands at file level, the cells of the file-level variables with the bytes that
/// their blocks take, and the functions that have bodies, in the order of these.
#[derive(Drop)]
pub struct Walk {
    pub scope: Scope,
    pub objects: Vec<Object>,
    pub taken: u32,
    pub bodies: Vec<Defined>,
    ghost few_bytes: { taken ≤ 32768 },
}
