// Where an expression stands.

ghost use Rattle.std.specs.Prelude.{◌≤◌, length};

use crate::scope::Scope;
use bounds_flow::flow::Flow;

/// Where an expression stands: what its names mean, and what is known there of the locals.
#[derive(Clone, Copy)]
pub struct Point<'a> {
    pub scope: &'a Scope,
    pub flow: &'a Flow,
    ghost few_locals: { length scope.now.locals.items ≤ flow.now.vars },
}
