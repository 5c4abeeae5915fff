// A declaration of a function.

ghost use Rattle.std.specs.Prelude.{◌≤◌, length};
ghost use Rattle.std.specs.List.{All};
ghost use Rattle.std.proofs.Props.{props};
ghost use Rattle.bounds_flow.specs.Conditions.{AreBoundsBelow};
ghost use Rattle.region_typing_rules.specs.Scopes.{bounds_in};
ghost use Rattle.region_typing.specs.BoundsBelow.{bounds_prop};

use bounds_exprs::term::Bounds;
use pointer_modes::ctype::CType;
use region_typing_scope::signature::Signature;

/// A parameter: its name, its type, and what is written for its bounds: nothing, that they are unknown, or bounds over the
/// parameters.
#[derive(Drop)]
pub struct TypedParameter {
    pub name: usize,
    pub ctype: CType,
    pub bounds: Option<Option<Bounds>>,
}

/// The parameters of a function, and what is written for the bounds of its result: nothing, that they are unknown, or bounds
/// over the parameters.
#[derive(Drop)]
pub struct Heading {
    pub parameters: Vec<TypedParameter>,
    pub bounds: Option<Option<Bounds>>,
}

/// A declaration of a function: its signature, and its parameters with their names.
#[derive(Drop)]
pub struct Prototype {
    pub signature: Signature,
    pub parameters: Vec<TypedParameter>,
    ghost few: { length parameters.items ≤ 16 },
    ghost below: { All (λ p. AreBoundsBelow (length parameters.items) (bounds_in p.bounds)) parameters.items } by { Prim.hlevel (props, bounds_prop) },
}
