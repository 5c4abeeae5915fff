// What holds of inserted checks.

ghost use Rattle.std.specs.Prelude.{◌≡◌, ◌*◌, ◌≤◌};
ghost use Rattle.ckc_core.specs.Core.{Core, Function};
ghost use Rattle.ckc_core.specs.Stacks as stacks;
ghost use Rattle.ckc_core.specs.Weights as weights;
ghost use Rattle.check_insertion.specs.Insert as insert;
ghost use Rattle.check_insertion.specs.Keeps.{KeepsMeaning};
ghost use Rattle.check_insertion.specs.Stacks.{body_stack};
ghost use Rattle.check_insertion.specs.Weights.{statements_weight};

/// A program with its checks inserted does what it means.
pub fn keeps_meaning()
    ensures { (program : Core) → KeepsMeaning program }
{}

/// A function with its checks needs as many words of the stack as before, and has at most twice as many nodes.
pub fn sizes()
    ensures stack { (f : Function) → body_stack (insert.function f) ≡ stacks.body_stack f }
    ensures nodes { (f : Function) → statements_weight (insert.statements f.body) ≤ 2 * weights.statements_weight f.body }
{}
