// What holds of heights, and what the definitions of placement, of weights and of texts say of small trees.

ghost use Rattle.std.specs.Prelude.{◌≡◌, []};
ghost use Rattle.ckc_tree.specs.Items.{Tree};
ghost use Rattle.ckc_tree.specs.Heights.{height};
ghost use Rattle.ckc_tree.specs.Weights.{tree_weight};
ghost use Rattle.ckc_tree.specs.Bare.{SameTree};
ghost use Rattle.ckc_tree.specs.Numbers.{Numbers, numbered};
ghost use Rattle.ckc_tree.specs.Placement.{IsPlaced};
ghost use Rattle.ckc_tree.specs.Examples.{span, difference};
ghost use Rattle.ckc_tree.specs.Texts.{statements_texts};
ghost use Rattle.ckc_tree.specs.TextExamples.{everywhere, in_order, in_bounds};

/// A tree whose spans stand in order, one with a child outside its parent, one with siblings out of order, and one that
/// is longer than its source.
pub fn examples_of_placement()
    ensures in_order { IsPlaced 32 (difference (span 24 25) (span 28 29)) }
    ensures outside { IsPlaced 32 (difference (span 24 25) (span 29 30)) → ⊥ }
    ensures swapped { IsPlaced 32 (difference (span 28 29) (span 24 25)) → ⊥ }
    ensures longer { IsPlaced 31 (difference (span 24 25) (span 28 29)) → ⊥ }
{}

/// A function has seven nodes: itself, its result, its body, a statement, and an expression of three.
pub fn example_of_weights()
    ensures { tree_weight (difference (span 24 25) (span 28 29)) ≡ 7 }
{}

/// Trees that are the same but for their spans are equally high.
pub fn same_heights()
    ensures { (t u : Tree) → SameTree t u → height t ≡ height u }
{}

/// A tree whose names have numbers is as high as it was, and has as many nodes.
pub fn numbered_trees()
    ensures heights { (of : Numbers) (t : Tree) → height (numbered of t) ≡ height t }
    ensures weights { (of : Numbers) (t : Tree) → tree_weight (numbered of t) ≡ tree_weight t }
{}

/// Statements with a string in each kind of place, which come in the order of the source; statements whose strings all stand in
/// bounds have none.
pub fn examples_of_texts()
    ensures everywhere { statements_texts everywhere ≡ in_order }
    ensures in_bounds { statements_texts in_bounds ≡ [] }
{}
