// What holds of forms.

ghost use Rattle.std.specs.Prelude.{◌≡◌};
ghost use Rattle.ckc_tree.specs.Items.{Tree};
ghost use Rattle.ckc_tree.specs.Numbers.{Numbers, numbered};
ghost use Rattle.built_forms.specs.Built.{is_built};

/// A tree whose names have numbers has only forms that are built exactly where it does without.
pub fn numbered_trees()
    ensures { (of : Numbers) (t : Tree) → is_built (numbered of t) ≡ is_built t }
{}
