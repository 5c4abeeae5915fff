// Locals that are visible.

ghost use Rattle.std.specs.Prelude.{◌≡◌, map, reverse, List};
ghost use Rattle.pointer_modes.specs.Types.{CType as ctype_tree};
ghost use Rattle.region_typing_rules.specs.Scopes.{local_named};
ghost use Rattle.region_typing_rules.specs.Knowing.{local_number};
ghost use Rattle.region_typing_rules.specs.Operands.{is_array as is_array_of};
ghost use Rattle.region_typing_scope.specs.Visibles.{visible as visible_of, local_at};

/// A local that is visible: its name, and its number in its function.
#[derive(Clone, Copy)]
pub struct Visible {
    pub name: usize,
    pub local: u32,
}

/// The innermost local of a name.
pub fn innermost(visible: &[Visible], name: usize) -> Option<u32>
    ensures number { result ≡ local_number (reverse (map visible_of visible.now)) name }
    ensures named { (types : List ctype_tree) → local_named types (reverse (map visible_of visible.now)) name ≡ local_at types result }
{
    let mut at = visible.len();
    while at > 0 {
        at -= 1;
        if name == visible[at].name {
            return Some(visible[at].local);
        }
    }
    None
}

/// Whether a local is among the arrays.
pub fn is_array(arrays: &[u32], local: u32) -> bool
    ensures { result ≡ is_array_of (reverse arrays.now) local }
{
    let mut at = arrays.len();
    while at > 0 {
        at -= 1;
        if local == arrays[at] {
            return true;
        }
    }
    false
}
