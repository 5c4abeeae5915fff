// How many file-level variables a program has.

ghost use Rattle.std.specs.Prelude.{◌≡◌, ◌+◌, ◌≤◌, ◌∷◌, [], map};
ghost use Rattle.ckc_tree.specs.Items.{item as item_tree};
ghost use Rattle.region_typing_rules.specs.Items.{limited, variables_declared as variables_of};

use ckc_tree::item::Item;

/// How many of them are counted.
const MOST_VARIABLES: u32 = 4096;

// The sum of two such numbers, or the most.
fn sum(a: u32, b: usize) -> u32
    requires { a ≤ 4096 }
    ensures { result ≡ limited 4096 (a + b) }
{
    let left = MOST_VARIABLES - a;
    if (left as usize) < b {
        MOST_VARIABLES
    } else {
        a + b as u32
    }
}

// How many variables an item declares.
fn declared_by(written: &Item) -> usize
    ensures { result ≡ variables_of (item_tree written.now ∷ []) }
{
    match written {
        Item::Global { global } => global.declarators.len(),
        Item::Region { .. } | Item::Structure { .. } | Item::Function { .. } => 0,
    }
}

/// How many variables items declare, of which no more than 4,096 are counted.
pub fn variables_declared(written: &[Item]) -> u32
    ensures count { result ≡ limited 4096 (variables_of (map item_tree written.now)) }
    ensures few { result ≤ 4096 }
{
    let mut count = 0;
    for listed in written {
        count = sum(count, declared_by(listed));
    }
    count
}
