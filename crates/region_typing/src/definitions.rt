// The functions that have bodies.

ghost use Rattle.std.specs.Prelude.{◌≡◌, ◌++◌, ◌∷◌, [], map, IfOk, OnOk};
ghost use Rattle.ckc_tree.specs.Items.{item as item_tree};
ghost use Rattle.region_typing_rules.specs.Items.{is_defined as defined_in};
ghost use Rattle.region_typing.specs.Definitions.{Knows};

use ckc_text::fault::NoMemory;
use ckc_tree::item::Item;
use region_typing_scope::context::Context;
use region_typing_scope::number_table::NumberTable;

/// The items of a source, with the names of the functions that have bodies among them.
#[derive(Drop)]
pub struct Listing<'a> {
    pub items: &'a [Item],
    pub defined: NumberTable,
    ghost known: { Knows defined (map item_tree items.now) },
}

// Notes the name of the function whose body an item is.
fn note_definition(item: &Item, defined: &mut NumberTable) -> Result<(), NoMemory>
    ensures { OnOk result ((items : _) → Knows defined.old items → Knows defined.new (items ++ item_tree item.now ∷ [])) }
{
    match item {
        Item::Function { function } => match &function.body {
            Some(_) => defined.note(function.name.number, 0),
            None => Ok(()),
        },
        Item::Region { .. } | Item::Structure { .. } | Item::Global { .. } => Ok(()),
    }
}

/// The names of the functions that have bodies.
pub fn defined_names(context: &Context, items: &[Item]) -> Result<NumberTable, NoMemory>
    ensures { IfOk result (λ table. Knows table (map item_tree items.now)) }
{
    let mut defined = NumberTable::new(context.alloc());
    for item in items {
        note_definition(item, &mut defined)?;
    }
    Ok(defined)
}

impl<'a> Listing<'a> {
    /// Whether a function of a name has a body.
    pub fn is_defined(&self, name: usize) -> bool
        ensures { result ≡ defined_in (map item_tree self.now.items.now) name }
    {
        self.defined.get(name).is_some()
    }
}
