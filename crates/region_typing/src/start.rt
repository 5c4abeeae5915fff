// What is known before the first item.

ghost use Rattle.std.specs.Prelude.{◌≡◌, map, IfOk};
ghost use Rattle.ckc_tree.specs.Items.{item as item_tree};
ghost use Rattle.region_typing_rules.specs.Items.{start, variables_declared as variables_of};
ghost use Rattle.region_typing.specs.Items.{walk as walk_of};

use crate::counts::variables_declared;
use crate::walk::Walk;
use ckc_names_rules::given::Given;
use ckc_text::fault::NoMemory;
use ckc_tree::item::Item;
use region_typing_scope::context::Context;
use region_typing_scope::scope::Scope;

impl Walk {
    /// Nothing known before these items, on the heap, so that the many parts are one word to who holds them.
    pub fn new(context: &Context, given: Given, items: &[Item]) -> Result<Box<Walk>, NoMemory>
        ensures { IfOk result (λ walk. walk_of walk.value ≡ start given (variables_of (map item_tree items.now))) }
    {
        let walk = Walk {
            scope: Scope::new(context, given, variables_declared(items))?,
            objects: Vec::new(context.alloc()),
            taken: 0,
            bodies: Vec::new(context.alloc()),
        };
        context.boxed(walk)
    }
}
