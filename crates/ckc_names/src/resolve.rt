// Naming: whether each name of a program is visible where it stands, and none stands twice; each gets a number.

ghost use Rattle.ckc_tree.specs.Items.{tree};
ghost use Rattle.ckc_tree.specs.Numbers.{numbered};
ghost use Rattle.ckc_names_rules.specs.Given.{number_in};
ghost use Rattle.ckc_names_rules.specs.Naming.{Names};
ghost use Rattle.ckc_names.specs.Named.{named_tree};

use crate::items::items;
use crate::main_function::with_main;
use crate::name_list::NameList;
use crate::named::Named;
use crate::numbered_items::program as number;
use crate::resolver::Resolver;
use ckc_text::fault::Refused;
use ckc_tree::item::Program;
use std::alloc::Global;

// The names of a program, where nothing is wrong with them.
fn names_of(alloc: Global, program: &Program) -> Result<NameList, Refused>
    ensures { Names (λ names. record { tree = numbered (number_in names) (tree program.now); names = names }) (tree program.now) result }
{
    let mut resolver = Resolver::new(alloc);
    resolver.open();
    items(&mut resolver, program.items.as_slice());
    match resolver.finish() {
        Ok(names) => with_main(program, names),
        Err(refused) => Err(refused),
    }
}

/// Names a program: each name gets its number among those of the program, in the order in which they come first.
///
/// # Errors
///
/// The first name that isn't visible where it stands (E10) or stands twice (E11); else, where the program has no `main`,
/// E28 at the start of the source.
pub fn resolve(alloc: Global, program: Program) -> Result<Named, Refused>
    ensures { Names named_tree (tree program) result }
{
    let mut program = program;
    match names_of(alloc, &program) {
        Ok(names) => {
            number(&names, &mut program);
            Ok(Named::new(program, names))
        }
        Err(refused) => Err(refused),
    }
}
