// Whether a program keeps the rules, and what it becomes.

ghost use Rattle.std.specs.Prelude.{◌≡◌, ◌≢◌, ◌≤◌, true, Err, length, map};
ghost use Rattle.ckc_text.specs.Places.{place_at};
ghost use Rattle.ckc_tree.specs.Items.{item as item_tree, tree};
ghost use Rattle.built_forms.specs.Built.{is_built};
ghost use Rattle.ckc_names.specs.Named.{named_tree};
ghost use Rattle.ckc_core.specs.Core.{core as core_view};
ghost use Rattle.region_typing_rules.specs.Verdicts.{passing};
ghost use Rattle.region_typing_rules.specs.Items.{items as items_of};
ghost use Rattle.region_typing_rules.specs.Cores.{checked as checked_of, small_core, CheckAnswers};
ghost use Rattle.region_typing_scope.specs.Answering.{Answers};
ghost use Rattle.region_typing_scope.specs.declared.refusals.CheckError.TheVariants.{Unnamed};
ghost use Rattle.region_typing_scope.specs.Views.{scope as scope_of};
ghost use Rattle.region_typing.specs.Items.{walk as walk_of, Outside};

use crate::cores::core_of;
use crate::items::items;
use crate::walk::Walk;
use ckc_core::program::Core;
use ckc_names::named::Named;
use ckc_text::fault::Refused;
use ckc_text::place::Span;
use ckc_tree::item::Item;
use region_typing_scope::context::Context;
use region_typing_scope::refusals::CheckError;
use std::alloc::Global;

// The core of items, all of which are still to be walked, in a program with this span.
fn core_of_items(
    context: &Context,
    walk: &mut Walk,
    written: &[Item],
    entry: usize,
    span: Span,
) -> Result<Core, CheckError>
    requires { Outside (scope_of walk.old.scope) }
    ensures { Answers core_view (passing (items_of (place_at context.now) (map item_tree written.now) (walk_of walk.old)
        (map item_tree written.now)) (small_core entry span)) result }
{
    items(context, walk, written)?;
    core_of(context, walk, entry, span)
}

// What is answered for what a walk came to in which each name stood for something.
fn answered(walked: Result<Core, CheckError>) -> Result<Core, Refused>
    requires { walked ≢ Err Unnamed }
    ensures { (at : _) (n : _) → Answers core_view (checked_of at n) walked → CheckAnswers core_view at n result }
{
    match walked {
        Ok(core) => Ok(core),
        Err(error) => match error {
            CheckError::Source(fault) => Err(Refused::Source(fault)),
            CheckError::NoMemory => Err(Refused::NoMemory),
            CheckError::Unnamed => unreachable!(),
        },
    }
}

/// The core of a program that has only forms that are built.
///
/// # Errors
///
/// The first rule that is broken, in the order of the walk over the program.
pub fn check(alloc: Global, src: &[u8], source: &Named) -> Result<Core, Refused>
    requires short { length src.now ≤ 1048576 }
    requires forms { is_built (tree source.now.program) ≡ true }
    ensures { CheckAnswers core_view (place_at src.now) (named_tree source.now) result }
{
    let context = Context::new(alloc, src)?;
    let given = source.given();
    let program = source.program();
    let written = program.items.as_slice();
    let mut walk = Walk::new(&context, given, written)?;
    answered(core_of_items(&context, &mut walk, written, given.main, program.span))
}
