// Printing of a whole source.

ghost use Rattle.std.specs.Prelude.{◌≡◌, ◌-◌, [], ◌∷◌, ◌++◌, length, take, IfOk};
ghost use Rattle.ckc_tree.specs.Items.{item, tree};
ghost use Rattle.ckc_printer.specs.Pieces.{scope_text};
ghost use Rattle.ckc_printer.specs.ItemPieces.{program_text, region_scope};
ghost use Rattle.ckc_printer.specs.Output.{Makes};
ghost use Rattle.ckc_printer.specs.Laid.{line_ended, item_behind, finished};

use crate::items::{put_function, put_global, put_structure};
use crate::output::Output;
use ckc_text::fault::NoMemory;
use ckc_tree::item::{Item, Program, Region};
use std::alloc::Global;

/// The text of a whole source: its tokens with a space between each two, and a line feed. A region item is a line of
/// its own. An `Err` means that memory ran out.
pub fn print(alloc: Global, program: &Program) -> Result<Vec<u8>, NoMemory>
    ensures { IfOk result (λ text. text.items ≡ program_text (tree program.now)) }
{
    let items = program.items.as_slice();
    let mut out = Output::new(alloc);
    for written in items {
        put_item(&mut out, written);
    }
    end_text(&mut out);
    out.finish()
}

/// Ends the text with a line feed.
#[tactic(auto, using(crate::proofs::Lines::finished_is))]
fn end_text(out: &mut Output)
    ensures { Makes out.old out.new (finished out.old.bytes.items) }
{
    replace_last(out);
}

/// Puts a line feed in place of the last byte.
fn replace_last(out: &mut Output)
    ensures { Makes out.old out.new (take (length out.old.bytes.items - 1) out.old.bytes.items ++ 10 ∷ []) }
{
    out.bytes.truncate(out.bytes.len().saturating_sub(1));
    out.push(b'\n');
}

/// What stands at file level, behind what was printed.
fn put_item(out: &mut Output, written: &Item)
    ensures { Makes out.old out.new (item_behind out.old.bytes.items (item written.now)) }
{
    match written {
        Item::Region { region, span: _ } => put_region(out, *region),
        Item::Structure { structure } => put_structure(out, structure),
        Item::Global { global } => put_global(out, global),
        Item::Function { function } => put_function(out, function),
    }
}

/// A line of its own.
fn put_region(out: &mut Output, region: Region)
    ensures { Makes out.old out.new (line_ended out.old.bytes.items ++ (scope_text (region_scope region) ++ 10 ∷ [])) }
{
    end_line(out);
    match region {
        Region::On => out.extend(b"#pragma CHECKED_SCOPE on\n"),
        Region::Off => out.extend(b"#pragma CHECKED_SCOPE off\n"),
    }
}

/// Puts a line feed in place of the last byte, if there is one.
#[tactic(auto, using(crate::proofs::Lines::finished_is))]
fn end_line(out: &mut Output)
    ensures { Makes out.old out.new (line_ended out.old.bytes.items) }
{
    if !out.bytes.is_empty() {
        replace_last(out);
    }
}
