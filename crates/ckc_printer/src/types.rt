// Printing of types.

ghost use Rattle.std.specs.Prelude.{◌≡◌};
ghost use Rattle.ckc_tree.specs.Types.{type_tree, type_name};
ghost use Rattle.ckc_printer.specs.Pieces.{kind_text};
ghost use Rattle.ckc_printer.specs.TypePieces.{word_kind, stars_pieces, type_pieces, type_name_pieces, angled_pieces};
ghost use Rattle.ckc_printer.specs.Output.{Puts};
ghost use Rattle.ckc_printer.specs.Spaced.{spaced_text};

use crate::output::Output;
use crate::signs::{put, put_name};
use ckc_tree::type_form::{PointerKind, PointerMode, PointerWord, TypeForm, TypeName};

/// The short spelling of a pointer word.
fn pointer_text(word: PointerWord) -> &'static [u8]
    ensures { result.now ≡ kind_text (word_kind word.mode word.kind) }
{
    match (word.mode, word.kind) {
        (PointerMode::Checked, PointerKind::One) => b"ptr",
        (PointerMode::Checked, PointerKind::Array) => b"array_ptr",
        (PointerMode::Checked, PointerKind::NullTerminated) => b"nt_array_ptr",
        (PointerMode::Tainted, PointerKind::One) => b"_TPtr",
        (PointerMode::Tainted, PointerKind::Array) => b"_TArray_ptr",
        (PointerMode::Tainted, PointerKind::NullTerminated) => b"_TNt_array_ptr",
    }
}

/// So many stars.
pub fn stars(out: &mut Output, count: usize)
    ensures { Puts out.old out.new (spaced_text (stars_pieces count)) }
{
    for _ in 0..count {
        put(out, b"*");
    }
}

/// A type without the stars behind it.
#[tactic(auto, using(crate::proofs::Texts::spaced_append))]
pub fn type_form(out: &mut Output, form: &TypeForm)
    ensures { Puts out.old out.new (spaced_text (type_pieces (type_tree form.now))) }
{
    match form {
        TypeForm::Int { span: _ } => put(out, b"int"),
        TypeForm::Char { span: _ } => put(out, b"char"),
        TypeForm::Struct { tag, span: _ } => {
            put(out, b"struct");
            put_name(out, tag);
        }
        TypeForm::Pointer {
            word,
            element,
            stars: count,
            span: _,
        } => {
            put(out, pointer_text(*word));
            put(out, b"<");
            type_form(out, element);
            stars(out, *count);
            put(out, b">");
        }
    }
}

/// A type and the stars behind it.
#[tactic(auto, using(crate::proofs::Texts::spaced_append))]
pub fn type_with_stars(out: &mut Output, written: &TypeName)
    ensures { Puts out.old out.new (spaced_text (type_name_pieces (type_name written.now))) }
{
    type_form(out, &written.base);
    stars(out, written.stars);
}

/// A type in angle brackets.
#[tactic(auto, using(crate::proofs::Texts::spaced_append))]
pub fn angled(out: &mut Output, written: &TypeName)
    ensures { Puts out.old out.new (spaced_text (angled_pieces (type_name written.now))) }
{
    put(out, b"<");
    type_with_stars(out, written);
    put(out, b">");
}
