// Printing of declarations.

ghost use Rattle.std.specs.Prelude.{◌≡◌, map};
ghost use Rattle.std.specs.Option.{option_map};
ghost use Rattle.ckc_tree.specs.Expressions.{bounds};
ghost use Rattle.ckc_tree.specs.Statements.{initializer, declarator, declaration};
ghost use Rattle.ckc_printer.specs.Pieces.{kind_text, with_commas};
ghost use Rattle.ckc_printer.specs.StatementPieces.{optional_bounds_pieces, array_kind, array_pieces, constant_pieces, initializer_pieces, declarator_pieces, declaration_pieces};
ghost use Rattle.ckc_printer.specs.Output.{Puts};
ghost use Rattle.ckc_printer.specs.Spaced.{spaced_text};

use crate::expressions::{put_bounds, put_expr};
use crate::output::Output;
use crate::quoted::put_character;
use crate::signs::{put, put_if, put_name, put_number};
use crate::types::{stars, type_form};
use ckc_tree::expr::BoundsText;
use ckc_tree::stmt::{
    ArrayForm, ArrayKind, Constant, Declaration, Declarator, Initializer, SignedConstant,
};

/// Bounds and the colon before them, if some are written.
pub fn optional_bounds(out: &mut Output, written: &Option<BoundsText>)
    ensures { Puts out.old out.new (spaced_text (optional_bounds_pieces (option_map bounds written.now))) }
{
    match written {
        Some(text) => {
            put(out, b":");
            put_bounds(out, text);
        }
        None => {}
    }
}

/// What makes a variable an array.
fn array_text(kind: ArrayKind) -> &'static [u8]
    ensures { result.now ≡ kind_text (array_kind kind) }
{
    match kind {
        ArrayKind::Checked => b"_Checked",
        ArrayKind::NullTerminated => b"_Nt_checked",
    }
}

/// The array form of a variable, if it has one.
#[tactic(auto, using(crate::proofs::Texts::spaced_append))]
fn array(out: &mut Output, form: &Option<ArrayForm>)
    ensures { Puts out.old out.new (spaced_text (array_pieces form.now)) }
{
    match form {
        Some(form) => {
            put(out, array_text(form.kind));
            put(out, b"[");
            put_number(out, form.length);
            put(out, b"]");
        }
        None => {}
    }
}

/// A constant with its minus, if it has one.
#[tactic(auto, using(crate::proofs::Texts::spaced_append))]
fn constant(out: &mut Output, signed: SignedConstant)
    ensures { Puts out.old out.new (spaced_text (constant_pieces signed)) }
{
    put_if(out, signed.negative, b"-");
    match signed.constant {
        Constant::Number(value) => put_number(out, value),
        Constant::Character(value) => put_character(out, value),
    }
}

/// Constants with commas between.
fn constants(out: &mut Output, listed: &[SignedConstant])
    ensures { Puts out.old out.new (spaced_text (with_commas constant_pieces listed.now)) }
{
    for (place, signed) in listed.iter().enumerate() {
        put_if(out, place > 0, b",");
        constant(out, *signed);
    }
}

/// What a variable is initialised with, if something is.
#[tactic(auto, using(crate::proofs::Texts::spaced_append))]
fn optional_initializer(out: &mut Output, written: &Option<Initializer>)
    ensures { Puts out.old out.new (spaced_text (initializer_pieces (option_map initializer written.now))) }
{
    match written {
        Some(Initializer::Value { value }) => {
            put(out, b"=");
            put_expr(out, value);
        }
        Some(
            Initializer::List {
                constants: listed,
                span: _,
            },
        ) => {
            put(out, b"= {");
            constants(out, listed.as_slice());
            put(out, b"}");
        }
        None => {}
    }
}

/// One variable of a declaration.
#[tactic(auto, using(crate::proofs::Texts::spaced_append))]
fn put_declarator(out: &mut Output, written: &Declarator)
    ensures { Puts out.old out.new (spaced_text (declarator_pieces (declarator written.now))) }
{
    stars(out, written.stars);
    put_name(out, &written.name);
    array(out, &written.array);
    optional_bounds(out, &written.bounds);
    optional_initializer(out, &written.initializer);
}

/// The variables of a declaration, with commas between.
pub fn declarators(out: &mut Output, listed: &[Declarator])
    ensures { Puts out.old out.new (spaced_text (with_commas declarator_pieces (map declarator listed.now))) }
{
    for (place, written) in listed.iter().enumerate() {
        put_if(out, place > 0, b",");
        put_declarator(out, written);
    }
}

/// A declaration without the semicolon behind it.
#[tactic(auto, using(crate::proofs::Texts::spaced_append))]
pub fn put_declaration(out: &mut Output, written: &Declaration)
    ensures { Puts out.old out.new (spaced_text (declaration_pieces (declaration written.now))) }
{
    type_form(out, &written.base);
    declarators(out, written.declarators.as_slice());
}
