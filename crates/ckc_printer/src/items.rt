// Printing of what stands at file level.

ghost use Rattle.std.specs.Prelude.{map};
ghost use Rattle.std.specs.List.{flat_map};
ghost use Rattle.std.specs.Option.{option_map};
ghost use Rattle.ckc_tree.specs.Items.{member, parameter, parameters, structure, global, result_form, function, body};
ghost use Rattle.ckc_printer.specs.Pieces.{with_commas};
ghost use Rattle.ckc_printer.specs.ItemPieces.{member_pieces, ended_member_pieces, structure_pieces, global_pieces, kind_pieces, result_pieces, parameters_pieces, body_pieces, head_pieces, function_pieces};
ghost use Rattle.ckc_printer.specs.Output.{Puts};
ghost use Rattle.ckc_printer.specs.Spaced.{spaced_text};

use crate::declarations::{declarators, optional_bounds};
use crate::output::Output;
use crate::signs::{put, put_if, put_name};
use crate::statements::{optional_mark, put_block};
use crate::types::{stars, type_form, type_with_stars};
use ckc_tree::item::{
    Block, Function, FunctionKind, Global, Member, Parameter, Parameters, ResultForm, Structure,
};

/// A member of a struct, with its semicolon.
#[tactic(auto, using(crate::proofs::Texts::spaced_append))]
fn put_member(out: &mut Output, written: &Member)
    ensures { Puts out.old out.new (spaced_text (ended_member_pieces (member written.now))) }
{
    type_with_stars(out, &written.type_name);
    put_name(out, &written.name);
    optional_bounds(out, &written.bounds);
    put(out, b";")
}

/// The members of a struct.
#[tactic(auto, using(crate::proofs::Texts::spaced_append))]
fn put_members(out: &mut Output, members: &[Member])
    ensures { Puts out.old out.new (spaced_text (flat_map ended_member_pieces (map member members.now))) }
{
    for written in members {
        put_member(out, written);
    }
}

/// The declaration of a struct.
#[tactic(auto, using(crate::proofs::Texts::spaced_append))]
pub fn put_structure(out: &mut Output, written: &Structure)
    ensures { Puts out.old out.new (spaced_text (structure_pieces (structure written.now))) }
{
    put_if(out, written.tainted, b"_Tainted");
    put(out, b"struct");
    put_name(out, &written.tag);
    put(out, b"{");
    put_members(out, written.members.as_slice());
    put(out, b"} ;")
}

/// The declaration of file-level variables.
#[tactic(auto, using(crate::proofs::Texts::spaced_append))]
pub fn put_global(out: &mut Output, written: &Global)
    ensures { Puts out.old out.new (spaced_text (global_pieces (global written.now))) }
{
    put_if(out, written.tainted, b"_Tainted");
    type_form(out, &written.base);
    declarators(out, written.declarators.as_slice());
    put(out, b";")
}

/// The word before a function that isn't a trusted one.
fn put_kind(out: &mut Output, kind: FunctionKind)
    ensures { Puts out.old out.new (spaced_text (kind_pieces kind)) }
{
    match kind {
        FunctionKind::Trusted => {}
        FunctionKind::Tainted => put(out, b"_Tainted"),
        FunctionKind::Callback => put(out, b"_Callback"),
    }
}

/// What a function returns, without stars.
fn put_result(out: &mut Output, form: &ResultForm)
    ensures { Puts out.old out.new (spaced_text (result_pieces (result_form form.now))) }
{
    match form {
        ResultForm::Void { span: _ } => put(out, b"void"),
        ResultForm::Value { base } => type_form(out, base),
    }
}

/// A parameter.
#[tactic(auto, using(crate::proofs::Texts::spaced_append))]
fn put_parameter(out: &mut Output, written: &Parameter)
    ensures { Puts out.old out.new (spaced_text (member_pieces (parameter written.now))) }
{
    type_with_stars(out, &written.type_name);
    put_name(out, &written.name);
    optional_bounds(out, &written.bounds);
}

/// Parameters with commas between.
#[tactic(auto, using(crate::proofs::Texts::spaced_append))]
fn put_listed(out: &mut Output, listed: &[Parameter])
    ensures { Puts out.old out.new (spaced_text (with_commas member_pieces (map parameter listed.now))) }
{
    for (place, written) in listed.iter().enumerate() {
        put_if(out, place > 0, b",");
        put_parameter(out, written);
    }
}

/// What stands between the parentheses of a function.
fn put_parameters(out: &mut Output, written: &Parameters)
    ensures { Puts out.old out.new (spaced_text (parameters_pieces (parameters written.now))) }
{
    match written {
        Parameters::Nothing => {}
        Parameters::Void => put(out, b"void"),
        Parameters::Listed { parameters } => put_listed(out, parameters.as_slice()),
    }
}

/// What ends a function: a semicolon, or a body.
#[tactic(auto, using(crate::proofs::Texts::spaced_append))]
fn put_body(out: &mut Output, written: &Option<Block>)
    ensures { Puts out.old out.new (spaced_text (body_pieces (option_map body written.now))) }
{
    match written {
        Some(block) => put_block(out, block.mark, block.statements.as_slice()),
        None => put(out, b";"),
    }
}

/// A function up to its name.
#[tactic(auto, using(crate::proofs::Texts::spaced_append))]
fn put_head(out: &mut Output, written: &Function)
    ensures { Puts out.old out.new (spaced_text (head_pieces (function written.now))) }
{
    put_kind(out, written.kind);
    optional_mark(out, written.mark);
    put_result(out, &written.result);
    stars(out, written.stars);
    put_name(out, &written.name);
}

/// A function.
#[tactic(auto, using(crate::proofs::Texts::spaced_append))]
pub fn put_function(out: &mut Output, written: &Function)
    ensures { Puts out.old out.new (spaced_text (function_pieces (function written.now))) }
{
    put_head(out, written);
    put(out, b"(");
    put_parameters(out, &written.parameters);
    put(out, b")");
    optional_bounds(out, &written.bounds);
    put_body(out, &written.body);
}
