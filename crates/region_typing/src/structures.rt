// Declarations of structs.

ghost use Rattle.std.specs.Prelude.{◌≡◌, ◌≤◌, [], length, map, IfOk};
ghost use Rattle.ckc_tree.specs.Items.{member as member_tree, structure as structure_tree};
ghost use Rattle.pointer_modes.specs.Types.{ctype as ctype_of, member as member_of};
ghost use Rattle.region_typing_rules.specs.Verdicts.{Passes};
ghost use Rattle.region_typing_rules.specs.Items.{is_struct as struct_type, member_types as member_types_of, member_names as member_names_of, scalar_members, structure as structure_of};
ghost use Rattle.region_typing_scope.specs.Answering.{Answers};
ghost use Rattle.region_typing_scope.specs.Views.{scope as scope_of};
ghost use Rattle.region_typing.specs.Items.{walk as walk_of, one_member};

use crate::walk::Walk;
use ckc_text::code::Code;
use ckc_text::fault::NoMemory;
use ckc_tree::item;
use ckc_tree::item::Structure;
use pointer_modes::ctype::{CType, Member};
use region_typing_scope::context::Context;
use region_typing_scope::refusals::{CheckError, needs};
use region_typing_scope::scope::Scope;
use region_typing_scope::types::type_named;

/// How many members a struct may have.
const MOST_MEMBERS: usize = 64;

fn is_struct(t: &CType) -> bool
    ensures { result ≡ struct_type (ctype_of t.now) }
{
    matches!(t, CType::Struct(_))
}

// A member more.
fn push_member(
    context: &Context,
    scope: &Scope,
    written: &item::Member,
    members: &mut Vec<Member>,
) -> Result<(), CheckError>
    ensures types { Answers (λ _. map member_of members.new.items) (one_member (scope_of scope.now) (member_tree written.now)
        (map member_of members.old.items)) result }
    ensures few { IfOk result (λ _. length members.new.items ≤ 64) }
{
    needs(
        members.len() < MOST_MEMBERS,
        Code::E08,
        written.type_name.base.span(),
    )?;
    members.reserve(1)?;
    let name = written.name.name.copy(context.alloc())?;
    let ctype = type_named(context, scope, &written.type_name)?;
    members.push_reserved(Member {
        name,
        ctype,
        span: written.span,
    });
    Ok(())
}

// Members with their types.
fn member_types(
    context: &Context,
    scope: &Scope,
    written: &[item::Member],
) -> Result<Vec<Member>, CheckError>
    ensures types { Answers (λ v. map member_of v.items) (member_types_of (scope_of scope.now) (map member_tree written.now) []) result }
    ensures few { IfOk result (λ v. length v.items ≤ 64) }
{
    let mut members = Vec::new(context.alloc());
    for member in written {
        push_member(context, scope, member, &mut members)?;
    }
    Ok(members)
}

// No member is a struct.
fn are_scalar(members: &[Member]) -> Result<(), CheckError>
    ensures { Answers (λ x. x) (scalar_members (map member_of members.now) (Passes tt)) result }
{
    for member in members {
        needs(!is_struct(&member.ctype), Code::E27, member.span)?;
    }
    Ok(())
}

// The names of members.
fn member_names(context: &Context, members: &[item::Member]) -> Result<Vec<usize>, NoMemory>
    ensures { IfOk result (λ v. v.items ≡ member_names_of (map member_tree members.now)) }
{
    let mut names = Vec::new(context.alloc());
    for member in members {
        names.push(member.name.number)?;
    }
    Ok(names)
}

/// A struct.
pub fn structure(context: &Context, walk: &mut Walk, d: &Structure) -> Result<(), CheckError>
    ensures { Answers (λ _. walk_of walk.new) (structure_of (walk_of walk.old) (structure_tree d.now)) result }
{
    let checked = !walk.scope.is_off;
    let names = member_names(context, d.members.as_slice())?;
    let number = walk
        .scope
        .add_struct(d.tag.number, names, d.tainted, d.span)?;
    let members = member_types(context, &walk.scope, d.members.as_slice())?;
    are_scalar(members.as_slice())?;
    walk.scope.give_members(number, members);
    needs(checked, Code::E15, d.span)
}
