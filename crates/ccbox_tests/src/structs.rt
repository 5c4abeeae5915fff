// A struct that is declared and given its members at once.

use ckc_text::fault::{NoMemory, Refused};
use ckc_text::name::Name;
use ckc_text::place::Span;
use pointer_modes::ctype::{CType, Member};
use pointer_modes::structs::Structs;
use std::alloc::Global;

const SPAN: Span = Span { from: 7, to: 8 };

// A number with this name.
fn member(name: Name) -> Member {
    Member {
        name,
        ctype: CType::Int,
        span: SPAN,
    }
}

fn two_members(alloc: Global) -> Result<Vec<Member>, NoMemory> {
    let mut members = Vec::new(alloc);
    members.push(member(Name::from_slice(alloc, b"a")?))?;
    members.push(member(Name::from_slice(alloc, b"b")?))?;
    Ok(members)
}

// Declares a tainted struct with two members.
fn declare(alloc: Global, structs: &mut Structs) -> Result<(), Refused> {
    let number = structs.declare(true, SPAN)?;
    structs.add(number, two_members(alloc)?)
}

/// Whether a struct is given its members.
pub fn takes_members(alloc: Global) -> bool {
    let mut structs = Structs::new(alloc);
    let declared = declare(alloc, &mut structs);
    declared.is_ok()
        && structs.is_tainted(0)
        && !structs.is_tainted(1)
        && structs.members(0).len() == 2
}
