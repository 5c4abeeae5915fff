// The structs of a program, as they are declared and given their members.

ghost use Rattle.std.specs.Prelude.{◌≡◌, ◌<◌, ◌≤◌, [], IfOk, length, map};
ghost use Rattle.pointer_modes.specs.Types.{member, members_of, is_tainted};
ghost use Rattle.pointer_modes.specs.Declaring.{Declares, Adds, MayBe, first_twice, is_named, first_struct, with_members};

use crate::ctype::{CType, Member};
use ckc_text::code::Code;
use ckc_text::fault::Refused;
use ckc_text::name::Name;
use ckc_text::place::Span;
use std::alloc::Global;
use std::marker::Model;

/// How many structs a program may declare.
const MOST_STRUCTS: usize = 4096;

/// How many members a struct may have.
const MOST_MEMBERS: usize = 64;

/// The structs of a program, numbered from 0. A struct has no members before they are given.
#[derive(Drop)]
pub struct Structs {
    items: Vec<Declared>,
}

#[derive(Drop)]
struct Declared {
    tainted: bool,
    members: Vec<Member>,
}

impl Model for Structs {
    ghost use Rattle.std.specs.Prelude.{List};
    ghost use Rattle.pointer_modes.specs.Types.{Structure};
    ghost use Rattle.pointer_modes.specs.Codes.{coded_structs};

    ghost Value = { List Structure };

    ghost coded = { coded_structs };

    ghost use Rattle.pointer_modes.specs.Insides.{structs, AreSmall};

    ghost view = { structs };

    ghost invariant = { AreSmall };
}

impl Structs {
    /// No structs, which takes no memory.
    pub fn new(alloc: Global) -> Structs
        ensures { result ≡ [] }
    {
        Structs {
            items: Vec::new(alloc),
        }
    }

    /// Declares the next struct, and gives its number: E08 at `span` where 4,096 are declared.
    pub fn declare(&mut self, tainted: bool, span: Span) -> Result<u32, Refused>
        ensures { Declares self.old tainted span result self.new }
    {
        let number = self.items.len();
        if number >= MOST_STRUCTS {
            return Err(Refused::at(Code::E08, span));
        }
        let members = Vec::new(*self.items.allocator());
        self.items.push(Declared { tainted, members })?;
        Ok(number as u32)
    }

    /// Gives a struct its members, of which each has a name of its own and isn't a struct: else E08 at the 65th member,
    /// E11 at the first whose name stands before it, or E27 at the first that is a struct, in this order. Members that
    /// are refused are dropped. This takes no memory.
    pub fn add(&mut self, at: u32, members: Vec<Member>) -> Result<(), Refused>
        requires declared { at < length self.old }
        requires without_members { members_of self.old at ≡ [] }
        ensures { Adds self.old at (map member members.items) result self.new }
    {
        may_be_members(members.as_slice())?;
        self.give(at, members);
        Ok(())
    }

    /// Gives a struct members, at most 64, in place of those that it had. This takes no memory.
    #[tactic(auto, using(crate::proofs::Giving::given))]
    pub fn give(&mut self, at: u32, members: Vec<Member>)
        requires declared { at < length self.old }
        requires few { length members.items ≤ 64 }
        ensures { self.new ≡ with_members self.old at (map member members.items) }
    {
        let s = &mut self.items[at as usize];
        s.members = members;
    }

    /// Whether a struct is declared as tainted. No struct is where none has this number.
    pub fn is_tainted(&self, number: u32) -> bool
        ensures { result ≡ is_tainted self.now number }
    {
        match self.items.get(number as usize) {
            Some(s) => s.tainted,
            None => false,
        }
    }

    /// The members of a struct: none before they are given, and none where no struct has this number.
    pub fn members(&self, number: u32) -> &[Member]
        ensures members { map member result.now ≡ members_of self.now number }
        ensures few { length result.now ≤ 64 }
    {
        match self.items.get(number as usize) {
            Some(s) => s.members.as_slice(),
            None => &[],
        }
    }
}

/// Whether members may be those of a struct, or what is wrong with them.
fn may_be_members(members: &[Member]) -> Result<(), Refused>
    ensures fault { MayBe (map member members.now) result }
    ensures few { IfOk result (λ _. length members.now ≤ 64) }
{
    if let Some(member) = members.get(MOST_MEMBERS) {
        return Err(Refused::at(Code::E08, member.span));
    }
    if let Some(span) = first_twice(members) {
        return Err(Refused::at(Code::E11, span));
    }
    if let Some(span) = first_struct(members) {
        return Err(Refused::at(Code::E27, span));
    }
    Ok(())
}

/// The span of the first member whose name stands before it.
fn first_twice(members: &[Member]) -> Option<Span>
    ensures { result ≡ first_twice (map member members.now) }
{
    for (k, member) in members.iter().enumerate() {
        if is_named(&member.name, &members[..k]) {
            return Some(member.span);
        }
    }
    None
}

/// Whether a name is that of one of the members.
fn is_named(name: &Name, members: &[Member]) -> bool
    ensures { result ≡ is_named name.now (map member members.now) }
{
    for member in members {
        if name.as_bytes() == member.name.as_bytes() {
            return true;
        }
    }
    false
}

/// The span of the first member that is a struct.
fn first_struct(members: &[Member]) -> Option<Span>
    ensures { result ≡ first_struct (map member members.now) }
{
    for member in members {
        if let CType::Struct(_) = member.ctype {
            return Some(member.span);
        }
    }
    None
}
