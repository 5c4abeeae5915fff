// Where the cells of a type lie.

ghost use Rattle.std.specs.Prelude.{◌≡◌, ◌⊎◌, ◌+◌, ◌-◌, ◌*◌, ◌/◌, ◌<◌, ◌≤◌, length, map, slice_index};
ghost use Rattle.pointer_modes.specs.Types.{ctype, member};
ghost use Rattle.pointer_modes.specs.Layout.{IsWidth, scalar_size, member_sizes, end_from, largest_of, cells_of, size_of};

use crate::ctype::{CType, Member};
use crate::structs::Structs;

impl Structs {
    /// How many scalar cells a type has. A struct has one for each of its members.
    #[tactic(auto, using(crate::proofs::Cells::length_of_cells))]
    pub fn cells_of(&self, t: &CType) -> u32
        ensures cells { result ≡ length (cells_of self.now (ctype t.now)) }
        ensures few { result ≤ 64 }
    {
        match t {
            CType::Int | CType::Char | CType::Pointer(..) => 1,
            CType::Struct(number) => self.members(*number).len() as u32,
        }
    }

    /// How many bytes a type has. A struct that has no members yet has none.
    pub fn size_of(&self, t: &CType) -> u32
        ensures bytes { result ≡ size_of self.now (ctype t.now) }
        ensures few { result ≤ 256 }
    {
        match t {
            CType::Int | CType::Char | CType::Pointer(..) => scalar_size(t),
            CType::Struct(number) => {
                let members = self.members(*number);
                aligned_up(largest_of(members), end_of(members))
            }
        }
    }

    /// The byte place of a type's cell of a number, from 0.
    pub fn offset_of_cell(&self, t: &CType, i: u32) -> u32
        requires { i < length (cells_of self.now (ctype t.now)) }
        ensures { result ≡ slice_index (map (λ c. c.offset) (cells_of self.now (ctype t.now))) i }
    {
        match t {
            CType::Int | CType::Char | CType::Pointer(..) => 0,
            CType::Struct(number) => {
                let members = self.members(*number);
                let i = i as usize;
                aligned_up(scalar_size(&members[i].ctype), end_of(&members[..i]))
            }
        }
    }
}

/// The bytes of a scalar, which are also its alignment.
fn scalar_size(t: &CType) -> u32
    ensures bytes { result ≡ scalar_size (ctype t.now) }
    ensures width { IsWidth result }
{
    match t {
        CType::Char => 1,
        CType::Int | CType::Pointer(..) | CType::Struct(_) => 4,
    }
}

/// The place behind the cells of members.
fn end_of(members: &[Member]) -> u32
    requires { length members.now ≤ 64 }
    ensures end { result ≡ end_from 0 (member_sizes (map member members.now)) }
    ensures small { result ≤ 4 * length members.now }
{
    let mut place = 0;
    for member in members {
        place = end_behind(scalar_size(&member.ctype), place);
    }
    place
}

/// The alignment of members: that of the largest.
#[tactic(auto, using(crate::proofs::Cells::largest_positive))]
fn largest_of(members: &[Member]) -> u32
    ensures largest { result ≡ largest_of (member_sizes (map member members.now)) }
    ensures width { IsWidth result }
{
    let mut largest = 1;
    for member in members {
        largest = largest.max(scalar_size(&member.ctype));
    }
    largest
}

// The least multiple of an alignment from a place on.
fn aligned_up(alignment: u32, place: u32) -> u32
    requires width { (alignment ≡ 1) ⊎ (alignment ≡ 4) }
    requires small { place ≤ 256 }
    ensures { result ≡ (place + (alignment - 1)) / alignment * alignment }
{
    place.div_ceil(alignment) * alignment
}

// The place behind a cell of this size that begins at the first multiple of it from a place on.
fn end_behind(size: u32, place: u32) -> u32
    requires width { (size ≡ 1) ⊎ (size ≡ 4) }
    requires small { place ≤ 256 }
    ensures { result ≡ (place + (size - 1)) / size * size + size }
{
    aligned_up(size, place) + size
}
