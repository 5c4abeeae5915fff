// What the names that are known stand for.

ghost use Rattle.std.specs.Prelude.{◌≡◌, ◌≤◌, ◌==◌, true, position, length, map};
ghost use Rattle.std.specs.Option.{option_map};
ghost use Rattle.pointer_modes.specs.Types.{ctype as ctype_of};
ghost use Rattle.region_typing_rules.specs.Scopes.{Local, struct_named, members_named as names_of_members, local_named, object_named, function_named};
ghost use Rattle.region_typing_scope.specs.Views.{scope as scope_of, known_object, signature};
ghost use Rattle.region_typing_scope.specs.Tables.{side_before as side_before_of};
ghost use Rattle.region_typing_rules.specs.Operands.{is_array as is_array_of};
ghost use Rattle.region_typing_rules.specs.Calls.{side_number as side_number_of};

use crate::scope::{Scope, Variable};
use crate::signature::Signature;
use crate::visible::{innermost, is_array};
use pointer_modes::ctype::CType;

/// A local that a name stands for: its number, and its type.
#[derive(Clone, Copy)]
pub struct Known<'a> {
    pub number: u32,
    pub ctype: &'a CType,
}

/// A file-level variable that a name stands for, with its number.
#[derive(Clone, Copy)]
pub struct KnownObject<'a> {
    pub number: u32,
    pub variable: &'a Variable,
}

impl Scope {
    // The place of the first tag that is this one.
    fn tag_place(&self, tag: usize) -> Option<usize>
        ensures { result ≡ position (λ other. tag == other) self.now.tags.items }
    {
        self.tag_places.get(tag)
    }

    // The place of the first file-level variable that has this name.
    fn variable_place(&self, name: usize) -> Option<usize>
        ensures { result ≡ position (λ v. name == v.name) self.now.variables.items }
    {
        self.variable_places.get(name)
    }

    /// The place of the first function that has this name.
    pub fn function_place(&self, name: usize) -> Option<usize>
        ensures { result ≡ position (λ f. name == f.name) self.now.functions.items }
    {
        self.function_places.get(name)
    }

    /// The number of a struct.
    pub fn struct_number(&self, tag: usize) -> Option<u32>
        ensures { result ≡ struct_named (scope_of self.now) tag }
    {
        let number = self.tag_place(tag)?;
        Some(number as u32)
    }

    /// The names of the members of a struct.
    pub fn members_named(&self, number: u32) -> &[usize]
        ensures { result.now ≡ names_of_members (scope_of self.now) number }
    {
        match self.members.get(number as usize) {
            Some(names) => names.as_slice(),
            None => &[],
        }
    }

    /// The local of a name.
    pub fn local(&self, name: usize) -> Option<Known<'_>>
        ensures { option_map (λ k. Local k.number (ctype_of k.ctype.now)) result ≡ local_named (scope_of self.now).locals (scope_of self.now).visible name }
    {
        let number = innermost(self.visible.as_slice(), name)?;
        let ctype = self.locals.get(number as usize)?;
        Some(Known { number, ctype })
    }

    /// Whether a local is an array.
    pub fn is_array(&self, local: u32) -> bool
        ensures { result ≡ is_array_of (scope_of self.now).arrays local }
    {
        is_array(self.arrays.as_slice(), local)
    }

    /// The file-level variable of a name.
    pub fn object(&self, name: usize) -> Option<KnownObject<'_>>
        ensures { option_map known_object result ≡ object_named 0 (scope_of self.now).variables name }
    {
        let number = self.variable_place(name)?;
        let variable = &self.variables[number];
        Some(KnownObject {
            number: number as u32,
            variable,
        })
    }

    /// The function of a name.
    pub fn function(&self, name: usize) -> Option<&Signature>
        ensures { option_map (λ f. signature f.now) result ≡ function_named (scope_of self.now).functions name }
    {
        let place = self.function_place(name)?;
        Some(&self.functions[place])
    }

    // How many functions before a place are tainted.
    pub(crate) fn tainted_before(&self, place: usize) -> u32
        requires { place ≤ length self.now.functions.items }
        ensures count { result ≡ side_before_of true (map signature self.now.functions.items) place }
        ensures few { result ≤ place }
    {
        if place == 0 {
            0
        } else {
            self.tainted_counts[place - 1]
        }
    }

    // How many functions of a side stand before a place.
    fn side_before(&self, side: bool, place: usize) -> u32
        requires { place ≤ length self.now.functions.items }
        ensures { result ≡ side_before_of side (map signature self.now.functions.items) place }
    {
        let tainted = self.tainted_before(place);
        if side {
            tainted
        } else {
            place as u32 - tainted
        }
    }

    /// How many functions of a side stand before the one of a name.
    pub fn side_number(&self, side: bool, name: usize) -> u32
        ensures { result ≡ side_number_of side (scope_of self.now).functions name 0 }
    {
        match self.function_place(name) {
            Some(place) => self.side_before(side, place),
            None => self.side_before(side, self.functions.len()),
        }
    }
}
