// A table over which the names of a program are gone in their order, up to the first fault.

ghost use Rattle.std.specs.Prelude.{◌≡◌, ◌∷◌, []};
ghost use Rattle.ckc_names_rules.specs.Mentions as m;
ghost use Rattle.ckc_names.specs.Progress.{beginning, Passes, Finishes};

use crate::mentions;
use crate::name_list::NameList;
use crate::table::Table;
use ckc_text::fault::Refused;
use ckc_tree::identifier::Identifier;
use std::alloc::Global;
use std::marker::Model;

/// What is known of the names so far, up to the first fault. What is mentioned after that is passed over, and `finish`
/// gives the fault.
#[derive(Drop)]
pub struct Resolver {
    table: Table,
    outcome: Result<(), Refused>,
}

impl Model for Resolver {
    ghost use Rattle.ckc_names.specs.Progress.{Progress, progress};

    ghost Value = { Progress };

    ghost view = { λ a. progress a.table a.outcome };
}

impl Resolver {
    /// Before the first name.
    pub fn new(alloc: Global) -> Resolver
        ensures { result ≡ beginning }
    {
        Resolver {
            table: Table::new(alloc),
            outcome: Ok(()),
        }
    }

    /// Opens a block.
    pub fn open(&mut self)
        ensures { Passes (m.Open ∷ []) self.old self.new }
    {
        if self.outcome.is_ok() {
            self.outcome = mentions::open(&mut self.table);
        }
    }

    /// Closes the innermost block.
    pub fn close(&mut self)
        ensures { Passes (m.Close ∷ []) self.old self.new }
    {
        if self.outcome.is_ok() {
            mentions::close(&mut self.table);
        }
    }

    /// Lets a name of a list be visible in all of the list.
    pub fn reveal(&mut self, name: &Identifier)
        ensures { Passes (m.Reveal name.now ∷ []) self.old self.new }
    {
        if self.outcome.is_ok() {
            self.outcome = mentions::reveal(&mut self.table, name);
        }
    }

    /// Declares a variable, a parameter or a member.
    pub fn declare(&mut self, name: &Identifier)
        ensures { Passes (m.Declare name.now ∷ []) self.old self.new }
    {
        if self.outcome.is_ok() {
            self.outcome = mentions::declare(&mut self.table, name);
        }
    }

    /// Declares a function, with its body or without.
    pub fn declare_function(&mut self, name: &Identifier, defined: bool)
        ensures { Passes (m.DeclareFunction name.now defined ∷ []) self.old self.new }
    {
        if self.outcome.is_ok() {
            self.outcome = mentions::declare_function(&mut self.table, name, defined);
        }
    }

    /// Declares a tag of a struct.
    pub fn declare_tag(&mut self, tag: &Identifier)
        ensures { Passes (m.DeclareTag tag.now ∷ []) self.old self.new }
    {
        if self.outcome.is_ok() {
            self.outcome = mentions::declare_tag(&mut self.table, tag);
        }
    }

    /// A name that stands as an expression.
    pub fn use_value(&mut self, name: &Identifier)
        ensures { Passes (m.Use name.now ∷ []) self.old self.new }
    {
        if self.outcome.is_ok() {
            self.outcome = mentions::use_value(&mut self.table, name);
        }
    }

    /// A name in front of arguments.
    pub fn call(&mut self, name: &Identifier)
        ensures { Passes (m.Call name.now ∷ []) self.old self.new }
    {
        if self.outcome.is_ok() {
            self.outcome = mentions::call(&mut self.table, name);
        }
    }

    /// A tag behind the word `struct`.
    pub fn use_tag(&mut self, tag: &Identifier)
        ensures { Passes (m.UseTag tag.now ∷ []) self.old self.new }
    {
        if self.outcome.is_ok() {
            self.outcome = mentions::use_tag(&mut self.table, tag);
        }
    }

    /// A member of an expression.
    pub fn select(&mut self, member: &Identifier)
        ensures { Passes (m.Select member.now ∷ []) self.old self.new }
    {
        if self.outcome.is_ok() {
            self.outcome = mentions::select(&mut self.table, member);
        }
    }

    /// The names that were seen.
    ///
    /// # Errors
    ///
    /// The first fault, or want of memory.
    pub fn finish(self) -> Result<NameList, Refused>
        ensures { Finishes self result }
    {
        let names = self.table.into_names();
        match self.outcome {
            Ok(()) => Ok(names),
            Err(refused) => Err(refused),
        }
    }
}
