// A program in which each name is visible where it stands, and has a number.

ghost use Rattle.std.specs.Prelude.{◌≡◌};
ghost use Rattle.ckc_tree.specs.Items.{tree};
ghost use Rattle.ckc_names_rules.specs.Given.{given_in};
ghost use Rattle.ckc_names_rules.specs.Naming.{IsNamed};
ghost use Rattle.ckc_names.specs.Named.{named_tree};

use crate::given_names::given_names;
use crate::name_list::NameList;
use ckc_names_rules::given::Given;
use ckc_tree::item::Program;
use std::marker::Model;

/// A program in which each name is visible where it stands and none stands twice, with its names. Each name has its number,
/// which is its place in the list of these.
#[derive(Drop)]
pub struct Named {
    program: Program,
    names: NameList,
    given: Given,
}

impl Model for Named {
    ghost use Rattle.std.specs.Coded.{codes};
    ghost use Rattle.ckc_tree.specs.contracts.item.Program as e;
    ghost use Rattle.ckc_names.specs.Named.{NamedProgram};

    ghost Value = { NamedProgram };

    ghost coded = { Prim.hlevel (codes, e.the_row.coded) };

    ghost view = { λ a. record { program = a.program; names = a.names } };

    ghost use Rattle.ckc_names.specs.Named.{IsNamedProgram};

    ghost invariant = { λ a. IsNamedProgram a.program a.names a.given };
}

impl Named {
    /// The program with its names, with which nothing is wrong.
    pub(crate) fn new(program: Program, names: NameList) -> Named
        requires { IsNamed (named_tree (record { program = program; names = names })) }
        ensures { result ≡ record { program = program; names = names } }
    {
        let given = given_names(&names);
        Named {
            program,
            names,
            given,
        }
    }

    /// The program, whose names have numbers.
    pub fn program(&self) -> &Program
        ensures value { result.now ≡ self.now.program }
        ensures named { IsNamed (record { tree = tree result.now; names = self.now.names }) }
    {
        &self.program
    }

    /// The names in the order in which they come first. The number of a name is its place.
    pub fn names(&self) -> &NameList
        ensures { result.now ≡ self.now.names }
    {
        &self.names
    }

    /// The numbers of the names that have a meaning in every program.
    pub fn given(&self) -> Given
        ensures { result ≡ given_in self.now.names }
    {
        self.given
    }
}
