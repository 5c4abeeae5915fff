// The definitions of a source, found by their names.

ghost use Rattle.std.specs.Prelude.{◌≡◌, ◌++◌, ◌∷◌, [], None, OnOk};
ghost use Rattle.ckc_lexer.specs.Tokens.{definition_for};

use crate::piece::Definition;
use ckc_text::fault::NoMemory;
use indexmap::IndexMap;
use std::alloc::Global;
use std::marker::Model;

/// What names stand for, in the order of their definitions. Each name has one.
#[derive(Drop)]
pub struct Definitions {
    numbers: IndexMap<Vec<u8>, (bool, u32)>,
}

impl Model for Definitions {
    ghost use Rattle.std.specs.Prelude.{List};
    ghost use Rattle.ckc_lexer.specs.declared.piece.Definition.{Definition};
    ghost use Rattle.ckc_lexer.specs.Defined.{definitions_of};

    ghost Value = { List Definition };

    ghost view = { λ a. definitions_of a.numbers.entries };
}

impl Definitions {
    /// No definitions, which take no memory.
    pub fn new(alloc: Global) -> Definitions
        ensures { result ≡ [] }
    {
        Definitions {
            numbers: IndexMap::new(alloc),
        }
    }

    /// The sign and the number of what a name stands for.
    pub fn get(&self, name: &[u8]) -> Option<(bool, u32)>
        ensures { result ≡ definition_for name.now self.now }
    {
        self.numbers.get(name).copied()
    }

    /// One more definition, of a name that has none.
    pub fn add(&mut self, definition: Definition) -> Result<(), NoMemory>
        requires { definition_for definition.name self.old ≡ None }
        ensures { OnOk result (self.new ≡ self.old ++ definition ∷ []) }
    {
        let number = (definition.negative, definition.value);
        self.numbers.insert(definition.name.into_bytes(), number)?;
        Ok(())
    }
}
