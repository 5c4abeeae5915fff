// Names by number: a list in which each name stands once, and is found by its bytes.

ghost use Rattle.std.specs.Prelude.{◌≡◌, ◌<◌, [], length, IfOk, OnOk, OnErr};
ghost use Rattle.ckc_names_rules.specs.Scopes.{is_among};
ghost use Rattle.ckc_names_rules.specs.Given.{number_in};
ghost use Rattle.ckc_names_rules.specs.Naming.{with_new};
ghost use Rattle.ckc_names.specs.NameLists.{name_at, Distinct};

use ckc_text::fault::NoMemory;
use indexmap::IndexSet;
use std::alloc::Global;
use std::marker::Model;

/// Names in the order in which they came, each once. The number of a name is its place.
#[derive(Drop)]
pub struct NameList {
    names: IndexSet<Vec<u8>>,
}

impl Model for NameList {
    ghost use Rattle.std.specs.Prelude.{ℕ, List};
    ghost use Rattle.std.specs.HashSet.{IsUnique};
    ghost use Rattle.std.specs.Str.{bytes_eq};

    ghost Value = { List (List ℕ) };

    ghost use Rattle.ckc_names.specs.NameLists.{names_in};

    ghost view = { λ a. names_in a.names.keys };

    ghost invariant = { λ a. IsUnique (λ v w. bytes_eq v.items w.items) a.names };
}

impl NameList {
    /// No names.
    pub(crate) fn new(alloc: Global) -> NameList
        ensures { result ≡ [] }
    {
        NameList {
            names: IndexSet::new(alloc),
        }
    }

    /// How many names there are.
    pub fn len(&self) -> usize
        ensures { result ≡ length self.now }
    {
        self.names.len()
    }

    /// The name with a number.
    pub fn get(&self, number: usize) -> &[u8]
        requires { number < length self.now }
        ensures { result.now ≡ name_at self.now number }
    {
        self.names[number].as_slice()
    }

    /// The number of a name; a name that isn't in the list has that behind the last.
    pub(crate) fn find(&self, name: &[u8]) -> usize
        ensures { result ≡ number_in self.now name.now }
    {
        match self.names.get_index_of(name) {
            Some(number) => number,
            None => self.names.len(),
        }
    }

    /// Whether a name is in the list.
    pub(crate) fn has(&self, name: &[u8]) -> bool
        ensures { result ≡ is_among self.now name.now }
    {
        self.names.contains(name)
    }

    /// The number of a name, which goes last where it is new.
    pub(crate) fn number(&mut self, alloc: Global, name: &[u8]) -> Result<usize, NoMemory>
        ensures names { OnOk result (self.new ≡ with_new (is_among self.old name.now) name.now self.old) }
        ensures within { IfOk result (λ number. number < length self.new) }
        ensures stands { IfOk result (λ number. name_at self.new number ≡ name.now) }
        ensures distinct { Distinct self.new }
        ensures err { OnErr result (self.new ≡ self.old) }
    {
        if let Some(number) = self.names.get_index_of(name) {
            return Ok(number);
        }
        let (number, _) = self.names.insert_full(Vec::from_slice(alloc, name)?)?;
        Ok(number)
    }
}
