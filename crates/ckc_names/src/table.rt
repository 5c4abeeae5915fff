// What is visible: the open blocks with their names, and the tags.

ghost use Rattle.std.specs.Prelude.{◌≡◌, ◌+◌, ◌<◌, ◌≤◌, ◌∷◌, [], false, length, IfOk, OnOk};
ghost use Rattle.std.specs.Option.{option_map};
ghost use Rattle.ckc_names_rules.specs.Scopes.{is_among, innermost as innermost_of, visible as visible_in, with_entry, outside};
ghost use Rattle.ckc_names_rules.specs.Naming.{with_new};
ghost use Rattle.ckc_names.specs.NameLists.{name_at};
ghost use Rattle.ckc_names.specs.State.{nothing_known, with_blocks, with_tags, with_names};
ghost use Rattle.ckc_names_rules.specs.Meanings.{meaning as meaning_in};
ghost use Rattle.ckc_names.specs.Insides.{meaning_at as meaning_found, within, HasRoom};

use crate::name_list::NameList;
use ckc_names_rules::meaning::Meaning;
use ckc_text::fault::NoMemory;
use std::alloc::Global;
use std::marker::Model;

/// A mark where a block begins, or the entry of a name.
#[derive(Clone, Copy)]
enum Held {
    /// With the place of the mark of the block around.
    Block {
        outer: Option<usize>,
    },
    /// With the place of the entry that is hidden.
    Name {
        number: usize,
        meaning: Meaning,
        hides: Option<usize>,
    },
}

/// The names that are visible, and all that were seen so far. A name is found by its number.
#[derive(Drop)]
pub struct Table {
    names: NameList,
    /// For each number of a name the place of its innermost entry.
    current: Vec<Option<usize>>,
    held: Vec<Held>,
    /// The place of the mark of the innermost block.
    block: Option<usize>,
    tags: NameList,
}

impl Model for Table {
    ghost use Rattle.ckc_names.specs.State.{State};

    ghost Value = { State };

    ghost use Rattle.ckc_names.specs.Insides.{state_of, IsTable};

    ghost view = { λ a. state_of a.names a.held.items a.tags };

    ghost invariant = { λ a. IsTable a.names a.current.items a.held.items a.block };
}

// What the name at a place stands for, where there is one.
fn meaning_at(held: &[Held], place: Option<usize>) -> Option<Meaning>
    ensures { option_map meaning_in result ≡ meaning_found held.now place }
{
    match held.get(place?) {
        Some(Held::Name { meaning, .. }) => Some(*meaning),
        _ => None,
    }
}

// A place, where it stands in the innermost block.
fn within(place: Option<usize>, block: Option<usize>) -> Option<usize>
    ensures { result ≡ within place block }
{
    let place = place?;
    if place < block? { None } else { Some(place) }
}

// Makes room for one more name, which stands nowhere yet.
fn make_room(current: &mut Vec<Option<usize>>, count: usize) -> Result<(), NoMemory>
    requires { count ≤ length current.old.items }
    ensures room { OnOk result (HasRoom (count + 1) current.old.items current.new.items) }
    ensures kept { HasRoom count current.old.items current.new.items }
{
    if current.len() == count {
        current.push(None)?;
    }
    Ok(())
}

impl Table {
    /// A table without blocks, tags and names.
    pub fn new(alloc: Global) -> Table
        ensures { result ≡ nothing_known }
    {
        Table {
            names: NameList::new(alloc),
            current: Vec::new(alloc),
            held: Vec::new(alloc),
            block: None,
            tags: NameList::new(alloc),
        }
    }

    /// The number of a name that is seen.
    pub fn see(&mut self, name: &[u8]) -> Result<usize, NoMemory>
        ensures seen { OnOk result (self.new ≡ with_names (with_new (is_among self.old.names name.now) name.now self.old.names) self.old) }
        ensures within { IfOk result (λ number. number < length self.new.names) }
        ensures stands { IfOk result (λ number. name_at self.new.names number ≡ name.now) }
    {
        make_room(&mut self.current, self.names.len())?;
        let alloc = *self.current.allocator();
        self.names.number(alloc, name)
    }

    /// Opens a block.
    pub fn open(&mut self) -> Result<(), NoMemory>
        ensures { OnOk result (self.new ≡ with_blocks ([] ∷ self.old.scopes.blocks) self.old) }
    {
        let place = self.held.len();
        self.held.push(Held::Block { outer: self.block })?;
        self.block = Some(place);
        Ok(())
    }

    /// Closes the innermost block, whose names stand again for what they hid.
    pub fn close(&mut self)
        ensures { self.new ≡ with_blocks (outside self.old.scopes.blocks) self.old }
    {
        while let Some(held) = self.held.pop() {
            match held {
                Held::Block { outer } => {
                    self.block = outer;
                    return;
                }
                Held::Name { number, hides, .. } => self.current[number] = hides,
            }
        }
    }

    /// What a name stands for.
    pub fn visible(&self, number: usize) -> Option<Meaning>
        requires { number < length self.now.names }
        ensures { option_map meaning_in result ≡ visible_in self.now.scopes.blocks (name_at self.now.names number) }
    {
        meaning_at(self.held.as_slice(), self.current[number])
    }

    /// What a name stands for in the innermost block.
    pub fn innermost(&self, number: usize) -> Option<Meaning>
        requires { number < length self.now.names }
        ensures { option_map meaning_in result ≡ innermost_of self.now.scopes.blocks (name_at self.now.names number) }
    {
        let place = within(self.current[number], self.block);
        meaning_at(self.held.as_slice(), place)
    }

    /// Lets a name stand for something in the innermost block. Where no block is open, it stands for nothing.
    pub fn stand_for(&mut self, number: usize, meaning: Meaning) -> Result<(), NoMemory>
        requires { number < length self.old.names }
        ensures { OnOk result (self.new ≡ with_blocks (with_entry (name_at self.old.names number) (meaning_in meaning) self.old.scopes.blocks) self.old) }
    {
        if self.block.is_none() {
            return Ok(());
        }
        let place = self.held.len();
        let hides = self.current[number];
        self.held.push(Held::Name {
            number,
            meaning,
            hides,
        })?;
        self.current[number] = Some(place);
        Ok(())
    }

    /// Whether a tag is declared.
    pub fn has_tag(&self, tag: &[u8]) -> bool
        ensures { result ≡ is_among self.now.scopes.tags tag.now }
    {
        self.tags.has(tag)
    }

    /// Declares a tag.
    pub fn add_tag(&mut self, tag: &[u8]) -> Result<(), NoMemory>
        requires { is_among self.old.scopes.tags tag.now ≡ false }
        ensures { OnOk result (self.new ≡ with_tags (tag.now ∷ self.old.scopes.tags) self.old) }
    {
        let alloc = *self.current.allocator();
        self.tags.number(alloc, tag)?;
        Ok(())
    }

    /// The names that were seen.
    pub fn into_names(self) -> NameList
        ensures { result ≡ self.names }
    {
        self.names
    }
}
