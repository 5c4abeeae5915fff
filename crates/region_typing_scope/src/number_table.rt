// Places of names, found by their numbers.

ghost use Rattle.std.specs.Prelude.{◌≡◌, ◌<◌, [], length, OnOk, OnErr};
ghost use Rattle.region_typing_scope.specs.Tables.{place_in, Noted, SamePlaces};

use ckc_text::fault::NoMemory;
use std::alloc::Global;
use std::marker::Model;

/// Names with a place each, which is the first one that was noted.
#[derive(Drop)]
pub struct NumberTable {
    places: Vec<Option<usize>>,
}

impl Model for NumberTable {
    ghost use Rattle.std.specs.Prelude.{ℕ, List, Option};

    ghost Value = { List (Option ℕ) };

    ghost view = { λ a. a.places.items };
}

// Makes room for a number.
fn make_room(places: &mut Vec<Option<usize>>, number: usize) -> Result<(), NoMemory>
    ensures room { OnOk result (number < length places.new.items) }
    ensures kept { SamePlaces places.old.items places.new.items }
{
    while places.len() <= number {
        places.push(None)?;
    }
    Ok(())
}

// Gives a number a place, unless it has one.
fn fill(places: &mut Vec<Option<usize>>, number: usize, place: usize)
    requires { number < length places.old.items }
    ensures { Noted number place places.old.items places.new.items }
{
    if places[number].is_none() {
        places[number] = Some(place);
    }
}

impl NumberTable {
    /// No names, which takes no memory.
    pub fn new(alloc: Global) -> NumberTable
        ensures { result ≡ [] }
    {
        NumberTable {
            places: Vec::new(alloc),
        }
    }

    /// The place of a name.
    pub fn get(&self, number: usize) -> Option<usize>
        ensures { result ≡ place_in self.now number }
    {
        match self.places.get(number) {
            Some(place) => *place,
            None => None,
        }
    }

    /// Notes the place of a name, unless it has one. Where memory runs out, each name keeps the place that it has.
    pub fn note(&mut self, number: usize, place: usize) -> Result<(), NoMemory>
        ensures noted { OnOk result (Noted number place self.old self.new) }
        ensures err { OnErr result (SamePlaces self.old self.new) }
    {
        make_room(&mut self.places, number)?;
        fill(&mut self.places, number, place);
        Ok(())
    }
}
