// A list of acts.

ghost use Rattle.std.specs.Prelude.{◌≡◌, ◌++◌, ◌∷◌, [], flat_map, length, map, option_map, slice_get, IfOk, OnErr, OnOk};
ghost use Rattle.act_words.specs.Acts.{act_view};
ghost use Rattle.act_words.specs.Lines.{act_line};

use act_words::act::Act;
use act_words::writing::write_act;
use ckc_text::fault::NoMemory;
use std::alloc::Global;
use std::marker::Model;

/// Acts in order, which contracts see as a list.
#[derive(Drop)]
pub struct ActList {
    alloc: Global,
    acts: Vec<Act>,
}

impl Model for ActList {
    ghost use Rattle.std.specs.Prelude.{List, map};
    ghost use Rattle.act_words.specs.Acts.{Act, act_view};

    ghost Value = { List Act };

    ghost view = { λ l. map act_view l.acts.items };
}

impl ActList {
    /// A list without acts. It takes no memory.
    pub fn new(alloc: Global) -> ActList
        ensures { result ≡ [] }
    {
        ActList {
            alloc,
            acts: Vec::new(alloc),
        }
    }

    /// Puts an act behind the others. Without memory for it the list stays.
    pub fn push(&mut self, act: Act) -> Result<(), NoMemory>
        ensures pushed { OnOk result (self.new ≡ self.old ++ act_view act ∷ []) }
        ensures kept { OnErr result (self.new ≡ self.old) }
    {
        self.acts.push(act)?;
        Ok(())
    }

    /// How many acts there are.
    pub fn len(&self) -> u64
        ensures { result ≡ length self.now }
    {
        self.acts.len() as u64
    }

    /// The act of a number, the first being 0; None exactly past the last.
    pub fn get(&self, k: u64) -> Option<Act>
        ensures { option_map act_view result ≡ slice_get self.now k }
    {
        self.acts.get(k as usize).copied()
    }

    /// The lines of the acts, as an act file has them.
    pub fn lines(&self) -> Result<Vec<u8>, NoMemory>
        ensures { IfOk result (λ text. text.items ≡ flat_map act_line self.now) }
    {
        lines_of(self.alloc, self.acts.as_slice())
    }
}

// The lines of acts, one after another.
fn lines_of(alloc: Global, acts: &[Act]) -> Result<Vec<u8>, NoMemory>
    ensures { IfOk result (λ text. text.items ≡ flat_map act_line (map act_view acts.now)) }
{
    let mut text = Vec::new(alloc);
    for act in acts {
        text.extend_from_slice(write_act(alloc, act)?.as_slice())?;
    }
    Ok(text)
}
