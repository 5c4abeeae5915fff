// A text that is being printed.

ghost use Rattle.std.specs.Prelude.{◌≡◌, ◌∷◌, [], true, IfOk};
ghost use Rattle.ckc_printer.specs.Output.{Puts};

use ckc_text::fault::NoMemory;
use std::alloc::Global;

/// A text that grows until memory runs out. What is put behind it after that is left out, and `finish` says so.
#[derive(Drop)]
pub struct Output {
    pub bytes: Vec<u8>,
    pub is_whole: bool,
}

impl Output {
    /// No text.
    pub fn new(alloc: Global) -> Output
        ensures whole { result.is_whole ≡ true }
        ensures empty { result.bytes.items ≡ [] }
    {
        Output {
            bytes: Vec::new(alloc),
            is_whole: true,
        }
    }

    /// A text behind it.
    pub fn extend(&mut self, text: &[u8])
        ensures { Puts self.old self.new text.now }
    {
        self.is_whole = self.is_whole && self.bytes.extend_from_slice(text).is_ok();
    }

    /// A byte behind it.
    pub fn push(&mut self, byte: u8)
        ensures { Puts self.old self.new (byte ∷ []) }
    {
        self.is_whole = self.is_whole && self.bytes.push(byte).is_ok();
    }

    /// The text, if memory didn't run out.
    pub fn finish(self) -> Result<Vec<u8>, NoMemory>
        ensures { IfOk result (λ text. (self.is_whole ≡ true) × (text.items ≡ self.bytes.items)) }
    {
        if self.is_whole {
            Ok(self.bytes)
        } else {
            Err(NoMemory)
        }
    }
}
