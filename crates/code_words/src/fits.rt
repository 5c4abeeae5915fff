// Whether an image may run under settings.

ghost use Rattle.std.specs.Prelude.{◌≡◌, ◌<◌, ◌≤◌, ◌↔◌, IfNone, IfSome, IsTrue};
ghost use Rattle.act_words.specs.Limits.{AreAllowed};
ghost use Rattle.flat_bytes.specs.Blocks.{first_offset, grown};
ghost use Rattle.code_words.specs.Fitting.{BlocksFit, Fits, HasMain};

use crate::image::Image;
use act_words::settings::Settings;
use ckc_text::listed::Listed;
use flat_bytes::blocks::{self, FIRST_OFFSET};

impl Image {
    /// Whether the image may run under the settings: they lie within their limits, its static blocks aren't empty and lie in
    /// both memories, and its `main` is there and takes no argument.
    pub fn fits(&self, settings: &Settings) -> bool
        ensures { IsTrue result ↔ Fits self.now settings.now }
    {
        are_allowed(settings)
            && blocks_fit(settings.trusted, self.trusted.blocks.as_slice())
            && blocks_fit(settings.sandbox, self.sandbox.blocks.as_slice())
            && self.has_main()
    }

    // Whether `main` is there, and takes no argument.
    fn has_main(&self) -> bool
        ensures { IsTrue result ↔ HasMain self.now }
    {
        let Some(number) = self.layout.main else {
            return false;
        };
        match self.trusted.funs.as_slice().get(number as usize) {
            Some(f) => f.args() == 0,
            None => false,
        }
    }
}

// Whether settings lie within their limits.
fn are_allowed(settings: &Settings) -> bool
    ensures { IsTrue result ↔ AreAllowed settings.now }
{
    is_between(1, settings.budget, 1_000_000_000)
        && is_between(65_536, settings.sandbox, 16_777_216)
        && is_between(65_536, settings.trusted, 4_194_304)
        && is_between(16, settings.base, 4_026_531_840)
        && settings.base % 16 == 0
}

// Whether a number lies between two others, or is one of them.
fn is_between(least: u32, number: u32, most: u32) -> bool
    ensures { IsTrue result ↔ ((least ≤ number) × (number ≤ most)) }
{
    least <= number && number <= most
}

// Whether blocks aren't empty, and lie in a memory of a size.
fn blocks_fit(size: u32, blocks: &[Listed<u8>]) -> bool
    requires { first_offset ≤ size }
    ensures { IsTrue result ↔ BlocksFit size first_offset blocks.now }
{
    let mut offset = FIRST_OFFSET;
    for block in blocks {
        match block_end(size, offset, block.as_slice().len()) {
            Some(end) => offset = end,
            None => return false,
        }
    }
    true
}

// Where a block and its zeros end, if it isn't empty and lies in a memory of a size.
fn block_end(size: u32, offset: u32, bytes: usize) -> Option<u32>
    ensures end { IfSome result (λ end. (0 < bytes) × (end ≡ grown offset bytes) × (end ≤ size)) }
    ensures none { IfNone result (0 < bytes → grown offset bytes ≤ size → ⊥) }
{
    if bytes == 0 || bytes > size as usize {
        return None;
    }
    let end = blocks::grown(u64::from(offset), bytes as u64);
    if end > u64::from(size) {
        return None;
    }
    Some(end as u32)
}
