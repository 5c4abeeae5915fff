// Places of many bytes of one source.

ghost use Rattle.std.specs.Prelude.{◌≡◌, ℕ, ◌<◌, ◌≤◌, List, length, IfOk};
ghost use Rattle.std.specs.List.Sorted.{IsNonDecreasing, IsPartitionPoint};
ghost use Rattle.ckc_text.specs.Places.{place_at, line_feeds_of};

use crate::fault::NoMemory;
use crate::place::Place;
use std::alloc::Global;
use std::marker::Model;

/// The line feeds of a source, for finding places in time logarithmic in their number.
#[derive(Drop)]
pub struct LineIndex {
    line_feeds: Vec<u32>,
}

impl Model for LineIndex {
    ghost use Rattle.std.specs.Prelude.{ℕ, List};
    ghost use Rattle.ckc_text.specs.Offsets.{AreOffsets};

    ghost Value = { List ℕ };

    ghost view = { λ i. i.line_feeds.items };

    ghost invariant = { λ i. AreOffsets i.line_feeds.items };
}

/// How many of ascending offsets are below `at`.
fn count_below(offsets: &[u32], at: u32) -> usize
    requires { IsNonDecreasing offsets.now }
    ensures parts { IsPartitionPoint (λ a. a < at) (λ a. at ≤ a) offsets.now result }
    ensures within { result ≤ length offsets.now }
{
    offsets.partition_point(|offset| *offset < at)
}

impl LineIndex {
    /// The line feeds of a source.
    pub fn new(alloc: Global, src: &[u8]) -> Result<LineIndex, NoMemory>
        requires { length src.now ≤ 1048577 }
        ensures { IfOk result (λ index. index ≡ line_feeds_of src.now) }
    {
        let mut line_feeds = Vec::new(alloc);
        for (at, b) in src.iter().enumerate() {
            if *b == b'\n' {
                line_feeds.push(at as u32)?;
            }
        }
        Ok(LineIndex { line_feeds })
    }

    /// The place of the byte at `at` of the source, as `place_of` finds it byte by byte.
    pub fn place(&self, at: u32) -> Place
        ensures { (src : List ℕ) → length src ≤ 1048577 → self.now ≡ line_feeds_of src
            → at ≤ length src → result ≡ place_at src at }
    {
        let ended = count_below(&self.line_feeds, at);
        let col = match ended {
            0 => at.saturating_add(1),
            _ => at - self.line_feeds[ended - 1],
        };
        let line = ended as u32 + 1;
        Place { line, col }
    }
}
