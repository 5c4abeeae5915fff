// What the blocks of strings take, and where each of them is.

ghost use Rattle.std.specs.Prelude.{◌≡◌, ◌+◌, ◌-◌, ◌≤◌, [], cond, nat_le, Some, None};
ghost use Rattle.flat_bytes.specs.Blocks.{rounded_up};
ghost use Rattle.ckc_tree.specs.Texts.{text};
ghost use Rattle.region_typing_rules.specs.Strings.{text_size, texts_size, text_at};
ghost use Rattle.region_typing_scope.specs.Answering.{Answers};
ghost use Rattle.region_typing_scope.specs.Strings.{strings, block, block_verdict};

use crate::refusals::{CheckError, refusal};
use crate::strings::Strings;
use ckc_text::code::Code;
use ckc_text::place::Span;
use ckc_tree::text::Text;
use flat_bytes::blocks;
use std::alloc::Global;

/// How many bytes the blocks of variables and strings may take, with the gaps behind them.
const MOST_BYTES: u32 = 32768;

/// What a block of so many bytes takes with its gap.
pub fn block_bytes(size: u32) -> u32
    requires { size ≤ 2097152 }
    ensures bytes { result ≡ rounded_up size + 16 }
    ensures few { result ≤ 2097168 }
{
    blocks::grown(0, u64::from(size)) as u32
}

// The bytes that are left of so many behind the block of a string.
fn left_behind(t: &Text, left: u32) -> Option<u32>
    requires { left ≤ 32768 }
    ensures { result ≡ cond (nat_le (text_size (text t.now)) left) (Some (left - text_size (text t.now))) None }
{
    let characters = t.bytes.len();
    if characters >= left as usize {
        return None;
    }
    left.checked_sub(block_bytes(characters as u32 + 1))
}

/// The block of a string: the number of its object, and how many characters it has without the zero that ends it.
#[derive(Clone, Copy)]
pub struct TextBlock {
    pub object: u32,
    pub length: u32,
}

impl Strings {
    /// No strings, in a program with so many file-level variables.
    pub fn new(alloc: Global, variables: u32) -> Strings
        requires { variables ≤ 4096 }
        ensures { strings result ≡ record { texts = []; variables = variables; taken = 0 } }
    {
        Strings {
            texts: Vec::new(alloc),
            variables,
            taken: 0,
        }
    }

    /// Whether the strings have room behind variables that take so many bytes.
    pub fn fit_behind(&self, taken: u32) -> bool
        ensures { result ≡ nat_le (taken + texts_size (strings self.now).texts) 32768 }
    {
        if taken > MOST_BYTES {
            return false;
        }
        let mut left = MOST_BYTES - taken;
        for t in &self.texts {
            match left_behind(t, left) {
                Some(bytes) => left = bytes,
                None => return false,
            }
        }
        true
    }

    /// The block of the string at a span: E08 where too many bytes are taken up to its end, and E13 where there is none.
    pub fn block_at(&self, span: Span) -> Result<TextBlock, CheckError>
        ensures { Answers block (block_verdict (text_at (strings self.now) span.from) span) result }
    {
        let mut object = self.variables;
        let mut left = Some(MOST_BYTES - self.taken);
        for t in &self.texts {
            left = match left {
                Some(bytes) => left_behind(t, bytes),
                None => None,
            };
            if t.span.from == span.from {
                return match left {
                    Some(_) => Ok(TextBlock {
                        object,
                        length: t.bytes.len() as u32,
                    }),
                    None => Err(refusal(Code::E08, span)),
                };
            }
            if left.is_some() {
                object += 1;
            }
        }
        Err(refusal(Code::E13, span))
    }
}
