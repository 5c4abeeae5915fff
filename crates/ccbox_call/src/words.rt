// What the types of an image say of the words of its listing: each number fits its word, and each name is one. A contract that sees
// a list doesn't see the types of the numbers in it, so each part is looked at by itself.

ghost use Rattle.std.specs.Prelude.{All};
ghost use Rattle.ccbox_call.specs.Words.{HasWords, IsBytes, AreWords, FitsWords};

use ckc_text::listed::Listed;
use code_words::image::{Func, Image};
use code_words::op::Op;

/// The trusted side of an image fits the words of its listing. Nothing is done but what the contract says.
pub fn fits_words(image: &Image)
    ensures { FitsWords image.now }
{
    blocks_fit(image.trusted_blocks());
    functions_fit(image.functions());
}

fn blocks_fit(blocks: &[Listed<u8>])
    ensures { All IsBytes blocks.now }
{
    for block in blocks {
        bytes_fit(block.as_slice());
    }
}

fn bytes_fit(bytes: &[u8])
    ensures { IsBytes bytes.now }
{}

fn functions_fit(funs: &[Func])
    ensures { All AreWords funs.now }
{
    for f in funs {
        instructions_fit(f.ops());
    }
}

fn instructions_fit(ops: &[Op])
    ensures { All HasWords ops.now }
{
    for op in ops {
        instruction_fits(*op);
    }
}

fn instruction_fits(op: Op)
    ensures { HasWords op }
{}
