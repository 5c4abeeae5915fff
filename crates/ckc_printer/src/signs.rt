// Printing of texts, each with a space behind it.

ghost use Rattle.std.specs.Prelude.{decimal};
ghost use Rattle.ckc_printer.specs.Output.{Puts};
ghost use Rattle.ckc_printer.specs.Spaced.{spaced, spaced_if};

use crate::output::Output;
use ckc_tree::identifier::Identifier;
use itoa::Buffer;

/// A text.
pub fn put(out: &mut Output, text: &[u8])
    ensures { Puts out.old out.new (spaced text.now) }
{
    out.extend(text);
    out.push(b' ');
}

/// A name.
pub fn put_name(out: &mut Output, identifier: &Identifier)
    ensures { Puts out.old out.new (spaced identifier.now.name) }
{
    put(out, identifier.name.as_bytes());
}

/// A number, in decimal.
pub fn put_number(out: &mut Output, value: u32)
    ensures { Puts out.old out.new (spaced (decimal value)) }
{
    let mut buffer = Buffer::new();
    put(out, buffer.format(value).as_bytes());
}

/// A text, if it is wanted.
pub fn put_if(out: &mut Output, wanted: bool, text: &[u8])
    ensures { Puts out.old out.new (spaced_if wanted text.now) }
{
    if wanted {
        put(out, text);
    }
}
