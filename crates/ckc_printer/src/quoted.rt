// Printing of what stands between quotes.

ghost use Rattle.std.specs.Prelude.{◌≡◌, ◌<◌};
ghost use Rattle.std.specs.List.{flat_map};
ghost use Rattle.ckc_printer.specs.Pieces.{hexadecimal_digit, is_plain, quoted_byte, string_text, character_text};
ghost use Rattle.ckc_printer.specs.Output.{Puts};
ghost use Rattle.ckc_printer.specs.Spaced.{spaced};

use crate::output::Output;

/// A hexadecimal digit, in lower case.
fn hex_digit(value: u8) -> u8
    requires { value < 16 }
    ensures { result ≡ hexadecimal_digit value }
{
    if value < 10 { 48 + value } else { 87 + value }
}

/// Whether a byte stands for itself.
fn is_plain_byte(byte: u8) -> bool
    ensures { result ≡ is_plain byte }
{
    (32 <= byte && byte <= 126) && !(byte == 34 || (byte == 39 || byte == 92))
}

/// A byte between quotes.
fn quoted(out: &mut Output, byte: u8)
    ensures { Puts out.old out.new (quoted_byte byte) }
{
    if is_plain_byte(byte) {
        out.push(byte);
    } else {
        let escape = [92, 120, hex_digit(byte / 16), hex_digit(byte % 16)];
        out.extend(&escape);
    }
}

/// The bytes between the quotes of a string.
fn content(out: &mut Output, bytes: &[u8])
    ensures { Puts out.old out.new (flat_map quoted_byte bytes.now) }
{
    for byte in bytes {
        quoted(out, *byte);
    }
}

/// A string.
pub fn put_string(out: &mut Output, bytes: &[u8])
    ensures { Puts out.old out.new (spaced (string_text bytes.now)) }
{
    out.push(b'"');
    content(out, bytes);
    out.extend(b"\" ");
}

/// A character constant.
pub fn put_character(out: &mut Output, byte: u8)
    ensures { Puts out.old out.new (spaced (character_text byte)) }
{
    out.push(b'\'');
    quoted(out, byte);
    out.extend(b"' ");
}
