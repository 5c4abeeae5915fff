// Replies of tainted functions.

ghost use Rattle.std.specs.Prelude.{◌≡◌};
ghost use Rattle.marshalling.specs.Replies.{unpacked_reply};

use crate::fault::MarshalFault;
use crate::kind::WordKind;

/// The word that the sandbox replies for a result of a kind. For a `char` it is at most 255 (C9).
#[inline]
pub fn unpack_reply(kind: WordKind, word: u32) -> Result<u32, MarshalFault>
    ensures { result ≡ unpacked_reply kind word }
{
    match kind {
        WordKind::Char if word > 255 => Err(MarshalFault::Char { param: 0 }),
        _ => Ok(word),
    }
}
