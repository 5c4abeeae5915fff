// Which cells have one byte.

ghost use Rattle.std.specs.Prelude.{◌≡◌};
ghost use Rattle.pointer_modes.specs.Types.{ctype as ctype_of};
ghost use Rattle.ckc_core.specs.Steps.{is_char};

use pointer_modes::ctype::CType;

/// Whether a cell of the type has one byte.
pub fn has_one_byte(ctype: &CType) -> bool
    ensures { result ≡ is_char (ctype_of ctype.now) }
{
    match ctype {
        CType::Char => true,
        CType::Int | CType::Struct(_) | CType::Pointer(..) => false,
    }
}
