// The types of the language.

ghost use Rattle.std.specs.Prelude.{◌≡◌, IfOk};
ghost use Rattle.pointer_modes.specs.Types.{ctype as ctype_of, is_checked_pointer as checked_pointer};

use ckc_text::fault::NoMemory;
use ckc_text::name::Name;
use ckc_text::on_heap::boxed;
use ckc_text::place::Span;
use std::alloc::Global;

/// What a pointer is checked for: with bounds, against the range of the sandbox, or not at all.
#[derive(Clone, Copy, PartialEq, Eq)]
pub enum Mode {
    Checked,
    Tainted,
    Raw,
}

/// What a pointer points to: one object, the elements of an array, or those of a null-terminated one.
#[derive(Clone, Copy, PartialEq, Eq)]
pub enum Kind {
    One,
    Array,
    Nt,
}

/// A type. Structs are numbered from 0 in the order of their declarations.
#[derive(Drop)]
pub enum CType {
    Int,
    Char,
    Struct(u32),
    Pointer(Mode, Kind, Box<CType>),
}

impl CType {
    /// Whether the type is that of pointers into trusted memory.
    pub fn is_checked_pointer(&self) -> bool
        ensures { result ≡ checked_pointer (ctype_of self.now) }
    {
        match self {
            CType::Pointer(mode, ..) => matches!(mode, Mode::Checked),
            CType::Int | CType::Char | CType::Struct(_) => false,
        }
    }

    /// A copy of the type.
    pub fn copy(&self, alloc: Global) -> Result<CType, NoMemory>
        ensures { IfOk result (λ t. ctype_of t ≡ ctype_of self.now) }
    {
        match self {
            CType::Int => Ok(CType::Int),
            CType::Char => Ok(CType::Char),
            CType::Struct(number) => Ok(CType::Struct(*number)),
            CType::Pointer(mode, kind, target) => {
                let target = boxed(alloc, target.copy(alloc)?)?;
                Ok(CType::Pointer(*mode, *kind, target))
            }
        }
    }
}

/// A member of a struct. Its span is where it is declared.
#[derive(Drop)]
pub struct Member {
    pub name: Name,
    pub ctype: CType,
    pub span: Span,
}
