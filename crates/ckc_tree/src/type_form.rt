// Types as they are written.

ghost use Rattle.std.specs.Prelude.{◌≡◌};
ghost use Rattle.ckc_tree.specs.Types.{type_tree, type_span};

use crate::identifier::Identifier;
use ckc_text::place::Span;

/// Whose memory a pointer points to.
#[derive(Clone, Copy)]
pub enum PointerMode {
    Checked,
    Tainted,
}

/// How many elements a pointer points to: one, as many as its bounds say, or as many up to a zero.
#[derive(Clone, Copy)]
pub enum PointerKind {
    One,
    Array,
    NullTerminated,
}

/// What a pointer word says. The two spellings of a word, as `ptr` and `_Ptr`, say the same.
#[derive(Clone, Copy)]
pub struct PointerWord {
    pub mode: PointerMode,
    pub kind: PointerKind,
}

/// A type without the stars behind it.
#[derive(Drop)]
pub enum TypeForm {
    Int {
        span: Span,
    },
    Char {
        span: Span,
    },
    Struct {
        tag: Identifier,
        span: Span,
    },
    /// A pointer word, and in angle brackets the element with its stars.
    Pointer {
        word: PointerWord,
        element: Box<TypeForm>,
        stars: usize,
        span: Span,
    },
}

/// A type and how many stars stand behind it.
#[derive(Drop)]
pub struct TypeName {
    pub base: TypeForm,
    pub stars: usize,
}

impl TypeForm {
    /// The bytes that the type stands on.
    pub fn span(&self) -> Span
        ensures { result ≡ type_span (type_tree self.now) }
    {
        match self {
            TypeForm::Int { span } => *span,
            TypeForm::Char { span } => *span,
            TypeForm::Struct { span, .. } => *span,
            TypeForm::Pointer { span, .. } => *span,
        }
    }
}
