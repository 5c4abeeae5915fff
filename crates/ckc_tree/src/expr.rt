// Expressions and the bounds that are written with them. Parentheses make no node.

ghost use Rattle.std.specs.Prelude.{◌≡◌};
ghost use Rattle.ckc_tree.specs.Expressions.{expression, expression_span, bounds as bounds_of, bounds_span};

use crate::identifier::Identifier;
use crate::type_form::TypeName;
use ckc_text::place::Span;

/// An operator before its operand.
#[derive(Clone, Copy)]
pub enum UnaryOperator {
    /// `*`
    Deref,
    /// `&`
    AddressOf,
    /// `-`
    Negate,
    /// `!`
    Not,
    /// `~`
    Complement,
}

/// An operator between its operands.
#[derive(Clone, Copy)]
pub enum BinaryOperator {
    /// `||`
    Or,
    /// `&&`
    And,
    /// `|`
    BitOr,
    /// `^`
    BitXor,
    /// `&`
    BitAnd,
    Equal,
    NotEqual,
    Less,
    LessEqual,
    Greater,
    GreaterEqual,
    ShiftLeft,
    ShiftRight,
    Add,
    Subtract,
    Multiply,
    Divide,
    Remainder,
}

/// Whether a cast is tested in a run or taken on trust.
#[derive(Clone, Copy)]
pub enum CastWord {
    Dynamic,
    Assume,
}

/// An allocation of a size.
#[derive(Clone, Copy)]
pub enum MallocWord {
    Malloc,
    TMalloc,
}

/// An allocation of a number of elements of a size.
#[derive(Clone, Copy)]
pub enum CallocWord {
    Calloc,
    NtCalloc,
}

/// An expression. Its span holds the parentheses around its parts, and not those around itself.
#[cycle(expr)]
#[derive(Drop)]
pub enum Expr {
    Number {
        value: u32,
        span: Span,
    },
    Character {
        value: u8,
        span: Span,
    },
    /// A string: its bytes, without quotes and with escapes read.
    Text {
        bytes: Vec<u8>,
        span: Span,
    },
    Name {
        name: Identifier,
    },
    Call {
        callee: Identifier,
        arguments: Vec<Expr>,
        span: Span,
    },
    SizeOf {
        type_name: TypeName,
        span: Span,
    },
    Cast {
        word: CastWord,
        type_name: TypeName,
        operand: Box<Expr>,
        bounds: Option<Box<BoundsText>>,
        span: Span,
    },
    Malloc {
        word: MallocWord,
        type_name: TypeName,
        size: Box<Expr>,
        span: Span,
    },
    Calloc {
        word: CallocWord,
        type_name: TypeName,
        count: Box<Expr>,
        size: Box<Expr>,
        span: Span,
    },
    Index {
        base: Box<Expr>,
        index: Box<Expr>,
        span: Span,
    },
    /// `.` and a member.
    Dot {
        base: Box<Expr>,
        member: Identifier,
        span: Span,
    },
    /// `->` and a member.
    Arrow {
        base: Box<Expr>,
        member: Identifier,
        span: Span,
    },
    Unary {
        operator: UnaryOperator,
        operand: Box<Expr>,
        span: Span,
    },
    Binary {
        operator: BinaryOperator,
        left: Box<Expr>,
        right: Box<Expr>,
        span: Span,
    },
}

/// The bounds of a pointer as they are written.
#[cycle(expr)]
#[derive(Drop)]
pub enum BoundsText {
    Count {
        count: Box<Expr>,
        span: Span,
    },
    ByteCount {
        count: Box<Expr>,
        span: Span,
    },
    /// `bounds(unknown)`
    Unknown {
        span: Span,
    },
    /// The first place and the place behind the last.
    Range {
        low: Box<Expr>,
        high: Box<Expr>,
        span: Span,
    },
}

impl Expr {
    /// The bytes that the expression stands on, without the parentheses around it.
    pub fn span(&self) -> Span
        ensures { result ≡ expression_span (expression self.now) }
    {
        match self {
            Expr::Number { span, .. } => *span,
            Expr::Character { span, .. } => *span,
            Expr::Text { span, .. } => *span,
            Expr::Name { name } => name.span,
            Expr::Call { span, .. } => *span,
            Expr::SizeOf { span, .. } => *span,
            Expr::Cast { span, .. } => *span,
            Expr::Malloc { span, .. } => *span,
            Expr::Calloc { span, .. } => *span,
            Expr::Index { span, .. } => *span,
            Expr::Dot { span, .. } => *span,
            Expr::Arrow { span, .. } => *span,
            Expr::Unary { span, .. } => *span,
            Expr::Binary { span, .. } => *span,
        }
    }
}

impl BoundsText {
    /// The bytes that the bounds stand on.
    pub fn span(&self) -> Span
        ensures { result ≡ bounds_span (bounds_of self.now) }
    {
        match self {
            BoundsText::Count { span, .. } => *span,
            BoundsText::ByteCount { span, .. } => *span,
            BoundsText::Unknown { span } => *span,
            BoundsText::Range { span, .. } => *span,
        }
    }
}
