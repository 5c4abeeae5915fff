// The core with its checks, and without bounds.

use act_words::operator::{Comparison, Operator};
use bounds_exprs::term::Bounds;
use ckc_core::program::{Callee, Direction, Import, Initial, Object, Site, Terminator};
use ckc_text::name::Name;
use pointer_modes::ctype::CType;

/// The bounds whose variables a check reads, and its site. They are counted in the elements of what is checked.
#[derive(Clone, Copy)]
pub struct Reading {
    pub bounds: Bounds,
    pub site: Site,
}

/// What has to hold of a pointer before an access. A check has its site, and the variables of the bounds that it reads.
#[derive(Clone, Copy)]
pub enum Check {
    /// It isn't null (C1); no bounds are read.
    NotNull { site: Site },
    /// The element that is taken lies within the bounds (C2).
    Below(Reading),
    /// The place that it is moved to lies within the bounds, or at the upper end (C2).
    UpTo(Reading),
    /// The new bounds lie within the old ones, unless it is null or the new ones are turned (C5).
    Contains { old: Reading, new: Reading },
}

/// Which element an access takes, from the one that its pointer leads to.
#[cycle(erased)]
#[derive(Drop)]
pub enum Index {
    /// That one.
    First,
    /// The one of a number, each with so many bytes.
    Element { number: Box<Expr>, size: u32 },
}

/// An expression. Locals, file-level variables and functions are numbered from 0 in the order of their declarations.
#[cycle(erased)]
#[derive(Drop)]
pub enum Expr {
    Number(i32),
    Null,
    /// What a local variable holds.
    Local(u32),
    /// What a cell of this type holds.
    Load {
        ctype: CType,
        cell: CellPlace,
    },
    /// A pointer to a cell.
    AddressOf(CellPlace),
    Negate {
        operand: Box<Expr>,
        site: Site,
    },
    Complement(Box<Expr>),
    /// 1 where a scalar is 0 or null, and else 0.
    Not(Box<Expr>),
    Arithmetic {
        operator: Operator,
        left: Box<Expr>,
        right: Box<Expr>,
        site: Site,
    },
    Compare {
        comparison: Comparison,
        left: Box<Expr>,
        right: Box<Expr>,
    },
    /// Whether two pointers are the same.
    Same {
        left: Box<Expr>,
        right: Box<Expr>,
    },
    AndAlso {
        left: Box<Expr>,
        right: Box<Expr>,
    },
    OrElse {
        left: Box<Expr>,
        right: Box<Expr>,
    },
    /// A number modulo 256.
    LowByte(Box<Expr>),
    /// What a call returns.
    Call(Call),
    NextInput,
    /// A pointer that is so many elements further on, or back, each with so many bytes, behind its checks.
    Sum {
        pointer: Box<Expr>,
        direction: Direction,
        number: Box<Expr>,
        size: u32,
        checks: Vec<Check>,
    },
    /// The order of two pointers in one block, behind the checks of both.
    Order {
        comparison: Comparison,
        left: Box<Expr>,
        left_checks: Vec<Check>,
        right: Box<Expr>,
        right_checks: Vec<Check>,
    },
    /// A new block of so many elements, each with these cells, or null; of one more where a zero stands behind them.
    Allocate {
        count: Box<Expr>,
        element: Vec<Initial>,
        terminator: Terminator,
    },
    /// How many bytes stand before the first zero, from the one on that a pointer to elements of so many bytes leads to, behind
    /// its checks.
    Length {
        pointer: Box<Expr>,
        size: u32,
        checks: Vec<Check>,
    },
    /// A pointer to elements of so many bytes, behind its checks.
    Cast {
        pointer: Box<Expr>,
        size: u32,
        checks: Vec<Check>,
    },
}

/// A call, with its arguments from left to right. Those of a tainted function are numbers.
#[cycle(erased)]
#[derive(Drop)]
pub struct Call {
    pub callee: Callee,
    pub arguments: Vec<Expr>,
}

/// Where a cell stands: so many bytes behind the first one of a file-level variable, or of an element that a pointer leads
/// to, behind its checks.
#[cycle(erased)]
#[derive(Drop)]
pub enum CellPlace {
    Direct {
        object: u32,
        offset: u32,
    },
    Through {
        pointer: Box<Expr>,
        index: Index,
        offset: u32,
        checks: Vec<Check>,
    },
}

/// A statement.
#[derive(Drop)]
pub enum Stmt {
    Nothing,
    SetLocal {
        local: u32,
        value: Box<Expr>,
    },
    /// Where there is an end, nothing but 0 is stored at it (C3).
    Store {
        ctype: CType,
        cell: CellPlace,
        value: Box<Expr>,
        end: Option<Reading>,
    },
    /// The old value and an operator with another one. A local of type `char` keeps the result modulo 256.
    UpdateLocal {
        is_char: bool,
        local: u32,
        operator: Operator,
        value: Box<Expr>,
        site: Site,
    },
    Update {
        ctype: CType,
        cell: CellPlace,
        operator: Operator,
        value: Box<Expr>,
        site: Site,
        end: Option<Reading>,
    },
    /// A value that is left.
    Evaluate(Box<Expr>),
    /// A call without a result.
    CallAlone(Call),
    Print(Box<Expr>),
    PutByte(Box<Expr>),
    Block(Vec<Stmt>),
    If {
        condition: Box<Expr>,
        consequent: Box<Stmt>,
        alternative: Box<Stmt>,
    },
    /// A loop with what follows each turn.
    Loop {
        condition: Box<Expr>,
        body: Box<Stmt>,
        step: Box<Stmt>,
    },
    Return(Box<Expr>),
    ReturnNothing,
    Break,
    Continue,
}

/// A trusted function: its name, how many of its locals are parameters, the types of all of them, what it returns, and
/// its body.
#[derive(Drop)]
pub struct Function {
    pub name: Name,
    pub parameters: u32,
    pub locals: Vec<CType>,
    pub result: Option<CType>,
    pub body: Vec<Stmt>,
}

/// A whole program: its file-level variables, the tainted functions, the trusted ones, and the number of `main`.
#[derive(Drop)]
pub struct Erased {
    pub objects: Vec<Object>,
    pub imports: Vec<Import>,
    pub functions: Vec<Function>,
    pub main: u32,
}
