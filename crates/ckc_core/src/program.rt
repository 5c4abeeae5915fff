// The core: what is left of a source once each name is a number, each check has its place and each access its type.

use act_words::operator::{Comparison, Operator};
use bounds_exprs::term::Bounds;
use ckc_text::name::Name;
use ckc_text::place::Place;
use pointer_modes::ctype::CType;

/// Where an access or an operation stands, which its failed check names.
#[derive(Clone, Copy)]
pub struct Site {
    pub place: Place,
}

/// Whom a call enters: a trusted function, or a tainted one, where a failed check of its reply names the site.
#[derive(Clone, Copy)]
pub enum Callee {
    Trusted(u32),
    Tainted { import: u32, site: Site },
}

/// The bounds of a pointer at a node of the tree: their normal form over the locals, the bytes of an element, whether a zero
/// stands at the upper end or behind it, and where the node stands.
#[derive(Clone, Copy)]
pub struct PointerBounds {
    pub bounds: Bounds,
    pub size: u32,
    pub terminated: bool,
    pub site: Site,
}

/// Which way a pointer is moved.
#[derive(Clone, Copy)]
pub enum Direction {
    Forward,
    Backward,
}

/// Where the zero stands that ends a new block: there is none, it is the last one of the elements that are counted, or it
/// stands behind them.
#[derive(Clone, Copy)]
pub enum Terminator {
    Absent,
    Last,
    Behind,
}

/// Which element an access takes, from the one that its pointer leads to.
#[cycle(core)]
#[derive(Drop)]
pub enum Index {
    /// That one, of a pointer to a single object.
    First,
    /// The one of a number, which has to lie within the bounds of the pointer; where that is null-terminated it may lie at the
    /// upper end, where nothing but 0 is stored.
    Element { number: Box<Expr>, terminated: bool },
}

/// An expression, in which checked pointers have their bounds. Locals, file-level variables and functions are numbered from 0 in the order of their declarations.
#[cycle(core)]
#[derive(Drop)]
pub enum Expr {
    Number(i32),
    Null,
    /// What a local variable holds.
    Local {
        local: u32,
        bounds: Option<PointerBounds>,
    },
    /// What a cell of this type holds.
    Load {
        ctype: CType,
        cell: CellPlace,
        bounds: Option<PointerBounds>,
    },
    /// A pointer to a cell.
    AddressOf {
        cell: CellPlace,
        bounds: Option<PointerBounds>,
    },
    Negate {
        operand: Box<Expr>,
        site: Site,
    },
    Complement(Box<Expr>),
    /// 1 where a scalar is 0 or null, and else 0.
    Not(Box<Expr>),
    Arithmetic {
        operator: Operator,
        left: Box<Expr>,
        right: Box<Expr>,
        site: Site,
    },
    Compare {
        comparison: Comparison,
        left: Box<Expr>,
        right: Box<Expr>,
    },
    /// Whether two pointers are the same.
    Same {
        left: Box<Expr>,
        right: Box<Expr>,
    },
    AndAlso {
        left: Box<Expr>,
        right: Box<Expr>,
    },
    OrElse {
        left: Box<Expr>,
        right: Box<Expr>,
    },
    /// A number modulo 256.
    LowByte(Box<Expr>),
    /// What a call returns.
    Call {
        call: Call,
        bounds: Option<PointerBounds>,
    },
    NextInput,
    /// A pointer that is so many elements further on, or back.
    Sum {
        pointer: Box<Expr>,
        direction: Direction,
        number: Box<Expr>,
        site: Site,
        bounds: Option<PointerBounds>,
    },
    /// The order of two pointers in one block.
    Order {
        comparison: Comparison,
        left: Box<Expr>,
        right: Box<Expr>,
        site: Site,
    },
    /// A new block of so many elements, each with these cells, or null; of one more where a zero stands behind them.
    Allocate {
        count: Box<Expr>,
        element: Vec<Initial>,
        terminator: Terminator,
        bounds: Option<PointerBounds>,
    },
    /// How many bytes stand before the first zero, from the one on that a null-terminated pointer leads to.
    Length {
        pointer: Box<Expr>,
        site: Site,
    },
    /// A pointer with other bounds, which have to lie within its own where there are some.
    Cast {
        pointer: Box<Expr>,
        bounds: Option<PointerBounds>,
    },
}

/// A call, with its arguments from left to right. Those of a tainted function are numbers.
#[cycle(core)]
#[derive(Drop)]
pub struct Call {
    pub callee: Callee,
    pub arguments: Vec<Expr>,
}

/// Where a cell stands: so many bytes behind the first one of a file-level variable, or of an element that a pointer leads
/// to.
#[cycle(core)]
#[derive(Drop)]
pub enum CellPlace {
    Direct {
        object: u32,
        offset: u32,
    },
    Through {
        pointer: Box<Expr>,
        index: Index,
        offset: u32,
        site: Site,
    },
}

/// A statement.
#[derive(Drop)]
pub enum Stmt {
    Nothing,
    SetLocal {
        local: u32,
        value: Box<Expr>,
    },
    Store {
        ctype: CType,
        cell: CellPlace,
        value: Box<Expr>,
    },
    /// The old value and an operator with another one. A local of type `char` keeps the result modulo 256.
    UpdateLocal {
        is_char: bool,
        local: u32,
        operator: Operator,
        value: Box<Expr>,
        site: Site,
    },
    Update {
        ctype: CType,
        cell: CellPlace,
        operator: Operator,
        value: Box<Expr>,
        site: Site,
    },
    /// A value that is left.
    Evaluate(Box<Expr>),
    /// A call without a result.
    CallAlone(Call),
    Print(Box<Expr>),
    PutByte(Box<Expr>),
    Block(Vec<Stmt>),
    If {
        condition: Box<Expr>,
        consequent: Box<Stmt>,
        alternative: Box<Stmt>,
    },
    /// A loop with what follows each turn.
    Loop {
        condition: Box<Expr>,
        body: Box<Stmt>,
        step: Box<Stmt>,
    },
    Return(Box<Expr>),
    ReturnNothing,
    Break,
    Continue,
}

/// A trusted function: its name, how many of its locals are parameters, the types of all of them, what it returns, and
/// its body.
#[derive(Drop)]
pub struct Function {
    pub name: Name,
    pub parameters: u32,
    pub locals: Vec<CType>,
    pub result: Option<CType>,
    pub body: Vec<Stmt>,
}

/// A tainted function: its name, how many parameters it has, and what it returns.
#[derive(Drop)]
pub struct Import {
    pub name: Name,
    pub parameters: u32,
    pub result: Option<CType>,
}

/// A cell of a file-level variable before the run: its type, the bytes from its first one to that of the next cell or to
/// the variable's end, and its number. A pointer is null.
#[derive(Drop)]
pub struct Initial {
    pub ctype: CType,
    pub stride: u32,
    pub number: i32,
}

/// A file-level variable or a string before the run: its cells, whether a zero ends it, and whether no pointer leads to it.
#[derive(Drop)]
pub struct Object {
    pub cells: Vec<Initial>,
    pub zero_ended: bool,
    pub is_sealed: bool,
}

/// A function of a source, on its side.
#[derive(Drop)]
pub enum Definition {
    Trusted(Function),
    Tainted(Import),
}

/// A whole program: its file-level variables, its functions in the order in which they are first declared, and the number
/// of `main` among those that are trusted. A call names a function by its number among those of its side.
#[derive(Drop)]
pub struct Core {
    pub objects: Vec<Object>,
    pub definitions: Vec<Definition>,
    pub main: u32,
}
