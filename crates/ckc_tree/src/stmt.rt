// Statements.

ghost use Rattle.std.specs.Prelude.{◌≡◌};
ghost use Rattle.ckc_tree.specs.Statements.{initializer, assignment, assignment_span, statement, statement_span};
ghost use Rattle.ckc_tree.specs.Placement.{initializer_span};

use crate::expr::{BoundsText, Expr};
use crate::identifier::Identifier;
use crate::type_form::TypeForm;
use ckc_text::place::Span;

/// What is written before a block or a function to make it a checked or an unchecked one.
#[derive(Clone, Copy)]
pub enum Mark {
    Checked,
    Unchecked,
}

/// Whether an array ends with a zero that its length counts.
#[derive(Clone, Copy)]
pub enum ArrayKind {
    Checked,
    NullTerminated,
}

/// What makes a variable an array.
#[derive(Clone, Copy)]
pub struct ArrayForm {
    pub kind: ArrayKind,
    pub length: u32,
    pub span: Span,
}

/// A number or a character, as it stands in a list of initial values.
#[derive(Clone, Copy)]
pub enum Constant {
    Number(u32),
    Character(u8),
}

/// A constant with the minus before it, if one is written.
#[derive(Clone, Copy)]
pub struct SignedConstant {
    pub negative: bool,
    pub constant: Constant,
    pub span: Span,
}

/// What a variable is initialised with.
#[derive(Drop)]
pub enum Initializer {
    Value {
        value: Box<Expr>,
    },
    List {
        constants: Vec<SignedConstant>,
        span: Span,
    },
}

/// One variable of a declaration.
#[derive(Drop)]
pub struct Declarator {
    pub stars: usize,
    pub name: Identifier,
    pub array: Option<ArrayForm>,
    pub bounds: Option<BoundsText>,
    pub initializer: Option<Initializer>,
    pub span: Span,
}

/// A declaration without the semicolon behind it: a type and at least one variable.
#[derive(Drop)]
pub struct Declaration {
    pub base: TypeForm,
    pub declarators: Vec<Declarator>,
    pub span: Span,
}

/// An operator that stores.
#[derive(Clone, Copy)]
pub enum StoreOperator {
    /// `=`
    Set,
    /// `+=`
    Add,
    /// `-=`
    Subtract,
}

/// An operator that adds or takes one.
#[derive(Clone, Copy)]
pub enum StepOperator {
    /// `++`
    Increment,
    /// `--`
    Decrement,
}

/// On which side of its target an operator stands.
#[derive(Clone, Copy)]
pub enum StepSide {
    Before,
    After,
}

/// An assignment without the semicolon behind it.
#[derive(Drop)]
pub enum Assignment {
    Store {
        operator: StoreOperator,
        target: Box<Expr>,
        value: Box<Expr>,
        span: Span,
    },
    Step {
        operator: StepOperator,
        side: StepSide,
        target: Box<Expr>,
        span: Span,
    },
}

/// What stands first in the head of a `for`.
#[derive(Drop)]
pub enum ForInitial {
    Nothing,
    Declare { declaration: Declaration },
    Assign { assignment: Assignment },
}

/// A statement, with the semicolon that ends it.
#[derive(Drop)]
pub enum Stmt {
    Block {
        mark: Option<Mark>,
        statements: Vec<Stmt>,
        span: Span,
    },
    Bundle {
        assignments: Vec<Assignment>,
        span: Span,
    },
    Declare {
        declaration: Declaration,
        span: Span,
    },
    Assign {
        assignment: Assignment,
        span: Span,
    },
    Call {
        call: Box<Expr>,
        span: Span,
    },
    Empty {
        span: Span,
    },
    If {
        condition: Box<Expr>,
        consequent: Box<Stmt>,
        alternative: Option<Box<Stmt>>,
        span: Span,
    },
    While {
        condition: Box<Expr>,
        body: Box<Stmt>,
        span: Span,
    },
    For {
        initial: ForInitial,
        condition: Option<Box<Expr>>,
        step: Option<Assignment>,
        body: Box<Stmt>,
        span: Span,
    },
    Return {
        value: Option<Box<Expr>>,
        span: Span,
    },
    Break {
        span: Span,
    },
    Continue {
        span: Span,
    },
}

impl Initializer {
    /// The bytes that the initial value stands on; those of an expression are without the parentheses around it.
    pub fn span(&self) -> Span
        ensures { result ≡ initializer_span (initializer self.now) }
    {
        match self {
            Initializer::Value { value } => value.span(),
            Initializer::List { span, .. } => *span,
        }
    }
}

impl Assignment {
    /// The bytes that the assignment stands on.
    pub fn span(&self) -> Span
        ensures { result ≡ assignment_span (assignment self.now) }
    {
        match self {
            Assignment::Store { span, .. } => *span,
            Assignment::Step { span, .. } => *span,
        }
    }
}

impl Stmt {
    /// The bytes that the statement stands on.
    pub fn span(&self) -> Span
        ensures { result ≡ statement_span (statement self.now) }
    {
        match self {
            Stmt::Block { span, .. } => *span,
            Stmt::Bundle { span, .. } => *span,
            Stmt::Declare { span, .. } => *span,
            Stmt::Assign { span, .. } => *span,
            Stmt::Call { span, .. } => *span,
            Stmt::Empty { span } => *span,
            Stmt::If { span, .. } => *span,
            Stmt::While { span, .. } => *span,
            Stmt::For { span, .. } => *span,
            Stmt::Return { span, .. } => *span,
            Stmt::Break { span } => *span,
            Stmt::Continue { span } => *span,
        }
    }
}
