// What stands at file level, and the whole source.

ghost use Rattle.std.specs.Prelude.{◌≡◌};
ghost use Rattle.ckc_tree.specs.Items.{result_form, item};
ghost use Rattle.ckc_tree.specs.Placement.{result_span, item_span};

use crate::expr::BoundsText;
use crate::identifier::Identifier;
use crate::stmt::{Declarator, Mark, Stmt};
use crate::type_form::{TypeForm, TypeName};
use ckc_text::place::Span;

/// Whether what stands from here on is checked.
#[derive(Clone, Copy)]
pub enum Region {
    On,
    Off,
}

/// A member of a struct, with the semicolon behind it.
#[derive(Drop)]
pub struct Member {
    pub type_name: TypeName,
    pub name: Identifier,
    pub bounds: Option<BoundsText>,
    pub span: Span,
}

/// The declaration of a struct, which has at least one member.
#[derive(Drop)]
pub struct Structure {
    pub tainted: bool,
    pub tag: Identifier,
    pub members: Vec<Member>,
    pub span: Span,
}

/// The declaration of at least one file-level variable.
#[derive(Drop)]
pub struct Global {
    pub tainted: bool,
    pub base: TypeForm,
    pub declarators: Vec<Declarator>,
    pub span: Span,
}

/// On which side of the boundary a function runs, and who calls it.
#[derive(Clone, Copy)]
pub enum FunctionKind {
    Trusted,
    Tainted,
    Callback,
}

/// What a function returns, without stars.
#[derive(Drop)]
pub enum ResultForm {
    Void { span: Span },
    Value { base: TypeForm },
}

/// A parameter of a function.
#[derive(Drop)]
pub struct Parameter {
    pub type_name: TypeName,
    pub name: Identifier,
    pub bounds: Option<BoundsText>,
    pub span: Span,
}

/// What stands between the parentheses of a function: nothing, `void`, or at least one parameter.
#[derive(Drop)]
pub enum Parameters {
    Nothing,
    Void,
    Listed { parameters: Vec<Parameter> },
}

/// The body of a function.
#[derive(Drop)]
pub struct Block {
    pub mark: Option<Mark>,
    pub statements: Vec<Stmt>,
    pub span: Span,
}

/// A function, with its body if it has one.
#[derive(Drop)]
pub struct Function {
    pub kind: FunctionKind,
    pub mark: Option<Mark>,
    pub result: ResultForm,
    pub stars: usize,
    pub name: Identifier,
    pub parameters: Parameters,
    pub bounds: Option<BoundsText>,
    pub body: Option<Block>,
    pub span: Span,
}

/// What stands at file level.
#[derive(Drop)]
pub enum Item {
    Region { region: Region, span: Span },
    Structure { structure: Structure },
    Global { global: Global },
    Function { function: Function },
}

/// A whole source.
#[derive(Drop)]
pub struct Program {
    pub items: Vec<Item>,
    /// From the first byte of the source to its last.
    pub span: Span,
}

impl ResultForm {
    /// The bytes that the type or the `void` stands on.
    pub fn span(&self) -> Span
        ensures { result ≡ result_span (result_form self.now) }
    {
        match self {
            ResultForm::Void { span } => *span,
            ResultForm::Value { base } => base.span(),
        }
    }
}

impl Item {
    /// The bytes that the item stands on.
    pub fn span(&self) -> Span
        ensures { result ≡ item_span (item self.now) }
    {
        match self {
            Item::Region { span, .. } => *span,
            Item::Structure { structure } => structure.span,
            Item::Global { global } => global.span,
            Item::Function { function } => function.span,
        }
    }
}
