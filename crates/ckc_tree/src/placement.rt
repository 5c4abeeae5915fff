// A walk over the spans of a tree: those of the parts of a form stand in order, and in that of the form.

ghost use Rattle.std.specs.Prelude.{◌≡◌, ◌↔◌, IsTrue, map};
ghost use Rattle.std.specs.Option.{option_map};
ghost use Rattle.ckc_tree.specs.Types.{type_tree};
ghost use Rattle.ckc_tree.specs.Expressions.{expression as expression_of, bounds as bounds_of};
ghost use Rattle.ckc_tree.specs.Statements.{initializer as initializer_of, declarator as declarator_of, declaration as declaration_of, assignment as assignment_of, for_initial, on_heap, statement as statement_of};
ghost use Rattle.ckc_tree.specs.Items.{member as member_of, parameter as parameter_of, parameters as parameters_of, structure as structure_of, global as global_of, result_form, statement_list, body as body_of, function as function_of, item as item_of, tree};
ghost use Rattle.ckc_tree.specs.Placement.{IsPlaced};
ghost use Rattle.ckc_tree.specs.Walks as walks;

use crate::cursor::Cursor;
use crate::expr::{BoundsText, Expr};
use crate::item::{
    Block, Function, Global, Item, Member, Parameter, Parameters, Program, ResultForm, Structure,
};
use crate::stmt::{
    ArrayForm, Assignment, Declaration, Declarator, ForInitial, Initializer, SignedConstant, Stmt,
};
use crate::type_form::{TypeForm, TypeName};
use ckc_text::place::Span;

fn walk_type(cursor: &mut Cursor, base: &TypeForm)
    ensures { cursor.new ≡ walks.type_walked (type_tree base.now) cursor.old }
{
    match base {
        TypeForm::Int { span } => cursor.pass(*span),
        TypeForm::Char { span } => cursor.pass(*span),
        TypeForm::Struct { tag, span } => {
            cursor.enter(*span);
            cursor.pass(tag.span);
            cursor.leave(*span);
        }
        TypeForm::Pointer { element, span, .. } => {
            cursor.enter(*span);
            walk_type(cursor, element);
            cursor.leave(*span);
        }
    }
}

#[cycle(expressions)]
fn walk_expression(cursor: &mut Cursor, expr: &Expr)
    ensures { cursor.new ≡ walks.expression_walked (expression_of expr.now) cursor.old }
{
    let span = expr.span();
    cursor.enter(span);
    walk_parts_of_expression(cursor, expr);
    cursor.leave(span);
}

#[cycle(expressions)]
fn walk_parts_of_expression(cursor: &mut Cursor, expr: &Expr)
    ensures { cursor.new ≡ walks.expression_parts (expression_of expr.now) cursor.old }
{
    match expr {
        Expr::Number { .. } => {}
        Expr::Character { .. } => {}
        Expr::Text { .. } => {}
        Expr::Name { .. } => {}
        Expr::Call {
            callee,
            arguments,
            ..
        } => {
            cursor.pass(callee.span);
            walk_arguments(cursor, arguments.as_slice());
        }
        Expr::SizeOf { type_name, .. } => walk_type(cursor, &type_name.base),
        Expr::Cast {
            type_name,
            operand,
            bounds,
            ..
        } => {
            walk_type(cursor, &type_name.base);
            walk_expression(cursor, operand);
            match bounds {
                None => {}
                Some(bounds) => walk_bounds(cursor, bounds),
            }
        }
        Expr::Malloc {
            type_name,
            size,
            ..
        } => {
            walk_type(cursor, &type_name.base);
            walk_expression(cursor, size);
        }
        Expr::Calloc {
            type_name,
            count,
            size,
            ..
        } => {
            walk_type(cursor, &type_name.base);
            walk_expression(cursor, count);
            walk_expression(cursor, size);
        }
        Expr::Index { base, index, .. } => {
            walk_expression(cursor, base);
            walk_expression(cursor, index);
        }
        Expr::Dot { base, member, .. } => {
            walk_expression(cursor, base);
            cursor.pass(member.span);
        }
        Expr::Arrow { base, member, .. } => {
            walk_expression(cursor, base);
            cursor.pass(member.span);
        }
        Expr::Unary { operand, .. } => walk_expression(cursor, operand),
        Expr::Binary { left, right, .. } => {
            walk_expression(cursor, left);
            walk_expression(cursor, right);
        }
    }
}

#[cycle(expressions)]
fn walk_arguments(cursor: &mut Cursor, arguments: &[Expr])
    ensures { cursor.new ≡ walks.arguments_walked (walks.expression_list arguments.now) cursor.old }
{
    for argument in arguments {
        walk_expression(cursor, argument);
    }
}

#[cycle(expressions)]
fn walk_bounds(cursor: &mut Cursor, bounds: &BoundsText)
    ensures { cursor.new ≡ walks.bounds_walked (bounds_of bounds.now) cursor.old }
{
    let span = bounds.span();
    cursor.enter(span);
    walk_parts_of_bounds(cursor, bounds);
    cursor.leave(span);
}

#[cycle(expressions)]
fn walk_parts_of_bounds(cursor: &mut Cursor, bounds: &BoundsText)
    ensures { cursor.new ≡ walks.bounds_parts (bounds_of bounds.now) cursor.old }
{
    match bounds {
        BoundsText::Count { count, .. } => walk_expression(cursor, count),
        BoundsText::ByteCount { count, .. } => walk_expression(cursor, count),
        BoundsText::Unknown { .. } => {}
        BoundsText::Range { low, high, .. } => {
            walk_expression(cursor, low);
            walk_expression(cursor, high);
        }
    }
}

fn walk_optional_bounds(cursor: &mut Cursor, bounds: &Option<BoundsText>)
    ensures { cursor.new ≡ walks.optional_walked walks.bounds_walked (option_map bounds_of bounds.now) cursor.old }
{
    match bounds {
        None => {}
        Some(bounds) => walk_bounds(cursor, bounds),
    }
}

fn walk_constants(cursor: &mut Cursor, constants: &[SignedConstant])
    ensures { cursor.new ≡ walks.each_walked walks.constant_walked constants.now cursor.old }
{
    for constant in constants {
        cursor.pass(constant.span);
    }
}

fn walk_optional_initializer(cursor: &mut Cursor, initializer: &Option<Initializer>)
    ensures { cursor.new ≡ walks.optional_walked walks.initializer_walked (option_map initializer_of initializer.now) cursor.old }
{
    match initializer {
        None => {}
        Some(Initializer::Value { value }) => walk_expression(cursor, value),
        Some(Initializer::List { constants, span }) => {
            cursor.enter(*span);
            walk_constants(cursor, constants.as_slice());
            cursor.leave(*span);
        }
    }
}

fn walk_optional_array(cursor: &mut Cursor, array: &Option<ArrayForm>)
    ensures { cursor.new ≡ walks.optional_walked walks.array_walked array.now cursor.old }
{
    match array {
        None => {}
        Some(array) => cursor.pass(array.span),
    }
}

fn walk_declarator(cursor: &mut Cursor, declarator: &Declarator)
    ensures { cursor.new ≡ walks.declarator_walked (declarator_of declarator.now) cursor.old }
{
    cursor.enter(declarator.span);
    cursor.pass(declarator.name.span);
    walk_optional_array(cursor, &declarator.array);
    walk_optional_bounds(cursor, &declarator.bounds);
    walk_optional_initializer(cursor, &declarator.initializer);
    cursor.leave(declarator.span);
}

fn walk_declarators(cursor: &mut Cursor, declarators: &[Declarator])
    ensures { cursor.new ≡ walks.each_walked walks.declarator_walked (map declarator_of declarators.now) cursor.old }
{
    for declarator in declarators {
        walk_declarator(cursor, declarator);
    }
}

fn walk_declaration(cursor: &mut Cursor, declaration: &Declaration)
    ensures { cursor.new ≡ walks.declaration_walked (declaration_of declaration.now) cursor.old }
{
    cursor.enter(declaration.span);
    walk_type(cursor, &declaration.base);
    walk_declarators(cursor, declaration.declarators.as_slice());
    cursor.leave(declaration.span);
}

fn walk_assignment(cursor: &mut Cursor, assignment: &Assignment)
    ensures { cursor.new ≡ walks.assignment_walked (assignment_of assignment.now) cursor.old }
{
    match assignment {
        Assignment::Store {
            target,
            value,
            span,
            ..
        } => {
            cursor.enter(*span);
            walk_expression(cursor, target);
            walk_expression(cursor, value);
            cursor.leave(*span);
        }
        Assignment::Step { target, span, .. } => {
            cursor.enter(*span);
            walk_expression(cursor, target);
            cursor.leave(*span);
        }
    }
}

fn walk_assignments(cursor: &mut Cursor, assignments: &[Assignment])
    ensures { cursor.new ≡ walks.each_walked walks.assignment_walked (map assignment_of assignments.now) cursor.old }
{
    for assignment in assignments {
        walk_assignment(cursor, assignment);
    }
}

fn walk_initial(cursor: &mut Cursor, initial: &ForInitial)
    ensures { cursor.new ≡ walks.initial_walked (for_initial initial.now) cursor.old }
{
    match initial {
        ForInitial::Nothing => {}
        ForInitial::Declare { declaration } => walk_declaration(cursor, declaration),
        ForInitial::Assign { assignment } => walk_assignment(cursor, assignment),
    }
}

fn walk_optional_expression(cursor: &mut Cursor, expr: &Option<Box<Expr>>)
    ensures { cursor.new ≡ walks.optional_walked walks.expression_walked (option_map on_heap expr.now) cursor.old }
{
    match expr {
        None => {}
        Some(expr) => walk_expression(cursor, expr),
    }
}

fn walk_optional_assignment(cursor: &mut Cursor, assignment: &Option<Assignment>)
    ensures { cursor.new ≡ walks.optional_walked walks.assignment_walked (option_map assignment_of assignment.now) cursor.old }
{
    match assignment {
        None => {}
        Some(assignment) => walk_assignment(cursor, assignment),
    }
}

#[cycle(statements)]
fn walk_statement(cursor: &mut Cursor, stmt: &Stmt)
    ensures { cursor.new ≡ walks.statement_walked (statement_of stmt.now) cursor.old }
{
    let span = stmt.span();
    cursor.enter(span);
    walk_parts_of_statement(cursor, stmt);
    cursor.leave(span);
}

#[cycle(statements)]
fn walk_parts_of_statement(cursor: &mut Cursor, stmt: &Stmt)
    ensures { cursor.new ≡ walks.statement_parts (statement_of stmt.now) cursor.old }
{
    match stmt {
        Stmt::Block { statements, .. } => walk_statements(cursor, statements.as_slice()),
        Stmt::Bundle { assignments, .. } => walk_assignments(cursor, assignments.as_slice()),
        Stmt::Declare { declaration, .. } => walk_declaration(cursor, declaration),
        Stmt::Assign { assignment, .. } => walk_assignment(cursor, assignment),
        Stmt::Call { call, .. } => walk_expression(cursor, call),
        Stmt::Empty { .. } => {}
        Stmt::If {
            condition,
            consequent,
            alternative,
            ..
        } => {
            walk_expression(cursor, condition);
            walk_statement(cursor, consequent);
            match alternative {
                None => {}
                Some(alternative) => walk_statement(cursor, alternative),
            }
        }
        Stmt::While {
            condition,
            body,
            ..
        } => {
            walk_expression(cursor, condition);
            walk_statement(cursor, body);
        }
        Stmt::For {
            initial,
            condition,
            step,
            body,
            ..
        } => {
            walk_initial(cursor, initial);
            walk_optional_expression(cursor, condition);
            walk_optional_assignment(cursor, step);
            walk_statement(cursor, body);
        }
        Stmt::Return { value, .. } => walk_optional_expression(cursor, value),
        Stmt::Break { .. } => {}
        Stmt::Continue { .. } => {}
    }
}

#[cycle(statements)]
fn walk_statements(cursor: &mut Cursor, statements: &[Stmt])
    ensures { cursor.new ≡ walks.statements_walked (statement_list statements.now) cursor.old }
{
    for stmt in statements {
        walk_statement(cursor, stmt);
    }
}

// What members and parameters have in common.
fn walk_declared(
    cursor: &mut Cursor,
    span: Span,
    type_name: &TypeName,
    name: Span,
    bounds: &Option<BoundsText>,
)
    ensures { cursor.new ≡ walks.declared_walked span (type_tree type_name.now.base) name (option_map bounds_of bounds.now) cursor.old }
{
    cursor.enter(span);
    walk_type(cursor, &type_name.base);
    cursor.pass(name);
    walk_optional_bounds(cursor, bounds);
    cursor.leave(span);
}

fn walk_members(cursor: &mut Cursor, members: &[Member])
    ensures { cursor.new ≡ walks.each_walked walks.member_walked (map member_of members.now) cursor.old }
{
    for member in members {
        walk_declared(
            cursor,
            member.span,
            &member.type_name,
            member.name.span,
            &member.bounds,
        );
    }
}

fn walk_parameters(cursor: &mut Cursor, parameters: &Parameters)
    ensures { cursor.new ≡ walks.parameters_walked (parameters_of parameters.now) cursor.old }
{
    match parameters {
        Parameters::Nothing => {}
        Parameters::Void => {}
        Parameters::Listed { parameters } => walk_listed(cursor, parameters.as_slice()),
    }
}

fn walk_listed(cursor: &mut Cursor, parameters: &[Parameter])
    ensures { cursor.new ≡ walks.each_walked walks.member_walked (map parameter_of parameters.now) cursor.old }
{
    for parameter in parameters {
        walk_declared(
            cursor,
            parameter.span,
            &parameter.type_name,
            parameter.name.span,
            &parameter.bounds,
        );
    }
}

fn walk_result(cursor: &mut Cursor, form: &ResultForm)
    ensures { cursor.new ≡ walks.result_walked (result_form form.now) cursor.old }
{
    match form {
        ResultForm::Void { span } => cursor.pass(*span),
        ResultForm::Value { base } => walk_type(cursor, base),
    }
}

fn walk_optional_body(cursor: &mut Cursor, body: &Option<Block>)
    ensures { cursor.new ≡ walks.optional_walked walks.body_walked (option_map body_of body.now) cursor.old }
{
    match body {
        None => {}
        Some(body) => {
            cursor.enter(body.span);
            walk_statements(cursor, body.statements.as_slice());
            cursor.leave(body.span);
        }
    }
}

fn walk_function(cursor: &mut Cursor, function: &Function)
    ensures { cursor.new ≡ walks.function_walked (function_of function.now) cursor.old }
{
    cursor.enter(function.span);
    walk_result(cursor, &function.result);
    cursor.pass(function.name.span);
    walk_parameters(cursor, &function.parameters);
    walk_optional_bounds(cursor, &function.bounds);
    walk_optional_body(cursor, &function.body);
    cursor.leave(function.span);
}

fn walk_structure(cursor: &mut Cursor, structure: &Structure)
    ensures { cursor.new ≡ walks.structure_walked (structure_of structure.now) cursor.old }
{
    cursor.enter(structure.span);
    cursor.pass(structure.tag.span);
    walk_members(cursor, structure.members.as_slice());
    cursor.leave(structure.span);
}

fn walk_global(cursor: &mut Cursor, global: &Global)
    ensures { cursor.new ≡ walks.global_walked (global_of global.now) cursor.old }
{
    cursor.enter(global.span);
    walk_type(cursor, &global.base);
    walk_declarators(cursor, global.declarators.as_slice());
    cursor.leave(global.span);
}

fn walk_item(cursor: &mut Cursor, item: &Item)
    ensures { cursor.new ≡ walks.item_walked (item_of item.now) cursor.old }
{
    match item {
        Item::Region { span, .. } => cursor.pass(*span),
        Item::Structure { structure } => walk_structure(cursor, structure),
        Item::Global { global } => walk_global(cursor, global),
        Item::Function { function } => walk_function(cursor, function),
    }
}

fn walk_items(cursor: &mut Cursor, items: &[Item])
    ensures { cursor.new ≡ walks.each_walked walks.item_walked (map item_of items.now) cursor.old }
{
    for item in items {
        walk_item(cursor, item);
    }
}

/// Whether the cursor never moves back on its way through a source of `len` bytes.
fn is_placed(program: &Program, len: u32) -> bool
    ensures { result ≡ walks.is_placed len (tree program.now) }
{
    let mut cursor = Cursor::start();
    cursor.enter(program.span);
    walk_items(&mut cursor, program.items.as_slice());
    cursor.leave(program.span);
    cursor.reach(len);
    cursor.in_order
}

impl Program {
    /// Whether each span lies in that of the form around it, those of the parts of a form stand in order, and all lie in
    /// a source of `len` bytes.
    pub fn well_placed(&self, len: u32) -> bool
        ensures { IsTrue result ↔ IsPlaced len (tree self.now) }
    {
        is_placed(self, len)
    }
}
