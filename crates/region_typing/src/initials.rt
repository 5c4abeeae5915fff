// The cells of file-level variables before the run.

ghost use Rattle.std.specs.Prelude.{◌≡◌, ◌<◌, ◌==◌, ◌++◌, Bool, true, pos, None, Some, length, map, slice_index_or, IfOk, IfSome, OnOk};
ghost use Rattle.ckc_tree.specs.Expressions.{expression as expression_tree};
ghost use Rattle.pointer_modes.specs.Types.{ctype as ctype_of};
ghost use Rattle.ckc_core.specs.Core.{initial as initial_of};
ghost use Rattle.ckc_core.specs.Steps.{low_byte as low_byte_of};
ghost use Rattle.region_typing_rules.specs.Cells.{cells_with as cells_as};
ghost use Rattle.region_typing_rules.specs.Items.{Written, closed as closed_of, are_zeros as are_zeros_in, is_zero_constant as is_zero_in, negative as negative_of, null_number as null_number_of, unsigned_constant as unsigned_of, signed_constant as signed_of, zeros_of};
ghost use Rattle.region_typing_scope.specs.Answering.{Answers};
ghost use Rattle.region_typing_scope.specs.Typed.{typed as typed_view};
ghost use Rattle.region_typing.specs.Initials.{IsSmall, elements_of, judged_numbers, kept_as as kept_as_in, listed, may_be_listed as may_be_listed_for, number_listed, number_more, numbers_listed, judged_as, judged_cells, cell_number as cell_number_as, constant_cells as constant_cells_as, judged as judged_of};

use ckc_core::program::Initial;
use ckc_names_rules::given::Given;
use ckc_text::code::Code;
use ckc_text::fault::NoMemory;
use ckc_text::place::Span;
use ckc_tree::expr::{Expr, UnaryOperator};
use ckc_tree::stmt::{Constant, SignedConstant};
use pointer_modes::ctype::CType;
use pointer_modes::structs::Structs;
use region_typing_scope::context::Context;
use region_typing_scope::initial_cells::{before_end, cells_with, push_cells};
use region_typing_scope::refusals::{CheckError, refusal};
use region_typing_scope::typed::{Typed, is_zero};

/// What a variable is initialised with.
#[derive(Drop)]
pub enum Judged {
    Missing,
    /// The constant 0 or not, and the number where the value is a constant.
    Constant { zero: bool, number: Option<i32> },
    /// The numbers of a list, and whether each is the constant 0.
    List { zeros: bool, numbers: Vec<i32> },
}

// A constant without a sign.
fn unsigned_constant(given: Given, e: &Expr) -> Option<u32>
    ensures { result ≡ unsigned_of given (expression_tree e.now) }
{
    match e {
        Expr::Number { value, .. } => Some(*value),
        Expr::Character { value, .. } => Some(u32::from(*value)),
        Expr::Name { name } => null_number(given, name.number),
        _ => None,
    }
}

// The number that `NULL` is.
fn null_number(given: Given, name: usize) -> Option<u32>
    ensures number { result ≡ null_number_of (name == given.null) }
    ensures zero { IfSome result (λ n. n ≡ 0) }
{
    if name == given.null { Some(0) } else { None }
}

// A number below 2^31.
fn positive(n: u32) -> i32
    requires { n < 2147483648 }
    ensures { result ≡ pos n }
{
    n as i32
}

// The same with a minus before it.
fn negative(n: u32) -> i32
    requires { n < 2147483648 }
    ensures { result ≡ negative_of n }
{
    -(n as i32)
}

// A number with or without a minus.
fn signed_constant(given: Given, e: &Expr) -> Option<i32>
    requires { IsSmall given (expression_tree e.now) }
    ensures { result ≡ signed_of given (expression_tree e.now) }
{
    match e {
        Expr::Number { value, .. } => Some(positive(*value)),
        Expr::Character { value, .. } => Some(positive(u32::from(*value))),
        Expr::Name { name } => Some(positive(null_number(given, name.number)?)),
        Expr::Unary {
            operator: UnaryOperator::Negate,
            operand,
            ..
        } => Some(negative(unsigned_constant(given, operand)?)),
        _ => None,
    }
}

// The constant of a list, of at most 31 bits.
fn listed_number(constant: &SignedConstant) -> Result<i32, CheckError>
    ensures { Answers (λ n. n) (number_listed constant.now) result }
{
    let number = match constant.constant {
        Constant::Number(value) => value,
        Constant::Character(value) => u32::from(value),
    };
    if number >= 1 << 31 {
        return Err(refusal(Code::E04, constant.span));
    }
    if constant.negative {
        Ok(negative(number))
    } else {
        Ok(positive(number))
    }
}

// Pushes the constant of a list.
fn push_number(constant: &SignedConstant, numbers: &mut Vec<i32>) -> Result<(), CheckError>
    ensures { Answers (λ _. numbers.new.items) (number_more numbers.old.items constant.now) result }
{
    let number = listed_number(constant)?;
    numbers.push(number)?;
    Ok(())
}

// The numbers of a list of constants.
fn listed_numbers(context: &Context, constants: &[SignedConstant]) -> Result<Vec<i32>, CheckError>
    ensures { Answers (λ v. v.items) (numbers_listed constants.now) result }
{
    let mut numbers = Vec::new(context.alloc());
    for i in 0..constants.len() {
        push_number(&constants[i], &mut numbers)?;
    }
    Ok(numbers)
}

// Whether a constant of a list is 0 as it stands, without a sign.
fn is_zero_constant(constant: &SignedConstant) -> bool
    ensures { result ≡ is_zero_in constant.now }
{
    !constant.negative && matches!(constant.constant, Constant::Number(0))
}

fn are_zeros(constants: &[SignedConstant]) -> bool
    ensures { result ≡ are_zeros_in constants.now }
{
    constants.iter().all(|constant| is_zero_constant(constant))
}

/// What is judged of a list of constants.
pub fn judged_list(context: &Context, constants: &[SignedConstant]) -> Result<Judged, CheckError>
    ensures { Answers judged_of (judged_numbers constants.now) result }
{
    let numbers = listed_numbers(context, constants)?;
    Ok(Judged::List {
        zeros: are_zeros(constants),
        numbers,
    })
}

/// What is judged of a value.
pub fn judged_value(given: Given, e: &Expr, t: &Typed) -> Judged
    requires { IsSmall given (expression_tree e.now) }
    ensures { judged_of result ≡ judged_as given (Written (expression_tree e.now) (typed_view t.now)) }
{
    Judged::Constant {
        zero: is_zero(t),
        number: signed_constant(given, e),
    }
}

// Pushes the cells of so many elements, each with zeros.
fn push_zeros(
    context: &Context,
    structs: &Structs,
    t: &CType,
    count: u32,
    cells: &mut Vec<Initial>,
) -> Result<(), NoMemory>
    ensures { OnOk result (map initial_of cells.new.items ≡ map initial_of cells.old.items ++ zeros_of count structs.now (ctype_of t.now)) }
{
    let mut left = count;
    while left > 0 {
        push_cells(context, structs, t, 0, cells)?;
        left -= 1;
    }
    Ok(())
}

// A number as an element of a type keeps it.
fn kept_as(t: &CType, number: i32) -> i32
    ensures { result ≡ kept_as_in (ctype_of t.now) number }
{
    match t {
        CType::Char => low_byte(number),
        CType::Int | CType::Struct(_) => number,
        CType::Pointer(..) => 0,
    }
}

// Pushes the cells of an element with one of these numbers.
fn push_element(
    context: &Context,
    structs: &Structs,
    t: &CType,
    numbers: &[i32],
    i: usize,
    cells: &mut Vec<Initial>,
) -> Result<(), NoMemory>
    requires { i < length numbers.now }
    ensures { OnOk result (map initial_of cells.new.items ≡ map initial_of cells.old.items ++ cells_as structs.now (ctype_of t.now)
        (kept_as_in (ctype_of t.now) (slice_index_or numbers.now i (pos 0)))) }
{
    push_cells(context, structs, t, kept_as(t, numbers[i]), cells)
}

// Pushes the cells of elements with these numbers.
fn push_elements(
    context: &Context,
    structs: &Structs,
    t: &CType,
    numbers: &[i32],
    cells: &mut Vec<Initial>,
) -> Result<(), NoMemory>
    ensures { OnOk result (map initial_of cells.new.items ≡ map initial_of cells.old.items ++ elements_of structs.now (ctype_of t.now) numbers.now) }
{
    for i in 0..numbers.len() {
        push_element(context, structs, t, numbers, i, cells)?;
    }
    Ok(())
}

// The cells of so many elements, of which the first have these numbers.
fn elements_with(
    context: &Context,
    structs: &Structs,
    t: &CType,
    zeros: u32,
    numbers: &[i32],
) -> Result<Vec<Initial>, NoMemory>
    ensures { IfOk result (λ v. map initial_of v.items ≡ elements_of structs.now (ctype_of t.now) numbers.now ++ zeros_of zeros structs.now (ctype_of t.now)) }
{
    let mut cells = Vec::new(context.alloc());
    push_elements(context, structs, t, numbers, &mut cells)?;
    push_zeros(context, structs, t, zeros, &mut cells)?;
    Ok(cells)
}

// Whether a list may stand for elements of a type: any for numbers, one of zeros for pointers.
fn may_be_listed(t: &CType, zeros: bool) -> bool
    ensures { result ≡ may_be_listed_for (ctype_of t.now) zeros }
{
    match t {
        CType::Int | CType::Char => true,
        CType::Struct(_) => false,
        CType::Pointer(..) => zeros,
    }
}

// The cells of an array that is initialised with a list.
fn listed_cells(
    context: &Context,
    structs: &Structs,
    t: &CType,
    count: u32,
    zeros: bool,
    numbers: &[i32],
    span: Span,
) -> Result<Vec<Initial>, CheckError>
    ensures { Answers (λ v. map initial_of v.items) (listed structs.now (ctype_of t.now) count zeros numbers.now span) result }
{
    if !may_be_listed(t, zeros) || numbers.len() > count as usize {
        return Err(refusal(Code::E13, span));
    }
    let rest = count - numbers.len() as u32;
    Ok(elements_with(context, structs, t, rest, numbers)?)
}

// What the cells of a type hold by a value, if it may stand for them: the number of a constant, or null.
fn cell_number(t: &CType, zero: bool, number: Option<i32>) -> Option<i32>
    ensures { result ≡ cell_number_as (ctype_of t.now) zero number }
{
    match t {
        CType::Int => number,
        CType::Char => Some(low_byte(number?)),
        CType::Struct(_) => None,
        CType::Pointer(..) => { if zero { Some(0) } else { None } }
    }
}

// The cells of a variable that is initialised with a value.
fn constant_cells(
    context: &Context,
    structs: &Structs,
    t: &CType,
    zero: bool,
    number: Option<i32>,
    span: Span,
) -> Result<Vec<Initial>, CheckError>
    ensures { Answers (λ v. map initial_of v.items) (constant_cells_as structs.now (ctype_of t.now) zero number span) result }
{
    match cell_number(t, zero, number) {
        None => Err(refusal(Code::E13, span)),
        Some(n) => Ok(cells_with(context, structs, t, n)?),
    }
}

// The cells of a variable that is no array.
fn value_cells(
    context: &Context,
    structs: &Structs,
    t: &CType,
    initial: &Judged,
    span: Span,
) -> Result<Vec<Initial>, CheckError>
    ensures { (ended : Bool) → Answers (λ v. map initial_of v.items) (judged_cells structs.now (ctype_of t.now) None ended
        (judged_of initial.now) span) result }
{
    match initial {
        Judged::Missing => Ok(cells_with(context, structs, t, 0)?),
        Judged::Constant { zero, number } => constant_cells(
            context, structs, t, *zero, *number, span,
        ),
        Judged::List { .. } => Err(refusal(Code::E13, span)),
    }
}

// The cells of elements that are listed, with the zero that ends them, where one does.
fn closed(
    context: &Context,
    structs: &Structs,
    t: &CType,
    ended: bool,
    listed: Vec<Initial>,
) -> Result<Vec<Initial>, NoMemory>
    ensures { IfOk result (λ v. map initial_of v.items ≡ closed_of ended structs.now (ctype_of t.now) (map initial_of listed.items)) }
{
    let mut cells = listed;
    if ended {
        push_zeros(context, structs, t, 1, &mut cells)?;
    }
    Ok(cells)
}

// The cells of an array of so many elements, of which the last one may be the zero that ends it.
fn array_cells(
    context: &Context,
    structs: &Structs,
    t: &CType,
    count: u32,
    ended: bool,
    initial: &Judged,
    span: Span,
) -> Result<Vec<Initial>, CheckError>
    ensures { Answers (λ v. map initial_of v.items) (judged_cells structs.now (ctype_of t.now) (Some count) ended (judged_of initial.now) span) result }
{
    match initial {
        Judged::Missing => Ok(elements_with(context, structs, t, count, &[])?),
        Judged::Constant { .. } => Err(refusal(Code::E13, span)),
        Judged::List { zeros, numbers } => {
            let count = before_end(ended, count);
            let cells = listed_cells(context, structs, t, count, *zeros, numbers.as_slice(), span)?;
            Ok(closed(context, structs, t, ended, cells)?)
        }
    }
}

/// The cells of a variable, or of so many elements, which a zero ends or not, by what it is initialised with.
pub fn cells_of(
    context: &Context,
    structs: &Structs,
    t: &CType,
    count: Option<u32>,
    ended: bool,
    initial: &Judged,
    span: Span,
) -> Result<Vec<Initial>, CheckError>
    ensures { Answers (λ v. map initial_of v.items) (judged_cells structs.now (ctype_of t.now) count ended (judged_of initial.now) span) result }
{
    match count {
        None => value_cells(context, structs, t, initial, span),
        Some(count) => array_cells(context, structs, t, count, ended, initial, span),
    }
}

// A number modulo 256.
fn low_byte(number: i32) -> i32
    ensures { result ≡ low_byte_of number }
{
    number & 255
}
