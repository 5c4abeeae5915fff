// Emitting the image of a program: its static blocks, its functions and the tainted ones.

ghost use Rattle.std.specs.Prelude.{◌≡◌, ◌≤◌, ◌++◌, length, map, option_map, IfOk, OnOk, All};
ghost use Rattle.pointer_modes.specs.Types.{ctype as type_of};
ghost use Rattle.code_words.specs.Formats.{IsFunc, IsImport};
ghost use Rattle.ckc_core.specs.Core.{import_of, object};
ghost use Rattle.check_insertion.specs.Erased.{erased, function};
ghost use Rattle.lowering.specs.Code as code;
ghost use Rattle.lowering.specs.Images.{object_bytes, function_code, functions_from, import_code, imports_from, image_of};
ghost use Rattle.lowering.specs.Correct.{IsFunction, IsLowerable};

use crate::cells::put_cell;
use crate::code_sizes::statements_size;
use crate::instructions::{put, put_two};
use crate::loops::Targets;
use crate::stacks::statements_stack;
use crate::statement_code::emit_statements;
use check_insertion::erased::{Erased, Function};
use ckc_core::program;
use ckc_core::program::Object;
use ckc_text::fault::NoMemory;
use ckc_text::listed::Listed;
use code_words::image::{Blocks, Func, Funs, Image, Import, Imports, Layout, Ops, SideCode};
use code_words::op::Op;
use marshalling::kind::WordKind;
use pointer_modes::ctype::CType;
use std::alloc::Global;

// ---- static blocks

// The bytes of a file-level variable.
fn static_block(alloc: Global, variable: &Object) -> Result<Listed<u8>, NoMemory>
    ensures { IfOk result (λ block. block ≡ object_bytes (object variable.now)) }
{
    let mut bytes = Vec::new(alloc);
    for cell in variable.cells.as_slice() {
        put_cell(&mut bytes, cell)?;
    }
    Ok(Listed::from_vec(bytes))
}

// A static block for each file-level variable.
fn static_blocks(alloc: Global, variables: &[Object]) -> Result<Blocks, NoMemory>
    ensures { IfOk result (λ blocks. blocks ≡ map object_bytes (map object variables.now)) }
{
    let mut blocks = Vec::new(alloc);
    for variable in variables {
        blocks.push(static_block(alloc, variable)?)?;
    }
    Ok(Listed::from_vec(blocks))
}

// ---- functions

// What the word of a type stands for.
fn kind_of(ctype: &CType) -> WordKind
    ensures { result ≡ code.kind_of (type_of ctype.now) }
{
    match ctype {
        CType::Int => WordKind::Int,
        CType::Char => WordKind::Char,
        CType::Struct(_) | CType::Pointer(_, _, _) => WordKind::Pointer,
    }
}

// What a function returns.
fn result_kind(returned: &Option<CType>) -> WordKind
    ensures { result ≡ code.result_kind (option_map type_of returned.now) }
{
    match returned {
        None => WordKind::Void,
        Some(ctype) => kind_of(ctype),
    }
}

// What stands behind a body: 0 or null, or nothing, is returned.
fn emit_ending(ops: &mut Vec<Op>, returned: &Option<CType>) -> Result<(), NoMemory>
    ensures { OnOk result (ops.new.items ≡ ops.old.items ++ code.ending_code (option_map type_of returned.now)) }
{
    match returned {
        None => put(ops, Op::ReturnNothing),
        Some(_) => put_two(ops, Op::Const(0), Op::Return),
    }
}

// The instructions of a function.
fn function_ops(alloc: Global, f: &Function) -> Result<Ops, NoMemory>
    requires { IsFunction (function f.now) }
    ensures { IfOk result (λ ops. ops ≡ code.function_ops (function f.now)) }
{
    let body = f.body.as_slice();
    let end = statements_size(body);
    let targets = Targets {
        scratch: f.locals.len() as u32,
        on_break: end,
        on_continue: end,
    };
    let mut ops = Vec::new(alloc);
    emit_statements(&mut ops, targets, body)?;
    emit_ending(&mut ops, &f.result)?;
    Ok(Listed::from_vec(ops))
}

// A function with its number.
fn emit_function(alloc: Global, number: u32, f: &Function) -> Result<Func, NoMemory>
    requires { IsFunction (function f.now) }
    ensures code { IfOk result (λ func. func ≡ function_code number (function f.now)) }
    ensures function { IfOk result IsFunc }
{
    let name = f.name.copy(alloc)?;
    let ops = function_ops(alloc, f)?;
    let slots = f.locals.len() as u32 + 3;
    let stack = statements_stack(f.body.as_slice()).max(1);
    let returned = result_kind(&f.result);
    Ok(Func::new(number, name, f.parameters, slots, stack, returned, ops))
}

// The functions, which are numbered from 0.
fn emit_functions(alloc: Global, functions: &[Function]) -> Result<Funs, NoMemory>
    requires small { All IsFunction (map function functions.now) }
    requires few { length functions.now ≤ 4096 }
    ensures code { IfOk result (λ funs. funs ≡ functions_from 0 (map function functions.now)) }
    ensures functions { IfOk result (All IsFunc) }
{
    let mut funs = Vec::new(alloc);
    for (index, f) in functions.iter().enumerate() {
        funs.push(emit_function(alloc, index as u32, f)?)?;
    }
    Ok(Listed::from_vec(funs))
}

// A tainted function with its number.
fn tainted_import(alloc: Global, number: u32, f: &program::Import) -> Result<Import, NoMemory>
    requires { f.now.parameters ≤ 16 }
    ensures code { IfOk result (λ import. import ≡ import_code number (import_of f.now)) }
    ensures tainted { IfOk result IsImport }
{
    let name = f.name.copy(alloc)?;
    let returned = result_kind(&f.result);
    Ok(Import::new(number, name, f.parameters, returned))
}

// The tainted functions, which are numbered from 0.
fn tainted_imports(alloc: Global, functions: &[program::Import]) -> Result<Imports, NoMemory>
    requires small { All (λ i. i.parameters ≤ 16) (map import_of functions.now) }
    requires few { length functions.now ≤ 4096 }
    ensures code { IfOk result (λ imports. imports ≡ imports_from 0 (map import_of functions.now)) }
    ensures tainted { IfOk result (All IsImport) }
{
    let mut imports = Vec::new(alloc);
    for (index, f) in functions.iter().enumerate() {
        imports.push(tainted_import(alloc, index as u32, f)?)?;
    }
    Ok(Listed::from_vec(imports))
}

// ---- the whole program

/// The image of a program.
pub fn emit_image(alloc: Global, program: &Erased) -> Result<Image, NoMemory>
    requires { IsLowerable (erased program.now) }
    ensures { IfOk result (λ image. image ≡ image_of (erased program.now)) }
{
    let blocks = static_blocks(alloc, program.objects.as_slice())?;
    let funs = emit_functions(alloc, program.functions.as_slice())?;
    let imports = tainted_imports(alloc, program.imports.as_slice())?;
    Ok(Image {
        trusted: SideCode { blocks, funs },
        sandbox: SideCode {
            blocks: Listed::from_vec(Vec::new(alloc)),
            funs: Listed::from_vec(Vec::new(alloc)),
        },
        layout: Layout {
            imports,
            callbacks: Listed::from_vec(Vec::new(alloc)),
            main: Some(program.main),
        },
    })
}
