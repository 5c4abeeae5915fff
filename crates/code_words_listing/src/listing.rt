// The listing of an image.

ghost use Rattle.std.specs.Prelude.{◌≡◌, ◌++◌, [], map, flat_map, IfOk, OnOk};
ghost use Rattle.code_words_listing.specs.Lines.{TaintedFunction, Parameter, Instruction};
ghost use Rattle.code_words_listing.specs.Listings.{listing, lines_text, block_lines, callback_lines, function_lines, main_lines};

use crate::field::{Field, put_line};
use crate::lines::{
    put_begin, put_block, put_callback, put_import, put_instruction, put_parameter,
};
use ckc_text::fault::NoMemory;
use ckc_text::listed::Listed;
use code_words::image::{Callback, Func, Image, Import};
use code_words::op::Op;
use marshalling::signature::Param;
use std::alloc::Global;

/// The listing of an image. An `Err` means that memory ran out.
pub fn list(alloc: Global, image: &Image) -> Result<Vec<u8>, NoMemory>
    ensures { IfOk result (λ text. text.items ≡ listing image.now) }
{
    let mut out = Vec::new(alloc);
    put_line(
        alloc,
        &mut out,
        "ccbox",
        &[Field::Word("listing"), Field::Word("1")],
    )?;
    put_line(alloc, &mut out, "trusted", &[])?;
    put_blocks(alloc, &mut out, image.trusted_blocks())?;
    put_imports(alloc, &mut out, image.imports())?;
    put_callbacks(alloc, &mut out, image.callbacks())?;
    put_functions(alloc, &mut out, image.functions())?;
    put_main(alloc, &mut out, image.main())?;
    put_line(alloc, &mut out, "sandbox", &[])?;
    put_blocks(alloc, &mut out, image.sandbox_blocks())?;
    put_functions(alloc, &mut out, image.sandbox.funs.as_slice())?;
    put_line(alloc, &mut out, "close", &[])?;
    Ok(out)
}

// Static blocks, which are numbered from 0.
fn put_blocks(alloc: Global, out: &mut Vec<u8>, blocks: &[Listed<u8>]) -> Result<(), NoMemory>
    ensures { OnOk result (out.new.items ≡ out.old.items ++ lines_text (block_lines 0 blocks.now)) }
{
    for (number, block) in blocks.iter().enumerate() {
        put_block(alloc, out, number, block.as_slice())?;
    }
    Ok(())
}

fn put_imports(alloc: Global, out: &mut Vec<u8>, imports: &[Import]) -> Result<(), NoMemory>
    ensures { OnOk result (out.new.items ≡ out.old.items ++ lines_text (map TaintedFunction imports.now)) }
{
    for import in imports {
        put_import(alloc, out, import)?;
    }
    Ok(())
}

fn put_callbacks(alloc: Global, out: &mut Vec<u8>, callbacks: &[Callback]) -> Result<(), NoMemory>
    ensures { OnOk result (out.new.items ≡ out.old.items ++ lines_text (flat_map callback_lines callbacks.now)) }
{
    for callback in callbacks {
        put_callback_lines(alloc, out, callback)?;
    }
    Ok(())
}

// A callback with its parameters.
#[tactic(auto, using(crate::proofs::Written::lines_text_append))]
fn put_callback_lines(alloc: Global, out: &mut Vec<u8>, callback: &Callback) -> Result<(), NoMemory>
    ensures { OnOk result (out.new.items ≡ out.old.items ++ lines_text (callback_lines callback.now)) }
{
    put_callback(alloc, out, callback)?;
    put_parameters(alloc, out, callback.signature.as_slice())
}

fn put_parameters(alloc: Global, out: &mut Vec<u8>, params: &[Param]) -> Result<(), NoMemory>
    ensures { OnOk result (out.new.items ≡ out.old.items ++ lines_text (map Parameter params.now)) }
{
    for param in params {
        put_parameter(alloc, out, *param)?;
    }
    Ok(())
}

fn put_functions(alloc: Global, out: &mut Vec<u8>, funs: &[Func]) -> Result<(), NoMemory>
    ensures { OnOk result (out.new.items ≡ out.old.items ++ lines_text (flat_map function_lines funs.now)) }
{
    for f in funs {
        put_function(alloc, out, f)?;
    }
    Ok(())
}

// A function with its instructions.
#[tactic(auto, using(crate::proofs::Written::lines_text_append))]
fn put_function(alloc: Global, out: &mut Vec<u8>, f: &Func) -> Result<(), NoMemory>
    ensures { OnOk result (out.new.items ≡ out.old.items ++ lines_text (function_lines f.now)) }
{
    put_begin(alloc, out, f)?;
    put_instructions(alloc, out, f.ops())?;
    put_line(alloc, out, "end", &[])
}

fn put_instructions(alloc: Global, out: &mut Vec<u8>, ops: &[Op]) -> Result<(), NoMemory>
    ensures { OnOk result (out.new.items ≡ out.old.items ++ lines_text (map Instruction ops.now)) }
{
    for op in ops {
        put_instruction(alloc, out, *op)?;
    }
    Ok(())
}

fn put_main(alloc: Global, out: &mut Vec<u8>, number: Option<u32>) -> Result<(), NoMemory>
    ensures { OnOk result (out.new.items ≡ out.old.items ++ lines_text (main_lines number)) }
{
    match number {
        Some(number) => put_line(alloc, out, "main", &[Field::Number(u64::from(number))]),
        None => Ok(()),
    }
}
