// The lines that say that a source is accepted, or why a program or a listing wasn't run, or why its run broke off.

ghost use Rattle.std.specs.Prelude.{◌≡◌, IfOk};
ghost use Rattle.act_recorder.specs.Diagnostics.{accepted_text, refused_text, act_refused_text, missing_text, listing_refused_text, unfit_text, usage_text};

use ckc_text::code::Code;
use ckc_text::fault::NoMemory;
use ckc_text::place::Place;
use std::alloc::Global;

/// The line of an accepted source, all of whose code is checked.
pub fn accepted_line(alloc: Global) -> Result<Vec<u8>, NoMemory>
    ensures { IfOk result (λ text. text.items ≡ accepted_text) }
{
    let text = "[accepted all checked]\n";
    Ok(Vec::from_slice(alloc, text.as_bytes())?)
}

/// The line of a refused source.
pub fn refused_line(alloc: Global, code: Code, place: Place) -> Result<Vec<u8>, NoMemory>
    ensures { IfOk result (λ text. text.items ≡ refused_text code place) }
{
    let number = code.number();
    let Place { line, col } = place;
    let name = code.text();
    Ok(format!(in alloc; "[refused {number} {line}:{col} {name}]\n")?.into_bytes())
}

/// The line of a refused line of acts, which has this number.
pub fn act_refused_line(alloc: Global, line: u64, code: Code) -> Result<Vec<u8>, NoMemory>
    ensures { IfOk result (λ text. text.items ≡ act_refused_text line code) }
{
    let number = code.number();
    let name = code.text();
    Ok(format!(in alloc; "[act line {line} {number} {name}]\n")?.into_bytes())
}

/// The line of a file that isn't there.
pub fn missing_line(alloc: Global, name: &str) -> Result<Vec<u8>, NoMemory>
    ensures { IfOk result (λ text. text.items ≡ missing_text name.now) }
{
    Ok(format!(in alloc; "[missing {name}]\n")?.into_bytes())
}

/// The line of a listing that is refused at the line of this number.
pub fn listing_refused_line(alloc: Global, line: u32) -> Result<Vec<u8>, NoMemory>
    ensures { IfOk result (λ text. text.items ≡ listing_refused_text line) }
{
    Ok(format!(in alloc; "[listing line {line}]\n")?.into_bytes())
}

/// The line of a listing whose image doesn't fit the settings.
pub fn unfit_line(alloc: Global) -> Result<Vec<u8>, NoMemory>
    ensures { IfOk result (λ text. text.items ≡ unfit_text) }
{
    let text = "[listing unfit]\n";
    Ok(Vec::from_slice(alloc, text.as_bytes())?)
}

/// The line for words that spell no request.
pub fn usage_line(alloc: Global) -> Result<Vec<u8>, NoMemory>
    ensures { IfOk result (λ text. text.items ≡ usage_text) }
{
    let text = "[usage] ccbox check|split|run|record|big|exec\n";
    Ok(Vec::from_slice(alloc, text.as_bytes())?)
}
