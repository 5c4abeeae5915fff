// From acts to the lines of an act file.

ghost use Rattle.std.specs.Prelude.{◌≡◌, IfOk, string_bytes};
ghost use Rattle.act_words.specs.Acts.{act_view, Read, Write, Call, Return};
ghost use Rattle.act_words.specs.Lines.{listed, act_line};

use crate::act::Act;
use ckc_text::fault::NoMemory;
use std::alloc::Global;
use std::fmt::Write as _;

/// The line of an act, with its line feed.
pub fn write_act(alloc: Global, act: &Act) -> Result<Vec<u8>, NoMemory>
    ensures line { IfOk result (λ text. text.items ≡ act_line (act_view act.now)) }
{
    match act {
        Act::Go => Ok(Vec::from_slice(alloc, b"{\"act\":\"go\"}\n")?),
        Act::Read { at, len } => read_line(alloc, *at, len.number),
        Act::Write { at, bytes } => write_line(alloc, *at, bytes.octets.as_slice()),
        Act::Call { fun, args } => call_line(alloc, *fun, args.as_slice()),
        Act::Return { value } => return_line(alloc, *value),
        Act::Stop => Ok(Vec::from_slice(alloc, b"{\"act\":\"stop\"}\n")?),
    }
}

fn read_line(alloc: Global, at: u32, len: u32) -> Result<Vec<u8>, NoMemory>
    ensures { IfOk result (λ text. text.items ≡ act_line (Read at len)) }
{
    Ok(format!(in alloc; "{{\"act\":\"read\",\"at\":{at},\"len\":{len}}}\n")?.into_bytes())
}

fn write_line(alloc: Global, at: u32, bytes: &[u8]) -> Result<Vec<u8>, NoMemory>
    ensures { IfOk result (λ text. text.items ≡ act_line (Write at bytes.now)) }
{
    let hex = hex::encode(alloc, bytes)?;
    Ok(format!(in alloc; "{{\"act\":\"write\",\"at\":{at},\"hex\":\"{hex}\"}}\n")?.into_bytes())
}

fn call_line(alloc: Global, fun: u32, args: &[u32]) -> Result<Vec<u8>, NoMemory>
    ensures { IfOk result (λ text. text.items ≡ act_line (Call fun args.now)) }
{
    let args = numbers_text(alloc, args)?;
    Ok(format!(in alloc; "{{\"act\":\"call\",\"args\":[{args}],\"fun\":{fun}}}\n")?.into_bytes())
}

fn return_line(alloc: Global, value: u32) -> Result<Vec<u8>, NoMemory>
    ensures { IfOk result (λ text. text.items ≡ act_line (Return value)) }
{
    Ok(format!(in alloc; "{{\"act\":\"return\",\"value\":{value}}}\n")?.into_bytes())
}

/// The numbers in decimal, with commas between.
pub fn numbers_text(alloc: Global, numbers: &[u32]) -> Result<String, NoMemory>
    ensures { IfOk result (λ text. string_bytes text ≡ listed numbers.now) }
{
    let Some((first, rest)) = numbers.split_first() else {
        return Ok(String::new(alloc));
    };
    let mut text = format!(in alloc; "{first}")?;
    for number in rest {
        write!(text, ",{number}")?;
    }
    Ok(text)
}
