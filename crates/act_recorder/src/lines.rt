// What is seen and what is released, as lines of JSON.

ghost use Rattle.std.specs.Prelude.{◌≡◌, ◌++◌, codes, decimal, IfOk};
ghost use Rattle.hex.specs.Hex.{encode_lower};
ghost use Rattle.act_words.specs.Acts.{seen_view, release_view};
ghost use Rattle.act_words.specs.Lines.{listed};
ghost use Rattle.act_recorder.specs.Lines.{seen_text, release_text, output_line, block_text};

use act_words::act::{Release, Seen};
use act_words::writing::numbers_text;
use ckc_text::fault::NoMemory;
use std::alloc::Global;

/// The line of what the sandbox is shown, with its line feed.
pub fn seen_line(alloc: Global, seen: &Seen) -> Result<Vec<u8>, NoMemory>
    ensures line { IfOk result (λ text. text.items ≡ seen_text (seen_view seen.now)) }
{
    match *seen {
        Seen::Bytes { at, bytes } => bytes_line(alloc, at, bytes.as_slice(), "\"seen\":\"bytes\""),
        Seen::Called { fun, args } => call_line(alloc, fun, args.as_slice(), "\"seen\":\"called\""),
        Seen::Replied { value } => reply_line(alloc, "\"seen\":\"replied\"", value),
    }
}

/// The line of a release, with its line feed.
pub fn release_line(alloc: Global, release: &Release) -> Result<Vec<u8>, NoMemory>
    ensures line { IfOk result (λ text. text.items ≡ release_text (release_view release.now)) }
{
    match *release {
        Release::Looked => Ok(Vec::from_slice(alloc, b"{\"release\":\"looked\"}\n")?),
        Release::Wrote { at, bytes } => {
            bytes_line(alloc, at, bytes.as_slice(), "\"release\":\"wrote\"")
        }
        Release::Passed { fun, args } => {
            call_line(alloc, fun, args.as_slice(), "\"release\":\"passed\"")
        }
        Release::Replied { value } => reply_line(alloc, "\"release\":\"replied\"", value),
    }
}

// The members come in alphabetical order, so `kind` stands last, or before `value`.
fn bytes_line(alloc: Global, at: u32, bytes: &[u8], kind: &str) -> Result<Vec<u8>, NoMemory>
    ensures { IfOk result (λ text. text.items ≡ codes "{\"at\":" ++ decimal at ++ codes ",\"hex\":\""
        ++ encode_lower bytes.now ++ codes "\"," ++ kind.now ++ codes "}\n") }
{
    let hex = hex::encode(alloc, bytes)?;
    Ok(format!(in alloc; "{{\"at\":{at},\"hex\":\"{hex}\",{kind}}}\n")?.into_bytes())
}

fn call_line(alloc: Global, fun: u32, args: &[u32], kind: &str) -> Result<Vec<u8>, NoMemory>
    ensures { IfOk result (λ text. text.items ≡ codes "{\"args\":[" ++ listed args.now
        ++ codes "],\"fun\":" ++ decimal fun ++ codes "," ++ kind.now ++ codes "}\n") }
{
    let args = numbers_text(alloc, args)?;
    Ok(format!(in alloc; "{{\"args\":[{args}],\"fun\":{fun},{kind}}}\n")?.into_bytes())
}

fn reply_line(alloc: Global, kind: &str, value: u32) -> Result<Vec<u8>, NoMemory>
    ensures { IfOk result (λ text. text.items ≡ codes "{" ++ kind.now ++ codes ",\"value\":"
        ++ decimal value ++ codes "}\n") }
{
    Ok(format!(in alloc; "{{{kind},\"value\":{value}}}\n")?.into_bytes())
}

/// The line of what a program wrote.
pub fn output_line(alloc: Global, bytes: &[u8]) -> Result<Vec<u8>, NoMemory>
    ensures { IfOk result (λ line. line.items ≡ output_line bytes.now) }
{
    let hex = hex::encode(alloc, bytes)?;
    Ok(format!(in alloc; "{{\"out\":\"{hex}\"}}\n")?.into_bytes())
}

/// The line of a block of trusted memory: its address, the number of its bytes, and these.
pub fn block_line(alloc: Global, address: u32, bytes: &[u8]) -> Result<Vec<u8>, NoMemory>
    ensures { IfOk result (λ line. line.items ≡ block_text (record { address = address; bytes = bytes.now })) }
{
    let count = bytes.len();
    let hex = hex::encode(alloc, bytes)?;
    Ok(format!(in alloc; "[block {address} {count} {hex}]\n")?.into_bytes())
}
