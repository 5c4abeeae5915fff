// The line of an ending.

ghost use Rattle.std.specs.Prelude.{◌≡◌, IfOk, codes, None, Some};
ghost use Rattle.act_recorder.specs.Endings.{ending_text, placed_text};

use act_words::ending::Ending;
use ckc_text::code::Code;
use ckc_text::fault::NoMemory;
use ckc_text::place::Place;
use std::alloc::Global;

/// The line that says how a run ended.
pub fn answer_text(alloc: Global, ending: &Ending) -> Result<Vec<u8>, NoMemory>
    ensures { IfOk result (λ text. text.items ≡ ending_text ending.now) }
{
    match *ending {
        Ending::Exit { value } => exit_line(alloc, value),
        Ending::Check { code, place } => check_line(alloc, code, place),
        Ending::Stop { code, act: None } => stop_line(alloc, code),
        Ending::Stop {
            code,
            act: Some(act),
        } => act_stop_line(alloc, code, act),
    }
}

fn exit_line(alloc: Global, value: i32) -> Result<Vec<u8>, NoMemory>
    ensures { IfOk result (λ text. text.items ≡ ending_text (Ending.Exit value)) }
{
    Ok(format!(in alloc; "[exit {value}]\n")?.into_bytes())
}

fn check_line(alloc: Global, code: Code, place: Place) -> Result<Vec<u8>, NoMemory>
    ensures { IfOk result (λ text. text.items ≡ placed_text (codes "check") code place) }
{
    let number = code.number();
    let Place { line, col } = place;
    let name = code.text();
    Ok(format!(in alloc; "[check {number} {line}:{col} {name}]\n")?.into_bytes())
}

fn stop_line(alloc: Global, code: Code) -> Result<Vec<u8>, NoMemory>
    ensures { IfOk result (λ text. text.items ≡ ending_text (Ending.Stop code None)) }
{
    let number = code.number();
    let name = code.text();
    Ok(format!(in alloc; "[stop {number} {name}]\n")?.into_bytes())
}

fn act_stop_line(alloc: Global, code: Code, act: u64) -> Result<Vec<u8>, NoMemory>
    ensures { IfOk result (λ text. text.items ≡ ending_text (Ending.Stop code (Some act))) }
{
    let number = code.number();
    let name = code.text();
    Ok(format!(in alloc; "[stop {number} act {act} {name}]\n")?.into_bytes())
}
