// From the lines of an act file to acts.

ghost use Rattle.std.specs.Prelude.{◌≡◌, ◌↔◌, ◌<◌, ◌^◌, map, option_map, IsSome, IfSome, IfOk, IfErr};
ghost use Rattle.serde_json.specs.View.{view, number_view, items_view};
ghost use Rattle.act_words.specs.Acts.{act_view};
ghost use Rattle.act_words.specs.Readings.{Says, number_in, member_count, form_in, text_in, bytes_in, items_in, numbers_in, numbers_of, words_of, word_of, value_reading, line_reading};
ghost use Rattle.act_words.specs.Answers.{IsRefused, Gives, form_reading};

use crate::act::{Act, ByteCount, SomeOctets};
use crate::form::{Form, count_of_form, form_of};
use crate::row::Words;
use ckc_text::code::Code;
use hex::FromHexError;
use serde_json::{Number, Value};
use std::alloc::{AllocFailed, Global};
use thiserror::Error;

/// Why a line gave no act.
#[derive(Debug, Drop, Error)]
pub enum ActFault {
    /// The line is refused: A1 to A5.
    #[error("the act line is refused")]
    Bad(Code),
    #[error("out of memory")]
    NoMemory,
}

impl<T: Drop> From<AllocFailed<T>> for ActFault {
    ghost use Rattle.std.specs.Prelude.{◌≡◌};
    ghost use Rattle.act_words.specs.declared.reading.ActFault.TheVariants.{NoMemory};

    ghost from_gives = { λ _ e. e ≡ NoMemory };

    fn from(_e: AllocFailed<T>) -> ActFault {
        ActFault::NoMemory
    }
}

/// The most bytes of a line, its line feed not counted.
pub const LINE_LIMIT: usize = 4_096;

/// The act that a line says, which is given without its line feed.
pub fn read_act(alloc: Global, line: &[u8]) -> Result<Act, ActFault>
    ensures says { IfOk result (λ a. line_reading line.now ≡ Says (act_view a)) }
    ensures refuses { IfErr result (IsRefused (line_reading line.now)) }
{
    if line.len() > LINE_LIMIT {
        return Err(ActFault::Bad(Code::A4));
    }
    match Value::from_slice(alloc, line) {
        Ok(value) => act_of(alloc, &value),
        Err(e) if e.is_memory() => Err(ActFault::NoMemory),
        Err(_) => Err(ActFault::Bad(Code::A1)),
    }
}

/// The act that a JSON value says.
pub fn act_of(alloc: Global, value: &Value) -> Result<Act, ActFault>
    ensures says { IfOk result (λ a. value_reading (view value.now) ≡ Says (act_view a)) }
    ensures refuses { IfErr result (IsRefused (value_reading (view value.now))) }
{
    let Some(form) = form_in(value) else {
        return Err(ActFault::Bad(Code::A2));
    };
    if member_count(value) != count_of_form(form) {
        return Err(ActFault::Bad(Code::A2));
    }
    match form {
        Form::Go => Ok(Act::Go),
        Form::Read => read_of(value),
        Form::Write => write_of(alloc, value),
        Form::Call => call_of(alloc, value),
        Form::Return => return_of(value),
        Form::Stop => Ok(Act::Stop),
    }
}

fn form_in(value: &Value) -> Option<Form>
    ensures { result ≡ form_in (view value.now) }
{
    match text_in(value, "act") {
        Some(name) => form_of(name),
        None => None,
    }
}

fn member_count(value: &Value) -> usize
    ensures { result ≡ member_count (view value.now) }
{
    match value.as_object() {
        Some(members) => members.len(),
        None => 0,
    }
}

fn number_in(value: &Value, name: &str) -> Option<Number>
    ensures { option_map number_view result ≡ number_in name.now (view value.now) }
{
    match value.get(name) {
        Some(Value::Number(number)) => Some(*number),
        _ => None,
    }
}

fn word_of(number: Number) -> Option<u32>
    ensures { result ≡ word_of (number_view number) }
{
    match number.as_u64() {
        Some(n) => word_from(n),
        None => None,
    }
}

fn read_of(value: &Value) -> Result<Act, ActFault>
    ensures says { IfOk result (λ a. form_reading Form.Read (view value.now) ≡ Says (act_view a)) }
    ensures refuses { IfErr result (IsRefused (form_reading Form.Read (view value.now))) }
{
    let Some(at) = number_in(value, "at") else {
        return Err(ActFault::Bad(Code::A2));
    };
    let Some(len) = number_in(value, "len") else {
        return Err(ActFault::Bad(Code::A2));
    };
    let Some(at) = word_of(at) else {
        return Err(ActFault::Bad(Code::A3));
    };
    let Some(len) = word_of(len) else {
        return Err(ActFault::Bad(Code::A3));
    };
    let Some(len) = ByteCount::new(len) else {
        return Err(ActFault::Bad(Code::A5));
    };
    Ok(Act::Read { at, len })
}

fn write_of(alloc: Global, value: &Value) -> Result<Act, ActFault>
    ensures says { IfOk result (λ a. form_reading Form.Write (view value.now) ≡ Says (act_view a)) }
    ensures refuses { IfErr result (IsRefused (form_reading Form.Write (view value.now))) }
{
    let Some(at) = number_in(value, "at") else {
        return Err(ActFault::Bad(Code::A2));
    };
    let bytes = bytes_in(alloc, value, "hex")?;
    let Some(at) = word_of(at) else {
        return Err(ActFault::Bad(Code::A3));
    };
    let Some(bytes) = SomeOctets::from_slice(bytes.as_slice()) else {
        return Err(ActFault::Bad(Code::A5));
    };
    Ok(Act::Write { at, bytes })
}

fn call_of(alloc: Global, value: &Value) -> Result<Act, ActFault>
    ensures says { IfOk result (λ a. form_reading Form.Call (view value.now) ≡ Says (act_view a)) }
    ensures refuses { IfErr result (IsRefused (form_reading Form.Call (view value.now))) }
{
    let Some(fun) = number_in(value, "fun") else {
        return Err(ActFault::Bad(Code::A2));
    };
    let args = numbers_in(alloc, value, "args")?;
    let Some(fun) = word_of(fun) else {
        return Err(ActFault::Bad(Code::A3));
    };
    let args = words_of(alloc, args.as_slice())?;
    let Some(args) = Words::from_slice(args.as_slice()) else {
        return Err(ActFault::Bad(Code::A5));
    };
    Ok(Act::Call { fun, args })
}

fn return_of(value: &Value) -> Result<Act, ActFault>
    ensures says { IfOk result (λ a. form_reading Form.Return (view value.now) ≡ Says (act_view a)) }
    ensures refuses { IfErr result (IsRefused (form_reading Form.Return (view value.now))) }
{
    let Some(value) = number_in(value, "value") else {
        return Err(ActFault::Bad(Code::A2));
    };
    let Some(value) = word_of(value) else {
        return Err(ActFault::Bad(Code::A3));
    };
    Ok(Act::Return { value })
}

fn bytes_in(alloc: Global, value: &Value, name: &str) -> Result<Vec<u8>, ActFault>
    ensures { Gives Code.A2 (λ bytes. bytes.items) result (bytes_in name.now (view value.now)) }
{
    let Some(text) = text_in(value, name) else {
        return Err(ActFault::Bad(Code::A2));
    };
    match hex::decode(alloc, text) {
        Ok(bytes) => Ok(bytes),
        Err(FromHexError::OutOfMemory) => Err(ActFault::NoMemory),
        Err(_) => Err(ActFault::Bad(Code::A2)),
    }
}

fn text_in<'v>(value: &'v Value, name: &str) -> Option<&'v str>
    ensures { option_map (λ text. text.now) result ≡ text_in name.now (view value.now) }
{
    match value.get(name) {
        Some(Value::String(text)) => Some(text.as_str()),
        _ => None,
    }
}

fn numbers_in(alloc: Global, value: &Value, name: &str) -> Result<Vec<Number>, ActFault>
    ensures { Gives Code.A2 (λ numbers. map number_view numbers.items) result
        (numbers_in name.now (view value.now)) }
{
    match items_in(value, name) {
        Some(items) => numbers_of(alloc, items),
        None => Err(ActFault::Bad(Code::A2)),
    }
}

fn items_in<'v>(value: &'v Value, name: &str) -> Option<&'v [Value]>
    ensures { option_map (λ items. items_view items.now) result ≡ items_in name.now (view value.now) }
{
    match value.get(name) {
        Some(Value::Array(items)) => Some(items.as_slice()),
        _ => None,
    }
}

fn numbers_of(alloc: Global, items: &[Value]) -> Result<Vec<Number>, ActFault>
    ensures { Gives Code.A2 (λ numbers. map number_view numbers.items) result
        (numbers_of (items_view items.now)) }
{
    let mut numbers = Vec::new(alloc);
    for item in items {
        let Some(number) = item.as_number() else {
            return Err(ActFault::Bad(Code::A2));
        };
        numbers.push(*number)?;
    }
    Ok(numbers)
}

fn words_of(alloc: Global, numbers: &[Number]) -> Result<Vec<u32>, ActFault>
    ensures { Gives Code.A3 (λ words. words.items) result
        (words_of (map number_view numbers.now)) }
{
    let mut words = Vec::new(alloc);
    for number in numbers {
        let Some(word) = word_of(*number) else {
            return Err(ActFault::Bad(Code::A3));
        };
        words.push(word)?;
    }
    Ok(words)
}

// This word; None exactly where the number has more than 32 bits.
fn word_from(number: u64) -> Option<u32>
    ensures fits { IsSome result ↔ (number < 2 ^ 32) }
    ensures number { IfSome result (λ word. word ≡ number) }
{
    u32::try_from(number).ok()
}
