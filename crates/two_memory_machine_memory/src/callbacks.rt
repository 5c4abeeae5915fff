// What the sandbox passes to callbacks.

ghost use Rattle.std.specs.Prelude.{◌≡◌, slice_get};
ghost use Rattle.marshalling.specs.Crossing.{arguments_fault};
ghost use Rattle.two_memory_machine_memory.specs.Faults.{ending_at, fault_ending};

use crate::limits::WILD;
use act_words::ending::Ending;
use act_words::row::Words;
use ckc_text::code::Code;
use marshalling::arguments;
use marshalling::fault::MarshalFault;
use marshalling::signature::{Param, Signature};

/// How the words that the sandbox passes end the run, if they may not cross: a `char` has 8 bits (C9), and the bounds of a
/// pointer lie in the sandbox's memory (C4). Words of another count end it as what no line of the instruction table has a
/// result for.
pub fn fault_of(signature: &Signature, words: &Words, size: u32) -> Option<Ending>
    ensures { result ≡ fault_ending signature.now (arguments_fault signature.now words.now size) }
{
    let params = signature.as_slice();
    match arguments::unpack_args(signature, words, size) {
        Ok(()) => None,
        Err(MarshalFault::Count) => Some(WILD),
        Err(MarshalFault::Char { param }) => Some(ending_at(Code::C9, params, param)),
        Err(MarshalFault::Range { param }) => Some(ending_at(Code::C4, params, param)),
    }
}

// How a check of a parameter ends the run, at its place.
fn ending_at(code: Code, params: &[Param], param: u32) -> Ending
    ensures { result ≡ ending_at code (slice_get params.now param) }
{
    match params.get(param as usize) {
        Some(param) => Ending::Check {
            code,
            place: param.place,
        },
        None => WILD,
    }
}
