// The list of input numbers.

ghost use Rattle.std.specs.Prelude.{◌≡◌, ◌∷◌, true, Some, suc, length, option_map, IfOk, IfSome};
ghost use Rattle.std.specs.Option.{option_and_then};
ghost use Rattle.ccbox_call_words.specs.Requests.{input_list, numbers_in, pieces_of};
ghost use Rattle.ccbox_call_words.specs.Pieces.{is_some, pieces_behind};

use crate::numbers::input_number;
use ckc_text::fault::NoMemory;
use ckc_text::on_heap::push;
use std::alloc::Global;

// The most input numbers.
const MAX_INPUTS: usize = 65_536;

/// Input numbers as they were written: 1 to 65,536 numbers of 32 bits with commas between them.
#[derive(Clone, Copy)]
pub struct InputList<'a> {
    pub text: &'a str,
    ghost is_list: { is_some (input_list text.now) ≡ true },
}

impl<'a> InputList<'a> {
    ghost use Rattle.ccbox_call_words.specs.Requested.{numbers_of};

    /// The text as a list, if it is one.
    pub fn new(text: &'a str) -> Option<InputList<'a>>
        ensures { option_map numbers_of result ≡ input_list text.now }
    {
        if is_input_list(text) {
            Some(InputList { text })
        } else {
            None
        }
    }

    /// Its numbers.
    pub fn numbers(&self, alloc: Global) -> Result<Vec<i32>, NoMemory>
        ensures { IfOk result (λ numbers. numbers.items ≡ numbers_of self.now) }
    {
        let mut numbers = Vec::new(alloc);
        let mut rest = self.text;
        'numbers: loop {
            let Some((number, behind)) = first_number(rest) else {
                return Ok(numbers);
            };
            push(&mut numbers, number)?;
            let Some(text) = behind else {
                return Ok(numbers);
            };
            rest = text;
        }
    }
}

// Whether the text is a list of 1 to 65,536 numbers of 32 bits with commas between them.
fn is_input_list(text: &str) -> bool
    ensures { result ≡ is_some (input_list text.now) }
{
    let mut count = 0;
    let mut rest = text;
    'numbers: loop {
        let Some((_, behind)) = first_number(rest) else {
            return false;
        };
        if count == MAX_INPUTS {
            return false;
        }
        count += 1;
        let Some(text) = behind else {
            return true;
        };
        rest = text;
    }
}

// The number before the first comma, and what stands behind that comma.
fn first_number(text: &str) -> Option<(i32, Option<&str>)>
    ensures numbers { numbers_in (pieces_of text.now) ≡ option_and_then
        (λ found. option_map (λ numbers. found.0 ∷ numbers) (numbers_in (pieces_behind found.1))) result }
    ensures fewer { IfSome result (λ found. length (pieces_of text.now) ≡ suc (length (pieces_behind found.1))) }
{
    let (first, behind) = first_piece(text);
    let number = input_number(first)?;
    Some((number, behind))
}

// The piece before the first comma, and what stands behind that comma.
fn first_piece(text: &str) -> (&str, Option<&str>)
    ensures { pieces_of text.now ≡ result.0.now ∷ pieces_behind result.1 }
{
    match text.split_once(',') {
        Some((first, behind)) => (first, Some(behind)),
        None => (text, None),
    }
}
