// The image of which a text is the listing.

ghost use Rattle.std.specs.Prelude.{◌≡◌, ◌<◌, ◌^◌, suc, [], length, Some, None, IfOk, IfErr, MatchOption, MatchResult, IsTrue};
ghost use Rattle.code_words.specs.Images as images;
ghost use Rattle.code_words.specs.Paced.{is_paced};
ghost use Rattle.code_words_listing.specs.Listings.{listing, InFormat};
ghost use Rattle.code_words_listing.specs.ReadLines.{line_of};
ghost use Rattle.code_words_listing.specs.Reached.{IsReached, IsFirstLine, EndsOnPace, Follows, RefusedBehind, refused_from};
ghost use Rattle.code_words_listing.specs.Refusals.{AtLine};
ghost use Rattle.code_words_listing.specs.Refused.{parts_of};
ghost use Rattle.code_words_listing.specs.States.{seen};
ghost use Rattle.code_words_listing.specs.Steps as steps;
ghost use Rattle.code_words_listing.specs.Told.{told};
ghost use Rattle.code_words_listing.specs.Verdicts.{Verdict, off_pace};

use crate::bytes::first;
use crate::pace::off_pace;
use crate::read_lines::{ReadLine, read_line};
use crate::states::State;
use ckc_text::fault::NoMemory;
use code_words::image::Image;
use std::alloc::Global;
use thiserror::Error;

/// Why a text gave no image.
#[derive(Debug, Drop, Error)]
pub enum ListRefused {
    /// The text is no listing: the first line that is refused, where the first line of a text is 1.
    #[error("line {0} of the listing is refused")]
    Line(u32),
    #[error("out of memory")]
    NoMemory,
}

impl From<NoMemory> for ListRefused {
    ghost use Rattle.std.specs.Prelude.{◌≡◌};
    ghost use Rattle.code_words_listing.specs.declared.read_listing.ListRefused.TheVariants.{NoMemory};

    ghost from_gives = { λ _ e. e ≡ NoMemory };

    fn from(_e: NoMemory) -> ListRefused {
        ListRefused::NoMemory
    }
}

// Refuses the first instruction that breaks the pace of the function that has begun, where the next line has this number.
fn check_pace(state: &State, number: u32) -> Result<(), ListRefused>
    requires reached { IsReached (seen state.now) }
    requires number { number ≡ suc (length (steps.lines_to (seen state.now))) }
    ensures { MatchResult result (λ _. off_pace 1 (steps.lines_to (seen state.now)) ≡ None)
        (AtLine (λ at. off_pace 1 (steps.lines_to (seen state.now)) ≡ Some at)) }
{
    let ops = state.begun_ops();
    match off_pace(ops) {
        Some(place) => Err(ListRefused::Line(number - (ops.len() - place) as u32)),
        None => Ok(()),
    }
}

// The next line, which has this number.
fn next_line<'a>(
    alloc: Global,
    state: &State,
    number: u32,
    text: &'a [u8],
) -> Result<ReadLine<'a>, ListRefused>
    requires reached { IsReached (seen state.now) }
    requires number { number ≡ suc (length (steps.lines_to (seen state.now))) }
    ensures { MatchResult result (λ line. (line_of text.now ≡ Some (told line)) × EndsOnPace (seen state.now) (told line))
        (AtLine (RefusedBehind (seen state.now) text.now)) }
{
    let Some(line) = read_line(alloc, text)? else {
        check_pace(state, number)?;
        return Err(ListRefused::Line(number));
    };
    if !line.is_instruction() {
        check_pace(state, number)?;
    }
    Ok(line)
}

// The state behind one more line, which has this number.
fn read_next(alloc: Global, state: State, number: u32, text: &[u8]) -> Result<State, ListRefused>
    requires reached { IsReached (seen state) }
    requires number { number ≡ suc (length (steps.lines_to (seen state))) }
    ensures { MatchResult result (λ next. Follows (seen state) (seen next) text.now) (AtLine (RefusedBehind (seen state) text.now)) }
{
    let line = next_line(alloc, &state, number, text)?;
    match state.step(alloc, line) {
        Ok(Some(next)) => Ok(next),
        Ok(None) => Err(ListRefused::Line(number)),
        Err(NoMemory) => Err(ListRefused::NoMemory),
    }
}

// Refuses what breaks the pace, or stands behind the last line feed, where a line of these bytes would have this number.
fn check_end(state: &State, number: u32, rest: &[u8]) -> Result<(), ListRefused>
    requires reached { IsReached (seen state.now) }
    requires number { number ≡ suc (length (steps.lines_to (seen state.now))) }
    ensures { MatchResult result (λ _. (off_pace 1 (steps.lines_to (seen state.now)) ≡ None) × (rest.now ≡ []))
        (AtLine (λ at. refused_from (seen state.now) [] rest.now ≡ Some at)) }
{
    check_pace(state, number)?;
    if rest.is_empty() {
        Ok(())
    } else {
        Err(ListRefused::Line(number))
    }
}

// The image, where the listing ends with these bytes behind its last line feed.
fn finish(state: State, number: u32, rest: &[u8]) -> Result<Image, ListRefused>
    requires reached { IsReached (seen state) }
    requires number { number ≡ suc (length (steps.lines_to (seen state))) }
    ensures { MatchResult result (λ image. (seen state ≡ steps.Closed image) × (rest.now ≡ []))
        (AtLine (λ at. refused_from (seen state) [] rest.now ≡ Some at)) }
{
    check_end(&state, number, rest)?;
    match state.into_image() {
        Some(image) => Ok(image),
        None => Err(ListRefused::Line(number)),
    }
}

// The first line of a text without its line feed and what stands behind it, if there is a line feed.
fn split_line(text: &[u8]) -> Option<(&[u8], &[u8])>
    ensures { MatchOption result (parts_of text.now ≡ record { lines = []; rest = text.now }) (λ both. IsFirstLine text.now both.0.now both.1.now) }
{
    match first(text, b'\n') {
        Some(end) => Some((&text[..end], &text[end + 1..])),
        None => None,
    }
}

/// The image of which a text is the listing. An `Err` names the first line that is refused (the first line of a text is 1), or
/// means that memory ran out. Takes time linear in the text.
pub fn read_list(alloc: Global, text: &[u8]) -> Result<Image, ListRefused>
    requires { length text.now < 2 ^ 32 }
    ensures listing { IfOk result (λ image. listing image ≡ text.now) }
    ensures format { IfOk result InFormat }
    ensures paced { IfOk result (λ image. IsTrue (is_paced image)) }
    ensures back { (image : images.Image) → InFormat image → IsTrue (is_paced image) → listing image ≡ text.now
        → MatchResult result (λ read. read ≡ image) (λ e. e ≡ ListRefused.NoMemory) }
    ensures refused { IfErr result (AtLine (λ at. Verdict text.now (Some at))) }
{
    let mut state = State::Start;
    let mut number = 1;
    let mut left = text;
    while let Some((line, behind)) = split_line(left) {
        state = read_next(alloc, state, number, line)?;
        number += 1;
        left = behind;
    }
    finish(state, number, left)
}
