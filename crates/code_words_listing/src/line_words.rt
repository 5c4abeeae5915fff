// The words of a line, one behind the other.

ghost use Rattle.std.specs.Prelude.{◌≡◌, ◌∷◌, [], ◌==◌, ℕ, List, Option, option_map, option_and_then, MatchOption, IfSome, FitsSigned};
ghost use Rattle.std.proofs.Common.{ℤ};
ghost use Rattle.std.specs.Int.{w32, w64};
ghost use Rattle.std.specs.List.{slice_split};
ghost use Rattle.ckc_text.specs.declared.place.Place as places;
ghost use Rattle.ckc_text.specs.Names.{IsName};
ghost use Rattle.marshalling.specs.declared.kind.WordKind as kinds;
ghost use Rattle.code_words_listing.specs.Lines.{Line};
ghost use Rattle.code_words_listing.specs.Reading.{number_in, size_in, signed_in, number_or_none_in, name_in, place_in, one, fixed, done};
ghost use Rattle.code_words_listing.specs.ReadLines.{kind_in};
ghost use Rattle.code_words_listing.specs.Left.{words_left};

use crate::bytes::first;
use crate::words::{is_name, kind, number, number_or_none, place, signed_32, signed_64, size};
use ckc_text::place::Place;
use marshalling::kind::WordKind;

/// The words that are left of a line.
#[derive(Clone, Copy)]
pub struct Words<'a> {
    left: Option<&'a [u8]>,
}

impl<'a> Words<'a> {
    /// The words of a line.
    pub fn new(line: &'a [u8]) -> Words<'a>
        ensures { words_left result ≡ slice_split (λ b. b == 32) line.now }
    {
        Words { left: Some(line) }
    }

    /// The next word.
    pub fn word(&mut self) -> Option<&'a [u8]>
        ensures { MatchOption result (words_left self.old ≡ []) (λ word. words_left self.old ≡ word.now ∷ words_left self.new) }
    {
        let left = self.left?;
        match first(left, b' ') {
            Some(at) => {
                self.left = Some(&left[at + 1..]);
                Some(&left[..at])
            }
            None => {
                self.left = None;
                Some(left)
            }
        }
    }

    /// Nothing, where no word is left.
    #[tactic(auto, using(crate::proofs::Cuts::some_word))]
    pub fn end(self) -> Option<()>
        ensures { (line : Line) → done line (words_left self.entry) ≡ option_map (λ _. line) result }
    {
        match self.left {
            None => Some(()),
            Some(_) => None,
        }
    }

    /// A number.
    pub fn number(&mut self) -> Option<u32>
        ensures { (next : ℕ → List (List ℕ) → Option Line) → one number_in next (words_left self.old) ≡ option_and_then
            (λ n. next n (words_left self.new)) result }
    {
        number(self.word()?)
    }

    /// A size.
    pub fn size(&mut self) -> Option<u32>
        ensures { (next : ℕ → List (List ℕ) → Option Line) → one size_in next (words_left self.old) ≡ option_and_then
            (λ n. next n (words_left self.new)) result }
    {
        size(self.word()?)
    }

    /// A number of 32 bits with a sign.
    #[tactic(auto, using(crate::proofs::Spelled::fits_of))]
    pub fn signed_32(&mut self) -> Option<i32>
        ensures fits { IfSome result (λ n. FitsSigned w32 n) }
        ensures value { (next : ℤ → List (List ℕ) → Option Line) → one (signed_in w32) next (words_left self.old) ≡ option_and_then
            (λ n. next n (words_left self.new)) result }
    {
        signed_32(self.word()?)
    }

    /// A number of 64 bits with a sign.
    #[tactic(auto, using(crate::proofs::Spelled::fits_of))]
    pub fn signed_64(&mut self) -> Option<i64>
        ensures fits { IfSome result (λ n. FitsSigned w64 n) }
        ensures value { (next : ℤ → List (List ℕ) → Option Line) → one (signed_in w64) next (words_left self.old) ≡ option_and_then
            (λ n. next n (words_left self.new)) result }
    {
        signed_64(self.word()?)
    }

    /// A word that always stands there.
    pub fn fixed(&mut self, text: &str) -> Option<()>
        ensures { (next : List (List ℕ) → Option Line) → fixed text.now next (words_left self.old) ≡ option_and_then (λ _. next (words_left self.new)) result }
    {
        let word = self.word()?;
        if word == text.as_bytes() {
            Some(())
        } else {
            None
        }
    }

    /// A name.
    pub fn name(&mut self) -> Option<&'a [u8]>
        ensures word { IfSome result (λ name. IsName name.now) }
        ensures value { (next : List ℕ → List (List ℕ) → Option Line) → one name_in next (words_left self.old) ≡ option_and_then
            (λ name. next name.now (words_left self.new)) result }
    {
        let word = self.word()?;
        if is_name(word) { Some(word) } else { None }
    }

    /// What a function returns.
    pub fn kind(&mut self) -> Option<WordKind>
        ensures { (next : kinds.WordKind → List (List ℕ) → Option Line)
            → one kind_in next (words_left self.old) ≡ option_and_then (λ k. next k (words_left self.new)) result }
    {
        kind(self.word()?)
    }

    /// A number, or none.
    pub fn number_or_none(&mut self) -> Option<Option<u32>>
        ensures { (next : Option ℕ → List (List ℕ) → Option Line) → one number_or_none_in next (words_left self.old) ≡ option_and_then
            (λ n. next n (words_left self.new)) result }
    {
        number_or_none(self.word()?)
    }

    /// A place.
    pub fn place(&mut self) -> Option<Place>
        ensures { (next : places.Place → List (List ℕ) → Option Line) → one place_in next (words_left self.old) ≡ option_and_then
            (λ p. next p (words_left self.new)) result }
    {
        place(self.word()?)
    }

    /// A number, which is the last word.
    pub fn last_number(self) -> Option<u32>
        ensures { (make : ℕ → Line) → one number_in (λ n. done (make n)) (words_left self.entry) ≡ option_map make result }
    {
        let mut words = self;
        let number = words.number()?;
        words.end()?;
        Some(number)
    }

    /// A size, which is the last word.
    pub fn last_size(self) -> Option<u32>
        ensures { (make : ℕ → Line) → one size_in (λ n. done (make n)) (words_left self.entry) ≡ option_map make result }
    {
        let mut words = self;
        let size = words.size()?;
        words.end()?;
        Some(size)
    }

    /// A number of 32 bits with a sign, which is the last word.
    pub fn last_signed_32(self) -> Option<i32>
        ensures fits { IfSome result (λ n. FitsSigned w32 n) }
        ensures value { (make : ℤ → Line) → one (signed_in w32) (λ n. done (make n)) (words_left self.entry) ≡ option_map make result }
    {
        let mut words = self;
        let number = words.signed_32()?;
        words.end()?;
        Some(number)
    }

    /// A place, which is the last word.
    pub fn last_place(self) -> Option<Place>
        ensures { (make : places.Place → Line) → one place_in (λ p. done (make p)) (words_left self.entry) ≡ option_map make result }
    {
        let mut words = self;
        let place = words.place()?;
        words.end()?;
        Some(place)
    }
}
