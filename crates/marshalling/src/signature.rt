// The parameters of callbacks.

ghost use Rattle.std.specs.Prelude.{◌≡◌, ◌↔◌, IsSome, IfSome, IsTrue};
ghost use Rattle.marshalling.specs.Signatures.{IsParameterOf, IsRegionAmong, IsBelow, IsSignature};

use crate::kind::WordKind;
use ckc_text::place::Place;
use std::marker::Model;

/// The bounds of a pointer that the sandbox passes: from parameter `base` plus `lo_plus` elements to it plus `hi_plus`
/// elements, each end with the number of a parameter added, if there is one, and `more` bytes behind them.
#[derive(Clone, Copy)]
pub struct Region {
    pub base: u32,
    pub lo_var: Option<u32>,
    pub lo_plus: i64,
    pub hi_var: Option<u32>,
    pub hi_plus: i64,
    pub size: u32,
    pub more: u32,
}

/// A parameter of a callback: what it is, where it is declared, and the bounds that it has, if it has some.
#[derive(Clone, Copy)]
pub struct Param {
    pub kind: WordKind,
    pub place: Place,
    pub region: Option<Region>,
}

impl Region {
    // Whether the bounds are over so many parameters alone, and their elements have a size.
    fn is_among(&self, count: usize) -> bool
        ensures { IsTrue result ↔ IsRegionAmong count self.now }
    {
        (self.base as usize) < count
            && is_below(self.lo_var, count)
            && is_below(self.hi_var, count)
            && self.size >= 1
    }
}

impl Param {
    // Whether it may stand among so many parameters.
    fn may_stand_among(&self, count: usize) -> bool
        ensures { IsTrue result ↔ IsParameterOf count self.now.kind self.now.region }
    {
        match (self.kind, self.region) {
            (WordKind::Void, _) => false,
            (_, None) => true,
            (WordKind::Pointer, Some(region)) => region.is_among(count),
            (WordKind::Int | WordKind::Char, Some(_)) => false,
        }
    }
}

// Whether the number of a parameter, if there is one, is one of so many.
fn is_below(number: Option<u32>, count: usize) -> bool
    ensures { IsTrue result ↔ IsBelow count number }
{
    match number {
        Some(number) => (number as usize) < count,
        None => true,
    }
}

// Whether these are the parameters of a callback.
fn are_parameters(params: &[Param]) -> bool
    ensures { IsTrue result ↔ IsSignature params.now }
{
    if params.len() > Signature::MOST {
        return false;
    }
    for param in params {
        if !param.may_stand_among(params.len()) {
            return false;
        }
    }
    true
}

/// The parameters of a callback, which contracts see as a list. There are at most 16, none of them is `Void`, one with
/// bounds is a `Pointer`, and the bounds name parameters that are there.
#[derive(Drop)]
pub struct Signature {
    params: Vec<Param>,
}

impl Model for Signature {
    ghost use Rattle.std.specs.Prelude.{List};
    ghost use Rattle.marshalling.specs.declared.signature.Param.{Param};
    ghost use Rattle.marshalling.specs.Signatures.{IsSignature};

    ghost Value = { List Param };

    ghost view = { λ s. s.params.items };

    ghost invariant = { λ s. IsSignature s.params.items };
}

impl Signature {
    /// The most parameters that a callback has, as many as a call has words.
    pub const MOST: usize = 16;

    /// These parameters; None exactly where they aren't those of a callback.
    pub fn from_vec(params: Vec<Param>) -> Option<Signature>
        ensures allowed { IsSome result ↔ IsSignature params.items }
        ensures parameters { IfSome result (λ signature. signature ≡ params.items) }
    {
        if are_parameters(params.as_slice()) {
            Some(Signature { params })
        } else {
            None
        }
    }

    /// The parameters.
    #[inline]
    pub fn as_slice(&self) -> &[Param]
        ensures parameters { result.now ≡ self.now }
        ensures allowed { IsSignature self.now }
    {
        self.params.as_slice()
    }
}
