// What words, places, open calls and acts may be, and stops.

ghost use Rattle.std.specs.Prelude.{◌≡◌, ◌≤◌, ◌+◌, nat_lt, nat_le, Some};
ghost use Rattle.act_words.specs.declared.ending.Ending.TheVariants as endings;

use act_words::ending::Ending;
use ckc_text::code::Code;

/// How many calls may be open.
pub const MAX_DEPTH: u32 = 1_000;

/// The end of a run that no line of the instruction table goes on with.
pub const WILD: Ending = Ending::Stop {
    code: Code::S6,
    act: None,
};

/// Whether so many bytes from a place on lie in a memory of a size.
pub fn lie_in(at: u32, len: usize, size: usize) -> bool
    requires { len ≤ 64 }
    ensures { result ≡ nat_le (at + len) size }
{
    at as usize + len <= size
}

/// Whether one more call may be open beside so many calls (S2).
pub fn may_call(calls: u32) -> bool
    ensures { result ≡ nat_lt calls 1000 }
{
    calls < MAX_DEPTH
}

/// The stop by the act that was taken last, where so many acts were taken.
pub fn stop_by_act(code: Code, taken: u64) -> Ending
    ensures { result ≡ endings.Stop code (Some taken) }
{
    Ending::Stop {
        code,
        act: Some(taken),
    }
}
