// The pace of a function's instructions.

ghost use Rattle.std.specs.Prelude.{◌≡◌, ◌+◌, ◌<◌, ℕ, length, option_map, IfSome};
ghost use Rattle.code_words.specs.Paced as paced;
ghost use Rattle.code_words_listing.specs.Verdicts.{off_pace_in};

use code_words::op::Op;

fn is_tick(op: Op) -> bool
    ensures { result ≡ paced.is_tick op }
{
    match op {
        Op::Tick => true,
        _ => false,
    }
}

fn is_call(op: Op) -> bool
    ensures { result ≡ paced.is_call op }
{
    match op {
        Op::Call(_) | Op::TaintedCall { .. } => true,
        _ => false,
    }
}

fn target_of(op: Op) -> Option<u32>
    ensures { result ≡ paced.target_of op }
{
    match op {
        Op::Jump(target) | Op::JumpIfZero(target) => Some(target),
        _ => None,
    }
}

// Whether the instruction before this place is a tick.
fn follows_tick(ops: &[Op], place: usize) -> bool
    ensures { result ≡ paced.follows_tick ops.now place }
{
    match place.checked_sub(1) {
        Some(before) => match ops.get(before) {
            Some(op) => is_tick(*op),
            None => false,
        },
        None => false,
    }
}

// Whether a jump from this place keeps the pace.
fn goes_well(ops: &[Op], place: usize, target: Option<u32>) -> bool
    ensures { result ≡ paced.goes_well ops.now place target }
{
    let Some(target) = target else {
        return true;
    };
    match ops.get(target as usize) {
        Some(op) => (place < target as usize || is_tick(*op)) && !is_call(*op),
        None => true,
    }
}

// Whether the instruction at this place keeps the pace.
fn keeps_pace(ops: &[Op], place: usize, op: Op) -> bool
    ensures { result ≡ paced.keeps_pace ops.now place op }
{
    goes_well(ops, place, target_of(op)) && (!is_call(op) || follows_tick(ops, place))
}

/// The place of the first instruction that breaks the pace, if there is one.
pub fn off_pace(ops: &[Op]) -> Option<usize>
    ensures first { (number : ℕ) → off_pace_in number ops.now 0 ops.now ≡ option_map (λ place. number + place) result }
    ensures within { IfSome result (λ place. place < length ops.now) }
{
    for place in 0..ops.len() {
        if !keeps_pace(ops, place, ops[place]) {
            return Some(place);
        }
    }
    None
}
