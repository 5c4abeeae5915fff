// Checks of elements, of ends and of words, over whole numbers.

ghost use Rattle.std.specs.Prelude.{◌≡◌, ◌==◌, ◌||◌, ◌<◌, ◌^◌, ◌+◌, not, nat_le, pos, negsuc, ◌≤ℤ◌, IsTrue};
ghost use Rattle.std.proofs.Common.{◌+ℤ◌, ◌*ℤ◌};
ghost use Rattle.act_words.specs.Numbers.{signed};
ghost use Rattle.code_words.specs.Table.{place_at, end_of, is_in, is_up_to, same_number, contains};
ghost use Rattle.two_memory_machine_memory.specs.NearEnds.{IsNear, AreNear};

use marshalling::ends::Ends;

// So many elements of a small size, in bytes.
#[inline(always)]
fn scaled(count: i64, size: u32) -> i64
    requires low { negsuc (2 ^ 33) ≤ℤ count }
    requires high { count ≤ℤ pos (2 ^ 33) }
    requires size { size < 2 ^ 16 }
    ensures value { result ≡ count *ℤ pos size }
    ensures low { negsuc (2 ^ 50) ≤ℤ result }
    ensures high { result ≤ℤ pos (2 ^ 50) }
{
    count * i64::from(size)
}

// A number of elements, and how few more.
#[inline(always)]
fn elements(count: u32, plus: i64) -> i64
    requires { IsNear plus }
    ensures value { result ≡ signed count +ℤ plus }
    ensures low { negsuc (2 ^ 33) ≤ℤ result }
    ensures high { result ≤ℤ pos (2 ^ 33) }
{
    i64::from(count.cast_signed()) + plus
}

// An end whose elements have a small size, and which few elements are added to.
#[inline(always)]
fn near_end(base: u32, count: u32, plus: i64, size: u32) -> i64
    requires plus { IsNear plus }
    requires size { size < 2 ^ 16 }
    ensures { result ≡ end_of base count plus size }
{
    let scaled = scaled(elements(count, plus), size);
    i64::from(base) + scaled
}

// The place of an element of a small size.
#[inline(always)]
fn near_place(pointer: u32, index: u32, size: u32) -> i64
    requires { size < 2 ^ 16 }
    ensures { result ≡ place_at pointer index size }
{
    let scaled = scaled(i64::from(index.cast_signed()), size);
    i64::from(pointer) + scaled
}

// Whether few elements are added to an end.
#[inline(always)]
fn is_near(plus: i64) -> bool
    ensures { IsTrue result → IsNear plus }
{
    -2_147_483_648 <= plus && plus < 2_147_483_648
}

// Whether the elements have a small size, and few are added to either end.
#[inline(always)]
fn are_near(ends: &Ends) -> bool
    ensures { IsTrue result → AreNear ends.now }
{
    ends.size < 65_536 && is_near(ends.low_plus) && is_near(ends.high_plus)
}

/// The place of an element, over whole numbers.
fn place_of(pointer: u32, index: u32, size: u32) -> i128
    ensures { result ≡ place_at pointer index size }
{
    i128::from(pointer) + i128::from(index.cast_signed()) * i128::from(size)
}

/// Whether an element lies between ends.
#[inline(always)]
pub fn holds(ends: &Ends, pointer: u32, index: u32) -> bool
    ensures { result ≡ is_in
        (end_of ends.now.base ends.now.low ends.now.low_plus ends.now.size) (place_at pointer index ends.now.size)
        (end_of ends.now.base ends.now.high ends.now.high_plus ends.now.size) }
{
    if !are_near(ends) {
        return holds_far(ends, pointer, index);
    }
    let size = ends.size;
    let at = near_place(pointer, index, size);
    near_end(ends.base, ends.low, ends.low_plus, size) <= at
        && at < near_end(ends.base, ends.high, ends.high_plus, size)
}

// Whether an element lies between ends, which may be far off.
#[inline(never)]
fn holds_far(ends: &Ends, pointer: u32, index: u32) -> bool
    ensures { result ≡ is_in
        (end_of ends.now.base ends.now.low ends.now.low_plus ends.now.size) (place_at pointer index ends.now.size)
        (end_of ends.now.base ends.now.high ends.now.high_plus ends.now.size) }
{
    let at = place_of(pointer, index, ends.size);
    ends.low() <= at && at < ends.high()
}

/// Whether an element lies between ends, or at the upper one.
pub fn reaches(ends: &Ends, pointer: u32, index: u32) -> bool
    ensures { result ≡ is_up_to
        (end_of ends.now.base ends.now.low ends.now.low_plus ends.now.size) (place_at pointer index ends.now.size)
        (end_of ends.now.base ends.now.high ends.now.high_plus ends.now.size) }
{
    let at = place_of(pointer, index, ends.size);
    ends.low() <= at && at <= ends.high()
}

/// Whether a value is 0 or its element doesn't lie at the upper end.
pub fn leaves_end(ends: &Ends, pointer: u32, index: u32, value: u32) -> bool
    ensures { result ≡ (value == 0
        || not (same_number (place_at pointer index ends.now.size)
        (end_of ends.now.base ends.now.high ends.now.high_plus ends.now.size))) }
{
    let at = place_of(pointer, index, ends.size);
    let high = ends.high();
    value == 0 || at < high || high < at
}

/// Whether new ends lie within old ones, unless they are turned or the pointer is null.
pub fn contains(old: &Ends, pointer: u32, new: &Ends) -> bool
    ensures { result ≡ contains pointer
        (end_of old.now.base old.now.low old.now.low_plus old.now.size) (end_of old.now.base old.now.high old.now.high_plus old.now.size)
        (end_of new.now.base new.now.low new.now.low_plus new.now.size) (end_of new.now.base new.now.high new.now.high_plus new.now.size) }
{
    let low = new.low();
    let high = new.high();
    pointer == 0 || high < low || (old.low() <= low && high <= old.high())
}

/// Whether so many bytes, from an offset behind a word on, lie in a memory of a size.
#[inline(always)]
pub fn lie_behind(word: u32, offset: u32, len: u32, size: u32) -> bool
    ensures { result ≡ nat_le (word + offset + len) size }
{
    u64::from(word) + u64::from(offset) + u64::from(len) <= u64::from(size)
}
