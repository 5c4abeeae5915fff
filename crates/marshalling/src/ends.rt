// Bounds, over whole numbers.

ghost use Rattle.std.specs.Prelude.{◌≡◌, ◌^◌, pos, negsuc, ◌≤ℤ◌};
ghost use Rattle.std.proofs.Common.{◌+ℤ◌, ◌*ℤ◌};
ghost use Rattle.act_words.specs.Numbers.{signed};
ghost use Rattle.marshalling.specs.Crossing.{end_at, lie_in};

// So many elements of a size, in bytes.
fn scaled(count: i128, size: u32) -> i128
    requires low { negsuc (2 ^ 64) ≤ℤ count }
    requires high { count ≤ℤ pos (2 ^ 64) }
    ensures value { result ≡ count *ℤ pos size }
    ensures low { negsuc (2 ^ 97) ≤ℤ result }
    ensures high { result ≤ℤ pos (2 ^ 97) }
{
    count * i128::from(size)
}

// A number of elements, and how many more.
fn elements(count: u32, plus: i64) -> i128
    ensures value { result ≡ signed count +ℤ plus }
    ensures low { negsuc (2 ^ 64) ≤ℤ result }
    ensures high { result ≤ℤ pos (2 ^ 64) }
{
    i128::from(count.cast_signed()) + i128::from(plus)
}

// An end of bounds: a base and so many elements, over whole numbers.
fn end_at(base: u32, size: u32, count: u32, plus: i64) -> i128
    ensures value { result ≡ end_at base size (signed count) plus }
    ensures low { negsuc (2 ^ 98) ≤ℤ result }
    ensures high { result ≤ℤ pos (2 ^ 98) }
{
    let scaled = scaled(elements(count, plus), size);
    i128::from(base) + scaled
}

/// Bounds: a base, and for each end so many elements of a size from it.
#[derive(Clone, Copy)]
pub struct Ends {
    pub base: u32,
    pub low: u32,
    pub low_plus: i64,
    pub high: u32,
    pub high_plus: i64,
    pub size: u32,
}

impl Ends {
    /// The lower end, over whole numbers.
    pub fn low(&self) -> i128
        ensures { result ≡ end_at self.now.base self.now.size (signed self.now.low) self.now.low_plus }
    {
        end_at(self.base, self.size, self.low, self.low_plus)
    }

    /// The upper end, over whole numbers.
    pub fn high(&self) -> i128
        ensures value { result ≡ end_at self.now.base self.now.size (signed self.now.high) self.now.high_plus }
        ensures low { negsuc (2 ^ 98) ≤ℤ result }
        ensures high { result ≤ℤ pos (2 ^ 98) }
    {
        end_at(self.base, self.size, self.high, self.high_plus)
    }

    /// Whether the ends lie in a memory of a size without its first byte, with so many bytes more, unless they are turned or
    /// the pointer is null.
    pub fn lie_in(&self, memory: u32, pointer: u32, more: u32) -> bool
        ensures { result ≡ lie_in memory pointer
            (end_at self.now.base self.now.size (signed self.now.low) self.now.low_plus)
            (end_at self.now.base self.now.size (signed self.now.high) self.now.high_plus) more }
    {
        let low = self.low();
        let high = self.high();
        pointer == 0 || high < low || (1 <= low && high + i128::from(more) <= i128::from(memory))
    }
}
