// A few bytes, as an act moves them, and a few words, as a call passes them.

ghost use Rattle.std.specs.Prelude.{◌≡◌, ◌≤◌, ◌↔◌, length, IsSome, IfSome, ⊤};

use std::alloc::AllocError;
use std::marker::Model;

/// What stands in a cell of a row that holds no item.
pub trait Blank: Copy {
    ghost BLANK: { Self };

    const BLANK: Self;
}

impl Blank for u8 {
    ghost BLANK = { 0 };

    const BLANK: u8 = 0;
}

impl Blank for u32 {
    ghost BLANK = { 0 };

    const BLANK: u32 = 0;
}

/// A list of at most `N` items, which lie in the value itself.
pub struct Row<T: Blank, const N: usize> {
    // The items, and blanks behind them.
    cells: [T; N],
    len: usize,
}

/// At most 64 bytes.
pub type Octets = Row<u8, 64>;

/// At most 16 words.
pub type Words = Row<u32, 16>;

impl<T: Blank, const N: usize> Model for Row<T, N> {
    ghost use Rattle.std.specs.Prelude.{List, take, ◌++◌, ◌-◌, replicate, length};
    ghost use Rattle.act_words.specs.Rows.{IsRow, cells_back, length_back};

    ghost Value = { List T };

    ghost view = { λ a. take a.len a.cells };

    ghost invariant = { λ a. IsRow N T.BLANK a.cells a.len };

    ghost inverse = { λ items. record { cells = items ++ replicate (N - length items) T.BLANK; len = length items } };

    ghost inverse_ok = { λ a h i. record { cells = cells_back N T.BLANK a.cells a.len h i; len = length_back N T.BLANK a.cells a.len h i } };
}

impl<T: Blank, const N: usize> Clone for Row<T, N> {
    ghost is_clone = { λ a b. b ≡ a };

    ghost is_infallible = { λ _. ⊤ };

    fn clone(&self) -> Result<Row<T, N>, AllocError> {
        Ok(*self)
    }
}

impl<T: Blank, const N: usize> Copy for Row<T, N> {}

impl<T: Blank, const N: usize> Row<T, N> {
    /// These items; None exactly where they are more than `N`.
    pub fn from_slice(items: &[T]) -> Option<Row<T, N>>
        ensures fits { IsSome result ↔ (length items.now ≤ N) }
        ensures items { IfSome result (λ row. row ≡ items.now) }
    {
        let len = items.len();
        if len > N {
            return None;
        }
        let mut cells = [T::BLANK; N];
        cells[..len].copy_from_slice(items);
        Some(Row { cells, len })
    }

    /// The items, of which there are at most `N`.
    pub fn as_slice(&self) -> &[T]
        ensures items { result.now ≡ self.now }
        ensures fits { length result.now ≤ N }
    {
        &self.cells[..self.len]
    }
}
