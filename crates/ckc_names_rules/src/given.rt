// The names that have a meaning in every program, and their numbers.

/// The null pointer.
pub const NULL: &[u8; 4] = b"NULL";

/// Reads a number.
pub const NEXT_INPUT: &[u8; 10] = b"next_input";

/// Prints a number.
pub const PRINT_INT: &[u8; 9] = b"print_int";

/// Prints a byte.
pub const PUTCHAR: &[u8; 7] = b"putchar";

/// Counts the bytes of a text.
pub const STRLEN: &[u8; 6] = b"strlen";

/// Where a program starts.
pub const MAIN: &[u8; 4] = b"main";

/// The numbers of the names that have a meaning in every program. One that the program doesn't say has the number behind the
/// last, which no name of the program has.
#[derive(Clone, Copy)]
pub struct Given {
    pub null: usize,
    pub next_input: usize,
    pub print_int: usize,
    pub putchar: usize,
    pub strlen: usize,
    pub main: usize,
}
