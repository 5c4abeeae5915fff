// What words stand for.

/// What a word stands for that crosses between the sides, and what a function returns.
#[derive(Clone, Copy)]
pub enum WordKind {
    Int,
    Char,
    Pointer,
    Void,
}
