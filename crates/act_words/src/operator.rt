// The operators on numbers and words that a program and its code share.

/// An arithmetic operator on two numbers, whose result is checked.
#[derive(Clone, Copy)]
pub enum ArithmeticOperator {
    Add,
    Subtract,
    Multiply,
    Divide,
    Remainder,
    ShiftLeft,
    ShiftRight,
}

/// An operator on the bits of two words. No check of it can fail.
#[derive(Clone, Copy)]
pub enum BitwiseOperator {
    And,
    Or,
    Xor,
}

/// An operator on two numbers with a number for a result.
#[derive(Clone, Copy)]
pub enum Operator {
    Arithmetic(ArithmeticOperator),
    Bitwise(BitwiseOperator),
}

/// A comparison of two numbers with a sign.
#[derive(Clone, Copy)]
pub enum Comparison {
    Equal,
    NotEqual,
    Less,
    LessEqual,
    Greater,
    GreaterEqual,
}
