//! The operators of expressions.

/// Arithmetic (PostgreSQL manual, 9.3, Mathematical Functions and Operators).
#[derive(Clone, Copy, Debug, PartialEq, Eq)]
pub enum IntOp {
    Add,
    Sub,
    Mul,
    Div,
    Rem,
}

/// Comparison (PostgreSQL manual, 9.2, Comparison Functions and Operators).
#[derive(Clone, Copy, Debug, PartialEq, Eq)]
pub enum CmpOp {
    Eq,
    Ne,
    Lt,
    Le,
    Gt,
    Ge,
}

/// What is done with texts: `||`, `length`, `substr`, and the cast to text.
/// The manual: 9.4, String Functions and Operators; the cast is 4.2.9, Type Casts. Lengths and places are in characters.
#[derive(Clone, Copy, Debug, PartialEq, Eq)]
pub enum TextOp {
    Concat,
    Length,
    Substr,
    ToText,
}

/// An operator of a flat chain. `Small` is arithmetic whose result has 32 bits, which no reader makes and the types do.
/// The manual: 9.1, Logical Operators, 9.3 and 9.4. It leaves the order of evaluation open (4.2.14); from left to right is our own choice.
#[derive(Clone, Copy, Debug, PartialEq, Eq)]
pub enum ChainOp {
    Or,
    And,
    Concat,
    Int(IntOp),
    Small(IntOp),
}

/// What IS asks for. The manual: 9.2, Comparison Functions and Operators, the comparison predicates. No answer of a test is NULL.
#[derive(Clone, Copy, Debug, PartialEq, Eq)]
pub enum IsTest {
    Null,
    True,
    False,
}
