//! The aggregates.

/// An aggregate: the number of rows, or, of the values that aren't NULL, their number, the least, the greatest, whether all are true, whether one
/// is, or their sum. The manual: 9.21, Aggregate Functions.
#[derive(Clone, Copy)]
pub enum Aggregate {
    CountRows,
    Count,
    Min,
    Max,
    BoolAnd,
    BoolOr,
    Sum,
}
