//! The types of values.

/// A type. The manual: 8.1.1, Integer Types (bigint has 64 bits and integer 32), 8.3, Character Types, and 8.6, Boolean Type.
#[derive(Clone, Copy, Debug, PartialEq, Eq)]
pub enum Ty {
    Bigint,
    Boolean,
    Text,
    Integer,
}
