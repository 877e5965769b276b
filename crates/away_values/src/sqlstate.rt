//! The SQLSTATEs that expressions, queries and statements fail with (PostgreSQL manual, Appendix A: PostgreSQL Error Codes).

use crate::values::Class;

/// No arm of a CASE statement was taken, and it has no ELSE. The manual: 43.6.4, Conditionals.
pub const CASE_NOT_FOUND: Class = Class { code: *b"20000" };

/// A subquery that stands for a value gives more than one row. The manual: 4.2.11, Scalar Subqueries.
pub const CARDINALITY_VIOLATION: Class = Class { code: *b"21000" };

/// A number leaves the range of its type.
pub const NUMERIC_VALUE_OUT_OF_RANGE: Class = Class { code: *b"22003" };

/// NULL for a variable that is NOT NULL, or a bound or step of FOR. The manual: 43.3, Declarations, for the variable.
pub const NULL_VALUE_NOT_ALLOWED: Class = Class { code: *b"22004" };

/// `substr` of a negative length.
pub const SUBSTRING_ERROR: Class = Class { code: *b"22011" };

/// A divisor is zero.
pub const DIVISION_BY_ZERO: Class = Class { code: *b"22012" };

/// LIMIT is negative.
pub const INVALID_ROW_COUNT_IN_LIMIT_CLAUSE: Class = Class { code: *b"2201W" };

/// The step of FOR isn't above zero.
pub const INVALID_PARAMETER_VALUE: Class = Class { code: *b"22023" };

/// The end of a function is reached. The manual: 43.6.1, Returning from a Function.
pub const FUNCTION_EXECUTED_NO_RETURN_STATEMENT: Class = Class { code: *b"2F005" };

/// A text grows too long. The limit, in bytes, is our own choice.
pub const PROGRAM_LIMIT_EXCEEDED: Class = Class { code: *b"54000" };

/// RAISE with a message. The manual: 43.9.1, Reporting Errors and Messages.
pub const RAISE_EXCEPTION: Class = Class { code: *b"P0001" };

/// INTO STRICT finds no row. The manual: 43.5.3, Executing a Command with a Single-Row Result.
pub const NO_DATA_FOUND: Class = Class { code: *b"P0002" };

/// INTO STRICT finds several rows. The manual: 43.5.3, Executing a Command with a Single-Row Result.
pub const TOO_MANY_ROWS: Class = Class { code: *b"P0003" };
