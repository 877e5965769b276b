//! What breaks a rule of names.

use away_values::Name;

/// What breaks a rule of names, as it is written.
#[derive(Drop)]
pub enum Culprit {
    /// A name alone: of a variable or of a column.
    Name(Name),
    /// A column behind its item of FROM.
    Column(Name, Name),
    /// A function of expressions.
    Function(Name),
    /// A parameter of a query, by its number.
    Parameter(u32),
    /// A table of FROM.
    Table(Name),
}
