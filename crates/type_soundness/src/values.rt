//! What the types of expressions and queries say of their values.

ghost use Rattle.type_soundness.specs.TypedValues.{RowsHaveTheirTypes, ValuesAreOfTheirTypes, ValuesHaveTheirTypes};

/// The value of an expression, where it has one, is NULL or of the sort of the expression's type, over variables, rows and
/// tables of the types that the typing has there, with arguments of the parameters' types.
pub fn a_value_has_its_type()
    ensures { ValuesHaveTheirTypes }
{}

/// A value of a type's sort is of the type: its number is in range, and its text is no longer than a text may be.
pub fn what_is_of_a_type()
    ensures { ValuesAreOfTheirTypes }
{}

/// The rows of a query's selects have one value for each column, of the sort of the column's type.
pub fn rows_have_their_types()
    ensures { RowsHaveTheirTypes }
{}
