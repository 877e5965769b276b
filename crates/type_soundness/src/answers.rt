//! What the checks of queries and functions say of the values that these give.

ghost use Rattle.std.specs.Prelude.{[], ◌≡◌};
ghost use Rattle.away_types.specs.CheckedQueries.{IsCheckedQuery};
ghost use Rattle.away_values.specs.declared.types.Ty.TheVariants.{Integer};
ghost use Rattle.away_values.specs.declared.values.Answer.TheVariants as answer;
ghost use Rattle.away_values.specs.declared.values.Value.{Value};
ghost use Rattle.sql_meaning.specs.Working.{sql};
ghost use Rattle.type_soundness.specs.AskedTypes.{CheckedFunctionsAreTyped};
ghost use Rattle.type_soundness.specs.TypedAnswers.{CheckedQueriesAreTyped};
ghost use Rattle.type_soundness.specs.Worked.{checked_seven, no_table, seven};
ghost use Rattle.type_soundness.specs.WorkedTypes.{WorkedTypes};
ghost use Rattle.type_soundness.specs.Sorts.{IsOf};

use elaboration_law::marked_trees_have_the_types_found;
use select_into::entries_ask_the_select;

/// Over tables that fit the schema, with arguments of its parameters' types, a checked query gives rows of the type of its
/// first column and a text, and what it answers is of that type.
pub fn a_checked_query_answers_its_type()
    ensures { CheckedQueriesAreTyped }
{}

/// Each expression of a checked function gives a value of the type that is asked of it where it stands, NULL or a fault.
pub fn expressions_of_a_checked_function_have_their_types()
    ensures { CheckedFunctionsAreTyped }
{
    entries_ask_the_select();
    marked_trees_have_the_types_found();
}

/// A worked query over no table is checked, and so what it answers is an integer.
pub fn a_worked_query_answers_a_number()
    ensures checked { IsCheckedQuery no_table seven checked_seven [] Integer }
    ensures answers { (v : Value) → sql checked_seven [] [] 0 ≡ answer.Value v → IsOf Integer v }
{}

/// What is asked of each expression of a worked function, which parameters stand in a worked query, and values, rows and tables
/// that are of a type and others that aren't.
pub fn worked_types_are_computed()
    ensures { WorkedTypes }
{}
