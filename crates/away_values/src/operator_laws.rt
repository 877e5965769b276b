//! What holds of the operators' definitions.

ghost use Rattle.std.specs.Prelude.{◌≡◌, ℕ, ◌+◌, true, ℤ, pos, List, Some};
ghost use Rattle.away_values.specs.ArithmeticLaws.{IsDivided, IsExact};
ghost use Rattle.away_values.specs.Operators.{concat, fits, text_of_value, substr};
ghost use Rattle.away_values.specs.OrderLaws.{IsOrdered, IsTheOrder};
ghost use Rattle.away_values.specs.Results.{and_then};
ghost use Rattle.away_values.specs.BigintSpellings.{bigint_of};
ghost use Rattle.away_values.specs.FaultLaws.{GiveClasses};
ghost use Rattle.away_values.specs.ValueLaws.{AreTyped};
ghost use Rattle.away_values.specs.Values.{IsTextValue, IsValue};
ghost use Rattle.away_values.specs.declared.types.Ty.{Ty};
ghost use Rattle.away_values.specs.declared.values.Value.TheVariants as val;

use crate::values::Value;
use crate::words::Word;

/// What an operator gives is NULL or a value of its type.
pub fn results_have_their_types()
    ensures { AreTyped }
{}

/// The fault of an operator is a class: five digits or upper-case letters, and not 00000.
pub fn faults_are_classes()
    ensures { GiveClasses }
{}

/// What code holds is a value: a number of 64 bits, or a text within its limit and without U+0000.
pub fn what_is_held_is_a_value(v: &Value)
    ensures { IsValue v.now }
{
    match v {
        Value::Int(n) => keeps_range(*n),
        Value::Text(word) => keeps_limit(word),
        _ => {}
    }
}

fn keeps_range(n: i64)
    ensures { IsValue (val.Int n) }
{}

fn keeps_limit(word: &Word)
    ensures { IsTextValue word.now }
{
    let _text = word.text();
}

/// Comparison is a total order on the values of a type that are there, and the six operators are that order's.
pub fn comparison_is_a_total_order()
    ensures { (t : Ty) → IsOrdered t }
{}

/// Numbers are ordered by their values, false comes before true, and texts go by the first code point in which they differ.
pub fn comparison_is_by_value()
    ensures { IsTheOrder }
{}

/// A sum, a difference or a product is the whole number where that is a bigint, and 22003 where not.
pub fn arithmetic_is_exact()
    ensures { IsExact }
{}

/// Division rounds toward zero, the remainder has the sign of the dividend, and a zero divisor is 22012.
pub fn division_leaves_the_remainder()
    ensures { IsDivided }
{}

/// The text of a bigint is a spelling of that bigint.
pub fn the_text_of_a_bigint_reads_back()
    ensures { (n : ℤ) → fits n ≡ true → bigint_of (text_of_value (val.Int n)) ≡ Some n }
{}

/// The first n characters followed by the next m are the first n + m.
pub fn parts_of_a_text_join()
    ensures { (t : List ℕ) (n m : ℕ) → IsTextValue t →
        and_then (substr (val.Text t) (val.Int (pos 1)) (val.Int (pos n))) (λ first.
        and_then (substr (val.Text t) (val.Int (pos (n + 1))) (val.Int (pos m)))
        (λ next. concat first next))
        ≡ substr (val.Text t) (val.Int (pos 1)) (val.Int (pos (n + m))) }
{}
