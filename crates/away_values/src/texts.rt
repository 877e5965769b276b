//! What is done with texts.

ghost use Rattle.std.specs.Int.{int_max};
ghost use Rattle.std.specs.Prelude.{◌≡◌, ◌+◌, ◌-ℤ◌, ◌≤◌, ◌++◌, IfOk, OnOk, chars, drop, length, pos, string_bytes, string_len, take};
ghost use Rattle.away_values.specs.Operators.{cast, concat as concat_value, length_of, small as small_value, text_of_value, substr as substr_value, text_op as text_value, text_within as within_value};
ghost use Rattle.away_values.specs.Results.{Answers};
ghost use Rattle.away_values.specs.Words.{HasNoZero, IsWord};
ghost use Rattle.away_values.specs.declared.types.Ty.TheVariants as ty;
ghost use Rattle.away_values.specs.declared.values.Value.TheVariants as val;

use crate::arithmetic::small;
use crate::errors::{NoMemory, OpError};
use crate::operators::TextOp;
use crate::sqlstate;
use crate::values::Value;
use crate::words::{LONGEST_TEXT, Word};
use std::alloc::Global;

/// Applies the operator to its operands: two for `||`, one for `length` and for the cast, three for `substr`; NULL where one
/// of them is NULL (PostgreSQL manual, 9.4). 22011 is a negative length of `substr`, 54000 a
/// result of `||` of more than 1,048,576 bytes.
pub fn text_op(alloc: Global, op: TextOp, args: &[Value]) -> Result<Value, OpError>
    ensures { Answers (text_value op args.now) result }
{
    match op {
        TextOp::Concat => match args {
            [a, b] => concat(alloc, a, b),
            _ => Ok(Value::Null),
        },
        TextOp::Length => match args {
            [text] => text_length(text),
            _ => Ok(Value::Null),
        },
        TextOp::Substr => match args {
            [text, from, count] => substr(alloc, text, from, count),
            _ => Ok(Value::Null),
        },
        TextOp::ToText => match args {
            [v] => to_text(alloc, v),
            _ => Ok(Value::Null),
        },
    }
}

fn concat(alloc: Global, a: &Value, b: &Value) -> Result<Value, OpError>
    ensures { Answers (concat_value a.now b.now) result }
{
    match a {
        Value::Null => Ok(Value::Null),
        _ => match b {
            Value::Null => Ok(Value::Null),
            _ => joined(alloc, a, b),
        },
    }
}

fn joined(alloc: Global, a: &Value, b: &Value) -> Result<Value, OpError>
    ensures { Answers (within_value (text_of_value a.now ++ text_of_value b.now)) result }
{
    let mut text = String::new(alloc);
    push_spelling(&mut text, a)?;
    push_spelling(&mut text, b)?;
    text_within(text)
}

/// Adds what a cast to text writes of the value.
fn push_spelling(text: &mut String, v: &Value) -> Result<(), NoMemory>
    requires { HasNoZero (string_bytes text.old) }
    ensures written { OnOk result
        (chars (string_bytes text.new) ≡ chars (string_bytes text.old) ++ text_of_value v.now) }
    ensures no_zero { OnOk result (HasNoZero (string_bytes text.new)) }
    ensures short { OnOk result (string_len text.new ≤ string_len text.old + 1048576) }
{
    match v {
        Value::Null => {}
        Value::Int(n) => push_decimal(text, *n)?,
        Value::Bool(b) => text.push_str(if *b { "true" } else { "false" })?,
        Value::Text(word) => text.push_str(word.text())?,
    }
    Ok(())
}

fn push_decimal(text: &mut String, n: i64) -> Result<(), NoMemory>
    requires { HasNoZero (string_bytes text.old) }
    ensures written { OnOk result (chars (string_bytes text.new) ≡ chars (string_bytes text.old)
        ++ text_of_value (val.Int n)) }
    ensures no_zero { OnOk result (HasNoZero (string_bytes text.new)) }
    ensures short { OnOk result (string_len text.new ≤ string_len text.old + 21) }
{
    write!(text, "{n}")?;
    Ok(())
}

fn text_within(text: String) -> Result<Value, OpError>
    requires { HasNoZero (string_bytes text) }
    ensures { Answers (within_value (chars (string_bytes text))) result }
{
    if text.len() > LONGEST_TEXT {
        return Err(OpError::Class(sqlstate::PROGRAM_LIMIT_EXCEEDED));
    }
    Ok(Value::Text(Word::from_string(text)))
}

fn to_text(alloc: Global, v: &Value) -> Result<Value, OpError>
    ensures { Answers (cast ty.Text v.now) result }
{
    match v {
        Value::Null => Ok(Value::Null),
        _ => {
            let mut text = String::new(alloc);
            push_spelling(&mut text, v)?;
            Ok(Value::Text(Word::from_string(text)))
        }
    }
}

/// The manual: 9.4, where it is an integer.
fn text_length(v: &Value) -> Result<Value, OpError>
    ensures { Answers (small_value (length_of v.now)) result }
{
    match v {
        Value::Text(word) => match small(&Value::Int(count_of(word))) {
            Ok(count) => Ok(count),
            Err(class) => Err(OpError::Class(class)),
        },
        _ => Ok(Value::Null),
    }
}

fn count_of(word: &Word) -> i64
    ensures { result ≡ pos (length word.now) }
{
    word.text().chars().count() as i64
}

fn substr(alloc: Global, text: &Value, from: &Value, count: &Value) -> Result<Value, OpError>
    ensures { Answers (substr_value text.now from.now count.now) result }
{
    match text {
        Value::Text(word) => match from {
            Value::Int(p) => match count {
                Value::Int(n) => part(alloc, word, *p, *n),
                _ => Ok(Value::Null),
            },
            _ => Ok(Value::Null),
        },
        _ => Ok(Value::Null),
    }
}

fn part(alloc: Global, word: &Word, from: i64, count: i64) -> Result<Value, OpError>
    ensures { Answers (substr_value (val.Text word.now) (val.Int from) (val.Int count)) result }
{
    if count < 0 {
        return Err(OpError::Class(sqlstate::SUBSTRING_ERROR));
    }
    let skipped = places_before(from);
    let taken = places_before(from.saturating_add(count)) - skipped;
    Ok(Value::Text(piece(alloc, word.text(), skipped, taken)?))
}

/// How many places of a text stand before the place.
fn places_before(place: i64) -> usize
    ensures { pos result ≡ int_max (pos 0) (place -ℤ pos 1) }
{
    if place > 1 { (place - 1) as usize } else { 0 }
}

fn piece(alloc: Global, text: &str, skipped: usize, taken: usize) -> Result<Word, NoMemory>
    requires { IsWord text.now }
    ensures { IfOk result (λ w. w ≡ take taken (drop skipped (chars text.now))) }
{
    let piece: String = text.chars().skip(skipped).take(taken).collect(alloc)?;
    Ok(Word::from_string(piece))
}
