//! The parts of a JSON value: the items of a list, and words.

ghost use Rattle.std.specs.Prelude.{◌≡◌, map, length};
ghost use Rattle.std.specs.List.{list_all};
ghost use Rattle.serde_json.specs.Find.{as_bool, as_str};
ghost use Rattle.serde_json.specs.View.{view};
ghost use Rattle.away_values.specs.Classes.{is_class_char};
ghost use Rattle.away_values.specs.Results.{class as class_of};
ghost use Rattle.cert_json.specs.Given.{Gives};
ghost use Rattle.call_forms.specs.Writable.{is_code as is_code_of};
ghost use Rattle.cert_json.specs.Spellings.{class_in, four_in, list_in, three_in, two_in, type_in};
ghost use Rattle.cert_json.specs.Ends.{headed as headed_of};

use crate::misfit::Misfit;
use away_values::{Class, Ty};
use serde_json::Value;

/// The items of a list.
#[tactic(auto, unfolding(crate::specs::Spellings::list_in))]
pub(crate) fn array(value: &Value) -> Result<&[Value], Misfit>
    ensures { Gives (λ items. map view items.now) result (list_in (view value.now)) }
{
    match value.as_array() {
        Some(items) => Ok(items.as_slice()),
        None => Err(Misfit::Shape),
    }
}

#[tactic(auto, unfolding(crate::specs::Spellings::two_in))]
pub(crate) fn two(value: &Value) -> Result<(&Value, &Value), Misfit>
    ensures { Gives (λ p. (view p.0.now, view p.1.now)) result (two_in (view value.now)) }
{
    match array(value)? {
        [a, b] => Ok((a, b)),
        _ => Err(Misfit::Shape),
    }
}

#[tactic(auto, unfolding(crate::specs::Spellings::three_in))]
pub(crate) fn three(value: &Value) -> Result<(&Value, &Value, &Value), Misfit>
    ensures { Gives (λ p. (view p.0.now, view p.1.now, view p.2.now)) result
        (three_in (view value.now)) }
{
    match array(value)? {
        [a, b, c] => Ok((a, b, c)),
        _ => Err(Misfit::Shape),
    }
}

#[tactic(auto, unfolding(crate::specs::Spellings::four_in))]
pub(crate) fn four(value: &Value) -> Result<(&Value, &Value, &Value, &Value), Misfit>
    ensures { Gives (λ p. (view p.0.now, view p.1.now, view p.2.now, view p.3.now)) result
        (four_in (view value.now)) }
{
    match array(value)? {
        [a, b, c, d] => Ok((a, b, c, d)),
        _ => Err(Misfit::Shape),
    }
}

pub(crate) fn truth(value: &Value) -> Result<bool, Misfit>
    ensures { Gives (λ b. b) result (as_bool (view value.now)) }
{
    value.as_bool().ok_or(Misfit::Shape)
}

pub(crate) fn word(value: &Value) -> Result<&str, Misfit>
    ensures { Gives (λ s. s.now) result (as_str (view value.now)) }
{
    value.as_str().ok_or(Misfit::Shape)
}

/// The word at the head of a list, and the items behind it.
#[tactic(auto, unfolding(crate::specs::Ends::headed))]
pub(crate) fn headed(value: &Value) -> Result<(&str, &[Value]), Misfit>
    ensures { Gives (λ p. (p.0.now, map view p.1.now)) result (headed_of (view value.now)) }
{
    match array(value)? {
        [first, rest @ ..] => Ok((word(first)?, rest)),
        _ => Err(Misfit::Shape),
    }
}

fn is_class_byte(c: u8) -> bool
    ensures { result ≡ is_class_char c }
{
    (b'0' <= c && c <= b'9') || (b'A' <= c && c <= b'Z')
}

fn has_class_bytes(bytes: &[u8]) -> bool
    ensures { result ≡ list_all is_class_char bytes.now }
{
    bytes.iter().all(|c| is_class_byte(*c))
}

/// Five digits or upper-case letters.
pub(crate) fn is_code(bytes: &[u8]) -> bool
    ensures { result ≡ is_code_of bytes.now }
{
    bytes.len() == 5 && has_class_bytes(bytes)
}

fn of_bytes(bytes: &[u8]) -> Class
    requires { length bytes.now ≡ 5 }
    ensures { result ≡ class_of bytes.now }
{
    Class {
        code: [bytes[0], bytes[1], bytes[2], bytes[3], bytes[4]],
    }
}

#[tactic(auto, unfolding(crate::specs::Spellings::class_in))]
pub(crate) fn class(value: &Value) -> Result<Class, Misfit>
    ensures { Gives (λ c. c) result (class_in (view value.now)) }
{
    let bytes = word(value)?.as_bytes();
    if is_code(bytes) {
        Ok(of_bytes(bytes))
    } else {
        Err(Misfit::Shape)
    }
}

#[tactic(auto, unfolding(crate::specs::Spellings::type_in))]
pub(crate) fn ty(value: &Value) -> Result<Ty, Misfit>
    ensures { Gives (λ t. t) result (type_in (view value.now)) }
{
    let name = word(value)?;
    if name == "bigint" {
        Ok(Ty::Bigint)
    } else if name == "boolean" {
        Ok(Ty::Boolean)
    } else if name == "text" {
        Ok(Ty::Text)
    } else if name == "integer" {
        Ok(Ty::Integer)
    } else {
        Err(Misfit::Shape)
    }
}
