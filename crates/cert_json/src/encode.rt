//! JSON for numbers, words, pairs and lists.

ghost use Rattle.std.specs.Prelude.{◌≡◌, map, IfOk, Some};
ghost use Rattle.std.specs.List.{AllByRecursion};
ghost use Rattle.serde_json.specs.Data.{Data};
ghost use Rattle.serde_json.specs.View.{view};
ghost use Rattle.call_forms.specs.Writable.{HasCode};
ghost use Rattle.cert_json.specs.Spellings.{class_in, many, number_in, pair_in, type_in};
ghost use Rattle.cert_json.specs.Written.{class_data, list_data, many_data, number_data, pair_data, type_data, type_name};

use crate::decode::Decode;
use crate::parts::is_code;
use away_values::{Class, Ty};
use serde_json::Value;
use sqlite_items::Items;
use std::alloc::{AllocError, Global};

/// What has a JSON value, which spells it again.
pub(crate) trait Encode: Decode {
    ghost json: { Self → Data };

    ghost has_spelling: { Self → Type 0 };

    fn encode(&self, alloc: Global) -> Result<Value, AllocError>
        ensures value { IfOk result (λ v. view v ≡ json self.now) }
        ensures reads { IfOk result
            (λ _. has_spelling self.now → Self.spelled (json self.now) ≡ Some self.now) };
}

/// A list of some values.
pub(crate) fn list<const N: usize>(alloc: Global, items: [Value; N]) -> Result<Value, AllocError>
    ensures { IfOk result (λ v. view v ≡ list_data (map view items.entry)) }
{
    Ok(Value::from(Vec::from_array(alloc, items)?))
}

#[tactic(auto, unfolding(crate::specs::Spellings::number_in))]
pub(crate) fn number(n: u32) -> Value
    ensures value { view result ≡ number_data n }
    ensures reads { number_in (number_data n) ≡ Some n }
{
    Value::from(n)
}

impl Encode for u32 {
    ghost json = { number_data };

    ghost has_spelling = { λ _. Unit {0} };

    fn encode(&self, _alloc: Global) -> Result<Value, AllocError> {
        Ok(number(*self))
    }
}

impl Encode for (u32, u32) {
    ghost json = { pair_data };

    ghost has_spelling = { λ _. Unit {0} };

    fn encode(&self, alloc: Global) -> Result<Value, AllocError> {
        pair(alloc, *self)
    }
}

#[tactic(auto, using(crate::proofs::Again::pair_again))]
fn pair(alloc: Global, pair: (u32, u32)) -> Result<Value, AllocError>
    ensures value { IfOk result (λ v. view v ≡ pair_data pair) }
    ensures reads { IfOk result (λ _. pair_in (pair_data pair) ≡ Some pair) }
{
    list(alloc, [number(pair.0), number(pair.1)])
}

fn name_of(ty: Ty) -> &'static str
    ensures { result.now ≡ type_name ty }
{
    match ty {
        Ty::Bigint => "bigint",
        Ty::Boolean => "boolean",
        Ty::Text => "text",
        Ty::Integer => "integer",
    }
}

impl Encode for Ty {
    ghost json = { type_data };

    ghost has_spelling = { λ _. Unit {0} };

    fn encode(&self, alloc: Global) -> Result<Value, AllocError> {
        ty(alloc, *self)
    }
}

#[tactic(auto, unfolding(crate::specs::Spellings::type_in))]
fn ty(alloc: Global, ty: Ty) -> Result<Value, AllocError>
    ensures value { IfOk result (λ v. view v ≡ type_data ty) }
    ensures reads { IfOk result (λ _. type_in (type_data ty) ≡ Some ty) }
{
    Value::try_from_str(alloc, name_of(ty))
}

#[tactic(auto, unfolding(crate::specs::Written::class_data))]
pub(crate) fn class(alloc: Global, class: Class) -> Result<Value, AllocError>
    ensures value { IfOk result (λ v. view v ≡ class_data class) }
    ensures reads { IfOk result (λ _. HasCode class → class_in (class_data class) ≡ Some class) }
{
    if !is_code(&class.code) {
        return Ok(Value::Null);
    }
    match str::from_utf8(&class.code) {
        Ok(code) => Value::try_from_str(alloc, code),
        Err(_) => Ok(Value::Null),
    }
}

impl<T: Encode + Drop> Encode for Items<T> {
    ghost json = { many_data T.Encode.json };

    ghost has_spelling = { AllByRecursion T.Encode.has_spelling };

    fn encode(&self, alloc: Global) -> Result<Value, AllocError> {
        many(alloc, self)
    }
}

fn many<T: Encode + Drop>(alloc: Global, items: &Items<T>) -> Result<Value, AllocError>
    ensures value { IfOk result (λ v. view v ≡ many_data T.Encode.json items.now) }
    ensures reads { IfOk result (λ _. AllByRecursion T.Encode.has_spelling items.now
        → many T.Decode.spelled (many_data T.Encode.json items.now) ≡ Some items.now) }
{
    let mut all = Vec::with_capacity(alloc, items.len())?;
    for item in items.as_slice() {
        all.push(item.encode(alloc)?)?;
    }
    Ok(Value::from(all))
}

pub(crate) fn numbers(alloc: Global, list: &Items<u32>) -> Result<Value, AllocError>
    ensures value { IfOk result (λ v. view v ≡ many_data number_data list.now) }
    ensures reads { IfOk result
        (λ _. many number_in (many_data number_data list.now) ≡ Some list.now) }
{
    list.encode(alloc)
}

pub(crate) fn types(alloc: Global, list: &Items<Ty>) -> Result<Value, AllocError>
    ensures value { IfOk result (λ v. view v ≡ many_data type_data list.now) }
    ensures reads { IfOk result (λ _. many type_in (many_data type_data list.now) ≡ Some list.now) }
{
    list.encode(alloc)
}

pub(crate) fn pairs(alloc: Global, list: &Items<(u32, u32)>) -> Result<Value, AllocError>
    ensures value { IfOk result (λ v. view v ≡ many_data pair_data list.now) }
    ensures reads { IfOk result (λ _. many pair_in (many_data pair_data list.now) ≡ Some list.now) }
{
    list.encode(alloc)
}

pub(crate) fn lists(alloc: Global, list: &Items<Items<u32>>) -> Result<Value, AllocError>
    ensures value { IfOk result (λ v. view v ≡ many_data (many_data number_data) list.now) }
    ensures reads { IfOk result (λ _. many (many number_in)
        (many_data (many_data number_data) list.now) ≡ Some list.now) }
{
    list.encode(alloc)
}
