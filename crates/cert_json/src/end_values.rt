//! JSON for assignments and the ends of blocks.

ghost use Rattle.std.specs.Prelude.{◌≡◌, IfOk, Some};
ghost use Rattle.serde_json.specs.Data.{string};
ghost use Rattle.serde_json.specs.View.{view};
ghost use Rattle.block_forms.specs.declared.forms.End.TheVariants.{Jump, Branch, Return, Fail};
ghost use Rattle.call_forms.specs.declared.forms.CallEnd.TheVariants as calls;
ghost use Rattle.cert_json.specs.Ends.{call_end_in, end_in, set_in};
ghost use Rattle.call_forms.specs.Writable.{CallEndHasCode, EndHasCode, HasCode};
ghost use Rattle.cert_json.specs.Written.{call_end_data, end_data, fail_data, return_data, set_data};

use crate::encode::{class, list, number, numbers};
use away_values::Class;
use block_forms::{End, Term};
use call_forms::{Call, CallEnd};
use serde_json::Value;
use std::alloc::{AllocError, Global};

#[tactic(auto, using(crate::proofs::Again::set_again), unfolding(crate::specs::Ends::set_in))]
pub(crate) fn set(alloc: Global, set: &Option<(u32, Term)>) -> Result<Value, AllocError>
    ensures value { IfOk result (λ v. view v ≡ set_data set.now) }
    ensures reads { IfOk result (λ _. set_in (set_data set.now) ≡ Some set.now) }
{
    match set {
        None => Ok(Value::Null),
        Some((slot, term)) => {
            let names = numbers(alloc, &term.names)?;
            list(alloc, [number(*slot), number(term.expr), names])
        }
    }
}

fn word(alloc: Global, word: &str) -> Result<Value, AllocError>
    ensures { IfOk result (λ v. view v ≡ string word.now) }
{
    Value::try_from_str(alloc, word)
}

#[tactic(auto, using(crate::proofs::Again::jump_again))]
fn jump(alloc: Global, block: u32) -> Result<Value, AllocError>
    ensures value { IfOk result (λ v. view v ≡ end_data (Jump block)) }
    ensures reads { IfOk result (λ _. end_in (end_data (Jump block)) ≡ Some (Jump block)) }
{
    list(alloc, [word(alloc, "jump")?, number(block)])
}

#[tactic(auto, using(crate::proofs::Again::branch_again))]
fn branch(alloc: Global, term: &Term, yes: u32, no: u32) -> Result<Value, AllocError>
    ensures value { IfOk result (λ v. view v ≡ end_data (Branch term.now yes no)) }
    ensures reads { IfOk result
        (λ _. end_in (end_data (Branch term.now yes no)) ≡ Some (Branch term.now yes no)) }
{
    let names = numbers(alloc, &term.names)?;
    list(
        alloc,
        [
            word(alloc, "branch")?,
            number(term.expr),
            names,
            number(yes),
            number(no),
        ],
    )
}

#[tactic(auto, using(crate::proofs::Again::return_again, crate::proofs::Again::call_return_again))]
fn return_value(alloc: Global, term: &Term) -> Result<Value, AllocError>
    ensures value { IfOk result (λ v. view v ≡ return_data term.now) }
    ensures reads { IfOk result (λ _. end_in (return_data term.now) ≡ Some (Return term.now)) }
    ensures reads_call { IfOk result
        (λ _. call_end_in (return_data term.now) ≡ Some (calls.Return term.now)) }
{
    let names = numbers(alloc, &term.names)?;
    list(alloc, [word(alloc, "return")?, number(term.expr), names])
}

#[tactic(auto, using(crate::proofs::Again::fail_again, crate::proofs::Again::call_fail_again))]
fn fail_value(alloc: Global, code: Class) -> Result<Value, AllocError>
    ensures value { IfOk result (λ v. view v ≡ fail_data code) }
    ensures reads { IfOk result (λ _. HasCode code → end_in (fail_data code) ≡ Some (Fail code)) }
    ensures reads_call { IfOk result
        (λ _. HasCode code → call_end_in (fail_data code) ≡ Some (calls.Fail code)) }
{
    list(alloc, [word(alloc, "fail")?, class(alloc, code)?])
}

pub(crate) fn end(alloc: Global, end: &End) -> Result<Value, AllocError>
    ensures value { IfOk result (λ v. view v ≡ end_data end.now) }
    ensures reads { IfOk result
        (λ _. EndHasCode end.now → end_in (end_data end.now) ≡ Some end.now) }
{
    match end {
        End::Jump(block) => jump(alloc, *block),
        End::Branch(term, yes, no) => branch(alloc, term, *yes, *no),
        End::Return(term) => return_value(alloc, term),
        End::Fail(code) => fail_value(alloc, *code),
    }
}

#[tactic(auto, using(crate::proofs::Again::go_again))]
fn go(alloc: Global, call: &Call) -> Result<Value, AllocError>
    ensures value { IfOk result (λ v. view v ≡ call_end_data (calls.Go call.now)) }
    ensures reads { IfOk result
        (λ _. call_end_in (call_end_data (calls.Go call.now)) ≡ Some (calls.Go call.now)) }
{
    let args = numbers(alloc, &call.args)?;
    list(alloc, [word(alloc, "call")?, number(call.target), args])
}

#[tactic(auto, using(crate::proofs::Again::pick_again))]
fn pick(alloc: Global, term: &Term, yes: &Call, no: &Call) -> Result<Value, AllocError>
    ensures value { IfOk result (λ v. view v ≡ call_end_data (calls.Pick term.now yes.now no.now)) }
    ensures reads { IfOk result
        (λ _. call_end_in (call_end_data (calls.Pick term.now yes.now no.now))
        ≡ Some (calls.Pick term.now yes.now no.now)) }
{
    let names = numbers(alloc, &term.names)?;
    let yes_args = numbers(alloc, &yes.args)?;
    let no_args = numbers(alloc, &no.args)?;
    list(
        alloc,
        [
            word(alloc, "if")?,
            number(term.expr),
            names,
            number(yes.target),
            yes_args,
            number(no.target),
            no_args,
        ],
    )
}

pub(crate) fn call_end(alloc: Global, end: &CallEnd) -> Result<Value, AllocError>
    ensures value { IfOk result (λ v. view v ≡ call_end_data end.now) }
    ensures reads { IfOk result
        (λ _. CallEndHasCode end.now → call_end_in (call_end_data end.now) ≡ Some end.now) }
{
    match end {
        CallEnd::Go(call) => go(alloc, call),
        CallEnd::Pick(term, yes, no) => pick(alloc, term, yes, no),
        CallEnd::Return(term) => return_value(alloc, term),
        CallEnd::Fail(code) => fail_value(alloc, *code),
    }
}
