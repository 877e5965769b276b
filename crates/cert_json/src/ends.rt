//! Assignments and the ends of blocks from JSON.

ghost use Rattle.std.specs.Prelude.{map};
ghost use Rattle.serde_json.specs.View.{view};
ghost use Rattle.cert_json.specs.Given.{Gives};
ghost use Rattle.cert_json.specs.Ends.{assignment_in, branch_in, call_end_in, call_end_of, call_in, end_in, end_of, fail_in, go_in, jump_in, pick_in, return_in, set_in, term_in};

use crate::decode::{Decode, number};
use crate::misfit::Misfit;
use crate::parts::{class, headed, three};
use away_values::Class;
use block_forms::{End, Term};
use call_forms::{Call, CallEnd};
use serde_json::Value;
use sqlite_items::Items;
use std::alloc::Global;

#[tactic(auto, unfolding(crate::specs::Ends::term_in))]
fn term(alloc: Global, expr: &Value, names: &Value) -> Result<Term, Misfit>
    ensures { Gives (λ t. t) result (term_in (view expr.now) (view names.now)) }
{
    let expr = number(expr)?;
    let names = Items::<u32>::decode(alloc, names)?;
    Ok(Term { expr, names })
}

#[tactic(auto, unfolding(crate::specs::Ends::assignment_in))]
fn assignment(alloc: Global, value: &Value) -> Result<(u32, Term), Misfit>
    ensures { Gives (λ a. a) result (assignment_in (view value.now)) }
{
    let (slot, expr, names) = three(value)?;
    let slot = number(slot)?;
    Ok((slot, term(alloc, expr, names)?))
}

#[tactic(auto, unfolding(crate::specs::Ends::set_in))]
pub(crate) fn set(alloc: Global, value: &Value) -> Result<Option<(u32, Term)>, Misfit>
    ensures { Gives (λ s. s) result (set_in (view value.now)) }
{
    if value.is_null() {
        return Ok(None);
    }
    Ok(Some(assignment(alloc, value)?))
}

fn jump(rest: &[Value]) -> Result<End, Misfit>
    ensures { Gives (λ e. e) result (jump_in (map view rest.now)) }
{
    match rest {
        [b] => Ok(End::Jump(number(b)?)),
        _ => Err(Misfit::Shape),
    }
}

#[tactic(auto, unfolding(crate::specs::Ends::branch_in))]
fn branch(alloc: Global, rest: &[Value]) -> Result<End, Misfit>
    ensures { Gives (λ e. e) result (branch_in (map view rest.now)) }
{
    match rest {
        [expr, names, yes, no] => {
            let term = term(alloc, expr, names)?;
            let yes = number(yes)?;
            Ok(End::Branch(term, yes, number(no)?))
        }
        _ => Err(Misfit::Shape),
    }
}

fn return_term(alloc: Global, rest: &[Value]) -> Result<Term, Misfit>
    ensures { Gives (λ t. t) result (return_in (map view rest.now)) }
{
    match rest {
        [expr, names] => term(alloc, expr, names),
        _ => Err(Misfit::Shape),
    }
}

fn fail_class(rest: &[Value]) -> Result<Class, Misfit>
    ensures { Gives (λ c. c) result (fail_in (map view rest.now)) }
{
    match rest {
        [code] => class(code),
        _ => Err(Misfit::Shape),
    }
}

#[tactic(auto, unfolding(crate::specs::Ends::end_of))]
fn end_by(alloc: Global, word: &str, rest: &[Value]) -> Result<End, Misfit>
    ensures { Gives (λ e. e) result (end_of word.now (map view rest.now)) }
{
    if word == "jump" {
        jump(rest)
    } else if word == "branch" {
        branch(alloc, rest)
    } else if word == "return" {
        Ok(End::Return(return_term(alloc, rest)?))
    } else if word == "fail" {
        Ok(End::Fail(fail_class(rest)?))
    } else {
        Err(Misfit::Shape)
    }
}

#[tactic(auto, unfolding(crate::specs::Ends::end_in))]
pub(crate) fn end(alloc: Global, value: &Value) -> Result<End, Misfit>
    ensures { Gives (λ e. e) result (end_in (view value.now)) }
{
    let (word, rest) = headed(value)?;
    end_by(alloc, word, rest)
}

#[tactic(auto, unfolding(crate::specs::Ends::call_in))]
fn call(alloc: Global, target: &Value, names: &Value) -> Result<Call, Misfit>
    ensures { Gives (λ c. c) result (call_in (view target.now) (view names.now)) }
{
    let target = number(target)?;
    let args = Items::<u32>::decode(alloc, names)?;
    Ok(Call { target, args })
}

fn go(alloc: Global, rest: &[Value]) -> Result<CallEnd, Misfit>
    ensures { Gives (λ e. e) result (go_in (map view rest.now)) }
{
    match rest {
        [target, names] => Ok(CallEnd::Go(call(alloc, target, names)?)),
        _ => Err(Misfit::Shape),
    }
}

#[tactic(auto, unfolding(crate::specs::Ends::pick_in))]
fn pick(alloc: Global, rest: &[Value]) -> Result<CallEnd, Misfit>
    ensures { Gives (λ e. e) result (pick_in (map view rest.now)) }
{
    match rest {
        [expr, names, yes, yes_names, no, no_names] => {
            let term = term(alloc, expr, names)?;
            let yes = call(alloc, yes, yes_names)?;
            Ok(CallEnd::Pick(term, yes, call(alloc, no, no_names)?))
        }
        _ => Err(Misfit::Shape),
    }
}

#[tactic(auto, unfolding(crate::specs::Ends::call_end_of))]
fn call_end_by(alloc: Global, word: &str, rest: &[Value]) -> Result<CallEnd, Misfit>
    ensures { Gives (λ e. e) result (call_end_of word.now (map view rest.now)) }
{
    if word == "call" {
        go(alloc, rest)
    } else if word == "if" {
        pick(alloc, rest)
    } else if word == "return" {
        Ok(CallEnd::Return(return_term(alloc, rest)?))
    } else if word == "fail" {
        Ok(CallEnd::Fail(fail_class(rest)?))
    } else {
        Err(Misfit::Shape)
    }
}

#[tactic(auto, unfolding(crate::specs::Ends::call_end_in))]
pub(crate) fn call_end(alloc: Global, value: &Value) -> Result<CallEnd, Misfit>
    ensures { Gives (λ e. e) result (call_end_in (view value.now)) }
{
    let (word, rest) = headed(value)?;
    call_end_by(alloc, word, rest)
}
