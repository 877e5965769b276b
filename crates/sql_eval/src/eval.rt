//! The value of an expression.

ghost use Rattle.std.specs.Prelude.{◌≡◌, Ok};
ghost use Rattle.sql_meaning.specs.Gives.{Gives, value_of, each_of, joined_of, chain_of, among_of, known_of, arms_of, other_of, arguments_at};
ghost use Rattle.away_trees.specs.declared.queries.Expr.TheVariants as expr;
ghost use Rattle.away_values.specs.declared.values.Value.TheVariants as val;
ghost use Rattle.std.specs.Prelude.{false};

use crate::functions::{Function, aggregate_of, function_of, is_aggregate, scalar};
use crate::operators::{
    cast, decides, exists, held, is_false, negated, negated_small, negation, negation_if, only,
    pair, passes, within,
};
use crate::scope::Scope;
use crate::selects::query;
use away_trees::Expr;
use away_values::{ChainOp, CmpOp, Name, OpError, Value, compare};
use lateral_rows::{is_null, is_true};
use sqlite_items::{Boxed, Items};
use std::alloc::Global;

#[cycle(evaluator)]
#[tactic(auto, using(sql_meaning::proofs::NodeRules::value_rules))]
pub(crate) fn eval<'f>(alloc: Global, e: &Expr, scope: &Scope<'f, 'f>) -> Result<Value, OpError>
    ensures { Gives (value_of scope.now e.now) result }
{
    match e {
        Expr::Int(n) => Ok(Value::Int(*n)),
        Expr::Str(text) => Ok(Value::Text(text.copy(alloc)?)),
        Expr::Bool(b) => Ok(Value::Bool(*b)),
        Expr::Null => Ok(Value::Null),
        Expr::Named(_) => Ok(Value::Null),
        Expr::Dotted(_, _) => Ok(Value::Null),
        Expr::Slot(i) => held(alloc, scope.slot(*i)),
        Expr::Column(c) => held(alloc, scope.column(*c)),
        Expr::Param(i, _) => held(alloc, scope.param(*i)),
        Expr::Neg(x) => {
            let v = eval(alloc, x.get(), scope)?;
            negated(&v)
        }
        Expr::NegSmall(x) => {
            let v = eval(alloc, x.get(), scope)?;
            negated_small(&v)
        }
        Expr::Not(x) => {
            let v = eval(alloc, x.get(), scope)?;
            Ok(negation(&v))
        }
        Expr::Is(x, test, negative) => {
            let v = eval(alloc, x.get(), scope)?;
            Ok(negation_if(*negative, Value::Bool(passes(*test, &v))))
        }
        Expr::Chain(first, links) => {
            let v = eval(alloc, first.get(), scope)?;
            eval_chain(alloc, v, links.as_slice(), scope)
        }
        Expr::Compare(op, x, y) => {
            let a = eval(alloc, x.get(), scope)?;
            let b = eval(alloc, y.get(), scope)?;
            Ok(compare(*op, &a, &b))
        }
        Expr::Between(negative, x, low, high) => {
            let v = eval(alloc, x.get(), scope)?;
            let low = eval(alloc, low.get(), scope)?;
            let from_low = compare(CmpOp::Ge, &v, &low);
            if is_false(&from_low) {
                return Ok(negation_if(*negative, Value::Bool(false)));
            }
            let high = eval(alloc, high.get(), scope)?;
            Ok(negation_if(*negative, within(&from_low, &v, &high)))
        }
        Expr::OneOf(negative, x, choices) => {
            let v = eval(alloc, x.get(), scope)?;
            let found = eval_among(alloc, &v, choices.as_slice(), scope)?;
            Ok(negation_if(*negative, found))
        }
        Expr::Cast(x, ty) => {
            let v = eval(alloc, x.get(), scope)?;
            cast(alloc, v, *ty)
        }
        Expr::Cases(arms, other) => {
            let found = eval_arms(alloc, arms.as_slice(), scope)?;
            match found {
                Some(v) => Ok(v),
                None => eval_other(alloc, other, scope),
            }
        }
        Expr::Call(name, list) => eval_call(alloc, name, list.as_slice(), scope),
        Expr::CountRows => Ok(scope.group_count()),
        Expr::Scalar(q) => {
            let rows = query(alloc, q.get(), scope)?;
            only(alloc, &rows)
        }
        Expr::Exists(q) => {
            let rows = query(alloc, q.get(), scope)?;
            Ok(exists(&rows))
        }
    }
}

#[cycle(evaluator)]
#[tactic(auto, using(sql_meaning::proofs::WalkRules::chain_rules))]
fn eval_chain<'f>(
    alloc: Global,
    first: Value,
    links: &[(ChainOp, Expr)],
    scope: &Scope<'f, 'f>,
) -> Result<Value, OpError>
    ensures { Gives (chain_of scope.now links.now first) result }
{
    let mut v = first;
    for link in links {
        if !decides(link.0, &v) {
            let right = eval(alloc, &link.1, scope)?;
            v = pair(alloc, link.0, v, right)?;
        }
    }
    Ok(v)
}

#[cycle(evaluator)]
#[tactic(auto, using(sql_meaning::proofs::WalkRules::among_rules))]
fn eval_among<'f>(
    alloc: Global,
    v: &Value,
    choices: &[Expr],
    scope: &Scope<'f, 'f>,
) -> Result<Value, OpError>
    ensures { Gives (among_of scope.now v.now choices.now (val.Bool false)) result }
{
    let mut so_far = Value::Bool(false);
    for choice in choices {
        let w = eval(alloc, choice, scope)?;
        let same = compare(CmpOp::Eq, v, &w);
        if is_true(&same) {
            return Ok(Value::Bool(true));
        }
        if is_null(&same) {
            so_far = Value::Null;
        }
    }
    Ok(so_far)
}

#[cycle(evaluator)]
#[tactic(auto, using(sql_meaning::proofs::WalkRules::arms_rules))]
fn eval_arms<'f>(
    alloc: Global,
    arms: &[(Expr, Expr)],
    scope: &Scope<'f, 'f>,
) -> Result<Option<Value>, OpError>
    ensures { Gives (arms_of scope.now arms.now) result }
{
    for arm in arms {
        let test = eval(alloc, &arm.0, scope)?;
        if is_true(&test) {
            let v = eval(alloc, &arm.1, scope)?;
            return Ok(Some(v));
        }
    }
    Ok(None)
}

#[cycle(evaluator)]
#[tactic(auto, using(sql_meaning::proofs::NodeRules::value_rules))]
fn eval_other<'f>(
    alloc: Global,
    other: &Option<Boxed<Expr>>,
    scope: &Scope<'f, 'f>,
) -> Result<Value, OpError>
    ensures { Gives (other_of scope.now other.now) result }
{
    match other {
        None => Ok(Value::Null),
        Some(e) => eval(alloc, e.get(), scope),
    }
}

#[cycle(evaluator)]
#[tactic(auto, using(sql_meaning::proofs::WalkRules::known_rules))]
fn eval_first_known<'f>(
    alloc: Global,
    list: &[Expr],
    scope: &Scope<'f, 'f>,
) -> Result<Value, OpError>
    ensures { Gives (known_of scope.now list.now) result }
{
    for e in list {
        let v = eval(alloc, e, scope)?;
        if !is_null(&v) {
            return Ok(v);
        }
    }
    Ok(Value::Null)
}

#[cycle(evaluator)]
#[tactic(auto, using(sql_meaning::proofs::WalkRules::each_rules))]
fn eval_all<'f>(
    alloc: Global,
    list: &[Expr],
    scope: &Scope<'f, 'f>,
) -> Result<Items<Value>, OpError>
    ensures { Gives (each_of (value_of scope.now) list.now) result }
{
    let mut all = Items::new(alloc);
    for e in list {
        let v = eval(alloc, e, scope)?;
        all.push(v)?;
    }
    Ok(all)
}

#[cycle(evaluator)]
#[tactic(auto, using(sql_meaning::proofs::WalkRules::joined_rules))]
fn eval_group<'f>(
    alloc: Global,
    list: &[Expr],
    scope: &Scope<'f, 'f>,
) -> Result<Items<Value>, OpError>
    ensures { Gives (joined_of (arguments_at scope.now list.now) scope.now.group) result }
{
    let group = scope.group();
    let mut all = Items::new(alloc);
    for frame in group {
        let inner = scope.at_row(frame);
        let more = eval_all(alloc, list, &inner)?;
        all.append(more)?;
    }
    Ok(all)
}

#[cycle(evaluator)]
#[tactic(auto, using(sql_meaning::proofs::NodeRules::value_rules))]
fn eval_call<'f>(
    alloc: Global,
    name: &Name,
    list: &[Expr],
    scope: &Scope<'f, 'f>,
) -> Result<Value, OpError>
    ensures { Gives (value_of scope.now (expr.Call name.now list.now)) result }
{
    let kind = function_of(name);
    match kind {
        Function::Coalesce => eval_first_known(alloc, list, scope),
        _ => {
            if is_aggregate(kind) {
                let column = eval_group(alloc, list, scope)?;
                aggregate_of(alloc, kind, column.as_slice())
            } else {
                let values = eval_all(alloc, list, scope)?;
                scalar(alloc, kind, values.as_slice())
            }
        }
    }
}
