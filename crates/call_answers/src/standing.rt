//! Bodies with their numbers converted, in which calls stand: each with its arguments converted to the types of the parameters,
//! and its value to the type of its place.

ghost use Rattle.std.specs.Prelude.{◌≡◌, IfOk, map, Some};
ghost use Rattle.away_types.specs.FunctionChecks.{around_in, slot_types as types_of};
ghost use Rattle.away_typing.specs.TypingLists.{places};
ghost use Rattle.elaboration.specs.ConvertingLists.{around};
ghost use Rattle.away_trees.specs.declared.statements.Stmt.TheVariants as stmt;
ghost use Rattle.elaboration.specs.Converting.{slot_type as type_of_slot};
ghost use Rattle.call_expand.specs.Judges as whose;
ghost use Rattle.call_expand.specs.Parts as spec;

use away_names::listings::copy_alias;
use away_trees::{Arm, Decl, Expr, Function, LoopKind, Schema, Stmt};
use away_types::Slot;
use away_typing::kind::Kind;
use away_typing::recursion::column_types;
use away_typing::types::Places;
use away_values::{Name, NoMemory, Ty};
use call_expand::judged::Callees;
use call_expand::places::{call_place, self_call};
use elaboration::converting::{
    Around, converted_to, converts, decls_converted, for_slot, kind_converted, marked, slot_type,
};
use elaboration::made::Made;
use elaboration::statements::converted;
use sqlite_items::{Boxed, Items};
use std::alloc::Global;

fn arguments_converted(
    alloc: Global,
    params: &[(Name, Ty)],
    args: &[Expr],
    p: &Places<'_>,
) -> Result<Items<Expr>, NoMemory>
    ensures { IfOk result (λ xs. xs
        ≡ spec.arguments_converted (places p.now) params.now args.now) }
{
    let mut all = Items::new(alloc);
    let mut ps = params;
    for a in args {
        match ps {
            [] => all.push(marked(alloc, a, p)?)?,
            [x, more @ ..] => {
                all.push(converted_to(alloc, x.1, a, p)?)?;
                ps = more;
            }
        }
    }
    Ok(all)
}

/// A call as a value of its function's result type.
fn call_made(
    alloc: Global,
    g: &Function,
    args: &[Expr],
    p: &Places<'_>,
) -> Result<Made<Expr>, NoMemory>
    ensures { IfOk result (λ x. x ≡ spec.call_made g.now (places p.now) args.now) }
{
    let converted = arguments_converted(alloc, g.params.as_slice(), args, p)?;
    Ok(Made {
        kind: Kind::Of(g.result),
        it: Expr::Call(g.name.copy(alloc)?, converted),
    })
}

fn for_type(alloc: Global, t: Option<Ty>, x: Made<Expr>) -> Result<Expr, NoMemory>
    ensures { IfOk result (λ e. e ≡ spec.for_type t x) }
{
    match t {
        None => Ok(x.it),
        Some(t) => {
            if converts(t, x.kind) {
                Ok(Expr::Cast(Boxed::new(alloc, x.it)?, t))
            } else {
                Ok(x.it)
            }
        }
    }
}

/// The expression of a place that asks for a type, or for none.
fn placed_for(
    alloc: Global,
    c: Callees<'_>,
    t: Option<Ty>,
    e: &Expr,
    p: &Places<'_>,
) -> Result<Expr, NoMemory>
    ensures { IfOk result (λ x. x
        ≡ spec.placed_for (whose.names c.entry) (whose.functions c.entry) t (places p.now) e.now) }
{
    match c {
        Callees::All(fs) => match call_place(fs, e) {
            None => for_slot(alloc, t, e, p),
            Some(place) => {
                if place.part < fs.len() {
                    for_type(alloc, t, call_made(alloc, &fs[place.part], place.args, p)?)
                } else {
                    Err(NoMemory)
                }
            }
        },
        Callees::Own(f) => match self_call(f, e) {
            None => for_slot(alloc, t, e, p),
            Some(place) => for_type(alloc, t, call_made(alloc, f, place.args, p)?),
        },
    }
}

fn block_of(
    alloc: Global,
    label: &Option<Name>,
    decls: Items<Decl>,
    body: Items<Stmt>,
    closing: &Option<Name>,
) -> Result<Stmt, NoMemory>
    ensures { IfOk result (λ x. x ≡ stmt.Block label.now decls body closing.now) }
{
    Ok(Stmt::Block {
        label: copy_alias(alloc, label)?,
        decls,
        body,
        closing: copy_alias(alloc, closing)?,
    })
}

fn loop_of(
    alloc: Global,
    label: &Option<Name>,
    head: Boxed<LoopKind>,
    body: Items<Stmt>,
    closing: &Option<Name>,
) -> Result<Stmt, NoMemory>
    ensures { IfOk result (λ x. x ≡ stmt.Loop label.now head body closing.now) }
{
    let label = copy_alias(alloc, label)?;
    let closing = copy_alias(alloc, closing)?;
    Ok(Stmt::Loop {
        label,
        kind: head.into_inner(),
        body,
        closing,
    })
}

fn assign_of(
    alloc: Global,
    c: Callees<'_>,
    name: &Name,
    slot: Option<u32>,
    e: &Expr,
    a: &Around<'_>,
) -> Result<Stmt, NoMemory>
    ensures { IfOk result (λ x. x ≡ stmt.Assign name.now slot (spec.placed_for
        (whose.names c.entry) (whose.functions c.entry) (type_of_slot (around a.now) slot)
        (places a.now.places) e.now)) }
{
    let value = placed_for(alloc, c, slot_type(a, slot), e, &a.places)?;
    Ok(Stmt::Assign(name.copy(alloc)?, slot, value))
}

fn return_of(alloc: Global, c: Callees<'_>, e: &Expr, a: &Around<'_>) -> Result<Stmt, NoMemory>
    ensures { IfOk result (λ x. x ≡ stmt.Return (spec.placed_for
        (whose.names c.entry) (whose.functions c.entry) (Some a.now.result) (places a.now.places)
        e.now)) }
{
    let value = placed_for(alloc, c, Some(a.result), e, &a.places)?;
    Ok(Stmt::Return(value))
}

#[cycle(standing)]
#[tactic(auto, using(crate::proofs::StandingRules::statement_rules))]
pub(crate) fn standing_stmt(
    alloc: Global,
    c: Callees<'_>,
    s: &Stmt,
    a: &Around<'_>,
) -> Result<Stmt, NoMemory>
    ensures { IfOk result (λ x. x
        ≡ spec.converted_with_calls (whose.names c.entry) (whose.functions c.entry)
        (around a.now) s.now) }
{
    match s {
        Stmt::Block {
            label,
            decls,
            body,
            closing,
        } => {
            let decls = decls_converted(alloc, decls.as_slice(), a)?;
            let body = standing_row(alloc, c, body.as_slice(), a)?;
            block_of(alloc, label, decls, body, closing)
        }
        Stmt::Assign(name, slot, e) => assign_of(alloc, c, name, *slot, e, a),
        Stmt::If(arms, other) => {
            let xs = standing_arms(alloc, c, arms.as_slice(), a)?;
            match other {
                None => Ok(Stmt::If(xs, None)),
                Some(body) => {
                    let ys = standing_row(alloc, c, body.as_slice(), a)?;
                    Ok(Stmt::If(xs, Some(ys)))
                }
            }
        }
        Stmt::Cases(arms, other) => {
            let xs = standing_arms(alloc, c, arms.as_slice(), a)?;
            match other {
                None => Ok(Stmt::Cases(xs, None)),
                Some(body) => {
                    let ys = standing_row(alloc, c, body.as_slice(), a)?;
                    Ok(Stmt::Cases(xs, Some(ys)))
                }
            }
        }
        Stmt::Loop {
            label,
            kind,
            body,
            closing,
        } => {
            let head = kind_converted(alloc, kind, a)?;
            let body = standing_row(alloc, c, body.as_slice(), a)?;
            loop_of(alloc, label, head, body, closing)
        }
        Stmt::Return(e) => return_of(alloc, c, e, a),
        Stmt::Exit(_, _) => converted(alloc, s, a),
        Stmt::Continue(_, _) => converted(alloc, s, a),
        Stmt::Raise(_) => converted(alloc, s, a),
        Stmt::Into { .. } => converted(alloc, s, a),
        Stmt::Nothing => converted(alloc, s, a),
    }
}

#[cycle(standing)]
fn standing_row(
    alloc: Global,
    c: Callees<'_>,
    list: &[Stmt],
    a: &Around<'_>,
) -> Result<Items<Stmt>, NoMemory>
    ensures { IfOk result (λ xs. xs ≡ map (spec.converted_with_calls (whose.names c.entry)
        (whose.functions c.entry) (around a.now)) list.now) }
{
    let mut done = Items::new(alloc);
    for s in list {
        done.push(standing_stmt(alloc, c, s, a)?)?;
    }
    Ok(done)
}

#[cycle(standing)]
fn standing_arms(
    alloc: Global,
    c: Callees<'_>,
    list: &[Arm],
    a: &Around<'_>,
) -> Result<Items<Arm>, NoMemory>
    ensures { IfOk result (λ xs. xs ≡ map (spec.arm_with_calls (whose.names c.entry)
        (whose.functions c.entry) (around a.now)) list.now) }
{
    let mut done = Items::new(alloc);
    for arm in list {
        done.push(standing_arm(alloc, c, arm, a)?)?;
    }
    Ok(done)
}

#[cycle(standing)]
#[tactic(auto, using(crate::proofs::StandingRules::arm_rule))]
fn standing_arm(alloc: Global, c: Callees<'_>, arm: &Arm, a: &Around<'_>) -> Result<Arm, NoMemory>
    ensures { IfOk result (λ x. x
        ≡ spec.arm_with_calls (whose.names c.entry) (whose.functions c.entry)
        (around a.now) arm.now) }
{
    let body = standing_row(alloc, c, arm.body.as_slice(), a)?;
    let test = marked(alloc, &arm.test, &a.places)?;
    Ok(Arm { test, body })
}

fn slot_types(alloc: Global, slots: &[Slot]) -> Result<Items<Ty>, NoMemory>
    ensures { IfOk result (λ all. all ≡ types_of slots.now) }
{
    let mut all = Items::new(alloc);
    for x in slots {
        all.push(x.ty)?;
    }
    Ok(all)
}

/// A body over its slots, converted, in which calls stand, for a result of a type.
pub(crate) fn standing_body(
    alloc: Global,
    s: &Schema,
    c: Callees<'_>,
    returned: Ty,
    slots: &[Slot],
    body: &Stmt,
) -> Result<Boxed<Stmt>, NoMemory>
    ensures { IfOk result (λ x. x ≡ spec.converted_with_calls (whose.names c.entry)
        (whose.functions c.entry) (around_in s.now slots.now returned) body.now) }
{
    let columns = column_types(alloc, s)?;
    let types = slot_types(alloc, slots)?;
    let a = Around {
        places: Places {
            slots: types.as_slice(),
            frames: &[],
            tables: columns.as_slice(),
        },
        result: returned,
        counter: Ty::Integer,
    };
    let x = standing_stmt(alloc, c, body, &a)?;
    Ok(Boxed::new(alloc, x)?)
}
