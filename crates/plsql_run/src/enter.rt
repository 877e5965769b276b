//! A statement begins.

ghost use Rattle.std.specs.Prelude.{◌≡◌, ◌+◌, ◌*◌, ◌≤◌, ◌<◌, ◌^◌, length, sum_by};
ghost use Rattle.away_trees.specs.Count.{nodes_of, nodes_of_arm, nodes_of_else};
ghost use Rattle.plsql_meaning.specs.Outcomes.{Env, and_then, case_not_found, close};
ghost use Rattle.plsql_meaning.specs.Slots.{slots_of, slots_of_arm, slots_of_else};
ghost use Rattle.plsql_meaning.specs.Statements.{Setting as Meant};
ghost use Rattle.plsql_meaning.specs.Statements as meaning;
ghost use Rattle.plsql_run.specs.Continues.{GoesOn, IfEnds, arms_run, body_of, else_run, load};
ghost use Rattle.plsql_run.specs.Layouts.{arm_layouts, layout_of, layouts_of, layouts_of_else};
ghost use Rattle.plsql_run.specs.declared.layout.Layout.TheViews.{out-Layout};
ghost use Rattle.plsql_run.specs.Settings.{meant};

use crate::assignments::declare;
use crate::counting::enter_count;
use crate::frames::{Frame, Signal, Stretch, Way};
use crate::into::select_into;
use crate::layout::Layout;
use crate::loops::{begin_plain, begin_while};
use crate::setting::Setting;
use crate::single_statements::{assign, give, jump, raise};
use away_trees::{Arm, Decl, LoopKind, Stmt};
use away_values::{Class, Name, OpError, Value, sqlstate};
use lateral_rows::is_true;
use sqlite_items::Items;
use std::alloc::Global;

/// A block begins with its declarations, from the slot `at` on.
fn enter_block<'a>(
    alloc: Global,
    setting: &Setting<'_>,
    stack: &mut Items<Frame<'a>>,
    env: &mut Items<Value>,
    label: &'a Option<Name>,
    decls: &[Decl],
    at: usize,
    body: Stretch<'a>,
) -> Result<Signal<'a>, OpError>
    requires { at + length decls.now < 2 ^ 64 }
    ensures runs { let set = meant setting.now
        in GoesOn set stack.old (λ n. close label.now
        (and_then (meaning.declare set decls.now at env.old n)
        (body_of set body.entry))) stack.new env.new result }
    ensures ends { IfEnds result
        (load stack.new ≡ load stack.old + (2 + 3 * sum_by nodes_of body.entry.list)) }
{
    declare(alloc, setting, env, decls, at)?;
    stack.push(Frame::Block(label))?;
    stack.push(Frame::Rest(body))?;
    Ok(Signal::Ends(Way::Normal))
}

/// Statements begin.
fn enter_list<'a>(stack: &mut Items<Frame<'a>>, list: Stretch<'a>) -> Result<Signal<'a>, OpError>
    ensures runs { (set : Meant) (env : Env)
        → GoesOn set stack.old (λ n. body_of set list.entry env n) stack.new env result }
    ensures ends { IfEnds result
        (load stack.new ≡ load stack.old + (1 + 3 * sum_by nodes_of list.entry.list)) }
{
    stack.push(Frame::Rest(list))?;
    Ok(Signal::Ends(Way::Normal))
}

/// The statements of ELSE begin. Where there is none, the statement ends, or raises the class.
fn enter_else<'a>(
    stack: &mut Items<Frame<'a>>,
    other: &'a Option<Items<Stmt>>,
    layouts: &'a [Layout],
    missing: Option<Class>,
    at: usize,
) -> Result<Signal<'a>, OpError>
    requires few { at + slots_of_else other.now < 2 ^ 64 }
    requires laid { layouts.now ≡ layouts_of_else other.now }
    ensures runs { (set : Meant) (env : Env) → GoesOn set stack.old
        (λ n. else_run set other.now missing at env n) stack.new env result }
    ensures ends { IfEnds result
        (load stack.new ≤ load stack.old + (1 + 3 * nodes_of_else other.now)) }
{
    match other {
        Some(body) => enter_list(
            stack,
            Stretch {
                list: body.as_slice(),
                layouts,
                at,
            },
        ),
        None => match missing {
            Some(class) => Err(OpError::Class(class)),
            None => Ok(Signal::Ends(Way::Normal)),
        },
    }
}

/// The statements of the first arm whose condition is true begin, or else those of ELSE.
fn enter_arms<'a>(
    alloc: Global,
    setting: &Setting<'_>,
    stack: &mut Items<Frame<'a>>,
    env: &Items<Value>,
    arms: &'a [Arm],
    other: &'a Option<Items<Stmt>>,
    layout: &'a Layout,
    missing: Option<Class>,
    at: usize,
) -> Result<Signal<'a>, OpError>
    requires few { at + (sum_by slots_of_arm arms.now + slots_of_else other.now) < 2 ^ 64 }
    requires arms_laid { (out-Layout layout.now).inside ≡ arm_layouts arms.now }
    requires else_laid { (out-Layout layout.now).other ≡ layouts_of_else other.now }
    ensures runs { let set = meant setting.now in GoesOn set stack.old
        (λ n. arms_run set arms.now other.now missing at env.now n) stack.new env.now result }
    ensures ends { IfEnds result (load stack.new ≤ load stack.old
        + (1 + 3 * (sum_by nodes_of_arm arms.now + nodes_of_else other.now))) }
{
    let layouts = layout.inside.as_slice();
    let mut next = at;
    for i in 0..arms.len() {
        let arm = &arms[i];
        let here = &layouts[i];
        let v = setting.value(alloc, &arm.test, env)?;
        if is_true(&v) {
            return enter_list(
                stack,
                Stretch {
                    list: arm.body.as_slice(),
                    layouts: here.inside.as_slice(),
                    at: next,
                },
            );
        }
        next += here.slots;
    }
    enter_else(stack, other, layout.other.as_slice(), missing, next)
}

/// A loop begins.
fn enter_loop<'a>(
    alloc: Global,
    setting: &Setting<'_>,
    stack: &mut Items<Frame<'a>>,
    env: &mut Items<Value>,
    label: &'a Option<Name>,
    kind: &'a LoopKind,
    list: &'a [Stmt],
    layouts: &'a [Layout],
    at: usize,
) -> Result<Signal<'a>, OpError>
    requires few { at + (meaning.kind_vars kind.now + sum_by slots_of list.now) < 2 ^ 64 }
    requires laid { layouts.now ≡ layouts_of list.now }
    ensures runs { let set = meant setting.now
        in GoesOn set stack.old (λ n. meaning.loop set kind.now label.now at
        (meaning.in_row (meaning.meanings set list.now)
        (meaning.body_at kind.now at)) env.old n) stack.new env.new result }
    ensures ends { IfEnds result (stack.new ≡ stack.old) }
{
    match kind {
        LoopKind::Plain => begin_plain(stack, label, Stretch { list, layouts, at }),
        LoopKind::While(test) => begin_while(
            alloc,
            setting,
            stack,
            env,
            label,
            test,
            Stretch { list, layouts, at },
        ),
        LoopKind::Count {
            reverse,
            first,
            last,
            step,
            ..
        } => enter_count(
            alloc,
            setting,
            stack,
            env,
            label,
            *reverse,
            first,
            last,
            step,
            at,
            Stretch {
                list,
                layouts,
                at: at + 1,
            },
        ),
    }
}

/// A statement begins, whose first slot is `at`.
pub(crate) fn enter<'a>(
    alloc: Global,
    setting: &Setting<'_>,
    stack: &mut Items<Frame<'a>>,
    env: &mut Items<Value>,
    s: &'a Stmt,
    layout: &'a Layout,
    at: usize,
) -> Result<Signal<'a>, OpError>
    requires few { at + slots_of s.now < 2 ^ 64 }
    requires laid { layout.now ≡ layout_of s.now }
    ensures runs { let set = meant setting.now in GoesOn set stack.old
        (λ n. (meaning.meaning set s.now).run at env.old n) stack.new env.new result }
    ensures ends { IfEnds result (load stack.new < load stack.old + 3 * nodes_of s.now) }
{
    match s {
        Stmt::Block {
            label,
            decls,
            body,
            ..
        } => enter_block(
            alloc,
            setting,
            stack,
            env,
            label,
            decls.as_slice(),
            at,
            Stretch {
                list: body.as_slice(),
                layouts: layout.inside.as_slice(),
                at: at + decls.len(),
            },
        ),
        Stmt::Assign(_, slot, e) => assign(alloc, setting, env, *slot, e),
        Stmt::If(arms, other) => enter_arms(
            alloc,
            setting,
            stack,
            env,
            arms.as_slice(),
            other,
            layout,
            None,
            at,
        ),
        Stmt::Cases(arms, other) => enter_arms(
            alloc,
            setting,
            stack,
            env,
            arms.as_slice(),
            other,
            layout,
            Some(sqlstate::CASE_NOT_FOUND),
            at,
        ),
        Stmt::Loop {
            label,
            kind,
            body,
            ..
        } => enter_loop(
            alloc,
            setting,
            stack,
            env,
            label,
            kind,
            body.as_slice(),
            layout.inside.as_slice(),
            at,
        ),
        Stmt::Exit(label, when) => jump(alloc, setting, env, when, Way::Exits(label)),
        Stmt::Continue(label, when) => jump(alloc, setting, env, when, Way::Continues(label)),
        Stmt::Return(e) => give(alloc, setting, env, e),
        Stmt::Raise(raised) => raise(alloc, raised, env),
        Stmt::Into {
            strict,
            targets,
            query,
        } => select_into(alloc, setting, env, *strict, targets.as_slice(), query),
        Stmt::Nothing => Ok(Signal::Ends(Way::Normal)),
    }
}
