//! A select that is being written: its items so far, and the rows that end it.

ghost use Rattle.std.specs.Prelude.{◌≡◌, ◌∷◌, ◌++◌, [], ◌+◌, map, length, true, IfOk, OnOk};
ghost use Rattle.away_values.specs.Classes.{is_class};
ghost use Rattle.away_values.specs.declared.types.Ty.TheVariants as ty;
ghost use Rattle.call_forms.specs.Bodies.{Body, returns};
ghost use Rattle.call_forms.specs.References.{is_not_true};
ghost use Rattle.sql_meaning.specs.Trees.{item as item_of, null_of};
ghost use Rattle.sql_meaning.specs.Trees as tree;
ghost use Rattle.cte_template.specs.CarriedWalks as spec;
ghost use Rattle.cte_template.specs.Making.{making};
ghost use Rattle.cte_template.specs.Places.{place_of as standing, stands, first_of};
ghost use Rattle.cte_template.specs.Steps as steps;
ghost use Rattle.cte_template.specs.Written as parts;
ghost use Rattle.cte_parts.specs.Trees.{gate_as as gate_item, either_carrying as either_item};

use crate::places::{ItemColumn, entered};
use crate::rows::{all_columns, call_row, end_row};
use crate::terms::let_at;
use crate::writer::{Writer, label_of, params_of, type_of};
use away_trees::{Expr, FromItem, Item};
use away_values::{Class, NoMemory, Ty};
use block_forms::Term;
use call_forms::Call;
use cte_parts::{after, class_text, col, either_carrying, gate_as, not_true, null, select};
use sqlite_items::Items;
use std::alloc::Global;

/// The items of a select so far, and the number of the next alias.
#[derive(Drop)]
pub(crate) struct Draft {
    pub items: Items<FromItem>,
    pub next: usize,
}

/// What follows in a select: its list, or a block that is entered, with the places of its names.
#[derive(Drop)]
pub(crate) enum Next {
    Row(Items<Item>),
    On(u32, Items<(u32, ItemColumn)>),
}

/// The items and the list of a select, and the number of the next alias.
#[derive(Drop)]
pub(crate) struct Gated {
    pub items: Items<FromItem>,
    pub list: Items<Item>,
    pub next: usize,
}

/// Adds a term as an item.
pub(crate) fn add_let(
    alloc: Global,
    w: &Writer<'_>,
    depth: usize,
    pairs: &[(u32, ItemColumn)],
    draft: &mut Draft,
    ty: Ty,
    term: &Term,
) -> Result<(), NoMemory>
    ensures items { OnOk result (draft.new.items ≡ draft.old.items ++ parts.let_at
        (making w.now) depth (standing pairs.now) draft.old.next ty term.now ∷ []) }
    ensures next { OnOk result (draft.new.next ≡ draft.old.next + 1) }
{
    let item = let_at(alloc, w, depth, pairs, draft.next, ty, term)?;
    draft.next = after(draft.next)?;
    draft.items.push(item)?;
    Ok(())
}

/// Adds what a block assigns, and tells where names stand from then on.
pub(crate) fn assigned(
    alloc: Global,
    w: &Writer<'_>,
    depth: usize,
    pairs: Items<(u32, ItemColumn)>,
    draft: &mut Draft,
    set: &Option<(u32, Term)>,
) -> Result<Items<(u32, ItemColumn)>, NoMemory>
    ensures { IfOk result (λ now. (body : Body)
        → spec.rest (making w.now) w.now.carried.now depth (standing now) draft.new body
        ≡ spec.rest (making w.now) w.now.carried.now depth (standing pairs) draft.old
        (spec.from_set (making w.now) set.now body)) }
{
    match set {
        None => Ok(pairs),
        Some((name, term)) => {
            let item = draft.items.len();
            let ty = type_of(w, *name);
            add_let(alloc, w, depth, pairs.as_slice(), draft, ty, term)?;
            placed_first(pairs, *name, depth, item)
        }
    }
}

/// The name stands at the first column of an item from now on.
#[tactic(auto, using(crate::proofs::PlaceRules::one_stands))]
fn placed_first(
    pairs: Items<(u32, ItemColumn)>,
    name: u32,
    depth: usize,
    item: usize,
) -> Result<Items<(u32, ItemColumn)>, NoMemory>
    ensures { IfOk result (λ now. standing now
        ≡ stands name (first_of depth item) (standing pairs)) }
{
    let mut pairs = pairs;
    let place = ItemColumn {
        depth,
        item,
        column: 0,
    };
    pairs.push((name, place))?;
    Ok(pairs)
}

/// A call: the row of a label, or the block that is entered.
pub(crate) fn behind_call(
    alloc: Global,
    w: &Writer<'_>,
    left: usize,
    depth: usize,
    pairs: &[(u32, ItemColumn)],
    draft: &mut Draft,
    call: &Call,
) -> Result<Next, NoMemory>
    ensures { IfOk result (λ next.
        steps.reached (making w.now) w.now.carried.now depth left next draft.new
        ≡ spec.rest (making w.now) w.now.carried.now depth (standing pairs.now) draft.old
        (spec.from_call (making w.now) left call.now)) }
{
    let args = call.args.as_slice();
    match label_of(w, call.target) {
        Some(label) => Ok(Next::Row(call_row(alloc, w, depth, pairs, label, args)?)),
        None => {
            let params = params_of(w, call.target as usize);
            Ok(Next::On(call.target, entered(alloc, pairs, params, args)?))
        }
    }
}

/// The row of a term that is returned.
#[tactic(auto, using(crate::proofs::WalkRules::end_rules))]
pub(crate) fn value_row(
    alloc: Global,
    w: &Writer<'_>,
    depth: usize,
    pairs: &[(u32, ItemColumn)],
    draft: &mut Draft,
    term: &Term,
) -> Result<Items<Item>, NoMemory>
    ensures { IfOk result (λ list. spec.written draft.new list
        ≡ spec.rest (making w.now) w.now.carried.now depth (standing pairs.now) draft.old
        (returns term.now)) }
{
    let item = draft.items.len();
    add_let(alloc, w, depth, pairs, draft, w.result, term)?;
    let value = col(0, item, 0)?;
    end_row(alloc, w, depth, value, null(alloc, Ty::Text)?)
}

/// The row of a label whose blocks have no end.
#[tactic(auto, using(crate::proofs::WalkRules::end_rules))]
pub(crate) fn unended(alloc: Global, w: &Writer<'_>, depth: usize) -> Result<Items<Item>, NoMemory>
    ensures { IfOk result (λ list. list
        ≡ map item_of (spec.end_row (making w.now) w.now.carried.now depth (null_of w.now.result)
        (null_of ty.Text))) }
{
    let value = null(alloc, w.result)?;
    end_row(alloc, w, depth, value, null(alloc, Ty::Text)?)
}

/// The row of a fault.
pub(crate) fn fault_row(
    alloc: Global,
    w: &Writer<'_>,
    depth: usize,
    class: Class,
) -> Result<Items<Item>, NoMemory>
    requires { is_class class.code ≡ true }
    ensures { IfOk result (λ list. list
        ≡ map item_of (spec.end_row (making w.now) w.now.carried.now depth (null_of w.now.result)
        (parts.class_text (making w.now) class))) }
{
    let text = class_text(alloc, class)?;
    let value = null(alloc, w.result)?;
    end_row(alloc, w, depth, value, text)
}

/// A select of one item: one row where the condition holds.
pub(crate) fn behind(alloc: Global, alias: usize, condition: Expr) -> Result<Draft, NoMemory>
    ensures items { IfOk result (λ d. d.items ≡ gate_item alias condition ∷ []) }
    ensures next { IfOk result (λ d. d.next ≡ alias + 1) }
{
    let mut items = Items::new(alloc);
    items.push(gate_as(alloc, alias, condition)?)?;
    Ok(Draft {
        items,
        next: after(alias)?,
    })
}

/// The gate of what is done where the test of an item holds.
pub(crate) fn where_true(alloc: Global, alias: usize, item: usize) -> Result<Draft, NoMemory>
    ensures items { IfOk result (λ d. d.items ≡ gate_item alias (tree.col 2 item 0) ∷ []) }
    ensures next { IfOk result (λ d. d.next ≡ alias + 1) }
{
    behind(alloc, alias, col(2, item, 0)?)
}

/// The gate of what is done elsewhere.
pub(crate) fn elsewhere(alloc: Global, alias: usize, item: usize) -> Result<Draft, NoMemory>
    ensures items { IfOk result
        (λ d. d.items ≡ gate_item alias (is_not_true (tree.col 2 item 0)) ∷ []) }
    ensures next { IfOk result (λ d. d.next ≡ alias + 1) }
{
    behind(alloc, alias, not_true(alloc, col(2, item, 0)?)?)
}

/// The item of two selects.
fn both(
    alloc: Global,
    alias: usize,
    carried: usize,
    columns: usize,
    first: Gated,
    second: Gated,
) -> Result<FromItem, NoMemory>
    ensures { IfOk result (λ i. i ≡ either_item alias carried columns (steps.select_of first)
        (steps.select_of second)) }
{
    let first = select(alloc, first.list, first.items, None);
    let second = select(alloc, second.list, second.items, None);
    either_carrying(alloc, alias, carried, columns, first, second)
}

/// Adds the item of two selects, and gives all its columns.
pub(crate) fn either(
    alloc: Global,
    w: &Writer<'_>,
    draft: &mut Draft,
    item: usize,
    first: Gated,
    second: Gated,
) -> Result<Items<Item>, NoMemory>
    ensures items { IfOk result (λ list. draft.new.items ≡ draft.old.items
        ++ either_item draft.old.next (length w.now.carried.now)
        (length w.now.tail.now.columns) (steps.select_of first) (steps.select_of second) ∷ []) }
    ensures next { IfOk result (λ list. draft.new.next ≡ second.next) }
    ensures list { IfOk result (λ list. list
        ≡ map item_of (spec.all_columns (making w.now) w.now.carried.now (item + 1))) }
{
    let next = second.next;
    let columns = w.tail.columns.len();
    let made = both(alloc, draft.next, w.carried.len(), columns, first, second)?;
    draft.items.push(made)?;
    draft.next = next;
    all_columns(alloc, w, after(item)?)
}
