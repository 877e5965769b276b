//! The items that give a term's value.

ghost use Rattle.std.specs.Prelude.{◌≡◌, ◌↔◌, ◌+◌, ◌<◌, IsTrue, IfOk, List, length, suc, ◌∷◌, ◌++◌};
ghost use Rattle.away_trees.specs.declared.queries.Expr.{Expr};
ghost use Rattle.away_trees.specs.declared.queries.Expr.TheVariants as expr;
ghost use Rattle.call_forms.specs.Templated.{HasReferences};
ghost use Rattle.tree_events.specs.Placing.{placed_kind, placed_events};
ghost use Rattle.tree_events.specs.declared.events.Kind.TheVariants as kind;
ghost use Rattle.tree_events.specs.declared.events.TreeEvent.TheVariants as event;
ghost use Rattle.sql_meaning.specs.Placed.{further, placed_at};
ghost use Rattle.sql_meaning.specs.Template.{let_item};
ghost use Rattle.away_values.specs.Operators.{literal_type as type_of_literal};
ghost use Rattle.cte_reads.specs.Entries.{EntryOf, EntriesOf, let_at};
ghost use Rattle.cte_reads.specs.Placing.{slot_column, slot_column_in, depth_behind, placed_event_put};
ghost use Rattle.cte_reads.specs.Puts.{expr_put, from_put};
ghost use Rattle.cte_reads.specs.Read.{Reads, ReadsWhere};
ghost use Rattle.cte_reads.specs.References as spec;
ghost use Rattle.cte_reads.specs.References.{col_at, ref_or, refs_of, names_of};

use crate::entries::{Entries, Entry};
use crate::parts::{close_lateral, end_of_body, null_of, open_lateral};
use crate::reading::{Wanted, close, empty, enter, event, leave, name, open};
use crate::scope::{Ref, Scope, find_all, lookup};
use away_trees::Col;
use away_values::{NoMemory, Ty, literal_type};
use block_forms::Term;
use sqlite_items::Items;
use std::alloc::Global;
use tree_events::{Kind, TreeEvent};

/// Where a column of the query may stand: how many selects of the branch enclose the term's place, and how many more within the term.
#[derive(Clone, Copy, Debug, PartialEq, Eq)]
struct Depth {
    out: usize,
    within: usize,
}

/// Whether a column is the reference, seen from there.
fn is_ref(c: Col, found: Ref, depth: Depth) -> bool
    ensures { IsTrue result ↔ (c ≡ further depth.within (col_at depth.out found)) }
{
    let level = (depth.out as u128 + 1).saturating_sub(found.from as u128) + depth.within as u128;
    c.level as u128 == level && c.item as usize == found.item && c.column as usize == found.column
}

/// The first event of a column that is the reference.
fn open_ref(events: &[TreeEvent], at: Option<usize>, found: Ref, depth: Depth) -> Option<usize>
    ensures { Reads (λ rest. event.Open (kind.Column
        (further depth.within (col_at depth.out found))) ∷ rest) events.now at result }
{
    let place = at?;
    if place >= events.len() {
        return None;
    }
    match &events[place] {
        TreeEvent::Open(Kind::Column(c)) => {
            if is_ref(*c, found, depth) {
                Some(place + 1)
            } else {
                None
            }
        }
        _ => None,
    }
}

/// The reference as a column, in a select so deep.
pub(crate) fn reference(
    events: &[TreeEvent],
    at: Option<usize>,
    found: Ref,
    depth: usize,
) -> Option<usize>
    ensures { Reads (expr_put (expr.Column (col_at depth found))) events.now at result }
{
    let depth = Depth {
        out: depth,
        within: 0,
    };
    close(events, open_ref(events, at, found, depth))
}

/// What a slot stands for; where it is none of the slots, a column that no row has.
fn slot_ref(slots: &[u32], refs: &[Ref], slot: u32) -> Ref
    ensures { result ≡ ref_or (spec.lookup slots.now refs.now slot) }
{
    match lookup(slots, refs, slot as usize) {
        Some(found) => found,
        None => Ref {
            from: 0,
            item: 1,
            column: 0,
        },
    }
}

/// The first event of a literal's cast, and of the literal.
fn open_literal(events: &[TreeEvent], at: Option<usize>, ty: Ty, literal: Kind) -> Option<usize>
    ensures { Reads (λ rest. event.Open (kind.Cast ty) ∷ event.Open literal
        ∷ rest) events.now at result }
{
    let at = open(events, at, Kind::Cast(ty));
    open(events, at, literal)
}

/// The cast of a number to its own type.
fn number_cast(n: i64) -> Kind
    ensures { result ≡ kind.Cast (type_of_literal n) }
{
    Kind::Cast(literal_type(n))
}

/// A number or a truth under its cast, as a whole.
fn whole_literal(
    events: &[TreeEvent],
    at: Option<usize>,
    cast: Kind,
    literal: Kind,
) -> Option<usize>
    ensures { Reads (λ rest. event.Open cast ∷ event.Open literal ∷ event.Close
        ∷ rest) events.now at result }
{
    let cast_end = open(events, at, cast);
    let literal_end = open(events, cast_end, literal);
    close(events, literal_end)
}

/// The first event of a node, where a slot is its column and a literal has its cast. Behind a number or a truth the literal's own end follows.
fn placed_node(
    events: &[TreeEvent],
    at: Option<usize>,
    kind: Kind,
    slots: &[u32],
    refs: &[Ref],
    depth: Depth,
) -> Option<usize>
    ensures { Reads (placed_kind
        (slot_column_in depth slots.now refs.now) 0 kind) events.now at result }
{
    match kind {
        Kind::Slot(slot) => open_ref(events, at, slot_ref(slots, refs, slot), depth),
        Kind::Int(n) => whole_literal(events, at, number_cast(n), kind),
        Kind::Bool(_) => whole_literal(events, at, Kind::Cast(Ty::Boolean), kind),
        Kind::Str => open_literal(events, at, Ty::Text, kind),
        _ => open(events, at, kind),
    }
}

/// How deep the next event stands.
fn next_depth(event: &TreeEvent, depth: Depth) -> Depth
    requires { depth.within < 18446744073709551615 }
    ensures { result ≡ depth_behind event.now depth }
{
    match event {
        TreeEvent::Enter => Depth {
            out: depth.out,
            within: depth.within + 1,
        },
        TreeEvent::Leave => Depth {
            out: depth.out,
            within: if depth.within > 1 {
                depth.within - 1
            } else {
                1
            },
        },
        _ => depth,
    }
}

/// One event of an expression, as it is read where its slots are columns.
fn placed_event(
    events: &[TreeEvent],
    at: Option<usize>,
    of: &TreeEvent,
    slots: &[u32],
    refs: &[Ref],
    depth: Depth,
) -> Option<usize>
    ensures { Reads (placed_event_put depth slots.now refs.now of.now) events.now at result }
{
    match of {
        TreeEvent::Open(kind) => placed_node(events, at, *kind, slots, refs, depth),
        TreeEvent::Close => close(events, at),
        TreeEvent::Enter => enter(events, at),
        TreeEvent::Leave => leave(events, at),
        TreeEvent::Text(text) => close(events, event(events, at, Wanted::Text(text))),
        TreeEvent::Name(of) => name(events, at, of.text()),
    }
}

/// An expression with columns for its slots, in an item of a select so deep.
fn placed(
    events: &[TreeEvent],
    at: Option<usize>,
    of: &[TreeEvent],
    slots: &[u32],
    refs: &[Ref],
    out: usize,
) -> Option<usize>
    ensures { Reads (λ rest. placed_events (slot_column out slots.now refs.now) 0 of.now
        ++ rest) events.now at result }
{
    let mut at = at;
    let mut depth = Depth { out, within: 1 };
    for i in 0..of.len() {
        let next = &of[i];
        at = placed_event(events, at, next, slots, refs, depth);
        depth = next_depth(next, depth);
    }
    at
}

/// The whole expression of a term, of this type.
fn expression(
    events: &[TreeEvent],
    at: Option<usize>,
    entry: &Entry,
    refs: &[Ref],
    ty: Ty,
    out: usize,
) -> Option<usize>
    ensures { (e : Expr) → EntryOf e entry.now
        → Reads (expr_put (placed_at ty
        (slot_column out entry.now.slots refs.now) e)) events.now at result }
{
    if entry.is_null {
        return null_of(events, at, ty);
    }
    placed(
        events,
        at,
        entry.events.as_slice(),
        entry.slots.as_slice(),
        refs,
        out,
    )
}

/// `LATERAL (SELECT e)`
fn let_of(
    events: &[TreeEvent],
    at: Option<usize>,
    entry: &Entry,
    refs: &[Ref],
    ty: Ty,
    out: usize,
) -> Option<usize>
    ensures { (e : Expr) → EntryOf e entry.now
        → Reads (from_put (let_item
        (placed_at ty (slot_column out entry.now.slots refs.now) e))) events.now at result }
{
    let at = enter(events, open_lateral(events, at));
    let at = open(events, empty(events, at, Kind::From), Kind::List);
    let at = expression(events, at, entry, refs, ty, out);
    let at = end_of_body(events, close(events, at));
    close_lateral(events, at)
}

/// `LATERAL (SELECT e)` for a term of this type, in a select so deep, where each of its names stands for a column.
pub fn term(
    alloc: Global,
    events: &[TreeEvent],
    at: Option<usize>,
    entries: &Entries,
    scope: &Scope<'_>,
    t: &Term,
    ty: Ty,
    depth: usize,
) -> Result<Option<usize>, NoMemory>
    requires { length scope.now.refs ≡ length scope.now.names.now }
    ensures { IfOk result (λ to. (table : List Expr) → EntriesOf table entries.now
        → ReadsWhere (HasReferences table (names_of scope.now) t.now)
        (from_put (let_at table depth (refs_of depth scope.now) ty t.now)) events.now at to) }
{
    let entry = entries.at(t.expr);
    if t.names.len() != entry.slots.len() {
        return Ok(None);
    }
    let found: Option<Items<Ref>> = find_all(alloc, scope, t.names.as_slice())?;
    match found {
        None => Ok(None),
        Some(refs) => Ok(let_of(events, at, entry, refs.as_slice(), ty, depth)),
    }
}
