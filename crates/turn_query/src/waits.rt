//! Bodies that may be their cells alone: what may fault waits for its one cell, so that cells fault in the order of the blocks.

ghost use Rattle.std.specs.Prelude.{◌≡◌, ◌++◌, ◌∷◌, [], ◌&&◌, ◌||◌, not, cond, drop, IfOk, OnOk};
ghost use Rattle.sql_meaning.specs.Reads.{slots_of};
ghost use Rattle.call_forms.specs.Bodies.{sets, enters};
ghost use Rattle.turn_bodies.specs.Trees.{as_body};
ghost use Rattle.turn_query.specs.Filled as spec;
ghost use Rattle.turn_query.specs.Waits.{goes_on};
ghost use Rattle.turn_template.specs.TurnTemplate as turn;

use crate::cells::passed;
use away_trees::Expr;
use away_values::NoMemory;
use block_forms::Term;
use cte_parts::small;
use sqlite_items::{Boxed, Items};
use std::alloc::Global;
use turn_bodies::Body;
use turn_terms::{Writer, is_chosen};

fn none_wait(waits: &[u32]) -> bool
    ensures { result ≡ turn.is_empty waits.now }
{
    waits.len() == 0
}

#[tactic(auto, using(crate::proofs::WaitRules::among_rules))]
fn is_in(list: &[u32], name: u32) -> bool
    ensures { result ≡ turn.is_in list.now name }
{
    for x in list {
        if name == *x {
            return true;
        }
    }
    false
}

/// Whether none of the names waits.
#[tactic(auto, using(crate::proofs::WaitRules::reads_rules))]
fn reads_none(waits: &[u32], names: &[u32]) -> bool
    ensures { result ≡ turn.reads_none waits.now names.now }
{
    for name in names {
        if is_in(waits, *name) {
            return false;
        }
    }
    true
}

/// Adds a key where it stands for what is looked for.
fn add_where(list: &mut Items<u32>, here: bool, key: u32) -> Result<(), NoMemory>
    ensures { OnOk result (list.new ≡ list.old ++ cond here (key ∷ []) []) }
{
    if here {
        list.push(key)?;
    }
    Ok(())
}

/// Adds the keys that stand for a name.
fn add_keys(list: &mut Items<u32>, name: u32, keys: &[u32], args: &[u32]) -> Result<(), NoMemory>
    ensures { OnOk result (list.new ≡ list.old ++ turn.keys_of name keys.now args.now) }
{
    for i in 0..keys.len() {
        if i >= args.len() {
            return Ok(());
        }
        add_where(list, args[i] == name, keys[i])?;
    }
    Ok(())
}

/// The keys that stand for names that wait, in the order of these.
fn renamed(alloc: Global, waits: &[u32], keys: &[u32], args: &[u32]) -> Result<Items<u32>, NoMemory>
    ensures { IfOk result (λ list. list ≡ turn.renamed waits.now keys.now args.now) }
{
    let mut list = Items::new(alloc);
    for wait in waits {
        add_keys(&mut list, *wait, keys, args)?;
    }
    Ok(list)
}

fn covered(waits: &[u32], after: &[u32], key: u32, name: u32) -> bool
    ensures { result ≡ (not (turn.is_in waits.now name) || turn.is_in after.now key) }
{
    !is_in(waits, name) || is_in(after, key)
}

/// Whether a key that stands for a name that waits is among the new ones.
fn covers(waits: &[u32], after: &[u32], keys: &[u32], args: &[u32]) -> bool
    ensures { result ≡ turn.covers waits.now after.now keys.now args.now }
{
    for i in 0..keys.len() {
        if i >= args.len() {
            return true;
        }
        if !covered(waits, after, keys[i], args[i]) {
            return false;
        }
    }
    true
}

fn is_name(passed: Option<u32>, name: u32) -> bool
    ensures { result ≡ turn.is_name passed name }
{
    match passed {
        None => false,
        Some(n) => n == name,
    }
}

/// Whether the new ones stand for the old ones, one by one.
fn renames(after: &[u32], waits: &[u32], keys: &[u32], args: &[u32]) -> bool
    ensures { result ≡ turn.renames after.now waits.now keys.now args.now }
{
    for i in 0..after.len() {
        if i >= waits.len() {
            return false;
        }
        if !is_name(passed(keys, args, after[i]), waits[i]) {
            return false;
        }
    }
    if waits.len() > after.len() {
        return false;
    }
    true
}

/// How many of the names that wait have their cells, behind a cell with this name: as many, one more, or None where the next of them isn't this one.
fn behind_cell(waits: &[u32], done: usize, passed: Option<u32>) -> Option<usize>
    ensures { (more : _) → turn.next_cell waits.now (drop done waits.now) passed more
        ≡ goes_on waits.now more result }
{
    let Some(name) = passed else {
        return Some(done);
    };
    if !is_in(waits, name) {
        return Some(done);
    }
    if done >= waits.len() {
        return None;
    }
    if name == waits[done] {
        Some(done + 1)
    } else {
        None
    }
}

/// Whether the names that wait are passed to the columns in this order, each once.
fn in_order(w: &Writer<'_>, waits: &[u32], places: &[u32], args: &[u32]) -> Result<bool, NoMemory>
    ensures { IfOk result (λ b. b ≡ spec.in_order w.now waits.now waits.now 0 places.now args.now
        w.now.columns.now) }
{
    let mut done = 0;
    for i in 0..w.columns.len() {
        let passed = passed(places, args, small(i)?);
        let Some(n) = behind_cell(waits, done, passed) else {
            return Ok(false);
        };
        done = n;
    }
    if waits.len() > done {
        return Ok(false);
    }
    Ok(true)
}

/// The names that wait, and one more.
fn one_more(alloc: Global, waits: &[u32], name: u32) -> Result<Items<u32>, NoMemory>
    ensures { IfOk result (λ list. list ≡ waits.now ++ name ∷ []) }
{
    let mut list = Items::from_slice(alloc, waits)?;
    list.push(name)?;
    Ok(list)
}

/// Whether a term can't fault and reads no name that waits.
fn is_early(w: &Writer<'_>, waits: &[u32], term: &Term) -> bool
    ensures { result ≡ (spec.total w.now term.now && turn.reads_none waits.now term.now.names) }
{
    is_chosen(w.table, term) && reads_none(waits, term.names.as_slice())
}

/// Whether no name that waits is set again or read.
fn is_free(waits: &[u32], name: u32, term: &Term) -> bool
    ensures { result ≡ (not (turn.is_in waits.now name)
        && turn.reads_none waits.now term.now.names) }
{
    !is_in(waits, name) && reads_none(waits, term.names.as_slice())
}

/// The name beside the slot that is the whole expression.
fn name_in(e: &Expr, names: &[u32]) -> Option<u32>
    ensures { result ≡ turn.name_at (slots_of e.now) names.now (turn.slot_in e.now) }
{
    match e {
        Expr::Slot(slot) => passed(&[*slot], names, *slot),
        _ => None,
    }
}

/// The name that is the whole term.
fn name_of(w: &Writer<'_>, term: &Term) -> Option<u32>
    ensures { result ≡ spec.name_of w.now term.now }
{
    match w.table.get(term.expr as usize) {
        None => None,
        Some(e) => name_in(e, term.names.as_slice()),
    }
}

/// Whether nothing waits, or the name alone that is the whole term that is returned.
fn returned_may_wait(w: &Writer<'_>, waits: &[u32], term: &Term) -> bool
    ensures { result ≡ turn.waits_at_most waits.now (spec.name_of w.now term.now) }
{
    if waits.len() > 1 {
        return false;
    }
    if waits.len() == 0 {
        return true;
    }
    is_name(name_of(w, term), waits[0])
}

#[cycle(waits)]
fn sets_may_wait(
    rest: &Boxed<Body>,
    alloc: Global,
    w: &Writer<'_>,
    waits: &[u32],
    name: u32,
    term: &Term,
) -> Result<bool, NoMemory>
    ensures { IfOk result (λ b. b
        ≡ spec.may_wait w.now waits.now (sets name term.now (as_body rest.now))) }
{
    if !is_free(waits, name, term) {
        return Ok(false);
    }
    if is_chosen(w.table, term) {
        return may_wait(rest.get(), alloc, w, waits);
    }
    let more = one_more(alloc, waits, name)?;
    may_wait(rest.get(), alloc, w, more.as_slice())
}

#[cycle(waits)]
fn enters_may_wait(
    rest: &Boxed<Body>,
    alloc: Global,
    w: &Writer<'_>,
    waits: &[u32],
    params: &[u32],
    args: &[u32],
) -> Result<bool, NoMemory>
    ensures { IfOk result (λ b. b
        ≡ spec.may_wait w.now waits.now (enters params.now args.now (as_body rest.now))) }
{
    let after = renamed(alloc, waits, params, args)?;
    if !covers(waits, after.as_slice(), params, args) {
        return Ok(false);
    }
    if !renames(after.as_slice(), waits, params, args) {
        return Ok(false);
    }
    may_wait(rest.get(), alloc, w, after.as_slice())
}

/// Whether a body may be its cells alone, where these names wait.
#[cycle(waits)]
pub(crate) fn may_wait(
    body: &Body,
    alloc: Global,
    w: &Writer<'_>,
    waits: &[u32],
) -> Result<bool, NoMemory>
    ensures { IfOk result (λ b. b ≡ spec.may_wait w.now waits.now (as_body body.now)) }
{
    match body {
        Body::Sets(name, term, rest) => sets_may_wait(rest, alloc, w, waits, *name, term),
        Body::Enters(params, args, rest) => enters_may_wait(
            rest,
            alloc,
            w,
            waits,
            params.as_slice(),
            args.as_slice(),
        ),
        Body::Picks(term, yes, no) => {
            if !is_early(w, waits, term) {
                return Ok(false);
            }
            if !may_wait(yes.get(), alloc, w, waits)? {
                return Ok(false);
            }
            may_wait(no.get(), alloc, w, waits)
        }
        Body::Returns(term) => Ok(returned_may_wait(w, waits, term)),
        Body::Fails(_) => Ok(none_wait(waits)),
        Body::Calls(_, places, args) => in_order(w, waits, places.as_slice(), args.as_slice()),
        Body::Endless => Ok(none_wait(waits)),
    }
}
