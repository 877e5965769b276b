//! Whether a list has the slots that an expression or a select reads, each once, in the order of their first occurrence. A walk over the
//! expression counts how many of the list have been: each slot is one of these, or the next one.

ghost use Rattle.std.specs.Prelude.{◌≡◌, ◌↔◌, IsTrue, ℕ, ◌++◌, Option, Some};
ghost use Rattle.away_trees.specs.Algebra.{expr_of, query_of, select_of, source_of, from_of};
ghost use Rattle.select_into.specs.Wrapped.{select_slots};
ghost use Rattle.sql_meaning.specs.Reads.{reading, slots_of};
ghost use Rattle.std.specs.Prelude.{List};
ghost use Rattle.goto_check.specs.Passing.{first_place, pass, passed, exprs_read, links_read, arms_read, option_reads, items_read, froms_read, keys_read, selects_read};

use away_trees::{Expr, FromItem, Item, Key, Query, Select, Source};
use away_values::ChainOp;
use sqlite_items::Boxed;

fn first_place(names: &[u32], slot: u32) -> usize
    ensures { result ≡ first_place names.now slot }
{
    for (i, name) in names.iter().enumerate() {
        if slot == *name {
            return i;
        }
    }
    names.len()
}

/// A slot is one that has been, or the next one.
fn pass(names: &[u32], k: Option<usize>, slot: u32) -> Option<usize>
    ensures { result ≡ pass names.now k slot }
{
    match k {
        None => None,
        Some(k) => {
            let at = first_place(names, slot);
            if at < k {
                Some(k)
            } else if at == k && k < names.len() {
                Some(k + 1)
            } else {
                None
            }
        }
    }
}

#[cycle(passing)]
#[tactic(auto, using(crate::proofs::Passes::pass_rules))]
fn pass_expr(names: &[u32], k: Option<usize>, e: &Expr) -> Option<usize>
    ensures { (d : ℕ) → result ≡ passed names.now k (expr_of reading e.now d) }
{
    match e {
        Expr::Slot(slot) => pass(names, k, *slot),
        Expr::Int(_) => k,
        Expr::Str(_) => k,
        Expr::Bool(_) => k,
        Expr::Null => k,
        Expr::Named(_) => k,
        Expr::Dotted(_, _) => k,
        Expr::Column(_) => k,
        Expr::Param(_, _) => k,
        Expr::Neg(x) => pass_expr(names, k, x.get()),
        Expr::NegSmall(x) => pass_expr(names, k, x.get()),
        Expr::Not(x) => pass_expr(names, k, x.get()),
        Expr::Is(x, _, _) => pass_expr(names, k, x.get()),
        Expr::Chain(x, links) => pass_links(names, pass_expr(names, k, x.get()), links.as_slice()),
        Expr::Compare(_, x, y) => pass_expr(names, pass_expr(names, k, x.get()), y.get()),
        Expr::Between(_, x, low, high) => {
            let two = pass_expr(names, pass_expr(names, k, x.get()), low.get());
            pass_expr(names, two, high.get())
        }
        Expr::OneOf(_, x, list) => pass_exprs(names, pass_expr(names, k, x.get()), list.as_slice()),
        Expr::Cast(x, _) => pass_expr(names, k, x.get()),
        Expr::Cases(arms, other) => {
            let of_arms = pass_arms(names, k, arms.as_slice());
            match other {
                None => of_arms,
                Some(e) => pass_expr(names, of_arms, e.get()),
            }
        }
        Expr::Call(_, list) => pass_exprs(names, k, list.as_slice()),
        Expr::CountRows => k,
        Expr::Scalar(q) => pass_query(names, k, q.get()),
        Expr::Exists(q) => pass_query(names, k, q.get()),
    }
}

#[cycle(passing)]
#[tactic(auto, using(crate::proofs::Passes::pass_rules))]
fn pass_exprs(names: &[u32], k: Option<usize>, list: &[Expr]) -> Option<usize>
    ensures { (d : ℕ) → result ≡ passed names.now k (exprs_read d list.now) }
{
    let mut k = k;
    for e in list {
        k = pass_expr(names, k, e);
    }
    k
}

#[cycle(passing)]
#[tactic(auto, using(crate::proofs::Passes::pass_rules))]
fn pass_links(names: &[u32], k: Option<usize>, links: &[(ChainOp, Expr)]) -> Option<usize>
    ensures { (d : ℕ) → result ≡ passed names.now k (links_read d links.now) }
{
    let mut k = k;
    for link in links {
        k = pass_expr(names, k, &link.1);
    }
    k
}

#[cycle(passing)]
#[tactic(auto, using(crate::proofs::Passes::pass_rules))]
fn pass_arms(names: &[u32], k: Option<usize>, arms: &[(Expr, Expr)]) -> Option<usize>
    ensures { (d : ℕ) → result ≡ passed names.now k (arms_read d arms.now) }
{
    let mut k = k;
    for arm in arms {
        k = pass_expr(names, pass_expr(names, k, &arm.0), &arm.1);
    }
    k
}

#[cycle(passing)]
#[tactic(auto, using(crate::proofs::Passes::pass_rules))]
fn pass_query(names: &[u32], k: Option<usize>, q: &Query) -> Option<usize>
    ensures { (d : ℕ) → result ≡ passed names.now k (query_of reading q.now d) }
{
    let mut k = k;
    for select in q.selects.as_slice() {
        k = pass_select(names, k, select);
    }
    k
}

#[cycle(passing)]
#[tactic(auto, using(crate::proofs::Passes::pass_rules))]
fn pass_select(names: &[u32], k: Option<usize>, s: &Select) -> Option<usize>
    ensures { (d : ℕ) → result ≡ passed names.now k (select_of reading s.now d) }
{
    let list = pass_items(names, k, s.list.as_slice());
    let from = pass_froms(names, list, s.from.as_slice());
    let filter = pass_option(names, from, &s.filter);
    let order = pass_keys(names, filter, s.order.as_slice());
    pass_option(names, order, &s.limit)
}

#[cycle(passing)]
#[tactic(auto, using(crate::proofs::Passes::pass_rules))]
fn pass_option(names: &[u32], k: Option<usize>, e: &Option<Expr>) -> Option<usize>
    ensures { (d : ℕ) → result ≡ passed names.now k (option_reads d e.now) }
{
    match e {
        None => k,
        Some(e) => pass_expr(names, k, e),
    }
}

#[cycle(passing)]
#[tactic(auto, using(crate::proofs::Passes::pass_rules))]
fn pass_items(names: &[u32], k: Option<usize>, list: &[Item]) -> Option<usize>
    ensures { (d : ℕ) → result ≡ passed names.now k (items_read d list.now) }
{
    let mut k = k;
    for item in list {
        k = pass_expr(names, k, &item.expr);
    }
    k
}

#[cycle(passing)]
#[tactic(auto, using(crate::proofs::Passes::pass_rules))]
fn pass_froms(names: &[u32], k: Option<usize>, list: &[FromItem]) -> Option<usize>
    ensures { (d : ℕ) → result ≡ passed names.now k (froms_read d list.now) }
{
    let mut k = k;
    for item in list {
        k = match &item.source {
            Source::Table(_) => k,
            Source::Sub(q, _) => pass_query(names, k, q.get()),
        };
    }
    k
}

#[cycle(passing)]
#[tactic(auto, using(crate::proofs::Passes::pass_rules))]
fn pass_keys(names: &[u32], k: Option<usize>, list: &[Key]) -> Option<usize>
    ensures { (d : ℕ) → result ≡ passed names.now k (keys_read d list.now) }
{
    let mut k = k;
    for key in list {
        k = pass_expr(names, k, &key.expr);
    }
    k
}

/// Whether the list has the slots that the expression reads.
pub(crate) fn reads_expr(e: &Expr, names: &[u32]) -> bool
    ensures { IsTrue result ↔ (names.now ≡ slots_of e.now) }
{
    match pass_expr(names, Some(0), e) {
        None => false,
        Some(k) => k == names.len(),
    }
}

/// Whether the list has the slots that the select reads.
pub(crate) fn reads_select(s: &Select, names: &[u32]) -> bool
    ensures { IsTrue result ↔ (names.now ≡ select_slots s.now) }
{
    match pass_select(names, Some(0), s) {
        None => false,
        Some(k) => k == names.len(),
    }
}
