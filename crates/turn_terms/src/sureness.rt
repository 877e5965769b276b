//! Expressions that can't fault, whatever their slots hold, and that are short.

ghost use Rattle.std.specs.Prelude.{◌≡◌, ◌&&◌, ℕ, ◌+◌, ◌-◌, map, option_map};
ghost use Rattle.std.specs.List.{list_all};
ghost use Rattle.away_trees.specs.Algebra.{expr_of};
ghost use Rattle.away_values.specs.declared.operators.ChainOp.{ChainOp};
ghost use Rattle.turn_template.specs.Totals as total;
ghost use Rattle.turn_template.specs.Totals.{Sure, sureness};
ghost use Rattle.turn_terms.specs.Choosing as spec;
ghost use Rattle.turn_terms.specs.Choosing.{size, sum_of};

use away_trees::Expr;
use away_values::{ChainOp, IntOp, Ty};
use block_forms::Term;
use sqlite_items::Boxed;

/// Whether a remainder by this is a bigint.
fn is_divisor(n: i64) -> bool
    ensures { result ≡ total.is_divisor n }
{
    n > 0
}

/// Whether it is a literal by which a remainder is a bigint.
fn divides(e: &Expr) -> bool
    ensures { result ≡ (expr_of sureness e.now).divides }
{
    match e {
        Expr::Int(n) => is_divisor(*n),
        Expr::Str(_)
        | Expr::Bool(_)
        | Expr::Null
        | Expr::Named(_)
        | Expr::Dotted(_, _)
        | Expr::Slot(_)
        | Expr::Column(_)
        | Expr::Param(_, _)
        | Expr::Neg(_)
        | Expr::NegSmall(_)
        | Expr::Not(_)
        | Expr::Is(_, _, _)
        | Expr::Chain(_, _)
        | Expr::Compare(_, _, _)
        | Expr::Between(_, _, _, _)
        | Expr::OneOf(_, _, _)
        | Expr::Cast(_, _)
        | Expr::Cases(_, _)
        | Expr::Call(_, _)
        | Expr::CountRows
        | Expr::Scalar(_)
        | Expr::Exists(_) => false,
    }
}

/// Whether an operator's value can't fault, by its second operand.
fn link_sure(op: ChainOp, always: bool, divides: bool) -> bool
    ensures { result ≡ total.link_sure op (spec.sure_of always divides) }
{
    match op {
        ChainOp::And => always,
        ChainOp::Or => always,
        ChainOp::Concat => false,
        ChainOp::Int(IntOp::Rem) => divides,
        ChainOp::Int(IntOp::Add) => false,
        ChainOp::Int(IntOp::Sub) => false,
        ChainOp::Int(IntOp::Mul) => false,
        ChainOp::Int(IntOp::Div) => false,
        ChainOp::Small(_) => false,
    }
}

fn cast_sure(ty: Ty) -> bool
    ensures { result ≡ total.cast_sure ty }
{
    match ty {
        Ty::Bigint => true,
        Ty::Boolean => true,
        Ty::Integer => false,
        Ty::Text => true,
    }
}

#[cycle(sure)]
fn links_sure(links: &[(ChainOp, Expr)]) -> bool
    ensures { result ≡ list_all (λ (l : ChainOp × Sure). total.link_sure l.0 l.1)
        (map (λ l. (l.0, expr_of sureness l.1)) links.now) }
{
    for i in 0..links.len() {
        let always = is_sure(&links[i].1);
        if !link_sure(links[i].0, always, divides(&links[i].1)) {
            return false;
        }
    }
    true
}

#[cycle(sure)]
fn list_sure(list: &[Expr]) -> bool
    ensures { result ≡ list_all (λ (x : Sure). x.always)
        (map (λ x. expr_of sureness x) list.now) }
{
    for i in 0..list.len() {
        if !is_sure(&list[i]) {
            return false;
        }
    }
    true
}

#[cycle(sure)]
fn arms_sure(arms: &[(Expr, Expr)]) -> bool
    ensures { result ≡ list_all (λ (a : Sure × Sure). a.0.always && a.1.always)
        (map (λ x. (expr_of sureness x.0, expr_of sureness x.1)) arms.now) }
{
    for i in 0..arms.len() {
        if !is_sure(&arms[i].0) {
            return false;
        }
        if !is_sure(&arms[i].1) {
            return false;
        }
    }
    true
}

#[cycle(sure)]
fn other_sure(other: &Option<Boxed<Expr>>) -> bool
    ensures { result ≡ total.other_sure (option_map (λ x. expr_of sureness x) other.now) }
{
    match other {
        None => true,
        Some(e) => is_sure(e.get()),
    }
}

/// Whether it has a value always.
#[cycle(sure)]
fn is_sure(e: &Expr) -> bool
    ensures { result ≡ (expr_of sureness e.now).always }
{
    match e {
        Expr::Int(_) | Expr::Str(_) | Expr::Bool(_) | Expr::Null | Expr::Slot(_) => true,
        Expr::Not(a) => is_sure(a.get()),
        Expr::Is(a, _, _) => is_sure(a.get()),
        Expr::Chain(a, links) => is_sure(a.get()) && links_sure(links.as_slice()),
        Expr::Compare(_, a, b) => is_sure(a.get()) && is_sure(b.get()),
        Expr::Between(_, a, low, high) => {
            if !is_sure(a.get()) {
                return false;
            }
            is_sure(low.get()) && is_sure(high.get())
        }
        Expr::OneOf(_, a, list) => is_sure(a.get()) && list_sure(list.as_slice()),
        Expr::Cast(a, ty) => is_sure(a.get()) && cast_sure(*ty),
        Expr::Cases(arms, other) => arms_sure(arms.as_slice()) && other_sure(other),
        Expr::Named(_)
        | Expr::Dotted(_, _)
        | Expr::Column(_)
        | Expr::Param(_, _)
        | Expr::Neg(_)
        | Expr::NegSmall(_)
        | Expr::Call(_, _)
        | Expr::CountRows
        | Expr::Scalar(_)
        | Expr::Exists(_) => false,
    }
}

#[cycle(weights)]
fn links_room(links: &[(ChainOp, Expr)], room: usize) -> usize
    ensures { result ≡ room - sum_of (λ (l : ChainOp × ℕ). l.1)
        (map (λ l. (l.0, size l.1)) links.now) }
{
    let mut left = room;
    for i in 0..links.len() {
        left = room_behind(&links[i].1, left);
    }
    left
}

#[cycle(weights)]
fn list_room(list: &[Expr], room: usize) -> usize
    ensures { result ≡ room - sum_of (λ (n : ℕ). n) (map (λ x. size x) list.now) }
{
    let mut left = room;
    for i in 0..list.len() {
        left = room_behind(&list[i], left);
    }
    left
}

#[cycle(weights)]
fn arms_room(arms: &[(Expr, Expr)], room: usize) -> usize
    ensures { result ≡ room - sum_of (λ (a : ℕ × ℕ). a.0 + a.1)
        (map (λ x. (size x.0, size x.1)) arms.now) }
{
    let mut left = room;
    for i in 0..arms.len() {
        left = room_behind(&arms[i].0, left);
        left = room_behind(&arms[i].1, left);
    }
    left
}

#[cycle(weights)]
fn other_room(other: &Option<Boxed<Expr>>, room: usize) -> usize
    ensures { result ≡ room - spec.other_size (option_map (λ x. size x) other.now) }
{
    match other {
        None => room,
        Some(e) => room_behind(e.get(), room),
    }
}

/// What is left of so much room when the nodes of an expression are taken away. Where no room is left nothing is read.
#[cycle(weights)]
fn room_behind(e: &Expr, room: usize) -> usize
    ensures { result ≡ room - size e.now }
{
    if room == 0 {
        return 0;
    }
    let left = room - 1;
    match e {
        Expr::Not(a) => room_behind(a.get(), left),
        Expr::Is(a, _, _) => room_behind(a.get(), left),
        Expr::Chain(a, links) => {
            let behind = room_behind(a.get(), left);
            links_room(links.as_slice(), behind)
        }
        Expr::Compare(_, a, b) => {
            let behind = room_behind(a.get(), left);
            room_behind(b.get(), behind)
        }
        Expr::Between(_, a, low, high) => {
            let behind = room_behind(a.get(), left);
            let behind = room_behind(low.get(), behind);
            room_behind(high.get(), behind)
        }
        Expr::OneOf(_, a, list) => {
            let behind = room_behind(a.get(), left);
            list_room(list.as_slice(), behind)
        }
        Expr::Cast(a, _) => room_behind(a.get(), left),
        Expr::Cases(arms, other) => {
            let behind = arms_room(arms.as_slice(), left);
            other_room(other, behind)
        }
        _ => left,
    }
}

/// Whether an expression is small enough to be written wherever it is read.
fn is_short(e: &Expr) -> bool
    ensures { result ≡ spec.is_short e.now }
{
    room_behind(e, 13) > 0
}

/// Whether a term is written where it is read: it can't fault, and is short. A term that isn't is a column of its own, or waits for its one cell.
pub fn is_chosen(table: &[Expr], term: &Term) -> bool
    ensures { result ≡ spec.chosen_total table.now term.now }
{
    match table.get(term.expr as usize) {
        None => true,
        Some(e) => is_short(e) && is_sure(e),
    }
}
