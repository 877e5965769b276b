//! Whether two expressions are the same.

ghost use Rattle.std.specs.Prelude.{◌≡◌, map, nat_eq, option_map};
ghost use Rattle.std.specs.Str.{bytes_eq};
ghost use Rattle.away_trees.specs.declared.queries.Expr.TheOpen as ex;
ghost use Rattle.away_trees.specs.declared.queries.Expr.TheViews.{out-Expr};
ghost use Rattle.away_trees.specs.Algebra.{expr_of};
ghost use Rattle.turn_terms.specs.Sameness as spec;
ghost use Rattle.turn_terms.specs.Sameness.{testing};

use away_trees::{Col, Expr};
use away_values::{ChainOp, CmpOp, IntOp, IsTest, Ty, Word};
use sqlite_items::Boxed;

fn chain_number(op: ChainOp) -> u32
    ensures { result ≡ spec.chain_number op }
{
    match op {
        ChainOp::Or => 0,
        ChainOp::And => 1,
        ChainOp::Concat => 2,
        ChainOp::Int(IntOp::Add) => 3,
        ChainOp::Int(IntOp::Sub) => 4,
        ChainOp::Int(IntOp::Mul) => 5,
        ChainOp::Int(IntOp::Div) => 6,
        ChainOp::Int(IntOp::Rem) => 7,
        ChainOp::Small(IntOp::Add) => 8,
        ChainOp::Small(IntOp::Sub) => 9,
        ChainOp::Small(IntOp::Mul) => 10,
        ChainOp::Small(IntOp::Div) => 11,
        ChainOp::Small(IntOp::Rem) => 12,
    }
}

fn comparison_number(op: CmpOp) -> u32
    ensures { result ≡ spec.cmp_number op }
{
    match op {
        CmpOp::Eq => 0,
        CmpOp::Ne => 1,
        CmpOp::Lt => 2,
        CmpOp::Le => 3,
        CmpOp::Gt => 4,
        CmpOp::Ge => 5,
    }
}

fn test_number(test: IsTest) -> u32
    ensures { result ≡ spec.test_number test }
{
    match test {
        IsTest::Null => 0,
        IsTest::True => 1,
        IsTest::False => 2,
    }
}

fn type_number(ty: Ty) -> u32
    ensures { result ≡ spec.type_number ty }
{
    match ty {
        Ty::Bigint => 0,
        Ty::Boolean => 1,
        Ty::Text => 2,
        Ty::Integer => 3,
    }
}

fn same_comparison(a: CmpOp, b: CmpOp) -> bool
    ensures { result ≡ nat_eq (spec.cmp_number a) (spec.cmp_number b) }
{
    comparison_number(a) == comparison_number(b)
}

fn same_operator(a: ChainOp, b: ChainOp) -> bool
    ensures { result ≡ nat_eq (spec.chain_number a) (spec.chain_number b) }
{
    chain_number(a) == chain_number(b)
}

fn same_test(a: IsTest, b: IsTest) -> bool
    ensures { result ≡ nat_eq (spec.test_number a) (spec.test_number b) }
{
    test_number(a) == test_number(b)
}

fn same_type(a: Ty, b: Ty) -> bool
    ensures { result ≡ nat_eq (spec.type_number a) (spec.type_number b) }
{
    type_number(a) == type_number(b)
}

fn same_truth(x: bool, y: bool) -> bool
    ensures { result ≡ spec.same_truth x y }
{
    if x { y } else { !y }
}

fn same_text(a: &Word, b: &Word) -> bool
    ensures { result ≡ bytes_eq a.now b.now }
{
    a.text() == b.text()
}

fn same_place(a: Col, b: Col) -> bool
    ensures { result ≡ spec.is_column a b }
{
    a.level == b.level && a.item == b.item && a.column == b.column
}

fn is_number(n: i64, e: &Expr) -> bool
    ensures { result ≡ spec.node_test (ex.Int n) (out-Expr e.now) }
{
    match e {
        Expr::Int(m) => n == *m,
        _ => false,
    }
}

fn is_text(text: &Word, e: &Expr) -> bool
    ensures { result ≡ spec.node_test (ex.Str text.now) (out-Expr e.now) }
{
    match e {
        Expr::Str(other) => same_text(text, other),
        _ => false,
    }
}

fn is_truth(v: bool, e: &Expr) -> bool
    ensures { result ≡ spec.node_test (ex.Bool v) (out-Expr e.now) }
{
    match e {
        Expr::Bool(w) => same_truth(v, *w),
        _ => false,
    }
}

fn is_null(e: &Expr) -> bool
    ensures { result ≡ spec.node_test ex.Null (out-Expr e.now) }
{
    match e {
        Expr::Null => true,
        _ => false,
    }
}

fn is_column(c: Col, e: &Expr) -> bool
    ensures { result ≡ spec.node_test (ex.Column c) (out-Expr e.now) }
{
    match e {
        Expr::Column(d) => same_place(c, *d),
        _ => false,
    }
}

#[cycle(equal)]
fn is_refused(a: &Expr, e: &Expr) -> bool
    ensures { result ≡ spec.node_test (ex.Not (expr_of testing a.now)) (out-Expr e.now) }
{
    match e {
        Expr::Not(b) => same(a, b.get()),
        _ => false,
    }
}

#[cycle(equal)]
fn is_tested(a: &Expr, test: IsTest, negative: bool, e: &Expr) -> bool
    ensures { result
        ≡ spec.node_test (ex.Is (expr_of testing a.now) test negative) (out-Expr e.now) }
{
    match e {
        Expr::Is(b, other, not) => {
            if !same_test(test, *other) {
                return false;
            }
            if !same_truth(negative, *not) {
                return false;
            }
            same(a, b.get())
        }
        _ => false,
    }
}

#[cycle(equal)]
fn is_cast(a: &Expr, ty: Ty, e: &Expr) -> bool
    ensures { result ≡ spec.node_test (ex.Cast (expr_of testing a.now) ty) (out-Expr e.now) }
{
    match e {
        Expr::Cast(b, other) => {
            if !same_type(ty, *other) {
                return false;
            }
            same(a, b.get())
        }
        _ => false,
    }
}

#[cycle(equal)]
fn same_links(a: &[(ChainOp, Expr)], b: &[(ChainOp, Expr)]) -> bool
    ensures { result ≡ spec.each_passes spec.link_passes
        (map (λ l. (l.0, expr_of testing l.1)) a.now) b.now }
{
    if a.len() != b.len() {
        return false;
    }
    for i in 0..a.len() {
        if !same_operator(a[i].0, b[i].0) {
            return false;
        }
        if !same(&a[i].1, &b[i].1) {
            return false;
        }
    }
    true
}

#[cycle(equal)]
fn same_arms(a: &[(Expr, Expr)], b: &[(Expr, Expr)]) -> bool
    ensures { result ≡ spec.each_passes spec.arm_passes
        (map (λ x. (expr_of testing x.0, expr_of testing x.1)) a.now) b.now }
{
    if a.len() != b.len() {
        return false;
    }
    for i in 0..a.len() {
        if !same(&a[i].0, &b[i].0) {
            return false;
        }
        if !same(&a[i].1, &b[i].1) {
            return false;
        }
    }
    true
}

#[cycle(equal)]
fn same_others(a: &Option<Boxed<Expr>>, b: &Option<Boxed<Expr>>) -> bool
    ensures { result ≡ spec.other_passes (option_map (λ x. expr_of testing x) a.now) b.now }
{
    match a {
        None => b.is_none(),
        Some(x) => match b {
            None => false,
            Some(y) => same(x.get(), y.get()),
        },
    }
}

/// Whether they are the same. What has BETWEEN, IN, a sign, a call or a subquery in it is taken to be the same as nothing: it is seldom a cell
/// of two rows.
#[cycle(equal)]
pub fn same(a: &Expr, b: &Expr) -> bool
    ensures { result ≡ spec.same a.now b.now }
{
    match a {
        Expr::Int(n) => is_number(*n, b),
        Expr::Str(text) => is_text(text, b),
        Expr::Bool(v) => is_truth(*v, b),
        Expr::Null => is_null(b),
        Expr::Column(c) => is_column(*c, b),
        Expr::Not(x) => is_refused(x.get(), b),
        Expr::Is(x, test, negative) => is_tested(x.get(), *test, *negative, b),
        Expr::Cast(x, ty) => is_cast(x.get(), *ty, b),
        Expr::Chain(x, links) => match b {
            Expr::Chain(y, others) => {
                same(x.get(), y.get()) && same_links(links.as_slice(), others.as_slice())
            }
            _ => false,
        },
        Expr::Compare(op, x, y) => match b {
            Expr::Compare(other, u, v) => {
                if !same_comparison(*op, *other) {
                    return false;
                }
                same(x.get(), u.get()) && same(y.get(), v.get())
            }
            _ => false,
        },
        Expr::Cases(arms, last) => match b {
            Expr::Cases(others, end) => {
                same_arms(arms.as_slice(), others.as_slice()) && same_others(last, end)
            }
            _ => false,
        },
        _ => false,
    }
}
