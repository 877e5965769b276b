//! Whether a statement, a function or a schema has what is looked for.

ghost use Rattle.std.specs.Prelude.{◌≡◌};
ghost use Rattle.std.specs.List.{list_any};
ghost use Rattle.moved_names.specs.Seeking as seeking;
ghost use Rattle.moved_names.specs.Words as spec;

use crate::finding::{in_expr, in_exprs, in_maybe};
use crate::finding_queries::in_select;
use crate::sought::{Sought, is_among, is_maybe_word, is_word};
use away_trees::{Arm, Decl, Expr, Function, LoopKind, Schema, Stmt, TableSchema};
use away_values::{Name, Ty};

/// Where a call of a function that is looked for may stand as a whole, so that only its arguments are looked at.
#[derive(Clone, Copy, Debug, PartialEq, Eq)]
pub enum Places {
    Nowhere,
    Returns,
    Everywhere,
}

/// What is looked for in statements.
#[derive(Clone, Copy)]
pub struct Looking<'a> {
    pub sought: Sought<'a>,
    pub places: Places,
}

/// In an expression that may be a call of one of the functions as a whole.
#[tactic(auto, using(crate::proofs::WordRules::call_rule), unfolding(crate::specs::Words::beside))]
fn beside_calls(s: Sought<'_>, names: &[Name], e: &Expr) -> bool
    ensures { result ≡ spec.beside (seeking.sought s.entry) names.now e.now }
{
    match e {
        Expr::Call(name, args) => {
            if is_among(name, names) {
                in_exprs(s, args.as_slice())
            } else {
                in_expr(s, e)
            }
        }
        Expr::Int(_)
        | Expr::Str(_)
        | Expr::Bool(_)
        | Expr::Null
        | Expr::Named(_)
        | Expr::Dotted(_, _)
        | Expr::Slot(_)
        | Expr::Column(_)
        | Expr::Param(_, _)
        | Expr::Neg(_)
        | Expr::NegSmall(_)
        | Expr::Not(_)
        | Expr::Is(_, _, _)
        | Expr::Cast(_, _)
        | Expr::Chain(_, _)
        | Expr::Compare(_, _, _)
        | Expr::Between(_, _, _, _)
        | Expr::OneOf(_, _, _)
        | Expr::Cases(_, _)
        | Expr::CountRows
        | Expr::Scalar(_)
        | Expr::Exists(_) => in_expr(s, e),
    }
}

/// In an expression that may be a call as a whole.
#[tactic(auto, using(crate::proofs::WordRules::no_call_rule))]
fn beside(s: Sought<'_>, e: &Expr) -> bool
    ensures { result ≡ spec.beside (seeking.sought s.entry) (seeking.functions s.entry) e.now }
{
    match s {
        Sought::Word(_) | Sought::Kept => in_expr(s, e),
        Sought::Calls(names) => beside_calls(s, names, e),
    }
}

fn in_assigned(l: Looking<'_>, e: &Expr) -> bool
    ensures { result ≡ (seeking.looking l.entry).assigned e.now }
{
    match l.places {
        Places::Everywhere => beside(l.sought, e),
        Places::Nowhere | Places::Returns => in_expr(l.sought, e),
    }
}

fn in_returned(l: Looking<'_>, e: &Expr) -> bool
    ensures { result ≡ (seeking.looking l.entry).returned e.now }
{
    match l.places {
        Places::Everywhere | Places::Returns => beside(l.sought, e),
        Places::Nowhere => in_expr(l.sought, e),
    }
}

fn in_decls(s: Sought<'_>, decls: &[Decl]) -> bool
    ensures { result ≡ list_any (spec.in_decl (seeking.sought s.entry)) decls.now }
{
    for d in decls {
        if is_word(s, &d.name) || in_maybe(s, &d.default) {
            return true;
        }
    }
    false
}

fn in_kind(s: Sought<'_>, kind: &LoopKind) -> bool
    ensures { result ≡ spec.in_kind (seeking.sought s.entry) kind.now }
{
    match kind {
        LoopKind::Plain => false,
        LoopKind::While(e) => in_expr(s, e),
        LoopKind::Count {
            var,
            reverse: _,
            first,
            last,
            step,
        } => is_word(s, var) || (in_expr(s, first) || (in_expr(s, last) || in_maybe(s, step))),
    }
}

fn in_targets(s: Sought<'_>, targets: &[(Name, Option<u32>)]) -> bool
    ensures { result ≡ list_any (spec.in_target (seeking.sought s.entry)) targets.now }
{
    for t in targets {
        if is_word(s, &t.0) {
            return true;
        }
    }
    false
}

#[cycle(looking)]
#[tactic(auto, using(crate::proofs::WordRules::statement_rules))]
pub fn in_stmt(l: Looking<'_>, x: &Stmt) -> bool
    ensures { result ≡ spec.in_stmt (seeking.looking l.entry) x.now }
{
    let s = l.sought;
    match x {
        Stmt::Block {
            label,
            decls,
            body,
            closing,
        } => {
            is_maybe_word(s, label)
                || (in_decls(s, decls.as_slice())
                    || (in_body(l, body.as_slice()) || is_maybe_word(s, closing)))
        }
        Stmt::Assign(m, _, e) => is_word(s, m) || in_assigned(l, e),
        Stmt::If(arms, other) => match other {
            None => in_arms(l, arms.as_slice()),
            Some(body) => in_arms(l, arms.as_slice()) || in_body(l, body.as_slice()),
        },
        Stmt::Cases(arms, other) => match other {
            None => in_arms(l, arms.as_slice()),
            Some(body) => in_arms(l, arms.as_slice()) || in_body(l, body.as_slice()),
        },
        Stmt::Loop {
            label,
            kind,
            body,
            closing,
        } => {
            is_maybe_word(s, label)
                || (in_kind(s, kind) || (in_body(l, body.as_slice()) || is_maybe_word(s, closing)))
        }
        Stmt::Exit(label, when) | Stmt::Continue(label, when) => {
            is_maybe_word(s, label) || in_maybe(s, when)
        }
        Stmt::Return(e) => in_returned(l, e),
        Stmt::Raise(_) | Stmt::Nothing => false,
        Stmt::Into {
            strict: _,
            targets,
            query,
        } => in_targets(s, targets.as_slice()) || in_select(s, query),
    }
}

#[cycle(looking)]
fn in_body(l: Looking<'_>, list: &[Stmt]) -> bool
    ensures { result ≡ list_any (spec.in_stmt (seeking.looking l.entry)) list.now }
{
    for x in list {
        if in_stmt(l, x) {
            return true;
        }
    }
    false
}

#[cycle(looking)]
fn in_arms(l: Looking<'_>, list: &[Arm]) -> bool
    ensures { result ≡ list_any (spec.in_branch (seeking.looking l.entry)) list.now }
{
    for a in list {
        if in_arm(l, a) {
            return true;
        }
    }
    false
}

#[cycle(looking)]
#[tactic(auto, using(crate::proofs::WordRules::branch_rule))]
fn in_arm(l: Looking<'_>, a: &Arm) -> bool
    ensures { result ≡ spec.in_branch (seeking.looking l.entry) a.now }
{
    in_expr(l.sought, &a.test) || in_body(l, a.body.as_slice())
}

fn in_params(n: &Name, params: &[(Name, Ty)]) -> bool
    ensures { result ≡ list_any (spec.in_param n.now) params.now }
{
    for p in params {
        if p.0.text() == n.text() {
            return true;
        }
    }
    false
}

fn in_function(n: &Name, f: &Function) -> bool
    ensures { result ≡ spec.in_function n.now f.now }
{
    let l = Looking {
        sought: Sought::Word(n),
        places: Places::Nowhere,
    };
    f.name.text() == n.text() || (in_params(n, f.params.as_slice()) || in_stmt(l, &f.body))
}

fn in_table(n: &Name, t: &TableSchema) -> bool
    ensures { result ≡ spec.in_table n.now t.now }
{
    if t.name.text() == n.text() {
        return true;
    }
    for c in t.columns.as_slice() {
        if c.name.text() == n.text() {
            return true;
        }
    }
    false
}

fn in_schema(n: &Name, s: &Schema) -> bool
    ensures { result ≡ spec.in_schema n.now s.now }
{
    for t in s.tables.as_slice() {
        if in_table(n, t) {
            return true;
        }
    }
    false
}

fn in_functions(n: &Name, fs: &[Function]) -> bool
    ensures { result ≡ list_any (spec.in_function n.now) fs.now }
{
    for f in fs {
        if in_function(n, f) {
            return true;
        }
    }
    false
}

/// Whether a name stands as a word in the schema or in one of the functions.
#[tactic(auto, unfolding(crate::specs::Words::in_files))]
pub fn in_files(n: &Name, s: &Schema, fs: &[Function]) -> bool
    ensures { result ≡ spec.in_files n.now s.now fs.now }
{
    in_schema(n, s) || in_functions(n, fs)
}
