//! How deep the printed tokens of an expanded function nest, found without building it.

ghost use Rattle.std.specs.Prelude.{◌≡◌, ◌<◌, ◌+◌, ◌^◌, true, false, length, map, max, take, IfOk};
ghost use Rattle.away_grammar.specs.Terminals.{Terminal};
ghost use Rattle.call_expand.specs.CallPlaces.{called};
ghost use Rattle.function_printer.specs.FunctionTerminals as printed;
ghost use Rattle.sql_printer.specs.PrintedTerminals.{terminal_of};
ghost use Rattle.expanded_sizes.specs.Depths as depths;
ghost use Rattle.expanded_sizes.specs.Walking as spec;
ghost use Rattle.expanded_sizes.specs.Walking.{told};

use away_grammar::{Level, Mark};
use away_trees::{Arm, Decl, Expr, Function, LoopKind, Select, Stmt};
use away_values::NoMemory;
use call_expand::places::{Place, call_place};
use function_printer::{add_clauses, add_condition, add_decls, add_kind, add_list};
use sql_printer::{PrintedTerminal, TerminalList, add_expr};
use sqlite_items::Items;
use std::alloc::Global;

/// What a terminal does to the depth. IF, LOOP and CASE begin what END with the same word ends.
#[derive(Clone, Copy, Debug, PartialEq, Eq)]
pub enum Role {
    Opens,
    Begins,
    Ends,
    Closes,
    Stays,
}

/// The functions of a program, and the depths of their bodies as those of called functions, in which calls nest less than so
/// deep; and whether the body that is walked is a called function's.
#[derive(Clone, Copy)]
pub struct Walk<'a> {
    pub fs: &'a [Function],
    pub calls: usize,
    pub depths: &'a [u64],
    pub inside: bool,
}

fn role_of(terminal: PrintedTerminal<'_>) -> Role
    ensures { result ≡ depths.role (terminal_of terminal.entry) }
{
    match terminal {
        PrintedTerminal::Mark(Mark::Open | Mark::Begin) => Role::Opens,
        PrintedTerminal::Mark(Mark::If | Mark::Loop | Mark::Case) => Role::Begins,
        PrintedTerminal::Mark(Mark::End) => Role::Ends,
        PrintedTerminal::Mark(Mark::Close) => Role::Closes,
        _ => Role::Stays,
    }
}

fn is_begin(role: Role) -> bool
    ensures { result ≡ depths.is_begin role }
{
    matches!(role, Role::Begins)
}

/// What a terminal makes of the greatest depth of what follows it.
fn counted(before: bool, role: Role, n: u64) -> u64
    requires { n < 2 ^ 63 }
    ensures { result ≡ depths.counted before role n }
{
    match role {
        Role::Opens | Role::Begins => n + 1,
        Role::Ends => {
            if before {
                n.saturating_sub(2)
            } else {
                n.saturating_sub(1)
            }
        }
        Role::Closes => n.saturating_sub(1),
        Role::Stays => n,
    }
}

/// How deep terminals nest, counted from their end.
fn depth(list: &[PrintedTerminal<'_>]) -> u64
    ensures { result ≡ depths.depth (map terminal_of list.now) }
{
    let mut greatest: u64 = 0;
    let mut before = false;
    let mut at = list.len();
    while at > 0 {
        at -= 1;
        let role = role_of(list[at]);
        greatest = counted(before, role, greatest);
        before = is_begin(role);
    }
    greatest
}

fn expr_depth(alloc: Global, e: &Expr) -> Result<u64, NoMemory>
    ensures { IfOk result (λ n. n ≡ depths.expr_depth e.now) }
{
    let mut terminals = TerminalList::new(alloc);
    add_expr(&mut terminals, Level::Or, e)?;
    Ok(depth(terminals.as_slice()))
}

fn decls_depth(alloc: Global, decls: &[Decl]) -> Result<u64, NoMemory>
    ensures { IfOk result (λ n. n ≡ depths.depth (printed.decls_of decls.now)) }
{
    let mut terminals = TerminalList::new(alloc);
    add_decls(&mut terminals, decls)?;
    Ok(depth(terminals.as_slice()))
}

fn kind_depth(alloc: Global, kind: &LoopKind) -> Result<u64, NoMemory>
    ensures { IfOk result (λ n. n ≡ depths.depth (printed.kind_of kind.now)) }
{
    let mut terminals = TerminalList::new(alloc);
    add_kind(&mut terminals, kind)?;
    Ok(depth(terminals.as_slice()))
}

fn condition_depth(alloc: Global, when: &Option<Expr>) -> Result<u64, NoMemory>
    ensures { IfOk result (λ n. n ≡ depths.depth (printed.condition_of when.now)) }
{
    let mut terminals = TerminalList::new(alloc);
    add_condition(&mut terminals, when)?;
    Ok(depth(terminals.as_slice()))
}

fn list_depth(alloc: Global, query: &Select) -> Result<u64, NoMemory>
    ensures { IfOk result (λ n. n ≡ depths.depth (printed.list_of query.now)) }
{
    let mut terminals = TerminalList::new(alloc);
    add_list(&mut terminals, query)?;
    Ok(depth(terminals.as_slice()))
}

fn clauses_depth(alloc: Global, query: &Select) -> Result<u64, NoMemory>
    ensures { IfOk result (λ n. n ≡ depths.depth (printed.clauses_of query.now)) }
{
    let mut terminals = TerminalList::new(alloc);
    add_clauses(&mut terminals, query)?;
    Ok(depth(terminals.as_slice()))
}

fn select_depth(alloc: Global, query: &Select) -> Result<u64, NoMemory>
    ensures { IfOk result (λ n. n ≡ depths.select_depth query.now) }
{
    let list = list_depth(alloc, query)?;
    Ok(list.max(clauses_depth(alloc, query)?))
}

fn around_return(inside: bool) -> u64
    ensures { result ≡ depths.around_return inside }
{
    if inside { 1 } else { 0 }
}

fn strict_depth(strict: bool, n: usize) -> u64
    ensures { result ≡ depths.strict_depth strict n }
{
    if !strict || n == 0 { 0 } else { 1 }
}

/// The greatest depth of the arguments of so many parameters.
#[tactic(auto, using(crate::proofs::WalkingRules::most_rules))]
fn given_depth(alloc: Global, n: usize, args: &[Expr]) -> Result<u64, NoMemory>
    ensures { IfOk result (λ m. m ≡ depths.given_depth n args.now) }
{
    let mut greatest = 0;
    let end = n.min(args.len());
    for i in 0..end {
        greatest = expr_depth(alloc, &args[i])?.max(greatest);
    }
    Ok(greatest)
}

/// The block of a call, by the depths of the function's body and of what goes on behind it.
fn blocks_depth(
    alloc: Global,
    f: &Function,
    args: &[Expr],
    body: u64,
    tail: u64,
) -> Result<u64, NoMemory>
    ensures { IfOk result (λ n. n ≡ told (depths.call_depth f.now args.now body tail)) }
{
    let n = f.params.len();
    let inner = strict_depth(f.strict, n).max(body).saturating_add(1);
    let given = given_depth(alloc, n, args)?;
    Ok(given.max(inner).max(tail).saturating_add(1))
}

#[tactic(auto, using(crate::proofs::WalkingRules::call_is, crate::proofs::WalkingRules::callee_inside))]
fn call_depth(alloc: Global, g: Walk<'_>, c: Place<'_>, tail: u64) -> Result<u64, NoMemory>
    requires known { spec.KnowsDepths g }
    requires inside { c.part < length g.fs.now }
    ensures { IfOk result (λ n. n ≡ told (spec.at_call g.entry (called c.entry) tail)) }
{
    let fs = g.fs;
    let depths = g.depths;
    let body = depths[c.part];
    blocks_depth(alloc, &fs[c.part], c.args, body, tail)
}

/// A place: an assignment, or a RETURN that leaves a called function's body.
#[tactic(auto, using(crate::proofs::WalkingRules::plain_place, crate::proofs::WalkingRules::call_place_is))]
fn place_depth(alloc: Global, g: Walk<'_>, leaves: bool, e: &Expr) -> Result<u64, NoMemory>
    requires known { spec.KnowsDepths g }
    ensures { IfOk result (λ n. n
        ≡ told (spec.at_place g.entry (depths.around_return leaves) e.now)) }
{
    let tail = around_return(leaves);
    match call_place(g.fs, e) {
        None => Ok(expr_depth(alloc, e)?.saturating_add(tail)),
        Some(c) => call_depth(alloc, g, c, tail),
    }
}

/// How deep a statement nests, with what stands in it.
#[cycle(walking)]
#[tactic(auto, using(crate::proofs::WalkingRules::depth_rules))]
fn statement_depth(alloc: Global, g: Walk<'_>, s: &Stmt) -> Result<u64, NoMemory>
    requires known { spec.KnowsDepths g }
    ensures { IfOk result (λ n. n ≡ told (spec.depth_of g.entry s.now)) }
{
    match s {
        Stmt::Block { decls, body, .. } => {
            let own = decls_depth(alloc, decls.as_slice())?;
            let inner = body_depth(alloc, g, body.as_slice())?;
            Ok(own.max(inner.saturating_add(1)))
        }
        Stmt::If(arms, other) | Stmt::Cases(arms, other) => {
            let inner = arms_depth(alloc, g, arms.as_slice())?;
            match other {
                None => Ok(inner.saturating_add(1)),
                Some(body) => {
                    let behind = body_depth(alloc, g, body.as_slice())?;
                    Ok(inner.max(behind).saturating_add(1))
                }
            }
        }
        Stmt::Loop { kind, body, .. } => {
            let own = kind_depth(alloc, kind)?;
            let inner = body_depth(alloc, g, body.as_slice())?;
            Ok(own.max(inner.saturating_add(1)))
        }
        Stmt::Assign(_, _, e) => place_depth(alloc, g, false, e),
        Stmt::Return(e) => place_depth(alloc, g, g.inside, e),
        Stmt::Exit(_, when) | Stmt::Continue(_, when) => condition_depth(alloc, when),
        Stmt::Into { query, .. } => select_depth(alloc, query),
        Stmt::Raise(_) | Stmt::Nothing => Ok(0),
    }
}

#[cycle(walking)]
#[tactic(auto, using(crate::proofs::WalkingRules::depth_rules))]
fn body_depth(alloc: Global, g: Walk<'_>, list: &[Stmt]) -> Result<u64, NoMemory>
    requires known { spec.KnowsDepths g }
    ensures { IfOk result (λ n. n ≡ told (depths.most_by (spec.depth_of g.entry) list.now)) }
{
    let mut greatest = 0;
    for i in 0..list.len() {
        greatest = statement_depth(alloc, g, &list[i])?.max(greatest);
    }
    Ok(greatest)
}

#[cycle(walking)]
#[tactic(auto, using(crate::proofs::WalkingRules::depth_rules))]
fn arms_depth(alloc: Global, g: Walk<'_>, list: &[Arm]) -> Result<u64, NoMemory>
    requires known { spec.KnowsDepths g }
    ensures { IfOk result (λ n. n ≡ told (depths.most_by (spec.depth_of_arm g.entry) list.now)) }
{
    let mut greatest = 0;
    for i in 0..list.len() {
        greatest = arm_depth(alloc, g, &list[i])?.max(greatest);
    }
    Ok(greatest)
}

#[cycle(walking)]
#[tactic(auto, using(crate::proofs::WalkingRules::depth_rules))]
fn arm_depth(alloc: Global, g: Walk<'_>, arm: &Arm) -> Result<u64, NoMemory>
    requires known { spec.KnowsDepths g }
    ensures { IfOk result (λ n. n ≡ told (spec.depth_of_arm g.entry arm.now)) }
{
    let test = expr_depth(alloc, &arm.test)?;
    Ok(test.max(body_depth(alloc, g, arm.body.as_slice())?))
}

/// The depth of the body of the function with a number, in which calls nest one deeper than is known.
#[tactic(auto, using(crate::proofs::WalkingRules::body_is))]
fn of_body(alloc: Global, g: Walk<'_>, i: usize) -> Result<u64, NoMemory>
    requires known { spec.KnowsDepths g }
    requires inside { i < length g.fs.now }
    ensures { IfOk result (λ n. n ≡ told (depths.expanded_depth g.entry.fs.now
        (g.entry.calls + 1) g.entry.inside i)) }
{
    let fs = g.fs;
    statement_depth(alloc, g, &fs[i].body)
}

/// The depths of all bodies, as those of called functions in which calls nest one deeper than is known.
fn one_deeper(alloc: Global, g: Walk<'_>) -> Result<Items<u64>, NoMemory>
    requires known { spec.KnowsDepths g }
    requires inside { g.inside ≡ true }
    ensures { IfOk result (λ all. spec.AreDepths g.entry.fs.now (g.entry.calls + 1) all) }
{
    let mut all = Items::new(alloc);
    let fs = g.fs;
    for i in 0..fs.len() {
        all.push(of_body(alloc, g, i)?)?;
    }
    Ok(all)
}

/// The depths of all bodies where none is entered.
fn entering_none(alloc: Global, fs: &[Function]) -> Result<Items<u64>, NoMemory>
    ensures { IfOk result (λ all. spec.AreDepths fs.now 0 all) }
{
    let mut all = Items::new(alloc);
    for _ in 0..fs.len() {
        all.push(0)?;
    }
    Ok(all)
}

/// The depths of all bodies, as those of called functions in which calls nest less than so deep.
fn callees_to(alloc: Global, fs: &[Function], calls: usize) -> Result<Items<u64>, NoMemory>
    ensures { IfOk result (λ all. spec.AreDepths fs.now calls all) }
{
    let mut all = entering_none(alloc, fs)?;
    for d in 0..calls {
        let g = Walk {
            fs,
            calls: d,
            depths: all.as_slice(),
            inside: true,
        };
        all = one_deeper(alloc, g)?;
    }
    Ok(all)
}

/// How deep the first function's body nests with its calls expanded.
pub fn expanded_depth(alloc: Global, fs: &[Function]) -> Result<u64, NoMemory>
    ensures { IfOk result (λ n. n ≡ told (depths.expanded_depth fs.now (length fs.now) false 0)) }
{
    let n = fs.len();
    if n == 0 {
        return Err(NoMemory);
    }
    let calls = n - 1;
    let depths = callees_to(alloc, fs, calls)?;
    let g = Walk {
        fs,
        calls,
        depths: depths.as_slice(),
        inside: false,
    };
    of_body(alloc, g, 0)
}
