//! Where a node of a function begins. What stands before it is read, and its nodes are counted.

ghost use Rattle.std.specs.Prelude.{◌≡◌, ◌≤◌, ◌<◌, ◌+◌, length, map, IfOk, IfSome};
ghost use Rattle.std.specs.Bool.{OnTrue};
ghost use Rattle.away_trees.specs.Count as count;
ghost use Rattle.away_grammar.specs.Tokens.{AreSpelled};
ghost use Rattle.away_lex.specs.Lexed.{seen};
ghost use Rattle.away_grammar.specs.FunctionGrammar.{statement};
ghost use Rattle.sql_text.specs.Plans.{Gives};
ghost use Rattle.plsql_parse.specs.Bodies.{statement_plan};
ghost use Rattle.plsql_parse.specs.Plans.{any_plan};
ghost use Rattle.plsql_parse.specs.Sorts.{AnyTree, part};
ghost use Rattle.function_places.specs.NodePlaces as spec;
ghost use Rattle.function_places.specs.NodePlaces.{IsNodePlace, IsPlaceIn, IsReached, IsStart};

use away_grammar::Mark;
use away_lex::{ReadRefusal, Token};
use away_trees::{Arm, Stmt, nodes_of_arm, nodes_of_statement};
use away_values::NoMemory;
use plsql_parse::bodies::body_of;
use plsql_parse::declarations::decl_of;
use plsql_parse::expressions::value_of;
use plsql_parse::lookahead::{sees_block, sees_closing, sees_name};
use plsql_parse::loop_kinds::kind_of;
use plsql_parse::read::lists_of;
use plsql_parse::statements::{arm_of, eat_elsif, statement_of};
use sql_text::{Cursor, Refusal, terminals_of};
use sqlite_items::Boxed;
use std::alloc::Global;

/// A statement that was taken: its nodes, and whether each of them is where it begins itself.
#[derive(Clone, Copy)]
struct Passed {
    nodes: u64,
    whole: bool,
}

fn is_into(found: &Stmt) -> bool
    ensures { OnTrue result (spec.IsInto found.now) }
{
    match found {
        Stmt::Into { .. } => true,
        _ => false,
    }
}

fn counted(found: &Stmt) -> Result<Passed, Refusal>
    ensures { IfOk result (spec.IsCounted found.now) }
{
    match nodes_of_statement(found) {
        Some(nodes) => Ok(Passed {
            nodes,
            whole: is_into(found),
        }),
        None => Err(Refusal::NoMemory),
    }
}

fn arm_counted(found: &Arm) -> Result<u64, Refusal>
    ensures { IfOk result (λ nodes. nodes ≡ count.nodes_of_arm found.now) }
{
    match nodes_of_arm(found) {
        Some(nodes) => Ok(nodes),
        None => Err(Refusal::NoMemory),
    }
}

/// Takes a statement.
fn take_statement(alloc: Global, tokens: &mut Cursor<'_>) -> Result<Boxed<Stmt>, Refusal>
    ensures found { Gives AnyTree any_plan
        (part statement) statement_plan tokens.old result tokens.new }
    ensures shorter { IfOk result (λ _. length tokens.new < length tokens.old) }
{
    let found = statement_of(alloc, tokens)?;
    Ok(Boxed::new(alloc, found)?)
}

/// Takes a statement and counts it.
fn pass_statement(alloc: Global, tokens: &mut Cursor<'_>) -> Result<Passed, Refusal>
    ensures passed { IfOk result (spec.IsPassed tokens.old tokens.new) }
    ensures shorter { IfOk result (λ _. length tokens.new < length tokens.old) }
{
    match take_statement(alloc, tokens) {
        Ok(found) => counted(found.get()),
        Err(refusal) => Err(refusal),
    }
}

/// Takes an arm and says how many nodes it has.
fn pass_arm(alloc: Global, tokens: &mut Cursor<'_>) -> Result<u64, Refusal>
    ensures passed { IfOk result (spec.IsArmPassed tokens.old tokens.new) }
    ensures shrinks { length tokens.new ≤ length tokens.old }
{
    match arm_of(alloc, tokens) {
        Ok(found) => arm_counted(&found),
        Err(refusal) => Err(refusal),
    }
}

/// Takes a label, if one stands next.
fn eat_label(alloc: Global, tokens: &mut Cursor<'_>) -> Result<(), Refusal>
    ensures taken { IfOk result (λ _. spec.IsLabelTaken tokens.old tokens.new) }
    ensures shrinks { length tokens.new ≤ length tokens.old }
{
    if tokens.eat(Mark::LabelOpen) {
        tokens.name(alloc)?;
        tokens.expect(Mark::LabelClose)?;
    }
    Ok(())
}

/// How many terminals are left where the node of this number among statements begins.
#[cycle(places)]
fn in_statements(
    alloc: Global,
    tokens: &mut Cursor<'_>,
    node: u64,
) -> Result<Option<usize>, Refusal>
    ensures { IfOk result (λ found. IfSome found (IsReached spec.statements node tokens.old)) }
{
    let mut left = node;
    while !sees_closing(tokens) {
        let mut here = tokens.ahead();
        let passed = pass_statement(alloc, tokens)?;
        if left < passed.nodes {
            if left == 0 {
                return Ok(Some(here.left()));
            }
            if passed.whole {
                return Ok(Some(here.left()));
            }
            return in_statement(alloc, &mut here, left - 1);
        }
        left -= passed.nodes;
    }
    Ok(None)
}

/// The same of a node of a statement, counted behind the statement itself.
#[cycle(places)]
fn in_statement(alloc: Global, tokens: &mut Cursor<'_>, node: u64) -> Result<Option<usize>, Refusal>
    ensures { IfOk result (λ found. IfSome found (IsReached spec.statement (1 + node) tokens.old)) }
{
    if tokens.eat(Mark::If) {
        return in_if(alloc, tokens, node);
    }
    if tokens.eat(Mark::Case) {
        tokens.expect(Mark::When)?;
        return in_case(alloc, tokens, node);
    }
    eat_label(alloc, tokens)?;
    if sees_block(tokens) {
        in_block(alloc, tokens, node)
    } else {
        in_loop(alloc, tokens, node)
    }
}

/// The same of a loop behind its label.
#[cycle(places)]
fn in_loop(alloc: Global, tokens: &mut Cursor<'_>, node: u64) -> Result<Option<usize>, Refusal>
    ensures { IfOk result (λ found. IfSome found (IsReached spec.repeated node tokens.old)) }
{
    kind_of(alloc, tokens)?;
    tokens.expect(Mark::Loop)?;
    in_statements(alloc, tokens, node)
}

/// The same of a block behind its label.
#[cycle(places)]
fn in_block(alloc: Global, tokens: &mut Cursor<'_>, node: u64) -> Result<Option<usize>, Refusal>
    ensures { IfOk result (λ found. IfSome found (IsReached spec.block node tokens.old)) }
{
    if tokens.eat(Mark::Declare) {
        return in_declarations(alloc, tokens, node);
    }
    tokens.expect(Mark::Begin)?;
    in_statements(alloc, tokens, node)
}

/// The same of a block behind DECLARE.
#[cycle(places)]
fn in_declarations(
    alloc: Global,
    tokens: &mut Cursor<'_>,
    node: u64,
) -> Result<Option<usize>, Refusal>
    ensures { IfOk result (λ found. IfSome found (IsReached spec.declarations node tokens.old)) }
{
    let mut left = node;
    while sees_name(tokens) {
        let here = tokens.left();
        decl_of(alloc, tokens)?;
        if left == 0 {
            return Ok(Some(here));
        }
        left -= 1;
    }
    tokens.expect(Mark::Begin)?;
    in_statements(alloc, tokens, left)
}

/// The same of the arms behind IF, and of their ELSE.
#[cycle(places)]
fn in_if(alloc: Global, tokens: &mut Cursor<'_>, node: u64) -> Result<Option<usize>, Refusal>
    ensures { IfOk result (λ found. IfSome found (IsReached spec.if_arms node tokens.old)) }
{
    let mut left = node;
    loop {
        let mut here = tokens.ahead();
        let nodes = pass_arm(alloc, tokens)?;
        if left == 0 {
            return Ok(Some(here.left()));
        }
        if left < nodes {
            return in_arm(alloc, &mut here, left - 1);
        }
        left -= nodes;
        if !eat_elsif(tokens) {
            return in_else(alloc, tokens, left);
        }
    }
}

/// The same of the arms behind CASE WHEN, and of their ELSE.
#[cycle(places)]
fn in_case(alloc: Global, tokens: &mut Cursor<'_>, node: u64) -> Result<Option<usize>, Refusal>
    ensures { IfOk result (λ found. IfSome found (IsReached spec.case_arms node tokens.old)) }
{
    let mut left = node;
    loop {
        let mut here = tokens.ahead();
        let nodes = pass_arm(alloc, tokens)?;
        if left == 0 {
            return Ok(Some(here.left()));
        }
        if left < nodes {
            return in_arm(alloc, &mut here, left - 1);
        }
        left -= nodes;
        if !tokens.eat(Mark::When) {
            return in_else(alloc, tokens, left);
        }
    }
}

/// The same of an arm, counted behind the arm itself.
#[cycle(places)]
fn in_arm(alloc: Global, tokens: &mut Cursor<'_>, node: u64) -> Result<Option<usize>, Refusal>
    ensures { IfOk result (λ found. IfSome found (IsReached spec.arm (1 + node) tokens.old)) }
{
    value_of(alloc, tokens)?;
    tokens.expect(Mark::Then)?;
    in_statements(alloc, tokens, node)
}

/// The same behind the arms: of ELSE itself, or of a statement behind it.
#[cycle(places)]
fn in_else(alloc: Global, tokens: &mut Cursor<'_>, node: u64) -> Result<Option<usize>, Refusal>
    ensures { IfOk result (λ found. IfSome found (IsReached spec.otherwise node tokens.old)) }
{
    let here = tokens.left();
    if !tokens.eat(Mark::Else) {
        return Ok(None);
    }
    if node == 0 {
        return Ok(Some(here));
    }
    in_statements(alloc, tokens, node - 1)
}

/// The same of a body.
fn in_body(alloc: Global, tokens: &mut Cursor<'_>, node: u64) -> Result<Option<usize>, Refusal>
    ensures { IfOk result (λ found. IfSome found (IsReached spec.body node tokens.old)) }
{
    if node == 0 {
        let here = tokens.left();
        body_of(alloc, tokens)?;
        return Ok(Some(here));
    }
    eat_label(alloc, tokens)?;
    in_block(alloc, tokens, node - 1)
}

/// Where the token begins from which on so many are left.
pub(crate) fn start_of(list: &[Token<'_>], left: usize) -> Option<u64>
    ensures { IfSome result (IsStart (map seen list.now) left) }
{
    if left == 0 {
        return None;
    }
    if left > list.len() {
        return None;
    }
    Some(list[list.len() - left].start)
}

/// The byte at which the node of this number begins in the body that the list is.
pub(crate) fn place_in(
    alloc: Global,
    inner: &[Token<'_>],
    node: u64,
) -> Result<Option<u64>, NoMemory>
    requires { AreSpelled (map seen inner.now) }
    ensures { IfOk result (λ found. IfSome found (IsPlaceIn (map seen inner.now) node)) }
{
    let terminals = terminals_of(alloc, inner)?;
    let mut tokens = Cursor::new(terminals.as_slice(), 0);
    match in_body(alloc, &mut tokens, node) {
        Ok(Some(left)) => Ok(start_of(inner, left)),
        Ok(None) => Ok(None),
        Err(Refusal::NoTree) => Ok(None),
        Err(Refusal::NoMemory) => Err(NoMemory),
    }
}

/// The byte at which the node of this number of the body begins, counted from 0 in the order of the text as `away_trees::nodes`
/// counts them, without the parameters: the outermost block is node 0. A target of INTO begins where its statement does, and an arm
/// where its condition does. `None`: the bytes aren't read so far as to a node of this number. `Err`: want of memory alone.
pub fn node_place(alloc: Global, bytes: &[u8], node: u64) -> Result<Option<u64>, NoMemory>
    ensures { IfOk result (λ found. IfSome found (IsNodePlace bytes.now node)) }
{
    match lists_of(alloc, bytes) {
        Ok(lists) => place_in(alloc, lists.body.as_slice(), node),
        Err(ReadRefusal::NoMemory) => Err(NoMemory),
        Err(_) => Ok(None),
    }
}
