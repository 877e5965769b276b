//! Where a function exceeds a limit.

ghost use Rattle.std.specs.Prelude.{◌≡◌, ◌<◌, length, map, IfOk, IfSome};
ghost use Rattle.away_grammar.specs.Tokens.{AreSpelled};
ghost use Rattle.away_lex.specs.Lexed.{seen};
ghost use Rattle.plsql_parse.specs.Plans.{FileGives};
ghost use Rattle.function_places.specs.LimitPlaces as spec;
ghost use Rattle.function_places.specs.LimitPlaces.{FirstAbove, IsCountPlace, IsLimitPlace, IsNestingPlace, IsTooDeep};

use crate::node_kinds::{Kind, kinds_of};
use crate::token_places::{element_place, tokens_of};
use away_lex::{LimitKind, ReadRefusal, Token, nesting};
use away_trees::Function;
use away_values::NoMemory;
use plsql_parse::read::{
    MOST_LOOPS, MOST_NESTING, MOST_NODES, MOST_VARIABLES, lists_of, whole_function,
};
use sql_text::Refusal;
use sqlite_items::Boxed;
use std::alloc::Global;

/// The number of the first token by which the list nests deeper than the limit, where the whole does.
pub fn too_deep(list: &[Token<'_>], limit: u64) -> Option<usize>
    ensures deep { IfSome result (IsTooDeep (map seen list.now) limit) }
    ensures within { IfSome result (λ number. number < length list.now) }
{
    if list.is_empty() || nesting(list) <= limit {
        return None;
    }
    let mut low = 0;
    let mut high = list.len();
    while low + 1 < high {
        let middle = low + (high - low) / 2;
        if nesting(&list[..middle]) <= limit {
            low = middle;
        } else {
            high = middle;
        }
    }
    Some(low)
}

/// Where the body first nests deeper than is read.
fn nesting_in(inner: &[Token<'_>]) -> Option<u64>
    ensures { IfSome result (spec.StartsDeep (map seen inner.now)) }
{
    let number = too_deep(inner, MOST_NESTING)?;
    Some(inner[number].start)
}

fn nesting_place(alloc: Global, bytes: &[u8]) -> Result<Option<u64>, NoMemory>
    ensures { IfOk result (λ found. IfSome found (IsNestingPlace bytes.now)) }
{
    match tokens_of(alloc, bytes)? {
        Some(lists) => Ok(nesting_in(lists.body.as_slice())),
        None => Ok(None),
    }
}

/// Whether the limit is on nodes of the kind.
fn counts(which: LimitKind, kind: Kind) -> bool
    ensures { result ≡ spec.counts which kind }
{
    match which {
        LimitKind::Nodes => true,
        LimitKind::Variables => matches!(kind, Kind::Variable),
        LimitKind::Loops => matches!(kind, Kind::Counter),
        LimitKind::Nesting => false,
    }
}

/// How many are read.
fn most(which: LimitKind) -> u64
    ensures { result ≡ spec.most which }
{
    match which {
        LimitKind::Nodes => MOST_NODES,
        LimitKind::Variables => MOST_VARIABLES,
        LimitKind::Loops => MOST_LOOPS,
        LimitKind::Nesting => MOST_NESTING,
    }
}

/// The number of the first node above the limit.
fn first_above(which: LimitKind, nodes: &[Kind]) -> Option<usize>
    ensures { FirstAbove (spec.counts which) (spec.most which) nodes.now result }
{
    let mut left = most(which);
    for (number, kind) in nodes.iter().enumerate() {
        if counts(which, *kind) {
            if left == 0 {
                return Some(number);
            }
            left -= 1;
        }
    }
    None
}

/// A node of a function: how many parameters the function has, and the node's number among all.
#[derive(Clone, Copy)]
struct Element {
    params: u64,
    number: u64,
}

fn above_in(alloc: Global, f: &Function, which: LimitKind) -> Result<Option<Element>, NoMemory>
    ensures { IfOk result (λ found. IfSome found (spec.IsElementAbove which f.now)) }
{
    let nodes = kinds_of(alloc, f)?;
    match first_above(which, nodes.as_slice()) {
        Some(number) => Ok(Some(Element {
            params: f.params.len() as u64,
            number: number as u64,
        })),
        None => Ok(None),
    }
}

fn boxed(alloc: Global, f: Function) -> Result<Boxed<Function>, NoMemory>
    ensures { IfOk result (λ b. b ≡ f) }
{
    Ok(Boxed::new(alloc, f)?)
}

/// The function that the lists are, if they are one.
fn function_of(
    alloc: Global,
    outer: &[Token<'_>],
    inner: &[Token<'_>],
) -> Result<Option<Boxed<Function>>, NoMemory>
    requires outer { AreSpelled (map seen outer.now) }
    requires inner { AreSpelled (map seen inner.now) }
    ensures { IfOk result (λ found. IfSome found
        (FileGives (map seen outer.now) (map seen inner.now))) }
{
    match whole_function(alloc, outer, inner) {
        Ok(f) => Ok(Some(boxed(alloc, f)?)),
        Err(Refusal::NoTree) => Ok(None),
        Err(Refusal::NoMemory) => Err(NoMemory),
    }
}

fn above_in_lists(
    alloc: Global,
    outer: &[Token<'_>],
    inner: &[Token<'_>],
    which: LimitKind,
) -> Result<Option<Element>, NoMemory>
    requires outer { AreSpelled (map seen outer.now) }
    requires inner { AreSpelled (map seen inner.now) }
    ensures { IfOk result (λ found. IfSome found
        (spec.IsAboveInLists which (map seen outer.now) (map seen inner.now))) }
{
    match function_of(alloc, outer, inner)? {
        Some(f) => above_in(alloc, f.get(), which),
        None => Ok(None),
    }
}

fn element_above(alloc: Global, bytes: &[u8], which: LimitKind) -> Result<Option<Element>, NoMemory>
    ensures { IfOk result (λ found. IfSome found (spec.IsAboveInBytes which bytes.now)) }
{
    match lists_of(alloc, bytes) {
        Ok(lists) => above_in_lists(alloc, lists.outer.as_slice(), lists.body.as_slice(), which),
        Err(ReadRefusal::NoMemory) => Err(NoMemory),
        Err(_) => Ok(None),
    }
}

fn count_place(alloc: Global, bytes: &[u8], which: LimitKind) -> Result<Option<u64>, NoMemory>
    ensures { IfOk result (λ found. IfSome found (IsCountPlace bytes.now which)) }
{
    match element_above(alloc, bytes, which)? {
        Some(found) => element_place(alloc, bytes, found.params, found.number),
        None => Ok(None),
    }
}

/// Where the function that the bytes read as first exceeds the limit: the token by which its body nests too deep, or the first
/// node that is one too many. None where nothing exceeds it, or the bytes read as no function.
pub fn limit_place(alloc: Global, bytes: &[u8], which: LimitKind) -> Result<Option<u64>, NoMemory>
    ensures { IfOk result (λ found. IfSome found (IsLimitPlace bytes.now which)) }
{
    match which {
        LimitKind::Nesting => nesting_place(alloc, bytes),
        LimitKind::Nodes => count_place(alloc, bytes, which),
        LimitKind::Variables => count_place(alloc, bytes, which),
        LimitKind::Loops => count_place(alloc, bytes, which),
    }
}
