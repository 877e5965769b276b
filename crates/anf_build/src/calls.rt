//! The blocks of the normal form, from the tables of live slots.

ghost use Rattle.std.specs.Prelude.{◌≡◌, length, IfOk};
ghost use Rattle.block_forms.specs.Named.{exit_map};
ghost use Rattle.anf_build.specs.Passing as passing;
ghost use Rattle.anf_build.specs.Passing.{AreNames};

use crate::exits::{exit_names, name_of};
use block_forms::{Block, End, SsaBlock, Term};
use block_graph::is_live;
use call_forms::{AnfBlock, Call, CallEnd};
use sqlite_items::Items;
use std::alloc::{AllocError, Global};

fn copied_term(alloc: Global, term: &Term) -> Result<Term, AllocError>
    ensures { IfOk result (λ t. t ≡ term.now) }
{
    Ok(Term {
        expr: term.expr,
        names: Items::from_slice(alloc, term.names.as_slice())?,
    })
}

fn copied_set(alloc: Global, set: &Option<(u32, Term)>) -> Result<Option<(u32, Term)>, AllocError>
    ensures { IfOk result (λ s. s ≡ set.now) }
{
    match set {
        None => Ok(None),
        Some((name, term)) => Ok(Some((*name, copied_term(alloc, term)?))),
    }
}

/// The names of a block's live slots.
fn parameters(
    alloc: Global,
    tables: &[Items<bool>],
    block: usize,
    map: &[(u32, u32)],
) -> Result<Items<u32>, AllocError>
    ensures { IfOk result (λ v. v ≡ passing.parameters tables.now block map.now) }
{
    let mut names = Items::new(alloc);
    for pair in map {
        let (slot, name) = *pair;
        if is_live(tables, block, slot as usize) {
            names.push(name)?;
        }
    }
    Ok(names)
}

/// What is passed for the parameters of a block with this map: the name of each slot where the calling block ends.
fn arguments(
    alloc: Global,
    tables: &[Items<bool>],
    names: &[Option<u32>],
    callee: usize,
    map: &[(u32, u32)],
) -> Result<Items<u32>, AllocError>
    requires sized { length names.now ≡ length tables.now }
    ensures { IfOk result (λ v. v ≡ passing.arguments tables.now names.now callee map.now) }
{
    let mut args = Items::new(alloc);
    for pair in map {
        let (slot, name) = *pair;
        if is_live(tables, callee, slot as usize) {
            args.push(name_of(names, slot, name))?;
        }
    }
    Ok(args)
}

/// The call of a block.
fn call_of(
    alloc: Global,
    tables: &[Items<bool>],
    blocks: &[SsaBlock],
    names: &[Option<u32>],
    target: u32,
) -> Result<Call, AllocError>
    requires sized { length names.now ≡ length tables.now }
    ensures { IfOk result (λ c. c ≡ passing.call_of tables.now blocks.now names.now target) }
{
    let block = target as usize;
    let args = match blocks.get(block) {
        None => Items::new(alloc),
        Some(y) => arguments(alloc, tables, names, block, y.map.as_slice())?,
    };
    Ok(Call { target, args })
}

/// An end with calls in place of ways.
fn end_of(
    alloc: Global,
    tables: &[Items<bool>],
    blocks: &[SsaBlock],
    names: &[Option<u32>],
    end: &End,
) -> Result<CallEnd, AllocError>
    requires sized { length names.now ≡ length tables.now }
    ensures { IfOk result (λ e. e ≡ passing.end_of tables.now blocks.now names.now end.now) }
{
    match end {
        End::Jump(next) => Ok(CallEnd::Go(call_of(alloc, tables, blocks, names, *next)?)),
        End::Branch(test, yes, no) => {
            let test = copied_term(alloc, test)?;
            let yes = call_of(alloc, tables, blocks, names, *yes)?;
            let no = call_of(alloc, tables, blocks, names, *no)?;
            Ok(CallEnd::Pick(test, yes, no))
        }
        End::Return(value) => Ok(CallEnd::Return(copied_term(alloc, value)?)),
        End::Fail(class) => Ok(CallEnd::Fail(*class)),
    }
}

/// The block of the normal form for a block of the goto form and of the SSA form.
pub(crate) fn block_of(
    alloc: Global,
    tables: &[Items<bool>],
    blocks: &[SsaBlock],
    block: usize,
    x: &Block,
    y: &SsaBlock,
) -> Result<AnfBlock, AllocError>
    ensures { IfOk result (λ b. passing.IsBlockOf tables.now blocks.now block x.now y.now b) }
{
    let names = exit_names(alloc, tables.len(), x, y)?;
    let params = parameters(alloc, tables, block, y.map.as_slice())?;
    let set = copied_set(alloc, &y.set)?;
    let end = end_of(alloc, tables, blocks, names.as_slice(), &y.end)?;
    Ok(AnfBlock { params, set, end })
}
