//! Terms, maps and φs under new names.

ghost use Rattle.std.specs.Prelude.{◌≡◌, ℕ, ◌<◌, length, map, get_or, IfOk};
ghost use Rattle.block_forms.specs.Lowered.{TermBelow};
ghost use Rattle.ssa_build.specs.FullForms.{IsSized};
ghost use Rattle.ssa_build.specs.Merging as merging_of;
ghost use Rattle.ssa_build.specs.Merging.{replacing};
ghost use Rattle.ssa_build.specs.Renamings as renamed;
ghost use Rattle.block_graph.specs.Predecessors.{predecessors_of};

use crate::full::{name_after, name_before, phi_name};
use crate::renames::Renaming;
use block_forms::{Phi, Term};
use block_graph::is_live;
use sqlite_items::Items;
use std::alloc::{AllocError, Global};

/// Whether a name is merged into no other.
pub(crate) fn is_end(into: &[u32], name: u32) -> bool
    ensures { result ≡ merging_of.is_end (replacing into.now) name }
{
    let at = name as usize;
    if at < into.len() {
        into[at] == name
    } else {
        true
    }
}

/// The new name for an old one.
pub(crate) fn new_name(into: &[u32], numbers: &[u32], name: u32) -> u32
    ensures { result ≡ merging_of.new_name into.now numbers.now name }
{
    let at = name as usize;
    let end = if at < into.len() { into[at] } else { name };
    let number = end as usize;
    if number < numbers.len() {
        numbers[number]
    } else {
        0
    }
}

/// The new name of a slot where a block begins.
pub(crate) fn new_before(renaming: &Renaming<'_>, block: usize, slot: u32) -> u32
    requires tables { IsSized renaming.now.full.now }
    requires block_in { block < renaming.now.full.now.layout.blocks }
    requires slot_in { slot < renaming.now.full.now.layout.slots }
    ensures { result ≡ renamed.before renaming.now block slot }
{
    let name = name_before(renaming.full, block, slot);
    new_name(renaming.into, renaming.numbers, name)
}

/// The new name of a slot where a block ends.
pub(crate) fn new_after(renaming: &Renaming<'_>, block: usize, slot: u32) -> u32
    requires tables { IsSized renaming.now.full.now }
    requires sized { length renaming.now.blocks.now ≡ renaming.now.full.now.layout.blocks }
    requires block_in { block < renaming.now.full.now.layout.blocks }
    requires slot_in { slot < renaming.now.full.now.layout.slots }
    ensures { result ≡ renamed.after renaming.now block slot }
{
    let name = name_after(renaming.full, renaming.blocks, block, slot);
    new_name(renaming.into, renaming.numbers, name)
}

/// A term with the new names that its slots have where a block begins.
pub(crate) fn term_before(
    alloc: Global,
    renaming: &Renaming<'_>,
    block: usize,
    term: &Term,
) -> Result<Term, AllocError>
    requires tables { IsSized renaming.now.full.now }
    requires block_in { block < renaming.now.full.now.layout.blocks }
    requires slots_in { TermBelow renaming.now.full.now.layout.slots term.now }
    ensures { IfOk result (λ t. t ≡ renamed.term_before renaming.now block term.now) }
{
    let mut names = Items::new(alloc);
    for slot in term.names.as_slice() {
        names.push(new_before(renaming, block, *slot))?;
    }
    Ok(Term {
        expr: term.expr,
        names,
    })
}

/// A term with the new names that its slots have where a block ends.
pub(crate) fn term_after(
    alloc: Global,
    renaming: &Renaming<'_>,
    block: usize,
    term: &Term,
) -> Result<Term, AllocError>
    requires tables { IsSized renaming.now.full.now }
    requires sized { length renaming.now.blocks.now ≡ renaming.now.full.now.layout.blocks }
    requires block_in { block < renaming.now.full.now.layout.blocks }
    requires slots_in { TermBelow renaming.now.full.now.layout.slots term.now }
    ensures { IfOk result (λ t. t ≡ renamed.term_after renaming.now block term.now) }
{
    let mut names = Items::new(alloc);
    for slot in term.names.as_slice() {
        names.push(new_after(renaming, block, *slot))?;
    }
    Ok(Term {
        expr: term.expr,
        names,
    })
}

/// The new names of the live slots of a block.
pub(crate) fn new_map(
    alloc: Global,
    renaming: &Renaming<'_>,
    block: usize,
) -> Result<Items<(u32, u32)>, AllocError>
    requires tables { IsSized renaming.now.full.now }
    requires block_in { block < renaming.now.full.now.layout.blocks }
    ensures { IfOk result (λ v. v ≡ renamed.map_of renaming.now block) }
{
    let mut names = Items::new(alloc);
    for slot in 0..renaming.full.layout.slots {
        if is_live(&renaming.full.live, block, slot) {
            let name = new_before(renaming, block, slot as u32);
            names.push((slot as u32, name))?;
        }
    }
    Ok(names)
}

/// The operands of a φ.
pub(crate) fn new_operands(
    alloc: Global,
    renaming: &Renaming<'_>,
    sources: &[usize],
    slot: u32,
) -> Result<Items<(u32, u32)>, AllocError>
    requires tables { IsSized renaming.now.full.now }
    requires sized { length renaming.now.blocks.now ≡ renaming.now.full.now.layout.blocks }
    requires sources_in { (k : ℕ) → k < length sources.now
        → get_or sources.now k 0 < renaming.now.full.now.layout.blocks }
    requires slot_in { slot < renaming.now.full.now.layout.slots }
    ensures { IfOk result (λ v. v ≡ map (λ p. (p, renamed.after renaming.now p slot)) sources.now) }
{
    let mut operands = Items::new(alloc);
    for source in sources {
        let name = new_after(renaming, *source, slot);
        operands.push((*source as u32, name))?;
    }
    Ok(operands)
}

/// The φs of a block that are merged into no other name.
pub(crate) fn new_phis(
    alloc: Global,
    renaming: &Renaming<'_>,
    sources: &[usize],
    block: usize,
) -> Result<Items<Phi>, AllocError>
    requires tables { IsSized renaming.now.full.now }
    requires sized { length renaming.now.blocks.now ≡ renaming.now.full.now.layout.blocks }
    requires sources_in { (k : ℕ) → k < length sources.now
        → get_or sources.now k 0 < renaming.now.full.now.layout.blocks }
    requires sources_are { sources.now ≡ predecessors_of renaming.now.blocks.now block }
    requires block_in { block < renaming.now.full.now.layout.blocks }
    ensures { IfOk result (λ v. v ≡ renamed.slot_phis renaming.now block) }
{
    let mut phis = Items::new(alloc);
    for slot in 0..renaming.full.layout.slots {
        if is_live(&renaming.full.live, block, slot) {
            let name = phi_name(renaming.full, block, slot);
            if is_end(renaming.into, name) {
                phis.push(Phi {
                    name: new_name(renaming.into, renaming.numbers, name),
                    operands: new_operands(alloc, renaming, sources, slot as u32)?,
                })?;
            }
        }
    }
    Ok(phis)
}
