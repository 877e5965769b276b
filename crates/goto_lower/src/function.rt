//! The goto form of a function.

ghost use Rattle.std.specs.Prelude.{◌≡◌, ◌≤◌, ◌+◌, [], IfOk, OnOk, length};
ghost use Rattle.away_trees.specs.Count.{weight};
ghost use Rattle.block_forms.specs.Lowered.{Lowered, numbers_of};
ghost use Rattle.goto_lower.specs.Drafts.{begun_params};
ghost use Rattle.goto_lower.specs.Whole.{built};
ghost use Rattle.goto_lower.specs.Whole as spec;

use crate::counts::statement_many;
use crate::draft::Draft;
use crate::enclosing::Enclosing;
use crate::own_blocks::first_of;
use crate::setting::Setting;
use crate::shapes::{branches, fails, jumps, returns};
use crate::sizes::size_of;
use crate::statements::{FINISH, Flow, push_statement};
use crate::sums::{place, sum};
use crate::terms::{is_null, null_of};
use away_trees::Function;
use away_types::{CheckedFunction, Slot};
use away_values::{Name, NoMemory, Ty, sqlstate};
use block_forms::{Goto, Numbers};
use function_facts::checked_functions_own_their_slots;
use sqlite_items::Items;
use std::alloc::Global;

fn count_of(many: usize) -> Result<u32, NoMemory>
    ensures { IfOk result (λ k. k ≡ many) }
{
    match u32::try_from(many) {
        Ok(k) => Ok(k),
        Err(_) => Err(NoMemory),
    }
}

fn numbers_of(f: &Function) -> Result<Numbers, NoMemory>
    ensures { IfOk result (λ n. n ≡ numbers_of f.now) }
{
    let size = size_of(&f.body)?;
    let counters = sum(count_of(f.params.len())?, size.slot)?;
    let hidden = sum(size.fors, sum(size.fors, size.fors)?)?;
    Ok(Numbers {
        fixed: size.expr,
        counters,
        targets: sum(counters, hidden)?,
    })
}

/// The parameters; STRICT tests each.
fn push_params(
    alloc: Global,
    numbers: Numbers,
    draft: &mut Draft,
    f: &Function,
    body: u32,
) -> Result<(), NoMemory>
    ensures { OnOk result (draft.new
        ≡ begun_params numbers f.now.strict f.now.result f.now.params body draft.old) }
{
    for i in 0..f.params.len() {
        let k = draft.place.slot;
        if f.strict {
            let start = draft.here()?;
            let other = sum(start, 2)?;
            let next = first_of(f.params.len() - (i + 1), other, body);
            let test = is_null(alloc, numbers.fixed, f.params.as_slice()[i].1, k)?;
            draft.begin(place(1, 0, 1, 0, 0), start)?;
            draft.push(branches(false, test, sum(start, 1)?, next))?;
            draft.push(returns(null_of(alloc, numbers.fixed, f.result)?))?;
        } else {
            draft.begin(place(1, 0, 1, 0, 0), body)?;
        }
    }
    Ok(())
}

/// The number of blocks before the body.
#[tactic(auto, using(crate::proofs::WholeWalk::param_rules))]
fn body_start(f: &Function) -> Result<u32, NoMemory>
    ensures { IfOk result (λ k. k ≡ spec.body_start f.now) }
{
    let many = count_of(f.params.len())?;
    if f.strict {
        sum(2, sum(many, many)?)
    } else {
        Ok(2)
    }
}

/// The form of a function over its slots.
pub(crate) fn lowered(alloc: Global, f: &Function, slots: &[Slot]) -> Result<Goto, NoMemory>
    ensures { IfOk result (λ g. g ≡ built f.now slots.now) }
{
    let numbers = numbers_of(f)?;
    let setting = Setting { numbers, slots };
    let start = body_start(f)?;
    let many = statement_many(&setting, &f.body)?;
    let body = first_of(many as usize, start, FINISH);
    let mut draft = Draft {
        nodes: Items::new(alloc),
        blocks: Items::new(alloc),
        place: place(0, 0, 0, 0, 0),
    };
    let tests = if f.strict { f.params.len() } else { 0 };
    let entry = first_of(tests, 2, body);
    draft.push(jumps(false, entry))?;
    draft.push(fails(sqlstate::FUNCTION_EXECUTED_NO_RETURN_STATEMENT))?;
    push_params(alloc, numbers, &mut draft, f, body)?;
    let flow = Flow {
        around: &Enclosing::Outside,
        next: FINISH,
    };
    push_statement(alloc, &setting, &mut draft, &f.body, &flow)?;
    Ok(Goto {
        entry: 0,
        finish: FINISH,
        nodes: draft.nodes,
        blocks: draft.blocks,
    })
}

/// The goto form of a checked function: its entry is block 0, and the end of the function block 1.
#[tactic(auto, using(crate::proofs::BuiltLowered::lower_rules))]
pub fn lower(alloc: Global, f: &CheckedFunction) -> Result<Goto, NoMemory>
    ensures lowered { IfOk result (λ g. Lowered f.now.function f.now.slots g) }
    ensures few { IfOk result (λ g. length g.blocks ≤ weight f.now.function) }
{
    checked_functions_own_their_slots(f);
    lowered(alloc, &f.function, f.slots.as_slice())
}
