//! The check of functions.

ghost use Rattle.std.specs.Prelude.{◌≡◌, ◌++◌, [], true, IfOk, IfErr};
ghost use Rattle.indexmap.specs.IndexMap.{get_by_text};
ghost use Rattle.away_types.specs.ResolvedBodies.{spot as spot_of};
ghost use Rattle.away_types.specs.CheckedFunctions.{IsChecked};
ghost use Rattle.away_types.specs.FunctionChecks as spec;
ghost use Rattle.away_trees.specs.Limits.{KeepsLimits};
ghost use Rattle.away_types.specs.Refusals.{RefusesFunction};

use crate::around::Spot;
use crate::checked::FunctionRefusal;
use crate::checked_function::CheckedFunction;
use crate::checked_schema::CheckedSchema;
use crate::finding::{Report, both, followed, own};
use crate::parameters::{Start, kept, params_note, started};
use crate::resolved::Resolved;
use crate::resolving::resolved_stmt;
use crate::slots::{Slot, Slots};
use crate::statement_types::{Asking, asked_stmt};
use away_names::lookups::narrow;
use away_names::note::{Note, joined};
use away_names::rule::Rule;
use away_names::scope::{Listed, Scope, Tables, Variable};
use away_names::tables::tables_of;
use away_trees::{Function, Schema, Stmt};
use away_typing::recursion::column_types;
use away_typing::types::Places;
use away_values::{NoMemory, Ty};
use elaboration::converting::Around;
use elaboration::statements::converted;
use indexmap::IndexMap;
use sqlite_items::{Boxed, Items};
use std::alloc::Global;

/// The body, the slots and what was found.
#[derive(Drop)]
struct Verdict {
    body: Boxed<Stmt>,
    slots: Items<Slot>,
    note: Report,
}

/// A body whose names are resolved, and the slots of its function.
#[derive(Drop)]
pub struct NamedBody {
    pub body: Boxed<Stmt>,
    pub slots: Items<Slot>,
}

/// What a function's statements see.
#[tactic(auto, unfolding(away_names::specs::Places::tables))]
fn entry<'a>(known: &'a IndexMap<String, Listed>, variables: &'a [Variable]) -> Spot<'a>
    ensures { spot_of result ≡ record {
      scope = record {
        table = λ n. get_by_text known.now n;
        levels = [];
        variables = variables.now;
        in_function = true;
      };
      around = [];
    } }
{
    Spot {
        scope: Scope {
            tables: Tables {
                schema: known,
                working: None,
            },
            levels: &[],
            variables,
            in_function: true,
        },
        around: &[],
    }
}

fn body_of(alloc: Global, s: &Schema, f: &Function) -> Result<Resolved<Stmt>, NoMemory>
    ensures { IfOk result (λ x. x ≡ spec.body_of s.now f.now) }
{
    let known = tables_of(alloc, s)?;
    let Start { slots, variables } = started(alloc, f.params.as_slice())?;
    let spot = entry(&known, variables.as_slice());
    resolved_stmt(alloc, &f.body, &spot, slots)
}

fn with_all(first: Items<Slot>, more: &[Slot]) -> Result<Items<Slot>, NoMemory>
    ensures { IfOk result (λ all. all ≡ first ++ more.now) }
{
    let mut all = first;
    for x in more {
        all.push(*x)?;
    }
    Ok(all)
}

fn in_order(slots: Slots) -> Result<Items<Slot>, NoMemory>
    ensures { IfOk result (λ all. all ≡ spec.in_order slots) }
{
    let Slots {
        shown,
        hidden,
        picked,
    } = slots;
    let rest = with_all(hidden, picked.as_slice())?;
    with_all(shown, rest.as_slice())
}

fn slot_types(alloc: Global, slots: &[Slot]) -> Result<Items<Ty>, NoMemory>
    ensures { IfOk result (λ all. all ≡ spec.slot_types slots.now) }
{
    let mut all = Items::new(alloc);
    for x in slots {
        all.push(x.ty)?;
    }
    Ok(all)
}

fn types_note(
    alloc: Global,
    s: &Schema,
    slots: &[Slot],
    answer: Ty,
    body: &Stmt,
) -> Result<Report, NoMemory>
    ensures { IfOk result (λ n. n ≡ spec.body_note s.now slots.now answer body.now) }
{
    let columns = column_types(alloc, s)?;
    let types = slot_types(alloc, slots)?;
    let a = Asking {
        places: Places {
            slots: types.as_slice(),
            frames: &[],
            tables: columns.as_slice(),
        },
        result: answer,
    };
    asked_stmt(alloc, &a, body)
}

/// The body with its operations marked, and each number converted to the type of its place.
fn converted_over(
    alloc: Global,
    s: &Schema,
    slots: &[Slot],
    answer: Ty,
    body: &Stmt,
) -> Result<Boxed<Stmt>, NoMemory>
    ensures { IfOk result (λ x. x ≡ spec.converted_over s.now slots.now answer body.now) }
{
    let columns = column_types(alloc, s)?;
    let types = slot_types(alloc, slots)?;
    let a = Around {
        places: Places {
            slots: types.as_slice(),
            frames: &[],
            tables: columns.as_slice(),
        },
        result: answer,
        counter: Ty::Integer,
    };
    let x = converted(alloc, body, &a)?;
    Ok(Boxed::new(alloc, x)?)
}

fn head_note(f: &Function) -> Note
    ensures { result ≡ spec.head_note f.now }
{
    joined(kept(&f.name), params_note(f.params.as_slice()))
}

/// The least rule that the function's head breaks: its name, and its parameters.
pub fn head_rule(f: &Function) -> Option<Rule>
    ensures { result ≡ (spec.head_note f.now).least }
{
    head_note(f).least
}

fn verdict_of(alloc: Global, s: &Schema, f: &Function) -> Result<Verdict, NoMemory>
    ensures { IfOk result (λ x. x ≡ record {
      body = spec.converted_body s.now f.now;
      slots = spec.slots_of s.now f.now;
      note = spec.function_note s.now f.now;
    }) }
{
    let Resolved { it, note, slots } = body_of(alloc, s, f)?;
    let resolved = Boxed::new(alloc, it)?;
    let slots = in_order(slots)?;
    let body = converted_over(alloc, s, slots.as_slice(), f.result, resolved.get())?;
    let types = types_note(alloc, s, slots.as_slice(), f.result, body.get())?;
    let head = own(narrow(f.params.len())?, head_note(f));
    Ok(Verdict {
        body,
        slots,
        note: followed(head, both(note, types))?,
    })
}

/// What the names of a function's body stand for, and the function's slots, whatever rules it breaks.
pub fn named_body(alloc: Global, s: &Schema, f: &Function) -> Result<NamedBody, NoMemory>
    ensures body { IfOk result (λ x. x.body ≡ (spec.body_of s.now f.now).it) }
    ensures slots { IfOk result (λ x. x.slots ≡ spec.slots_of s.now f.now) }
{
    let Resolved { it, note: _, slots } = body_of(alloc, s, f)?;
    let body = Boxed::new(alloc, it)?;
    Ok(NamedBody {
        body,
        slots: in_order(slots)?,
    })
}

/// The function with what its names stand for and its numbers converted, where it breaks no rule; else the first finding of the least rule that it
/// breaks. The manual: 43.2, Structure of PL/pgSQL, 43.3, Declarations, and 43.6, Control Structures.
pub fn check_function(
    alloc: Global,
    s: &CheckedSchema,
    f: Function,
) -> Result<CheckedFunction, FunctionRefusal>
    requires { KeepsLimits f }
    ensures ok { IfOk result (λ c. IsChecked s.now.schema f c.function c.slots) }
    ensures err { IfErr result (λ e. RefusesFunction (spec.function_note s.now.schema f) e) }
{
    match verdict_of(alloc, &s.schema, &f) {
        Err(NoMemory) => Err(FunctionRefusal::NoMemory),
        Ok(Verdict { body, slots, note }) => {
            match note.first {
                None => Ok(CheckedFunction {
                    function: Function {
                        name: f.name,
                        strict: f.strict,
                        params: f.params,
                        result: f.result,
                        body: body.into_inner(),
                    },
                    slots,
                }),
                Some(finding) => Err(FunctionRefusal::Broken(finding)),
            }
        }
    }
}
