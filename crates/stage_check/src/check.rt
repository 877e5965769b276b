//! The checks of all stages.

ghost use Rattle.std.specs.Prelude.{◌≡◌, IfOk};
ghost use Rattle.away_trees.specs.declared.statements.Function.{Function};
ghost use Rattle.away_types.specs.CheckedFunctions.{IsChecked};
ghost use Rattle.equivalence.specs.Accepted.{EquivalentWith};
ghost use Rattle.stage_check.specs.declared.verdict.Verdict.TheVariants.{Accepted};
ghost use Rattle.stage_check.specs.Verdicts.{Judges};

use crate::verdict::Verdict;
use away_types::{CheckedFunction, CheckedQuery, CheckedSchema};
use away_values::NoMemory;
use call_check::{check_called, check_columned, check_merged};
use call_forms::Forms;
use cte_check::check_templated;
use equivalence::{Relation, accepted_forms_are_equivalent};
use goto_check::check_lowered;
use ssa_check::check_named;
use std::alloc::Global;

/// Whether the forms stand between the function and the query, over the tables of the schema; or the first relation that doesn't hold.
/// Where they do, the query is equivalent to the function, if both were checked under the schema.
pub fn check_all(
    alloc: Global,
    s: &CheckedSchema,
    f: &CheckedFunction,
    q: &CheckedQuery,
    forms: &Forms,
) -> Result<Verdict, NoMemory>
    ensures exact { IfOk result
        (Judges s.now.schema f.now.function f.now.slots forms.now q.now.query) }
    ensures equivalent { IfOk result (λ v. v ≡ Accepted → (written : Function)
        → IsChecked s.now.schema written f.now.function f.now.slots
        → EquivalentWith s.now.schema f.now.function f.now.slots q.now.query) }
{
    accepted_forms_are_equivalent(f);
    if !check_lowered(f, &forms.goto) {
        return Ok(Verdict::Fails(Relation::Lowered));
    }
    if !check_named(f, &forms.goto, &forms.ssa) {
        return Ok(Verdict::Fails(Relation::Named));
    }
    if !check_called(alloc, &forms.goto, &forms.ssa, &forms.anf)? {
        return Ok(Verdict::Fails(Relation::Called));
    }
    if !check_merged(alloc, &forms.goto, &forms.anf, &forms.tail)? {
        return Ok(Verdict::Fails(Relation::Merged));
    }
    if !check_columned(f, &forms.ssa, &forms.anf, &forms.tail) {
        return Ok(Verdict::Fails(Relation::Columned));
    }
    let tables = s.schema.tables.len();
    if !check_templated(
        alloc,
        f,
        &forms.goto,
        &forms.ssa,
        &forms.anf,
        &forms.tail,
        q,
        tables,
    )? {
        return Ok(Verdict::Fails(Relation::Templated));
    }
    Ok(Verdict::Accepted)
}
