//! The forms of a function, and the tree of its query.

ghost use Rattle.std.specs.Prelude.{IfOk};
ghost use Rattle.compiling.specs.Translated.{IsTranslated};

use crate::lengths::normal_forms_are_short;
use anf_build::to_calls;
use away_trees::Query;
use away_types::{CheckedFunction, CheckedSchema};
use away_values::NoMemory;
use block_forms::expr_table;
use call_forms::Forms;
use cte_template::template_tree;
use goto_lower::lower;
use sqlite_items::Boxed;
use ssa_build::build_ssa;
use std::alloc::Global;
use tail_rec::to_tail;

/// The forms of a function, and the tree of its query.
#[derive(Drop)]
pub(crate) struct Translated {
    pub(crate) forms: Forms,
    pub(crate) tree: Boxed<Query>,
}

/// The forms of a function, one from the other, and the tree of its query over the tables of the schema.
pub(crate) fn translate(
    alloc: Global,
    s: &CheckedSchema,
    f: &CheckedFunction,
) -> Result<Translated, NoMemory>
    ensures { IfOk result (IsTranslated s.now.schema f.now.function f.now.slots) }
{
    normal_forms_are_short(f);
    let goto = lower(alloc, f)?;
    let ssa = build_ssa(alloc, f, &goto)?;
    let anf = to_calls(alloc, &goto, &ssa)?;
    let tail = to_tail(alloc, f, &goto, &ssa, &anf)?;
    let table = expr_table(alloc, f)?;
    let tables = s.schema.tables.len();
    let query = template_tree(alloc, f, &goto, &ssa, &anf, &tail, &table, tables)?;
    let tree = Boxed::new(alloc, query)?;
    let forms = Forms {
        goto,
        ssa,
        anf,
        tail,
    };
    Ok(Translated { forms, tree })
}
