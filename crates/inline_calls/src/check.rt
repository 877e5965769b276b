//! Whether the calls of a function in a query may be replaced.

ghost use Rattle.std.specs.Prelude.{IfErr, IfOk};
ghost use Rattle.inline_calls.specs.Refusing.{AreCalls, RefusesCalls};
ghost use Rattle.inline_calls.specs.Seen.{seen};

use crate::fails::may_fail;
use crate::forms::{PartedSelect, calling, formed, misplaces};
use crate::judged::calls_note;
use crate::refusals::CallsRefusal;
use away_trees::{Function, Query, Schema};
use block_forms::Goto;
use sqlite_items::Boxed;
use std::alloc::Global;

/// The calls of the function in the list of a query, where they may be replaced: the query is one select without aggregates and without a name
/// that is kept, the calls stand in its list outside subqueries and arguments of each other, no rule is broken, and the function comes to no
/// fault of its own.
pub fn check_calls(
    alloc: Global,
    s: &Schema,
    q: &Query,
    f: &Function,
    goto: &Goto,
) -> Result<Boxed<PartedSelect>, CallsRefusal>
    ensures ok { IfOk result (λ c. AreCalls s.now f.now goto.now q.now (seen c)) }
    ensures err { IfErr result (RefusesCalls s.now f.now goto.now q.now) }
{
    let Some(x) = formed(f, q)? else {
        return Err(CallsRefusal::Form);
    };
    let calls = calling(alloc, f, x)?;
    if misplaces(f, calls.get()) {
        return Err(CallsRefusal::Place);
    }
    if let Some(rule) = calls_note(alloc, s, f, calls.get())?.least {
        return Err(CallsRefusal::Rule(rule));
    }
    match may_fail(alloc, goto) {
        Err(_) => Err(CallsRefusal::NoMemory),
        Ok(true) => Err(CallsRefusal::Faults),
        Ok(false) => Ok(calls),
    }
}
