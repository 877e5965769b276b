//! The classes that statements raise (PostgreSQL manual, appendix PostgreSQL Error Codes).

ghost use Rattle.std.specs.Prelude.{◌≡◌, IfOk};
ghost use Rattle.plsql_meaning.specs.Statements as meaning;

use away_trees::Raised;
use away_values::{Class, NoMemory, sqlstate};
use sql_eval::class_of;
use std::alloc::Global;

/// The class that RAISE raises.
#[tactic(auto, using(crate::proofs::Raising::raising_rules))]
pub(crate) fn raised_class(alloc: Global, raised: &Raised) -> Result<Class, NoMemory>
    ensures { IfOk result (λ c. c ≡ meaning.class_of raised.now) }
{
    match raised {
        Raised::Message(_) => Ok(sqlstate::RAISE_EXCEPTION),
        Raised::State(code) => match class_of(alloc, code)? {
            Some(class) => Ok(class),
            None => Ok(sqlstate::RAISE_EXCEPTION),
        },
    }
}
