//! The check of schemas.

ghost use Rattle.std.specs.Prelude.{◌≡◌, IfOk, IfErr};
ghost use Rattle.away_names.specs.Schemas.{schema_note as note_of};
ghost use Rattle.away_types.specs.Refusals.{Refuses, IsUnbroken};

use crate::checked::RuleRefusal;
use crate::checked_schema::CheckedSchema;
use away_names::schema_names::schema_note;
use away_trees::Schema;
use away_values::NoMemory;
use std::alloc::Global;

/// The schema, where it breaks no rule.
pub fn check_schema(alloc: Global, s: Schema) -> Result<CheckedSchema, RuleRefusal>
    ensures same { IfOk result (λ c. c.schema ≡ s) }
    ensures unbroken { IfOk result (λ c. IsUnbroken (note_of s)) }
    ensures err { IfErr result (λ e. Refuses (note_of s) e) }
{
    match schema_note(alloc, &s) {
        Err(NoMemory) => Err(RuleRefusal::NoMemory),
        Ok(note) => match note.least {
            None => Ok(CheckedSchema { schema: s }),
            Some(rule) => Err(RuleRefusal::Broken(rule)),
        },
    }
}
