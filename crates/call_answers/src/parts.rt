//! The functions of a program as the meaning of calls has them.

ghost use Rattle.std.specs.Prelude.{◌≡◌, IfOk};
ghost use Rattle.call_expand.specs.Parts.{parts_of};
ghost use Rattle.call_answers.specs.Calling as call;
ghost use Rattle.call_answers.specs.Walking as spec;

use crate::standing::standing_body;
use crate::walking::StandingPart;
use away_trees::{Function, Schema};
use away_types::{NamedBody, named_body};
use away_values::{Name, NoMemory, Ty};
use call_expand::judged::Callees;
use sqlite_items::Items;
use std::alloc::Global;

fn copy_params(alloc: Global, list: &[(Name, Ty)]) -> Result<Items<(Name, Ty)>, NoMemory>
    ensures { IfOk result (λ all. all ≡ list.now) }
{
    let mut all = Items::new(alloc);
    for i in 0..list.len() {
        all.push((list[i].0.copy(alloc)?, list[i].1))?;
    }
    Ok(all)
}

/// A function of a program, converted, in which its calls stand.
fn standing_part(
    alloc: Global,
    s: &Schema,
    fs: &[Function],
    f: &Function,
) -> Result<StandingPart, NoMemory>
    ensures { IfOk result (λ p. call.IsStanding s.now fs.now f.now p) }
{
    let NamedBody { body, slots } = named_body(alloc, s, f)?;
    let by = Callees::All(fs);
    let standing = standing_body(alloc, s, by, f.result, slots.as_slice(), body.get())?;
    let name = f.name.copy(alloc)?;
    let params = copy_params(alloc, f.params.as_slice())?;
    Ok(StandingPart {
        function: Function {
            name,
            strict: f.strict,
            params,
            result: f.result,
            body: standing.into_inner(),
        },
        slots,
    })
}

/// The functions of a program, in their order.
pub(crate) fn standing_parts(
    alloc: Global,
    s: &Schema,
    fs: &[Function],
) -> Result<Items<StandingPart>, NoMemory>
    ensures { IfOk result (λ ps. spec.program ps ≡ parts_of s.now fs.now) }
{
    let mut all = Items::new(alloc);
    for f in fs {
        all.push(standing_part(alloc, s, fs, f)?)?;
    }
    Ok(all)
}
