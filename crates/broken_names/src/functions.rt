//! What breaks a rule of names at a node of a function's body.

ghost use Rattle.std.specs.Prelude.{◌≡◌, [], true, IfOk, IfSome};
ghost use Rattle.indexmap.specs.IndexMap.{get_by_text};
ghost use Rattle.away_names.specs.Places.{scope};
ghost use Rattle.broken_names.specs.StatementCulprits.{IsCulpritOf};

use crate::culprit::Culprit;
use crate::statements::in_statement;
use crate::variables::with_params;
use away_names::rule::Rule;
use away_names::scope::{Listed, Scope, Tables, Variable};
use away_names::tables::tables_of;
use away_trees::{Function, Schema};
use away_values::NoMemory;
use indexmap::IndexMap;
use std::alloc::Global;

/// What a function's statements see.
#[tactic(auto, unfolding(away_names::specs::Places::tables))]
fn entry<'a>(known: &'a IndexMap<String, Listed>, variables: &'a [Variable]) -> Scope<'a>
    ensures { scope result ≡ record {
      table = λ n. get_by_text known.now n;
      levels = [];
      variables = variables.now;
      in_function = true;
    } }
{
    Scope {
        tables: Tables {
            schema: known,
            working: None,
        },
        levels: &[],
        variables,
        in_function: true,
    }
}

/// The first name in the order of the text, told by the node of this number in the function's body, that breaks the rule in what is
/// in sight at its place. Nodes are counted from 0 as `away_trees::nodes` counts them, without the parameters; the declarations of
/// a block and the targets of INTO are told by their statement. None where no name there breaks the rule.
pub fn culprit_of(
    alloc: Global,
    s: &Schema,
    f: &Function,
    broken: Rule,
    node: u64,
) -> Result<Option<Culprit>, NoMemory>
    ensures { IfOk result (λ found. IfSome found (IsCulpritOf s.now f.now broken node)) }
{
    let known = tables_of(alloc, s)?;
    let variables = with_params(alloc, f.params.as_slice())?;
    let place = entry(&known, variables.as_slice());
    in_statement(alloc, broken, &f.body, &place, node)
}
