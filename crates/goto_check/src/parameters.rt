//! What the patterns of parameters and of the whole function ask.

ghost use Rattle.std.specs.Prelude.{◌≡◌, ◌+◌, ◌≤◌, ◌<◌, ◌^◌, length};
ghost use Rattle.block_forms.specs.FixedList.{many};
ghost use Rattle.block_forms.specs.Laid.{after, laid};
ghost use Rattle.block_forms.specs.Lowered.{param_parts, params_parts, parts_in, body_place};
ghost use Rattle.goto_check.specs.Asking.{numbers_in, setting_in};
ghost use Rattle.goto_check.specs.AnswerRuns.{answer_run};
ghost use Rattle.goto_check.specs.Room.{Room};

use crate::asking::{Asking, ask_own, ask_same, ask_shared};
use crate::enclosing::Enclosing;
use crate::patterns::{is_null, null_of};
use crate::read::{node, yes_of};
use crate::runs::{Run, join};
use crate::shapes::Shape;
use crate::spots::spot_of;
use crate::stand::ask_statement;
use away_trees::Function;
use away_values::{Name, Ty, sqlstate};

#[tactic(auto, using(crate::proofs::AnswerRules::answer_rules))]
fn ask_param(a: &Asking<'_>, strict: bool, result_type: Ty, k: usize, ty: Ty) -> Run
    requires fixed { a.now.fixed + many ≤ 2 ^ 64 }
    requires more { k + 1 < 2 ^ 64 }
    ensures { result ≡ answer_run a.now (param_parts (setting_in a.now) strict result_type k ty) }
{
    let b = node(a.goto, k);
    let next = node(a.goto, k + 1);
    if strict {
        let null = yes_of(a.goto, b);
        let test = is_null(a.fixed, ty, k);
        let none = null_of(a.fixed, result_type);
        join(
            ask_own(a, b, &Shape::Branch(false, &test, null, next)),
            ask_shared(a, null, &Shape::Return(&none)),
        )
    } else {
        ask_same(a, b, next)
    }
}

#[tactic(auto, using(crate::proofs::AnswerRules::answer_rules))]
fn ask_params(a: &Asking<'_>, strict: bool, result_type: Ty, k: usize, params: &[(Name, Ty)]) -> Run
    requires fixed { a.now.fixed + many ≤ 2 ^ 64 }
    requires more { k + length params.now < 2 ^ 64 }
    ensures { result ≡ answer_run a.now
        (params_parts (setting_in a.now) strict result_type k params.now) }
{
    match params {
        [] => Run::Empty,
        [p, rest @ ..] => join(
            ask_param(a, strict, result_type, k, p.1),
            ask_params(a, strict, result_type, k + 1, rest),
        ),
    }
}

/// All parts of a function.
#[tactic(auto, using(crate::proofs::AnswerRules::answer_rules))]
pub(crate) fn ask_function(a: &Asking<'_>, f: &Function) -> Run
    requires { Room (numbers_in a.now) (after (body_place f.now) (laid f.now.body).size) }
    ensures { result ≡ answer_run a.now (parts_in (setting_in a.now) f.now) }
{
    let many = f.params.len();
    let body = spot_of(many, 0, many, 0, 0);
    let finish = a.goto.finish as usize;
    let start = node(a.goto, 0);
    let entry = ask_shared(a, a.goto.entry as usize, &Shape::Jump(false, start));
    let end = ask_shared(
        a,
        finish,
        &Shape::Fail(sqlstate::FUNCTION_EXECUTED_NO_RETURN_STATEMENT),
    );
    let params = ask_params(a, f.strict, f.result, 0, f.params.as_slice());
    let inside = ask_statement(a, &f.body, body, &Enclosing::Outside, finish);
    join(entry, join(end, join(params, inside.run)))
}
