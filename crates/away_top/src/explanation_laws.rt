//! Laws on what `explain` tells.

ghost use Rattle.away_top.specs.Explanations.{AreExplanations};
ghost use Rattle.away_top.specs.QueryExplainCourse.{EndsAsCompile};

use broken_names::each_culprit_stands_at_a_token;
use function_places::each_hint_stands_in_a_line;
use refusal_reasons::each_reason_is_one_line;

/// What is told of a function's file that is refused is a rule that refuses it in other commands too, at a place of the file, for a
/// reason of one line. Where the file doesn't begin a query a run of `compile` over the same files may end with the same status.
pub fn explanations_tell_refusals()
    ensures explanations { AreExplanations }
    ensures statuses { EndsAsCompile }
{
    each_reason_is_one_line();
    each_hint_stands_in_a_line();
    each_culprit_stands_at_a_token();
}
