//! Laws on what `explain` tells of files that begin a query.

ghost use Rattle.away_top.specs.QueryExplainCourse.{RefusesAsRows};
ghost use Rattle.away_top.specs.QueryExplanations.{AreQueryExplanations};

use query_places::query_places_are_tokens;
use refusal_reasons::each_reason_is_one_line;

/// What is told of such a file that is refused is a rule that refuses it in `rows` too, at a token of the file, for a reason of one
/// line. A run of `rows` over the same files may be refused too.
pub fn query_explanations_tell_refusals()
    ensures explanations { AreQueryExplanations }
    ensures rows { RefusesAsRows }
{
    each_reason_is_one_line();
    query_places_are_tokens();
}
