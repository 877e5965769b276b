//! What a query breaks, and what it breaks where all of its rows are asked for.

ghost use Rattle.std.specs.Prelude.{◌≡◌};
ghost use Rattle.away_names.specs.Rules.{lesser};
ghost use Rattle.away_trees.specs.declared.queries.Query.{Query};
ghost use Rattle.away_trees.specs.declared.schemas.Schema.{Schema};
ghost use Rattle.away_types.specs.CheckedQueries.{judged_query, query_note};
ghost use Rattle.away_types.specs.CheckedRows.{rows_judged, rows_note};
ghost use Rattle.rule_tests.specs.RowRules.{answer_broken};

/// A query breaks what it breaks where all of its rows are asked for, and where that is nothing perhaps the rule on answers. Its parameters are the
/// same.
pub fn rows_break_the_rules_of_a_query_but_one()
    ensures rules { (s : Schema) (q : Query)
        → (query_note s q).least ≡ lesser (rows_note s q).least (answer_broken s q) }
    ensures params { (s : Schema) (q : Query)
        → (judged_query s q).params ≡ (rows_judged s q).params }
{}
