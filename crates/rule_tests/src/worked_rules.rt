//! Worked functions, queries and schemas, and the rules that they break.

ghost use Rattle.std.specs.Prelude.{map, ◌≡◌};
ghost use Rattle.rule_tests.specs.Functions as functions;
ghost use Rattle.rule_tests.specs.Integers as integers;
ghost use Rattle.rule_tests.specs.Queries as queries;

/// Each rule on functions is broken by a small text, and kept by its nearest neighbour; of two that are broken the lesser
/// is told.
pub fn functions_break_their_rules()
    ensures names { map functions.broken functions.names ≡ map functions.wanted functions.names }
    ensures labels { map functions.broken functions.labels ≡ map functions.wanted functions.labels }
    ensures types { map functions.broken functions.types ≡ map functions.wanted functions.types }
    ensures selects_into { map functions.broken functions.selects_into
        ≡ map functions.wanted functions.selects_into }
    ensures integers { map functions.broken integers.integers
        ≡ map functions.wanted integers.integers }
{}

/// Of the statements that break the least rule the first is told, by its number among the nodes of the function.
pub fn the_first_statement_is_told()
    ensures { map functions.node_of functions.nodes ≡ map functions.wanted_node functions.nodes }
{}

/// The same of the rules on queries.
pub fn queries_break_their_rules()
    ensures selects { map queries.broken queries.selects ≡ map queries.wanted queries.selects }
    ensures recursions { map queries.broken queries.recursions
        ≡ map queries.wanted queries.recursions }
{}

/// The same of the rules on schemas.
pub fn schemas_break_their_rules()
    ensures { map queries.schema_broken queries.schemas
        ≡ map queries.schema_wanted queries.schemas }
{}
