//! What holds of the recursions over trees.

ghost use Rattle.std.specs.Prelude.{◌≡◌};
ghost use Rattle.away_trees.specs.AlgebraEquations.{Steps, Equations, algebra};
ghost use Rattle.away_trees.specs.StatementEquations.{StatementSteps, StatementEquations, statement_algebra};
ghost use Rattle.away_trees.specs.Count.{nodes, weight};
ghost use Rattle.away_trees.specs.WorkedFunctions.{collatz, walk};

/// At each kind of node of a query the recursion is the step of that kind over what it gives at the parts.
pub fn queries_go_by_their_parts<
    AnExpr,
    ASource,
    AFrom,
    AnItem,
    AKey,
    AQuery,
    ARecursive,
    ASelect,
>()
    ensures { (s : Steps AnExpr ASource AFrom AnItem AKey AQuery ARecursive ASelect)
        → Equations (algebra s) }
{}

/// At each kind of statement the recursion is the step of that kind over what it gives at the parts.
pub fn statements_go_by_their_parts<AStmt, AnArm>()
    ensures { (s : StatementSteps AStmt AnArm) → StatementEquations (statement_algebra s) }
{}

/// The nodes and the weight of two functions that are written out.
pub fn nodes_of_worked_functions()
    ensures collatz_nodes { nodes collatz ≡ 11 }
    ensures collatz_weight { weight collatz ≡ 192 }
    ensures walk_nodes { nodes walk ≡ 10 }
    ensures walk_weight { weight walk ≡ 176 }
{}
