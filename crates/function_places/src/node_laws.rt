//! What holds of the places of nodes.

ghost use Rattle.std.specs.Prelude.{◌<◌, ℕ, List};
ghost use Rattle.away_trees.specs.Count.{nodes_of};
ghost use Rattle.away_trees.specs.declared.statements.Stmt.{Stmt};
ghost use Rattle.away_grammar.specs.FunctionGrammar.{ReadsPart, body};
ghost use Rattle.away_grammar.specs.Terminals.{Terminal};
ghost use Rattle.function_places.specs.NodePlaces as spec;
ghost use Rattle.function_places.specs.NodePlaces.{NodeAt};

/// Where terminals read as a body, each of its nodes has a place among them.
pub fn each_node_has_a_place()
    ensures { (ts : List Terminal) (x : Stmt) (rest : List Terminal) (k : ℕ)
        → ReadsPart body ts x rest → k < nodes_of x
        → (left : List Terminal) × NodeAt spec.body k ts left }
{}
