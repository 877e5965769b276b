//! What the grammar reads, the plans give.

ghost use Rattle.std.specs.Prelude.{List, Some};
ghost use Rattle.away_grammar.specs.Terminals.{Terminal};
ghost use Rattle.away_grammar.specs.Grammar.{Sort, Tree, Reads, Stops};
ghost use Rattle.sql_text.specs.Plans.{Runs};
ghost use Rattle.sql_text.specs.Descent.{plan};

/// Where the grammar reads a tree of a sort, and what stands behind it can't continue the sort, the sort's plan gives that tree.
pub fn what_is_read_is_given()
    ensures { (n : Sort) (ts : List Terminal) (x : Tree n) (rest : List Terminal)
        → Reads n ts x rest → Stops n rest
        → Runs Tree plan n (plan n) ts (Some (x, rest)) }
{}
