//! What holds of the plans of all sorts.

ghost use Rattle.std.specs.Prelude.{List, Option, Some};
ghost use Rattle.away_grammar.specs.Terminals.{Terminal};
ghost use Rattle.away_grammar.specs.Grammar.{Reads, Sort, Tree};
ghost use Rattle.sql_text.specs.Plans.{Runs};
ghost use Rattle.sql_text.specs.Descent.{plan};

/// What the plan of a sort gives, the grammar reads.
pub fn what_a_plan_gives_is_read()
    ensures { (n : Sort) (ts : List Terminal) (x : Tree n) (rest : List Terminal)
        → Runs Tree plan n (plan n) ts (Some (x, rest)) → Reads n ts x rest }
{}
