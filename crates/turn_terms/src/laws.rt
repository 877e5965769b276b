//! What holds of the terms of a query of turns.

ghost use Rattle.std.specs.Prelude.{◌≡◌, true, List};
ghost use Rattle.away_trees.specs.declared.queries.Expr.{Expr};
ghost use Rattle.block_forms.specs.declared.forms.Term.{Term};
ghost use Rattle.turn_template.specs.Totals.{total_term};
ghost use Rattle.turn_terms.specs.Choosing.{chosen_total};
ghost use Rattle.turn_terms.specs.Sameness.{same};
ghost use Rattle.turn_terms.specs.Worked.{WorkedTerms};

/// What is chosen can't fault, whatever its slots hold.
pub fn what_is_chosen_is_total()
    ensures { (table : List Expr) (t : Term)
        → chosen_total table t ≡ true → total_term table t ≡ true }
{}

/// What is found to be the same is one expression.
pub fn what_is_the_same_is_one()
    ensures { (x y : Expr) → same x y ≡ true → x ≡ y }
{}

/// Expressions that are chosen, and some that aren't.
pub fn worked_terms_are_chosen()
    ensures { WorkedTerms }
{}
