//! A run reads no slot that isn't set.

ghost use Rattle.std.specs.Prelude.{[], false, length, true, ◌≡◌};
ghost use Rattle.away_values.specs.declared.values.Answer.TheVariants as answer;
ghost use Rattle.plsql_meaning.specs.Examples.{entering_again, int, returning_the_first};
ghost use Rattle.plsql_meaning.specs.Functions.{answer_of, over};
ghost use Rattle.plsql_meaning.specs.Laws.{BodiesSee, ExpressionsSee, StatementsSee};
ghost use Rattle.plsql_meaning.specs.Outcomes.{Env};
ghost use Rattle.plsql_meaning.specs.Sight.{of_expressions, reads_in_sight};
ghost use Rattle.plsql_meaning.specs.Statements.{meaning};

/// A statement whose expressions and selects read slots in sight alone ends alike from variables that agree in these: only what is in sight, which is
/// what was set, matters. So a function's body answers the same whatever stands in the slots behind its parameters. An expression is by the slots
/// that it reads.
pub fn runs_read_slots_in_sight()
    ensures statement { StatementsSee }
    ensures body { BodiesSee }
    ensures expressions { ExpressionsSee }
{}

/// A block whose defaults see the variables before them reads slots in sight alone, and a RETURN of a variable that isn't declared doesn't. So the
/// first one answers the same whatever stands in its slots before it runs.
pub fn sights_are_computed()
    ensures seen { reads_in_sight (of_expressions 0) entering_again 0 (λ i. false) ≡ true }
    ensures unseen { reads_in_sight (of_expressions 0) returning_the_first 0 (λ i. false) ≡ false }
    ensures used { (env : Env) → length env ≡ 4 → answer_of
        ((meaning (over [] []) entering_again).run 0 env 3).outcome ≡ answer.Value (int 3) }
{}
