//! One tree for each text.

ghost use Rattle.std.specs.Prelude.{◌≡◌, ℕ, List};
ghost use Rattle.away_trees.specs.declared.queries.Expr.{Expr};
ghost use Rattle.away_trees.specs.declared.queries.Query.{Query};
ghost use Rattle.away_trees.specs.declared.schemas.Schema.{Schema};
ghost use Rattle.away_grammar.specs.Texts.{IsExpression, ReadsQuery, ReadsSchema};
ghost use Rattle.away_grammar.specs.Tokens.{Lexeme};

/// A text reads as one query and as one schema at most, and at most one expression begins at a place of a token list.
pub fn a_text_reads_as_one_tree()
    ensures query { (z : List ℕ) (q r : Query) → ReadsQuery z q → ReadsQuery z r → q ≡ r }
    ensures schema { (z : List ℕ) (s t : Schema) → ReadsSchema z s → ReadsSchema z t → s ≡ t }
    ensures expression { (list : List Lexeme) (at : ℕ) (x y : Expr) (e f : ℕ)
        → IsExpression list at x e → IsExpression list at y f → (x ≡ y) × (e ≡ f) }
{}
