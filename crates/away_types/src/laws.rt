//! What checked trees are.

ghost use Rattle.std.specs.Prelude.{◌≡◌, ℕ, List};
ghost use Rattle.away_trees.specs.declared.queries.Query.{Query};
ghost use Rattle.away_trees.specs.declared.schemas.Schema.{Schema};
ghost use Rattle.away_trees.specs.declared.statements.Function.{Function};
ghost use Rattle.away_values.specs.declared.types.Ty.{Ty};
ghost use Rattle.away_types.specs.CheckedFunctions.{IsChecked};
ghost use Rattle.away_types.specs.CheckedQueries.{IsCheckedQuery};
ghost use Rattle.away_types.specs.declared.slots.Slot.{Slot};

/// A query has at most one checked tree under a schema.
pub fn a_query_has_one_checked_tree()
    ensures { (s : Schema) (q a b : Query) (ps qs : List (ℕ × Ty)) (t u : Ty)
        → IsCheckedQuery s q a ps t
        → IsCheckedQuery s q b qs u → (a ≡ b) × (ps ≡ qs) × (t ≡ u) }
{}

/// A function has at most one checked tree under a schema, and one list of slots.
pub fn a_function_has_one_checked_tree()
    ensures { (s : Schema) (f a b : Function) (xs ys : List Slot) → IsChecked s f a xs
        → IsChecked s f b ys → (a ≡ b) × (xs ≡ ys) }
{}
