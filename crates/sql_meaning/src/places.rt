//! What a function's expression means in a query: at another place, with columns for its variables, and under other names.

ghost use Rattle.std.specs.Prelude.{
  [],
  false,
  List,
  nat_lt,
  true,
  ℕ,
  ◌∷◌,
  ◌≡◌,
};
ghost use Rattle.away_trees.specs.declared.queries.Expr.{Expr};
ghost use Rattle.away_trees.specs.declared.queries.Query.{Query};
ghost use Rattle.away_values.specs.declared.values.Value.{Value};
ghost use Rattle.sql_meaning.specs.Context.{Context, Rows};
ghost use Rattle.sql_meaning.specs.Meaning.{value};
ghost use Rattle.sql_meaning.specs.Names.{bare, bare_value};
ghost use Rattle.sql_meaning.specs.PlaceExamples.{over_columns, over_slots};
ghost use Rattle.sql_meaning.specs.Placed.{placed};
ghost use Rattle.sql_meaning.specs.Reads.{fits, Outer, reads, Slot, slots_of, Table};
ghost use Rattle.sql_meaning.specs.Substitution.{OnlySlotsMatter, Substitution};
ghost use Rattle.sql_meaning.specs.Template.{slot_at};
ghost use Rattle.sql_meaning.specs.Trees.{col};
ghost use Rattle.sql_meaning.specs.Working.{rows, sql};

/// A variable may be replaced by a column of an enclosing row that holds its value, at every depth of subqueries, LATERAL items, aggregates and
/// keys: the expression keeps its value, or its fault.
pub fn a_slot_may_be_a_column()
    ensures { Substitution }
{}

/// Of a function's variables only those that an expression reads matter to its value.
pub fn only_the_slots_that_are_read_matter()
    ensures { OnlySlotsMatter }
{}

/// The names of aliases, columns and tables mean nothing: trees that are the same without them have the same rows and the same answer.
pub fn names_mean_nothing()
    ensures rows { (q r : Query) (T : List Rows) (args : List Value) (k : ℕ) → bare q ≡ bare r
        → rows q T args k ≡ rows r T args k }
    ensures answer { (q r : Query) (T : List Rows) (args : List Value) (k : ℕ) → bare q ≡ bare r
        → sql q T args k ≡ sql r T args k }
    ensures value { (e : Expr) (cx : Context) → value (bare_value e) cx ≡ value e cx }
{}

/// An expression with a subquery over a table and a LATERAL item: what it reads, its variables in the order of their first occurrence, and how it
/// stands in a query. There the variable is two selects further out than at the expression's own place.
pub fn places_are_computed()
    ensures reads { reads over_slots ≡ Slot 3 ∷ Slot 5 ∷ Table 0 ∷ Slot 3 ∷ Slot 1 ∷ [] }
    ensures slots { slots_of over_slots ≡ 3 ∷ 5 ∷ 1 ∷ [] }
    ensures placed { placed slot_at over_slots ≡ over_columns }
    ensures fits { fits (λ i. nat_lt i 6) 0 1 over_slots ≡ true }
    ensures no_slot { fits (λ i. nat_lt i 5) 0 1 over_slots ≡ false }
    ensures no_table { fits (λ i. nat_lt i 6) 0 0 over_slots ≡ false }
    ensures outside { reads (col 0 1 2) ≡ Outer (record { level = 0; item = 1; column = 2 }) ∷ [] }
{}
