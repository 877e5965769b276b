//! What holds of the answers of any query.

ghost use Rattle.std.specs.Prelude.{
  [],
  Err,
  List,
  None,
  Ok,
  Some,
  ℕ,
  ◌+◌,
  ◌≡◌,
  ◌≢◌,
  ◌≤◌,
  ◌∷◌,
  map,
  false,
  Bool,
};
ghost use Rattle.away_values.specs.declared.operators.ChainOp.TheVariants as chain;
ghost use Rattle.away_trees.specs.declared.queries.Query.{Query};
ghost use Rattle.away_values.specs.declared.values.Answer.TheVariants as answer;
ghost use Rattle.away_values.specs.declared.values.Class.{Class};
ghost use Rattle.away_values.specs.declared.values.Value.TheVariants as val;
ghost use Rattle.away_values.specs.declared.values.Value.{Value};
ghost use Rattle.away_values.specs.declared.types.Ty.{Ty};
ghost use Rattle.away_values.specs.Values.{HasType};
ghost use Rattle.std.specs.Ordering.{is_lt};
ghost use Rattle.away_values.specs.Operators.{conjunction, disjunction};
ghost use Rattle.away_values.specs.Results.{Or};
ghost use Rattle.sql_meaning.specs.Context.{Context, Frame, Rows};
ghost use Rattle.sql_meaning.specs.Decided.{is_among, is_between};
ghost use Rattle.sql_meaning.specs.Expressions.{KeyMeaning, RecursiveMeaning};
ghost use Rattle.sql_meaning.specs.Laws.{AreFilledBefore};
ghost use Rattle.sql_meaning.specs.KeyOrder.{directed, precedes};
ghost use Rattle.sql_meaning.specs.Ordered.{IsOrdered, IsSorted, Keyed, keyed};
ghost use Rattle.sql_meaning.specs.Parts.{among, between, pair};
ghost use Rattle.sql_meaning.specs.Selects.{comes_before, ordered, sorted};
ghost use Rattle.sql_meaning.specs.Working.{
  all_working,
  answered,
  recursive_table,
  rows,
  sql,
  working,
};

/// At a bound the recursive table isn't there yet where no working table up to the bound is empty or faults. Else the first such one decides: by
/// its class, or, where it is empty, by the working tables up to it, one after the other.
pub fn the_first_empty_or_faulty_table_decides()
    ensures more { (r : RecursiveMeaning) (T : List Rows) (args : List Value) (k : ℕ)
        → AreFilledBefore r T args (k + 1) → recursive_table r T args k ≡ None }
    ensures empty { (r : RecursiveMeaning) (T : List Rows) (args : List Value) (i k : ℕ) → i ≤ k
        → AreFilledBefore r T args i → working r T args i ≡ Ok []
        → recursive_table r T args k ≡ Some (all_working r T args i) }
    ensures fault { (r : RecursiveMeaning) (T : List Rows) (args : List Value) (i k : ℕ) (c : Class)
        → i ≤ k
        → AreFilledBefore r T args i → working r T args i ≡ Err c
        → recursive_table r T args k ≡ Some (Err c) }
{}

/// What a query answers at a bound, other than that it needs more, it answers at every greater bound.
pub fn answers_stay()
    ensures rows { (q : Query) (T : List Rows) (args : List Value) (k j : ℕ) (x : Or Rows) → k ≤ j
        → rows q T args k ≡ Some x → rows q T args j ≡ Some x }
    ensures answer { (q : Query) (T : List Rows) (args : List Value) (k j : ℕ) → k ≤ j
        → sql q T args k ≢ answer.More → sql q T args j ≡ sql q T args k }
{}

/// The answer of a query is what its rows say.
pub fn answers_are_told_by_rows()
    ensures { (q : Query) (T : List Rows) (args : List Value) (k : ℕ)
        → sql q T args k ≡ answered (rows q T args k) }
{}

/// Where nothing faults, stopping changes no value: AND and OR are those of three truth values, BETWEEN is an AND of two comparisons, and IN is
/// true, NULL or false by all comparisons.
pub fn stopping_changes_no_value()
    ensures and { (a b : Value) → pair chain.And a (Ok b) ≡ Ok (conjunction a b) }
    ensures or { (a b : Value) → pair chain.Or a (Ok b) ≡ Ok (disjunction a b) }
    ensures between { (v low high : Value) → between v low (Ok high) ≡ Ok (is_between v low high) }
    ensures among { (v : Value) (ws : List Value) → among v (map (λ w. Ok w) ws) (val.Bool false)
        ≡ Ok (is_among v ws) }
{}

/// ORDER BY gives the same rows, in the order of their keys, and rows with equal keys keep the order of the list: for all keys, of whatever values.
/// Without a key the rows stay as they are.
pub fn sorting_is_stable()
    ensures sorted { (keys : List KeyMeaning) (xs : List Keyed)
        → IsSorted (comes_before keys) xs (sorted (comes_before keys) xs) }
    ensures rows { (cx : Context) (key : KeyMeaning) (more : List KeyMeaning) (frames : List Frame)
        (rows : Rows)
        (old : List Keyed) → keyed cx (key ∷ more) frames rows ≡ Ok old
        → IsOrdered (key ∷ more) old (ordered cx (key ∷ more) frames rows) }
    ensures no_key { (cx : Context) (frames : List Frame) (rows : Rows)
        → ordered cx [] frames rows ≡ Ok rows }
{}

/// On the values of one type the order of a key is that of the operators, with NULL last where it rises and first where it falls.
pub fn keys_order_as_the_operators_do()
    ensures { (falls : Bool) (t : Ty) (a b : Value) → HasType a t → HasType b t
        → precedes falls a b ≡ is_lt (directed falls a b) }
{}
