//! The equations of the meaning: what it is of each kind of node, by the meanings of the node's parts.

ghost use Rattle.std.specs.Prelude.{
  [],
  false,
  List,
  map,
  None,
  Ok,
  Option,
  option_map,
  pos,
  Some,
  true,
  Bool,
  length,
  ℕ,
  ℤ,
  ◌∷◌,
  ◌||◌,
  ◌≡◌,
  ◌≢◌,
  slice_index_or,
};
ghost use Rattle.std.specs.List.{list_any};
ghost use Rattle.away_values.specs.declared.operators.ChainOp.{ChainOp};
ghost use Rattle.away_values.specs.declared.operators.ChainOp.TheVariants as chain;
ghost use Rattle.away_values.specs.declared.operators.CmpOp.{CmpOp};
ghost use Rattle.away_values.specs.declared.operators.IntOp.{IntOp};
ghost use Rattle.away_values.specs.declared.operators.IsTest.{IsTest};
ghost use Rattle.away_trees.specs.declared.queries.Col.{Col};
ghost use Rattle.away_trees.specs.declared.queries.Expr.{Expr};
ghost use Rattle.away_trees.specs.declared.queries.Expr.TheVariants as expr;
ghost use Rattle.away_trees.specs.declared.queries.Expr.TheViews.{
  out-FromItem,
  out-Item,
  out-Key,
  out-Query,
  out-Recursive,
  out-Select,
};
ghost use Rattle.away_trees.specs.declared.queries.FromItem.{FromItem};
ghost use Rattle.away_trees.specs.declared.queries.Item.{Item};
ghost use Rattle.away_trees.specs.declared.queries.Key.{Key};
ghost use Rattle.away_trees.specs.declared.queries.Query.{Query};
ghost use Rattle.away_trees.specs.declared.queries.Recursive.{Recursive};
ghost use Rattle.away_trees.specs.declared.queries.Select.{Select};
ghost use Rattle.away_trees.specs.declared.queries.Source.TheVariants as source;
ghost use Rattle.away_values.specs.declared.types.Ty.TheVariants as ty;
ghost use Rattle.away_values.specs.declared.types.Ty.{Ty};
ghost use Rattle.away_values.specs.declared.values.Value.TheVariants as val;
ghost use Rattle.away_values.specs.declared.values.Value.{Value};
ghost use Rattle.away_trees.specs.Algebra.{expr_of, item_of, key_of};
ghost use Rattle.away_values.specs.Operators.{
  cast,
  compare,
  negated,
  negation,
  negation_if,
  passes,
  small,
};
ghost use Rattle.away_values.specs.Results.{Or, and_then, each_joined, mapped};
ghost use Rattle.sql_meaning.specs.Context.{
  argument,
  at,
  at_row,
  column,
  Context,
  Frame,
  inside,
  outermost,
  Rows,
};
ghost use Rattle.sql_meaning.specs.Equations.{
  all_values,
  items,
  keys,
  known,
  optional,
  recursive_part,
  rows_of_source,
};
ghost use Rattle.sql_meaning.specs.Functions.{
  aggregate,
  Coalesce,
  function,
  is_aggregate,
  scalar,
};
ghost use Rattle.sql_meaning.specs.Meaning.{
  has_aggregate,
  meaning,
  rows_of_item,
  rows_of_query,
  rows_of_select,
  value,
};
ghost use Rattle.sql_meaning.specs.Parts.{among, between, chained, chosen, first_known, has_row, only, pair};
ghost use Rattle.sql_meaning.specs.Selects.{cut, kept, listed, place_of, product};
ghost use Rattle.sql_meaning.specs.Working.{over_table, recursive_table, rows};

/// Literals are their values, and a variable, a column and a parameter have the value that stands where the expression stands. A name, which no
/// checked tree has, is NULL.
pub fn leaves_have_their_values()
    ensures int { (n : ℤ) (cx : Context) → value (expr.Int n) cx ≡ Ok (val.Int n) }
    ensures str { (t : List ℕ) (cx : Context) → value (expr.Str t) cx ≡ Ok (val.Text t) }
    ensures bool { (b : Bool) (cx : Context) → value (expr.Bool b) cx ≡ Ok (val.Bool b) }
    ensures null { (cx : Context) → value expr.Null cx ≡ Ok val.Null }
    ensures named { (name : List ℕ) (cx : Context) → value (expr.Named name) cx ≡ Ok val.Null }
    ensures qualified { (alias name : List ℕ) (cx : Context)
        → value (expr.Dotted alias name) cx ≡ Ok val.Null }
    ensures slot { (i : ℕ) (cx : Context) → value (expr.Slot i) cx ≡ Ok (at cx.env i) }
    ensures column { (c : Col) (cx : Context) → value (expr.Column c) cx ≡ Ok (column cx.frames c) }
    ensures param { (i : ℕ) (t : Ty) (cx : Context)
        → value (expr.Param i t) cx ≡ Ok (argument cx.args i) }
{}

/// An operator takes its operands from left to right, and stops as its definition says.
/// The manual: 4.2.14, Expression Evaluation Rules, leaves the order open: this one is our own choice.
pub fn operators_take_their_operands()
    ensures neg { (e : Expr) (cx : Context)
        → value (expr.Neg e) cx ≡ and_then (value e cx) negated }
    ensures neg_small { (e : Expr) (cx : Context)
        → value (expr.NegSmall e) cx ≡ and_then (value e cx) (λ v. and_then (negated v) small) }
    ensures not { (e : Expr) (cx : Context) → value (expr.Not e) cx ≡ mapped negation (value e cx) }
    ensures is { (e : Expr) (test : IsTest) (negative : Bool) (cx : Context)
        → value (expr.Is e test negative) cx
        ≡ mapped (λ v. negation_if negative (val.Bool (passes test v))) (value e cx) }
    ensures chain { (e : Expr) (links : List (ChainOp × Expr)) (cx : Context)
        → value (expr.Chain e links) cx
        ≡ and_then (value e cx) (chained (map (λ l. (l.0, value l.1 cx)) links)) }
    ensures compare { (op : CmpOp) (x y : Expr) (cx : Context)
        → value (expr.Compare op x y) cx ≡ and_then (value x cx)
        (λ v. mapped (compare op v) (value y cx)) }
    ensures between { (negative : Bool) (e low high : Expr) (cx : Context)
        → value (expr.Between negative e low high) cx
        ≡ mapped (negation_if negative) (and_then (value e cx)
        (λ v. and_then (value low cx) (λ l. between v l (value high cx)))) }
    ensures one_of { (negative : Bool) (e : Expr) (choices : List Expr) (cx : Context)
        → value (expr.OneOf negative e choices) cx
        ≡ mapped (negation_if negative) (and_then (value e cx)
        (λ v. among v (map (λ c. value c cx) choices) (val.Bool false))) }
    ensures cast { (e : Expr) (t : Ty) (cx : Context)
        → value (expr.Cast e t) cx ≡ and_then (value e cx) (cast t) }
    ensures cases { (arms : List (Expr × Expr)) (e : Expr) (cx : Context)
        → value (expr.Cases arms (Some e)) cx
        ≡ chosen (value e cx) (map (λ a. (value a.0 cx, value a.1 cx)) arms) }
    ensures cases_alone { (arms : List (Expr × Expr)) (cx : Context)
        → value (expr.Cases arms None) cx
        ≡ chosen (Ok val.Null) (map (λ a. (value a.0 cx, value a.1 cx)) arms) }
{}

/// Of type integer an operation, the minus and the cast give what the operation of bigint gives, where it has 32 bits, and 22003 where it has more.
pub fn small_operations_are_those_of_bigint()
    ensures chain { (op : IntOp) (a : Value) (right : Or Value)
        → pair (chain.Small op) a right ≡ and_then (pair (chain.Int op) a right) small }
    ensures minus { (e : Expr) (cx : Context)
        → value (expr.NegSmall e) cx ≡ and_then (value (expr.Neg e) cx) small }
    ensures cast { (e : Expr) (cx : Context) → value (expr.Cast e ty.Integer) cx
        ≡ and_then (value (expr.Cast e ty.Bigint) cx) small }
{}

/// COALESCE stops at its first value, an aggregate takes its argument at each row of the group, and the other functions take all arguments.
/// The manual: 4.2.7, Aggregate Expressions, and 9.18.2, COALESCE.
pub fn calls_take_their_arguments()
    ensures coalesce { (name : List ℕ) (es : List Expr) (cx : Context) → function name ≡ Coalesce
        → value (expr.Call name es) cx ≡ first_known (map (λ e. value e cx) es) }
    ensures aggregate { (name : List ℕ) (es : List Expr) (cx : Context)
        → is_aggregate (function name) ≡ true
        → value (expr.Call name es) cx
        ≡ and_then (each_joined (λ frame. all_values es (at_row frame cx)) cx.group)
        (λ vs. aggregate (function name) (known vs)) }
    ensures other { (name : List ℕ) (es : List Expr) (cx : Context) → function name ≢ Coalesce
        → is_aggregate (function name)
        ≡ false → value (expr.Call name es) cx
        ≡ and_then (all_values es cx) (scalar (function name)) }
    ensures count_rows { (cx : Context)
        → value expr.CountRows cx ≡ Ok (val.Int (pos (length cx.group))) }
{}

/// A scalar subquery is the one value of its rows, and EXISTS asks whether there is a row.
/// The manual: 4.2.11, Scalar Subqueries, and 9.23.1, EXISTS.
pub fn subqueries_take_their_rows()
    ensures scalar { (q : Query) (cx : Context)
        → value (expr.Scalar q) cx ≡ and_then (rows_of_query q cx) only }
    ensures exists { (q : Query) (cx : Context) → value (expr.Exists q) cx
        ≡ mapped (λ rows. val.Bool (has_row rows)) (rows_of_query q cx) }
{}

/// An aggregate stands in an expression where it stands in a part outside subqueries.
pub fn aggregates_stand_outside_subqueries()
    ensures int { (n : ℤ) → has_aggregate (expr.Int n) ≡ false }
    ensures str { (t : List ℕ) → has_aggregate (expr.Str t) ≡ false }
    ensures bool { (b : Bool) → has_aggregate (expr.Bool b) ≡ false }
    ensures null { has_aggregate expr.Null ≡ false }
    ensures named { (name : List ℕ) → has_aggregate (expr.Named name) ≡ false }
    ensures qualified { (alias name : List ℕ) → has_aggregate (expr.Dotted alias name) ≡ false }
    ensures slot { (i : ℕ) → has_aggregate (expr.Slot i) ≡ false }
    ensures column { (c : Col) → has_aggregate (expr.Column c) ≡ false }
    ensures param { (i : ℕ) (t : Ty) → has_aggregate (expr.Param i t) ≡ false }
    ensures neg { (e : Expr) → has_aggregate (expr.Neg e) ≡ has_aggregate e }
    ensures neg_small { (e : Expr) → has_aggregate (expr.NegSmall e) ≡ has_aggregate e }
    ensures not { (e : Expr) → has_aggregate (expr.Not e) ≡ has_aggregate e }
    ensures is { (e : Expr) (test : IsTest) (negative : Bool)
        → has_aggregate (expr.Is e test negative) ≡ has_aggregate e }
    ensures chain { (e : Expr) (links : List (ChainOp × Expr)) → has_aggregate (expr.Chain e links)
        ≡ (has_aggregate e || list_any (λ l. has_aggregate l.1) links) }
    ensures compare { (op : CmpOp) (x y : Expr)
        → has_aggregate (expr.Compare op x y) ≡ (has_aggregate x || has_aggregate y) }
    ensures between { (negative : Bool) (e low high : Expr)
        → has_aggregate (expr.Between negative e low high)
        ≡ (has_aggregate e || (has_aggregate low || has_aggregate high)) }
    ensures one_of { (negative : Bool) (e : Expr) (choices : List Expr)
        → has_aggregate (expr.OneOf negative e choices)
        ≡ (has_aggregate e || list_any has_aggregate choices) }
    ensures cast { (e : Expr) (t : Ty) → has_aggregate (expr.Cast e t) ≡ has_aggregate e }
    ensures cases { (arms : List (Expr × Expr)) (e : Expr)
        → has_aggregate (expr.Cases arms (Some e))
        ≡ (list_any (λ a. has_aggregate a.0 || has_aggregate a.1) arms || has_aggregate e) }
    ensures cases_alone { (arms : List (Expr × Expr)) → has_aggregate (expr.Cases arms None)
        ≡ (list_any (λ a. has_aggregate a.0 || has_aggregate a.1) arms || false) }
    ensures call { (name : List ℕ) (es : List Expr) → has_aggregate (expr.Call name es)
        ≡ (is_aggregate (function name) || list_any has_aggregate es) }
    ensures count_rows { has_aggregate expr.CountRows ≡ true }
    ensures scalar { (q : Query) → has_aggregate (expr.Scalar q) ≡ false }
    ensures exists { (q : Query) → has_aggregate (expr.Exists q) ≡ false }
{}

/// The rows of a table stand at its place, and those of a subquery are the query's, one select further in; a LATERAL one sees the row so far.
/// The manual: 7.2.1, The FROM Clause, and 7.2.1.5, LATERAL Subqueries.
pub fn items_give_rows()
    ensures table { (name : List ℕ) (columns : List (List ℕ)) (cx : Context) (frame : Frame)
        → rows_of_source (source.Table name) columns cx frame
        ≡ Ok (slice_index_or cx.tables (place_of columns) []) }
    ensures lateral { (q : Query) (columns : List (List ℕ)) (cx : Context) (frame : Frame)
        → rows_of_source (source.Sub q true) columns cx frame ≡ rows_of_query q (inside frame cx) }
    ensures plain { (q : Query) (columns : List (List ℕ)) (cx : Context) (frame : Frame)
        → rows_of_source (source.Sub q false) columns cx frame ≡ rows_of_query q (inside [] cx) }
    ensures item { (f : FromItem) (cx : Context) (frame : Frame) → rows_of_item f cx frame
        ≡ rows_of_source (out-FromItem f).source (out-FromItem f).columns cx frame }
    ensures listed { (i : Item) → item_of meaning i ≡ expr_of meaning (out-Item i).expr }
    ensures key_value { (k : Key) (cx : Context)
        → (key_of meaning k).value cx ≡ value (out-Key k).expr cx }
    ensures key_falls { (k : Key) → (key_of meaning k).descending ≡ (out-Key k).descending }
{}

/// The rows of a select come from FROM by WHERE, the list, ORDER BY and LIMIT, and UNION ALL joins those of several.
/// The manual: 7.2.2 to 7.6, the clauses of a select, and 7.4, Combining Queries. The order of the steps is our own choice.
pub fn selects_give_rows()
    ensures select { (s : Select) (cx : Context) → rows_of_select s cx
        ≡ and_then (product cx (map (λ f. rows_of_item f) (out-Select s).from) ([] ∷ []))
        (λ all. and_then (kept cx (optional (out-Select s).filter) all)
        (λ some. and_then (listed cx (items (out-Select s).list) (keys (out-Select s).order) some)
        (cut cx (optional (out-Select s).limit)))) }
    ensures union { (q : Query) (cx : Context)
        → rows_of_query q cx ≡ each_joined (λ s. rows_of_select s cx) (out-Query q).selects }
    ensures first { (r : Recursive) (cx : Context) → (recursive_part r).first cx
        ≡ each_joined (λ s. rows_of_select s cx) (out-Recursive r).first }
    ensures second { (r : Recursive) (cx : Context)
        → (recursive_part r).second cx ≡ rows_of_select (out-Recursive r).second cx }
    ensures plain { (q : Query) (T : List Rows) (args : List Value) (k : ℕ)
        → (out-Query q).recursive ≡ None
        → rows q T args k ≡ Some (rows_of_query q (outermost T args)) }
    ensures with { (q : Query) (r : Recursive) (T : List Rows) (args : List Value) (k : ℕ)
        → (out-Query q).recursive
        ≡ Some r → rows q T args k
        ≡ over_table (rows_of_query q) T args (recursive_table (recursive_part r) T args k) }
{}
