//! Worked examples: marks, kinds and values of small trees, computed.

ghost use Rattle.std.specs.Prelude.{[], codes, false, negsuc, None, Ok, pos, Some, true, ◌∷◌, ◌≡◌};
ghost use Rattle.away_values.specs.declared.operators.ChainOp.TheVariants as chain;
ghost use Rattle.away_values.specs.declared.operators.IntOp.TheVariants as op;
ghost use Rattle.away_values.specs.declared.operators.CmpOp.TheVariants as cmp;
ghost use Rattle.away_values.specs.declared.types.Ty.TheVariants.{Bigint, Boolean, Integer, Text};
ghost use Rattle.away_values.specs.declared.values.Value.TheVariants as val;
ghost use Rattle.away_trees.specs.declared.queries.Expr.TheVariants as expr;
ghost use Rattle.away_trees.specs.declared.statements.Stmt.TheVariants as stmt;
ghost use Rattle.away_typing.specs.declared.kind.Kind.TheVariants.{Null, Of};
ghost use Rattle.elaboration.specs.Converting.{converted, items_marked};
ghost use Rattle.elaboration.specs.Elaborating.{elaborated, elaborated_select};
ghost use Rattle.elaboration_law.specs.Examples.{
  Becomes,
  add,
  aggregated,
  as_text,
  at_counter,
  cast_of_minus,
  chained,
  counting,
  either_type,
  from_bigint,
  here,
  int,
  known_integer,
  late_bigint,
  long_text,
  minus_of_cast,
  n,
  null_and_null,
  of_nulls,
  of_union,
  list_read,
  out_of_range,
  over_and_null,
  over_top,
  read,
  small_add,
  top,
  x,
  y,
};

/// Sums, minus, CASE, COALESCE, calls and subqueries over integers and bigints.
pub fn trees_get_their_marks()
    ensures over_and_null { Becomes (over_and_null false) (over_and_null true)
        (Of Integer) out_of_range }
    ensures null_and_null { Becomes null_and_null null_and_null (Of Bigint) (Ok val.Null) }
    ensures of_nulls { Becomes of_nulls of_nulls (Of Bigint) (int 2147483648) }
    ensures from_bigint { Becomes from_bigint from_bigint (Of Bigint) (int 4294967295) }
    ensures late_bigint { Becomes (late_bigint false) (late_bigint true) (Of Bigint) out_of_range }
    ensures either_type { Becomes either_type either_type (Of Bigint) (int 2147483648) }
    ensures known_integer { Becomes (known_integer false) (known_integer true)
        (Of Integer) out_of_range }
    ensures minus_of_cast { Becomes (minus_of_cast false) (minus_of_cast true)
        (Of Integer) out_of_range }
    ensures cast_of_minus { Becomes cast_of_minus cast_of_minus
        (Of Integer) (Ok (val.Int (negsuc 2147483647))) }
    ensures long_text { Becomes (long_text false) (long_text true) (Of Integer) out_of_range }
    ensures as_text { Becomes (as_text false) (as_text true) (Of Text) out_of_range }
    ensures of_union { Becomes of_union of_union (Of Boolean) (Ok (val.Bool true)) }
    ensures of_integers { (elaborated here (aggregated (codes "max") (chain.Int op.Add))).it
        ≡ aggregated (codes "max") (chain.Small op.Add) }
    ensures of_sums { (elaborated here (aggregated (codes "sum") (chain.Int op.Add))).it
        ≡ aggregated (codes "sum") (chain.Int op.Add) }
{}

/// Casts at assignments, RETURN and the bounds of FOR, and the marks of INTO.
pub fn statements_get_their_casts()
    ensures to_bigint { converted (at_counter Bigint)
        (stmt.Assign [] (Some 1) (chained (n 2000000000) (add (n 2000000000) ∷ [])))
        ≡ stmt.Assign [] (Some 1)
        (expr.Cast (chained (n 2000000000) (small_add (n 2000000000) ∷ [])) Bigint) }
    ensures to_integer { converted (at_counter Bigint) (stmt.Assign [] (Some 0) y)
        ≡ stmt.Assign [] (Some 0) (expr.Cast y Integer) }
    ensures same_type { converted (at_counter Bigint) (stmt.Assign [] (Some 0) x)
        ≡ stmt.Assign [] (Some 0) x }
    ensures null { converted (at_counter Bigint) (stmt.Assign [] (Some 0) expr.Null)
        ≡ stmt.Assign [] (Some 0) expr.Null }
    ensures returned { converted (at_counter Bigint) (stmt.Return over_top)
        ≡ stmt.Return (expr.Cast over_top Integer) }
    ensures test { converted (at_counter Bigint) (stmt.Exit None (Some (expr.Compare cmp.Lt x y)))
        ≡ stmt.Exit None (Some (expr.Compare cmp.Lt x y)) }
    ensures bounds { converted (at_counter Bigint) (counting x y (n 1))
        ≡ counting (expr.Cast x Bigint) y (expr.Cast (n 1) Bigint) }
    ensures small_bounds { converted (at_counter Integer) (counting x y (n 3000000000))
        ≡ counting x (expr.Cast y Integer) (expr.Cast (n 3000000000) Integer) }
    ensures into_kinds { (elaborated_select here read).kinds
        ≡ Some (Of Integer ∷ Of Bigint ∷ Null ∷ []) }
    ensures into_marks { items_marked (at_counter Integer)
        ((codes "a", Some 1) ∷ (codes "b", Some 0) ∷ (codes "c", Some 0) ∷ [])
        (Of Integer ∷ Of Bigint ∷ Null ∷ []) (list_read (Some (codes "k") ∷ None ∷ None ∷ []))
        ≡ list_read (Some (codes "a") ∷ Some (codes "b") ∷ None ∷ []) }
    ensures into_itself { items_marked (at_counter Integer)
        ((codes "a", Some 0) ∷ (codes "b", Some 1) ∷ (codes "c", None) ∷ [])
        (Of Integer ∷ Of Bigint ∷ Null ∷ []) (list_read (Some (codes "k") ∷ None ∷ None ∷ []))
        ≡ list_read (None ∷ None ∷ None ∷ []) }
{}
