//! Worked examples: the meanings of small trees, computed.

ghost use Rattle.std.specs.Prelude.{
  [],
  codes,
  false,
  negsuc,
  None,
  Ok,
  pos,
  Some,
  suc,
  true,
  ℕ,
  ◌∷◌,
  ◌≡◌,
};
ghost use Rattle.away_values.specs.declared.operators.ChainOp.TheVariants as chain;
ghost use Rattle.away_values.specs.declared.operators.IntOp.TheVariants as op;
ghost use Rattle.away_values.specs.declared.operators.IsTest.TheVariants as test;
ghost use Rattle.away_trees.specs.declared.queries.Expr.TheVariants as expr;
ghost use Rattle.away_values.specs.declared.types.Ty.TheVariants as ty;
ghost use Rattle.away_values.specs.declared.values.Answer.TheVariants as answer;
ghost use Rattle.away_values.specs.declared.values.Value.TheVariants as val;
ghost use Rattle.away_values.specs.Results.{class};
ghost use Rattle.sql_meaning.specs.Examples.{
  aggregated,
  alone,
  beside,
  by_zero,
  call,
  chain_of,
  exists,
  fails,
  faulty,
  first_path,
  int,
  keys_where,
  n,
  negative_length,
  numbers,
  over,
  scalar,
  summed,
  text,
  texts,
  three,
  to_a_fault,
  to_five,
  whole,
  with_null,
};
ghost use Rattle.sql_meaning.specs.Functions.{Sum, aggregate};
ghost use Rattle.sql_meaning.specs.Trees.{col, null_of};
ghost use Rattle.sql_meaning.specs.Working.{sql};

/// `RETURN a + b * 2` with 3 and 4, as a query: the working tables are the call, the finished row and nothing. The numbers from 1 to 5 need
/// five iterations. A second term that faults gives its fault at the iteration that evaluates it.
pub fn recursion_needs_its_bound()
    ensures call { sql first_path [] (int 3 ∷ int 4 ∷ []) 0 ≡ answer.More }
    ensures row { sql first_path [] (int 3 ∷ int 4 ∷ []) 1 ≡ answer.More }
    ensures end { (k : ℕ) → sql first_path [] (int 3 ∷ int 4 ∷ []) (suc (suc k))
        ≡ answer.Value (int 11) }
    ensures overflow { sql first_path [] (int 9223372036854775807 ∷ int 4 ∷ []) 1
        ≡ answer.Fault (class (codes "22003")) }
    ensures four { sql to_five [] [] 4 ≡ answer.More }
    ensures five { sql to_five [] [] 5 ≡ answer.Value (int 15) }
    ensures before { sql to_a_fault [] [] 0 ≡ answer.More }
    ensures fault { sql to_a_fault [] [] 1 ≡ answer.Fault (class (codes "22012")) }
{}

/// A query answers a value or a fault by one row of two columns, and any other result tells the number of its rows: a text that is no class,
/// 00000 among them, a value
/// beside a class, and rows of one column or of three.
pub fn a_query_is_asked_for_one_row()
    ensures three { sql (keys_where None) (three ∷ []) [] 0 ≡ answer.Shape 3 }
    ensures none { sql (keys_where (Some (expr.Bool false))) (three ∷ []) [] 0 ≡ answer.Shape 0 }
    ensures value { sql (keys_where None) (numbers (pos 7 ∷ []) ∷ []) [] 0 ≡ answer.Value (int 7) }
    ensures fault { sql (whole (expr.Null ∷ expr.Str (codes "AB123") ∷ []) None [] None)
        (numbers (pos 7 ∷ []) ∷ []) [] 0
        ≡ answer.Fault (class (codes "AB123")) }
    ensures text { sql (whole (expr.Null ∷ expr.Str (codes "ab123") ∷ []) None [] None)
        (numbers (pos 7 ∷ []) ∷ []) [] 0 ≡ answer.Shape 1 }
    ensures success { sql (whole (expr.Null ∷ expr.Str (codes "00000") ∷ []) None [] None)
        (numbers (pos 7 ∷ []) ∷ []) [] 0 ≡ answer.Shape 1 }
    ensures both { sql (whole (n 1 ∷ expr.Str (codes "22012") ∷ []) None [] None)
        (numbers (pos 7 ∷ []) ∷ []) [] 0 ≡ answer.Shape 1 }
    ensures third { sql (whole (n 1 ∷ expr.Null ∷ expr.Null ∷ []) None [] None)
        (numbers (pos 7 ∷ []) ∷ []) [] 0 ≡ answer.Shape 1 }
    ensures single { sql (whole (n 1 ∷ []) None [] None) (numbers (pos 7 ∷ []) ∷ []) [] 0
        ≡ answer.Shape 1 }
{}

/// A scalar subquery of two rows is a fault and of none is NULL. An item beside no row isn't evaluated. EXISTS evaluates its list.
/// 21000 is cardinality_violation (the manual: 4.2.11); the evaluation of EXISTS is our own choice, as 9.23.1 leaves it open.
pub fn a_subquery_is_evaluated_whole()
    ensures two { over (whole (scalar None ∷ []) None [] None) (three ∷ [])
        ≡ fails (codes "21000") }
    ensures none { over (whole (scalar (Some (expr.Bool false)) ∷ []) None [] (Some (n 1)))
        (three ∷ []) ≡ Ok ((val.Null ∷ []) ∷ []) }
    ensures empty { over (beside false) [] ≡ Ok ((int 0 ∷ []) ∷ []) }
    ensures row { over (beside true) [] ≡ fails (codes "22012") }
    ensures list { over (whole (exists None ∷ []) None [] None) (three ∷ [])
        ≡ fails (codes "22012") }
    ensures unlisted { over (whole (exists (Some (expr.Bool false)) ∷ []) None [] (Some (n 1)))
        (three ∷ []) ≡ Ok ((val.Bool false ∷ []) ∷ []) }
{}

/// A fault in WHERE comes before one in the list, that before one in a key, and that before LIMIT's. LIMIT is evaluated also where no row is
/// left.
pub fn parts_of_a_select_come_in_order()
    ensures filter { over (whole (by_zero ∷ [])
        (Some (expr.Is negative_length (test.Null) false)) [] None) (three ∷ [])
        ≡ fails (codes "22011") }
    ensures list { over (whole (negative_length ∷ []) None ((by_zero, false) ∷ []) None)
        (three ∷ []) ≡ fails (codes "22011") }
    ensures key { over (texts None ((by_zero, false) ∷ []) (Some (expr.Int (negsuc 0))))
        (three ∷ []) ≡ fails (codes "22012") }
    ensures limit { over (texts None [] (Some (expr.Int (negsuc 0)))) (three ∷ [])
        ≡ fails (codes "2201W") }
    ensures nothing { over (texts (Some (expr.Bool false)) [] (Some (expr.Int (negsuc 0))))
        (three ∷ []) ≡ fails (codes "2201W") }
    ensures no_limit { over (texts None [] (Some expr.Null)) (three ∷ [])
        ≡ Ok ((text (codes "one") ∷ []) ∷ (text (codes "two") ∷ []) ∷ (text (codes "zwei") ∷ [])
        ∷ []) }
    ensures first_two { over (texts None [] (Some (n 2))) (three ∷ [])
        ≡ Ok ((text (codes "one") ∷ []) ∷ (text (codes "two") ∷ []) ∷ []) }
    ensures no_row { over (texts None [] (Some (n 0))) (three ∷ []) ≡ Ok [] }
{}

/// NULLs come last where the order rises and first where it falls, and rows with equal keys keep their order.
/// The manual: 7.5, Sorting Rows. The order of equal keys is our own choice.
pub fn rows_are_put_in_order()
    ensures rising { over (texts None ((col 0 0 0, false) ∷ []) None) (with_null ∷ [])
        ≡ Ok ((text (codes "a") ∷ []) ∷ (text (codes "b") ∷ []) ∷ (text (codes "c") ∷ []) ∷ []) }
    ensures falling { over (texts None ((col 0 0 0, true) ∷ []) None) (with_null ∷ [])
        ≡ Ok ((text (codes "c") ∷ []) ∷ (text (codes "b") ∷ []) ∷ (text (codes "a") ∷ []) ∷ []) }
    ensures ties { over (texts None ((col 0 0 0, true) ∷ []) None) (three ∷ [])
        ≡ Ok ((text (codes "two") ∷ []) ∷ (text (codes "zwei") ∷ []) ∷ (text (codes "one") ∷ [])
        ∷ []) }
    ensures second_key { over (texts None ((col 0 0 0, true) ∷ (col 0 0 1, true) ∷ []) None)
        (three ∷ [])
        ≡ Ok ((text (codes "zwei") ∷ []) ∷ (text (codes "two") ∷ []) ∷ (text (codes "one") ∷ [])
        ∷ []) }
{}

/// AND, OR, COALESCE, CASE, BETWEEN and IN stop before a fault where they are decided, and not before a NULL. A chain goes from its left end.
pub fn operators_stop_where_decided()
    ensures and_decided { alone (chain_of (expr.Bool false) chain.And faulty)
        ≡ Ok (val.Bool false) }
    ensures and_null { alone (chain_of expr.Null chain.And faulty) ≡ fails (codes "22012") }
    ensures and_false { alone (chain_of expr.Null chain.And (expr.Bool false))
        ≡ Ok (val.Bool false) }
    ensures or_decided { alone (chain_of (expr.Bool true) chain.Or faulty) ≡ Ok (val.Bool true) }
    ensures or_null { alone (chain_of expr.Null chain.Or faulty) ≡ fails (codes "22012") }
    ensures coalesce_decided { alone (expr.Call (codes "coalesce") (n 1 ∷ by_zero ∷ []))
        ≡ Ok (int 1) }
    ensures coalesce_null { alone (expr.Call (codes "coalesce") (expr.Null ∷ by_zero ∷ []))
        ≡ fails (codes "22012") }
    ensures case_decided { alone
        (expr.Cases ((expr.Bool true, n 1) ∷ (faulty, n 2) ∷ []) (Some by_zero)) ≡ Ok (int 1) }
    ensures case_null { alone (expr.Cases ((expr.Null, n 1) ∷ []) (Some by_zero))
        ≡ fails (codes "22012") }
    ensures case_none { alone (expr.Cases ((expr.Bool false, by_zero) ∷ []) None) ≡ Ok val.Null }
    ensures between_decided { alone (expr.Between false (n 1) (n 2) by_zero) ≡ Ok (val.Bool false) }
    ensures between_null { alone (expr.Between false (n 1) expr.Null by_zero)
        ≡ fails (codes "22012") }
    ensures not_between { alone (expr.Between true (n 1) (n 2) by_zero) ≡ Ok (val.Bool true) }
    ensures among_decided { alone (expr.OneOf false (n 1) (n 1 ∷ by_zero ∷ []))
        ≡ Ok (val.Bool true) }
    ensures among_null { alone (expr.OneOf false (n 1) (expr.Null ∷ by_zero ∷ []))
        ≡ fails (codes "22012") }
    ensures among_later { alone (expr.OneOf false (n 1) (expr.Null ∷ n 1 ∷ []))
        ≡ Ok (val.Bool true) }
    ensures among_none { alone (expr.OneOf true (n 1) (n 2 ∷ expr.Null ∷ [])) ≡ Ok val.Null }
    ensures greatest_takes_all { alone (expr.Call (codes "greatest") (n 1 ∷ by_zero ∷ []))
        ≡ fails (codes "22012") }
    ensures from_the_left { alone (expr.Chain (n 9)
        ((chain.Int op.Sub, n 3) ∷ (chain.Int op.Sub, n 2) ∷ [])) ≡ Ok (int 4) }
    ensures first_fault { alone (expr.Chain (n 9223372036854775807)
        ((chain.Int op.Add, n 1) ∷ (chain.Int op.Add, by_zero) ∷ [])) ≡ fails (codes "22003") }
{}

/// Aggregates skip NULLs and are NULL over nothing, except the counts. A sum is tested for its range at its end alone, and adds numbers alone.
/// The manual: 4.2.7 and 9.21. That the range is tested at the end alone is our own choice.
pub fn aggregates_skip_null()
    ensures some { over aggregated (with_null ∷ []) ≡ Ok
        ((int 3 ∷ int 2 ∷ int 2 ∷ int 5 ∷ int 7 ∷ val.Bool false ∷ val.Bool true ∷ []) ∷ []) }
    ensures none { over aggregated ([] ∷ []) ≡ Ok
        ((int 0 ∷ int 0 ∷ val.Null ∷ val.Null ∷ val.Null ∷ val.Null ∷ val.Null ∷ []) ∷ []) }
    ensures comes_back { over summed (numbers (pos 9223372036854775807 ∷ pos 1 ∷ negsuc 0 ∷ [])
        ∷ []) ≡ Ok ((int 9223372036854775807 ∷ []) ∷ []) }
    ensures leaves { over summed (numbers (pos 9223372036854775807 ∷ pos 1 ∷ []) ∷ [])
        ≡ fails (codes "22003") }
    ensures second { over aggregated (numbers (pos 1 ∷ pos 5 ∷ []) ∷ [])
        ≡ Ok ((int 2 ∷ int 2 ∷ int 1 ∷ int 5 ∷ int 6 ∷ val.Bool false ∷ val.Bool true ∷ []) ∷ []) }
    ensures numbers_alone { aggregate Sum (text (codes "a") ∷ int 3 ∷ text (codes "b") ∷ int 4 ∷ [])
        ≡ Ok (int 7) }
    ensures untaken { over (whole (expr.Cases ((expr.Bool false, call (codes "max") by_zero) ∷ [])
        (Some expr.CountRows) ∷ []) None [] None)
        (three ∷ []) ≡ Ok ((int 3 ∷ []) ∷ []) }
{}

/// Operations of 32 bits, their minus and the cast to integer give the value of the bigint operation, where it has 32 bits.
pub fn integers_have_32_bits()
    ensures sum { alone (chain_of (n 2147483646) (chain.Small op.Add) (n 1)) ≡ Ok (int 2147483647) }
    ensures over_the_top { alone (chain_of (n 2147483647) (chain.Small op.Add) (n 1))
        ≡ fails (codes "22003") }
    ensures null { alone (chain_of (n 2147483647) (chain.Small op.Add) expr.Null) ≡ Ok val.Null }
    ensures minus { alone (expr.NegSmall (n 5)) ≡ Ok (val.Int (negsuc 4)) }
    ensures no_minus { alone (expr.NegSmall (expr.Int (negsuc 2147483647)))
        ≡ fails (codes "22003") }
    ensures least { alone (expr.Cast (expr.Int (negsuc 2147483647)) ty.Integer)
        ≡ Ok (val.Int (negsuc 2147483647)) }
    ensures no_cast { alone (expr.Cast (n 2147483648) ty.Integer) ≡ fails (codes "22003") }
{}
