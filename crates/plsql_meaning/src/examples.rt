//! Worked examples: what small functions answer, computed.

ghost use Rattle.std.specs.Prelude.{[], codes, false, None, negsuc, Some, true, ◌∷◌, ◌≡◌};
ghost use Rattle.away_trees.specs.declared.queries.Expr.TheVariants as expr;
ghost use Rattle.away_values.specs.declared.values.Answer.TheVariants as answer;
ghost use Rattle.away_values.specs.declared.values.Value.TheVariants as val;
ghost use Rattle.away_values.specs.Results.{class};
ghost use Rattle.plsql_meaning.specs.Examples.{
  answer_at,
  bigint_and_integer,
  assigning_its_variable,
  by_zero,
  called,
  called_over,
  choosing,
  converting_two,
  counting,
  deciding,
  ending,
  entering_again,
  going_on,
  int,
  labelled,
  leaving,
  leaving_the_loop,
  leaving_when,
  max,
  message,
  min,
  moving_its_bound,
  n,
  odd_numbers,
  raising,
  rising,
  selecting,
  selecting_two,
  skipping,
  starting_as,
  strict_slot,
  summing,
  too_great,
  unmatched,
  while_only,
};

/// A turn is counted as a loop's body begins, over all loops. A test that fails, or faults, takes none. Turns are our own choice.
pub fn turns_are_counted_over_all_loops()
    ensures plain_labels { answer_at labelled 7 ≡ answer.Value (int 4) }
    ensures plain_more { answer_at labelled 6 ≡ answer.More }
    ensures rising { answer_at rising 3 ≡ answer.Value (int 3) }
    ensures rising_more { answer_at rising 2 ≡ answer.More }
    ensures null_test { answer_at (while_only expr.Null) 0 ≡ answer.Fault (class (codes "2F005")) }
    ensures fault_test { answer_at (while_only by_zero) 0 ≡ answer.Fault (class (codes "22012")) }
    ensures true_test { answer_at (while_only (expr.Bool true)) 3 ≡ answer.More }
{}

/// FOR counts by a counter of its own, which ends without a fault at either end of the range. Its bounds and its step are taken once, from left to
/// right. The manual: 43.6.5.5, FOR (Integer Variant). The order of the bounds and the step is our own choice.
pub fn for_has_its_own_counter()
    ensures sum { answer_at (summing false (n 1) (n 4) None) 4 ≡ answer.Value (int 10) }
    ensures fewer { answer_at (summing false (n 1) (n 4) None) 3 ≡ answer.More }
    ensures down { answer_at (summing true (n 4) (n 1) (Some (n 2))) 2 ≡ answer.Value (int 6) }
    ensures none { answer_at (summing false (n 4) (n 1) None) 0 ≡ answer.Value (int 0) }
    ensures at_the_end { answer_at (counting false (n 2147483646) max) 2 ≡ answer.Value (int 2) }
    ensures at_the_least { answer_at (counting true (expr.Int (negsuc 2147483646)) min) 2
        ≡ answer.Value (int 2) }
    ensures by_the_greatest { answer_at (summing false (n 5) (n 9) (Some max)) 1
        ≡ answer.Value (int 5) }
    ensures down_by_the_greatest { answer_at (summing true (n 1) min (Some max)) 2
        ≡ answer.Value (val.Int (negsuc 2147483644)) }
    ensures assigned { answer_at assigning_its_variable 3 ≡ answer.Value (int 60) }
    ensures continued { answer_at odd_numbers 9 ≡ answer.Value (int 25) }
    ensures bound { answer_at moving_its_bound 2 ≡ answer.Value (int 12) }
    ensures null_first { answer_at (summing false expr.Null by_zero None) 0
        ≡ answer.Fault (class (codes "22004")) }
    ensures null_last { answer_at (summing false (n 1) expr.Null (Some by_zero)) 0
        ≡ answer.Fault (class (codes "22004")) }
    ensures null_step { answer_at (summing false (n 4) (n 1) (Some expr.Null)) 0
        ≡ answer.Fault (class (codes "22004")) }
    ensures zero_step { answer_at (summing false (n 4) (n 1) (Some (n 0))) 0
        ≡ answer.Fault (class (codes "22023")) }
    ensures fault_first { answer_at (summing false by_zero expr.Null None) 0
        ≡ answer.Fault (class (codes "22012")) }
    ensures first_converted { answer_at (summing false too_great expr.Null None) 0
        ≡ answer.Fault (class (codes "22003")) }
    ensures first_null { answer_at (summing false expr.Null too_great None) 0
        ≡ answer.Fault (class (codes "22004")) }
    ensures last_converted { answer_at (summing false (n 5) too_great (Some (n 0))) 0
        ≡ answer.Fault (class (codes "22003")) }
    ensures step_converted { answer_at (summing false (n 1) (n 2) (Some too_great)) 0
        ≡ answer.Fault (class (codes "22003")) }
{}

/// IF, CASE, EXIT and CONTINUE take a condition only where it is true; a CASE without a match and without ELSE raises 20000.
/// The manual: 43.6.4, Conditionals. 20000 is case_not_found.
pub fn a_condition_is_taken_where_it_is_true()
    ensures first { answer_at (deciding (expr.Bool true) by_zero) 0 ≡ answer.Value (int 1) }
    ensures second { answer_at (deciding expr.Null (expr.Bool true)) 0 ≡ answer.Value (int 2) }
    ensures otherwise { answer_at (deciding expr.Null (expr.Bool false)) 0 ≡ answer.Value (int 3) }
    ensures fault { answer_at (deciding (expr.Bool false) by_zero) 0
        ≡ answer.Fault (class (codes "22012")) }
    ensures no_else { answer_at going_on 0 ≡ answer.Value (int 2) }
    ensures case { answer_at (choosing (expr.Bool true)) 0 ≡ answer.Value (int 1) }
    ensures case_null { answer_at (choosing expr.Null) 0 ≡ answer.Value (int 2) }
    ensures no_case { answer_at unmatched 0 ≡ answer.Fault (class (codes "20000")) }
    ensures exit { answer_at (leaving_when (expr.Bool true)) 1 ≡ answer.Value (int 2) }
    ensures no_exit { answer_at (leaving_when expr.Null) 1 ≡ answer.Value (int 1) }
{}

/// A variable starts as its default, which is evaluated each time that the block is entered, or as NULL. A slot that is NOT NULL takes no NULL; the
/// value's own fault comes first. The manual: 43.3, Declarations. NULL in a NOT NULL slot is 22004, null_value_not_allowed.
pub fn blocks_have_their_variables()
    ensures leaves { answer_at leaving 0 ≡ answer.Value (int 2) }
    ensures leaves_the_loop { answer_at leaving_the_loop 1 ≡ answer.Value (int 2) }
    ensures slots { answer_at skipping 0 ≡ answer.Value (int 8) }
    ensures again { answer_at entering_again 3 ≡ answer.Value (int 3) }
    ensures not_null { called strict_slot (false ∷ true ∷ []) [] (int 1) 0
        ≡ answer.Fault (class (codes "22004")) }
    ensures nullable { called strict_slot [] [] (int 1) 0 ≡ answer.Value (int 1) }
    ensures null_default { called (starting_as expr.Null) (false ∷ true ∷ []) [] (int 1) 0
        ≡ answer.Fault (class (codes "22004")) }
    ensures value_first { called (starting_as by_zero) (false ∷ true ∷ []) [] (int 1) 0
        ≡ answer.Fault (class (codes "22012")) }
    ensures default { called (starting_as (n 5)) (false ∷ true ∷ []) [] (int 1) 0
        ≡ answer.Value (int 1) }
{}

/// A function that falls off its end raises 2F005, RAISE raises P0001 or the class that is written, and a STRICT function doesn't run where an
/// argument is NULL. The manual: 43.6.1, Returning from a Function, 43.9.1, Reporting Errors and Messages, and CREATE FUNCTION.
pub fn a_function_ends_as_its_body_does()
    ensures ending { answer_at ending 0 ≡ answer.Fault (class (codes "2F005")) }
    ensures message { answer_at message 0 ≡ answer.Fault (class (codes "P0001")) }
    ensures raise { answer_at raising 0 ≡ answer.Fault (class (codes "AB123")) }
    ensures strict { called raising [] [] val.Null 0 ≡ answer.Value val.Null }
    ensures runs { called raising [] [] (int 1) 0 ≡ answer.Fault (class (codes "AB123")) }
{}

/// SELECT INTO sets its targets from the first row, from left to right, or to NULL where there is none. The values whose items are marked are converted
/// to the types of their targets before the first is set. With STRICT there is exactly one row.
/// The manual: 43.5.3. P0002 is no_data_found, and P0003 too_many_rows.
pub fn select_into_sets_its_targets()
    ensures selected { called (selecting true) [] ((int 7 ∷ []) ∷ []) (int 1) 0
        ≡ answer.Value (int 7) }
    ensures no_row { called (selecting false) [] [] (int 1) 0 ≡ answer.Value val.Null }
    ensures no_row_strict { called (selecting true) [] [] (int 1) 0
        ≡ answer.Fault (class (codes "P0002")) }
    ensures two_rows { called (selecting true) [] ((int 7 ∷ []) ∷ (int 8 ∷ []) ∷ []) (int 1) 0
        ≡ answer.Fault (class (codes "P0003")) }
    ensures first_of_two { called (selecting false) [] ((int 7 ∷ []) ∷ (int 8 ∷ []) ∷ []) (int 1) 0
        ≡ answer.Value (int 7) }
    ensures in_order { called selecting_two [] ((int 4 ∷ int 2 ∷ []) ∷ []) (int 1) 0
        ≡ answer.Value (int 42) }
    ensures not_null { called selecting_two (false ∷ true ∷ []) ((int 4 ∷ val.Null ∷ []) ∷ [])
        (int 1) 0 ≡ answer.Fault (class (codes "22004")) }
    ensures converted { called_over converting_two bigint_and_integer ((int 4 ∷ int 2 ∷ []) ∷ [])
        (int 1) 0 ≡ answer.Value (int 42) }
    ensures too_great { called_over converting_two bigint_and_integer
        ((val.Null ∷ int 3000000000 ∷ []) ∷ []) (int 1) 0
        ≡ answer.Fault (class (codes "22003")) }
    ensures unmarked { called_over selecting_two bigint_and_integer
        ((int 4 ∷ int 3000000000 ∷ []) ∷ []) (int 1) 0 ≡ answer.Value (int 3000000040) }
    ensures then_null { called_over converting_two bigint_and_integer
        ((val.Null ∷ int 3 ∷ []) ∷ []) (int 1) 0 ≡ answer.Fault (class (codes "22004")) }
{}
