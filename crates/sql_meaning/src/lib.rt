//! What an expression, a select and a query mean, and the laws on which every proof about queries stands.
#![tactic(auto)]

mod equations;
mod examples;
mod laws;
mod one_return;
mod places;

pub use equations::{
    aggregates_stand_outside_subqueries, calls_take_their_arguments, items_give_rows,
    leaves_have_their_values, operators_take_their_operands, selects_give_rows,
    small_operations_are_those_of_bigint, subqueries_take_their_rows,
};
pub use examples::{
    a_query_is_asked_for_one_row, a_subquery_is_evaluated_whole, aggregates_skip_null,
    integers_have_32_bits, operators_stop_where_decided, parts_of_a_select_come_in_order,
    recursion_needs_its_bound, rows_are_put_in_order,
};
pub use laws::{
    answers_are_told_by_rows, answers_stay, keys_order_as_the_operators_do, sorting_is_stable,
    stopping_changes_no_value, the_first_empty_or_faulty_table_decides,
};
pub use one_return::one_return_is_equivalent;
pub use places::{
    a_slot_may_be_a_column, names_mean_nothing, only_the_slots_that_are_read_matter,
    places_are_computed,
};
