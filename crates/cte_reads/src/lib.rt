//! A query's events, read beside the parts of the template: a place goes in, and the place behind what was read comes out.
#![tactic(auto)]

mod entries;
mod lets;
mod parts;
mod reading;
mod rows;
mod scope;

pub use entries::{Entries, Entry, entries_of};
pub use lets::term;
pub use parts::{
    Gate, all_of, behind, class_text, close_lateral, column, end_of_body, exprs_of_nulls,
    gate_item, null_of, number, open_body, open_lateral, param, rest_of_select, to_list, truth,
};
pub use reading::{Node, Wanted, close, empty, enter, event, leave, name, open};
pub use rows::{call_row, fault_row, value_row};
pub use scope::{Ref, Scope, find, find_all, lookup};
