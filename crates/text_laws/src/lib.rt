//! That a file which reads and is judged well is refused by nothing.
#![tactic(auto)]

mod laws;

pub use laws::{
    a_file_has_one_list_of_tokens, a_list_has_one_nesting, what_breaks_no_rule_is_kept,
    what_reads_is_not_refused,
};
