//! Why a file is refused, in a line each, and what to write in place of a word outside the language.
#![tactic(auto)]

mod instead;
mod laws;
mod reasons;

pub use instead::instead_of;
pub use laws::{each_reason_is_one_line, each_word_outside_has_a_text};
pub use reasons::{limit_reason, query_reason, read_reason, rule_reason};
