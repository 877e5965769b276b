//! Names, values and types, and the operators, with the definitions that say what they are.
#![tactic(auto)]

mod arithmetic;
mod comparison;
mod copy_values;
mod errors;
mod from_text;
mod operator_laws;
mod operators;
pub mod sqlstate;
mod texts;
mod types;
mod values;
mod words;

pub use arithmetic::{int_op, literal_type, small};
pub use comparison::compare;
pub use errors::{NoMemory, OpError};
pub use from_text::{name, word};
pub use operator_laws::{
    arithmetic_is_exact, comparison_is_a_total_order, comparison_is_by_value,
    division_leaves_the_remainder, faults_are_classes, parts_of_a_text_join,
    results_have_their_types, the_text_of_a_bigint_reads_back, what_is_held_is_a_value,
};
pub use operators::{ChainOp, CmpOp, IntOp, IsTest, TextOp};
pub use texts::text_op;
pub use types::Ty;
pub use values::{Answer, Class, Table, Tables, Value};
pub use words::{LONGEST_NAME, LONGEST_TEXT, Name, Word};
