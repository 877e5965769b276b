//! The goto form of a checked function.
#![tactic(auto)]

mod assignments;
mod classes;
mod counted;
mod counts;
mod draft;
mod enclosing;
mod function;
mod laws;
mod own_blocks;
mod setting;
mod shapes;
mod sizes;
mod statements;
mod sums;
mod targets;
mod terms;

pub use function::lower;
pub use laws::built_forms_are_lowered;
