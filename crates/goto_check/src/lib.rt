//! Whether a goto form is that of a function.
#![tactic(auto)]

mod asking;
mod below;
mod check;
mod classes;
mod enclosing;
mod leaves;
mod loops;
mod once;
mod parameters;
mod patterns;
mod read;
mod reads;
mod runs;
mod shapes;
mod sizes;
mod spots;
mod stand;
mod targets;

pub use check::check_lowered;
