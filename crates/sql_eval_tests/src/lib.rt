//! Worked expressions and queries and what they answer. A crate of its own, so that they load the evaluation and prove none of it again.
#![tactic(auto)]

#[cfg(test)]
mod evaluation;
