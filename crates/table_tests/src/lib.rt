//! Worked values, trees, tables from CSV and parts of a select. A crate of its own, so that they load what they try and prove none of it again.
#![tactic(auto)]

#[cfg(test)]
mod counts;
#[cfg(test)]
mod files;
#[cfg(test)]
mod made;
#[cfg(test)]
mod operators;
#[cfg(test)]
mod selects;
