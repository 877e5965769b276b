//! The template's parts, and the events of queries. A crate of its own, so that they load what they look at and prove none of it again.
#![tactic(auto)]

#[cfg(test)]
mod events;
#[cfg(test)]
mod parts;
