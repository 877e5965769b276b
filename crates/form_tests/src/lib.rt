//! Forms of small functions: which are built, and which the checks accept. A crate of its own, so that they load what they look at and prove none of
//! it again.
#![tactic(auto)]

#[cfg(test)]
mod built;
#[cfg(test)]
mod called;
#[cfg(test)]
mod edits;
#[cfg(test)]
mod forms;
#[cfg(test)]
mod functions;
#[cfg(test)]
mod goto_forms;
#[cfg(test)]
mod joined;
#[cfg(test)]
mod lowered;
#[cfg(test)]
mod named;
#[cfg(test)]
mod normal;
#[cfg(test)]
mod owners;
#[cfg(test)]
mod queries;
#[cfg(test)]
mod selects;
#[cfg(test)]
mod sizes;
#[cfg(test)]
mod ssa_forms;
#[cfg(test)]
mod tables;
#[cfg(test)]
mod tails;
#[cfg(test)]
mod templated;
