//! Runs of the commands over files and a sink in memory, and over the system's. A crate of its own, so that they load what stands below and prove
//! none of it again.
#![tactic(auto)]

#[cfg(test)]
mod certified;
#[cfg(test)]
mod checks;
#[cfg(test)]
mod demos;
#[cfg(test)]
mod edited;
#[cfg(test)]
mod faults;
#[cfg(test)]
mod held;
#[cfg(test)]
mod in_memory;
#[cfg(test)]
mod limits;
#[cfg(test)]
mod long;
#[cfg(test)]
mod printed_queries;
#[cfg(test)]
mod system;
#[cfg(test)]
mod walks;
