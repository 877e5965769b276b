//! Certificates, read and written. A crate of its own, so that they load the reader and the writer and prove neither again.
#![tactic(auto)]

#[cfg(test)]
mod certificates;
