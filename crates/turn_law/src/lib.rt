//! The query that runs several turns in an iteration: definitions alone.
#![tactic(auto)]
