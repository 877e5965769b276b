//! Functions whose calls of themselves become turns of a loop: why they are refused, and the text of what they become.
#![tactic(auto)]

mod refusals;
mod self_caller;
mod written;

pub use refusals::{Grown, SelfRefusal, WriteRefusal};
pub use self_caller::check_self;
pub use written::{Untailed, read_back, untail};
