//! Certificates as JSON: reading and writing of the four forms of a function.
#![tactic(auto)]

mod block_values;
mod blocks;
mod cert;
mod decode;
mod encode;
mod end_values;
mod ends;
mod laws;
mod misfit;
mod parts;
mod read;
mod write;

pub use cert::{Cert, CertField, CertRefusal};
pub use laws::the_first_field_decides;
pub use read::read_cert;
pub use write::write_cert;
