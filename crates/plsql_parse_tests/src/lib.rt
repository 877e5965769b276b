//! Worked texts and their tokens, places of bytes, files and the functions that they are read as, and texts of their parts. A crate of its own, so that they load the
//! lexer, the reader and the printer of functions and prove none again.
#![tactic(auto)]

#[cfg(test)]
mod bodies;
#[cfg(test)]
mod lines;
#[cfg(test)]
mod printing;
#[cfg(test)]
mod readings;
#[cfg(test)]
mod tokens;
