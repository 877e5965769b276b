//! Readings and printings of worked texts. A crate of its own, so that they load the readers and the printer and prove none of them again.
#![tactic(auto)]

#[cfg(test)]
mod long_texts;
#[cfg(test)]
mod printing;
#[cfg(test)]
mod productions;
#[cfg(test)]
mod readings;
#[cfg(test)]
mod terminals;
