//! Places in a text: the line and the column of a byte, its line as it stands with a caret under it, and where a file stops being a text.
#![tactic(auto)]

mod lines;
mod text_ends;

pub use lines::{Display, Place, shown};
pub use text_ends::text_end;
