//! Places in the file of a function: where a node begins, and where a token stands.
#![tactic(auto)]

mod hint_laws;
mod hint_table;
mod hints;
mod laws;
mod limit_places;
mod node_kinds;
mod node_laws;
mod node_places;
mod stuck_places;
mod token_places;
mod trials;

pub use hint_laws::each_hint_stands_in_a_line;
pub use hints::could_stand;
pub use laws::{kinds_are_counted, places_are_tokens};
pub use limit_places::{limit_place, too_deep};
pub use node_laws::each_node_has_a_place;
pub use node_places::node_place;
pub use stuck_places::{Stuck, stuck_place};
pub use token_places::{element_place, name_place, word_place};
