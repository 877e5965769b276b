//! The parts of a select over rows that are there: the product, the filter, the order, the cut and the aggregates.
#![tactic(auto)]

mod aggregates;
mod aggregation;
mod cutting;
mod extremes;
mod keeping;
mod laws;
mod ordering;
mod rows;
mod sums;
mod truth;
mod value_order;
mod widening;

pub use aggregates::{Aggregate, Aggregate as Fold};
pub use aggregation::{aggregate, aggregate as fold};
pub use cutting::{cut, cut_off};
pub use extremes::most_extreme;
pub use keeping::{keep, keep_into};
pub use laws::{columns_keep_their_places, conditions_keep_rows, the_product_extends_rows};
pub use ordering::{order, ordered_rows};
pub use rows::{Rows, copied};
pub use truth::{is_null, is_true};
pub use widening::extend;
