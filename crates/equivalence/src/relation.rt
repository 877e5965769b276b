//! The relations by their names.

/// The relations between a function, its forms and its query, in the order of the stages. What each says is `Holds` of `specs/Accepted`.
#[derive(Clone, Copy, Debug, PartialEq, Eq)]
pub enum Relation {
    Lowered,
    Named,
    Called,
    Merged,
    Columned,
    Templated,
}
