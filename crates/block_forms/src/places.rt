//! Where a statement stands in its function, and where the numbers of the fixed list and of the hidden slots begin.

/// How many nodes, source expressions, variables, FOR loops and targets of SELECT INTO stand before a statement, or in it.
#[derive(Clone, Copy, Debug, PartialEq, Eq)]
pub struct Position {
    pub node: u32,
    pub expr: u32,
    pub slot: u32,
    pub fors: u32,
    pub targets: u32,
}

/// The number of the first entry of the fixed list, and the first hidden slots of a FOR and of a target.
#[derive(Clone, Copy, Debug, PartialEq, Eq)]
pub struct Numbers {
    pub fixed: u32,
    pub counters: u32,
    pub targets: u32,
}
