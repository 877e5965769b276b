//! The events of a query.

use away_trees::Col;
use away_values::{ChainOp, CmpOp, IsTest, Name, Ty, Word};

/// What a node is, without its parts, its texts and its names.
#[derive(Clone, Copy, Debug, PartialEq, Eq)]
pub enum Kind {
    Int(i64),
    Str,
    Bool(bool),
    Null,
    Named,
    Dotted,
    Slot(u32),
    Column(Col),
    Param(u32, Ty),
    Neg,
    NegSmall,
    Not,
    Is(IsTest, bool),
    Chain,
    Link(ChainOp),
    Compare(CmpOp),
    Between(bool),
    OneOf(bool),
    Cast(Ty),
    Cases,
    Arm,
    Else,
    Call,
    CountRows,
    Scalar,
    Exists,
    Table,
    Sub(bool),
    Key(bool),
    List,
    From,
    Filter,
    Order,
    Limit,
    Recursive,
    First,
    With,
    Query,
}

/// A node is its kind, its texts and parts, and an end. A select begins and ends with events of its own.
#[derive(Debug, Drop)]
pub enum TreeEvent {
    Open(Kind),
    Close,
    Enter,
    Leave,
    Text(Word),
    Name(Name),
}

/// The order of a select's parts. The whole tree has FROM first. In the order of reading the list comes first, and a query's recursive part is left
/// out.
#[derive(Clone, Copy, Debug, PartialEq, Eq)]
pub enum Manner {
    Whole,
    Reading,
}
