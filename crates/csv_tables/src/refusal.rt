//! Why a file is no table.

use away_values::NoMemory;
use std::alloc::AllocError;
use thiserror::Error;

/// Why a file holds no rows for a table. Rows are counted from 1 below the header, and columns from 1.
/// These refusals have no SQLSTATE, which is our own choice.
#[derive(Clone, Copy, Debug, PartialEq, Eq, Error)]
pub enum TableRefusal {
    /// No record, or the first isn't the names of the columns in their order.
    #[error("the first record is not the header")]
    Header,
    /// The row has another number of fields than the table has columns.
    #[error("row {row} has another number of fields")]
    Count { row: u64 },
    /// The field is no spelling of a value of the column's type.
    #[error("row {row}, column {column} is no value of its type")]
    Cell { row: u64, column: u64 },
    /// The field is NULL in a column that is NOT NULL.
    #[error("row {row}, column {column} is NULL")]
    NullCell { row: u64, column: u64 },
    #[error("no memory was left")]
    NoMemory,
}

impl From<NoMemory> for TableRefusal {
    ghost use Rattle.std.specs.Prelude.{◌≡◌};
    ghost use Rattle.csv_tables.specs.declared.refusal.TableRefusal.TheVariants.{NoMemory};

    ghost from_gives = { λ _ e. e ≡ NoMemory };

    fn from(_error: NoMemory) -> TableRefusal {
        TableRefusal::NoMemory
    }
}

impl From<AllocError> for TableRefusal {
    ghost use Rattle.std.specs.Prelude.{◌≡◌};
    ghost use Rattle.csv_tables.specs.declared.refusal.TableRefusal.TheVariants.{NoMemory};

    ghost from_gives = { λ _ e. e ≡ NoMemory };

    fn from(_error: AllocError) -> TableRefusal {
        TableRefusal::NoMemory
    }
}
