//! The table of the calls.

ghost use Rattle.std.specs.Prelude.{◌≡◌, ◌↔◌, IfSome, IsTrue, length, map, slice_get, Some, None};
ghost use Rattle.batch_calls.specs.CallTables.{HasColumnsOf, IsCallTable, column_type, parameter_type};

use away_trees::{ColumnSchema, Function, Schema, TableSchema};
use away_values::{Name, Ty};

fn same_type(left: Ty, right: Ty) -> bool
    ensures { IsTrue result ↔ (left ≡ right) }
{
    left == right
}

/// Whether the columns have the types of the parameters, in their order.
fn have_types(columns: &[ColumnSchema], params: &[(Name, Ty)]) -> bool
    requires { length columns.now ≡ length params.now }
    ensures { IsTrue result ↔ (map column_type columns.now ≡ map parameter_type params.now) }
{
    for i in 0..columns.len() {
        if !same_type(columns[i].ty, params[i].1) {
            return false;
        }
    }
    true
}

fn are_arguments(columns: &[ColumnSchema], params: &[(Name, Ty)]) -> bool
    ensures { IsTrue result ↔ (map column_type columns.now ≡ map parameter_type params.now) }
{
    if columns.len() != params.len() {
        return false;
    }
    have_types(columns, params)
}

/// Whether the table's columns are a bigint and then the types of the function's parameters.
fn has_columns_of(f: &Function, table: &TableSchema) -> bool
    ensures { IsTrue result ↔ HasColumnsOf f.now table.now }
{
    match table.columns.as_slice() {
        [] => false,
        [first, others @ ..] => {
            if first.ty != Ty::Bigint {
                return false;
            }
            are_arguments(others, f.params.as_slice())
        }
    }
}

/// The table at the place, where its rows are calls of the function.
pub(crate) fn call_table<'a>(s: &'a Schema, f: &Function, place: u32) -> Option<&'a TableSchema>
    ensures some { IfSome result (λ t. slice_get s.now.tables place ≡ Some t.now
        × IsCallTable s.now place f.now) }
    ensures none { result ≡ None → IsCallTable s.now place f.now → ⊥ }
{
    match s.tables.get(place as usize) {
        None => None,
        Some(table) => {
            if has_columns_of(f, table) {
                Some(table)
            } else {
                None
            }
        }
    }
}
