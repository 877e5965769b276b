//! What is run over tables: a query, by its answer or all of its rows, or a function.

ghost use Rattle.std.specs.Prelude.{◌≡◌, IfOk, map, string_bytes};
ghost use Rattle.sql_meaning.specs.AtBound.{rows_of_tables};
ghost use Rattle.away_top.specs.Programs.{arguments_of, as_program, program_course, reply_of};
ghost use Rattle.away_top.specs.Runs.{Follows};
ghost use Rattle.away_top.specs.Steps.{stretch_end};

use crate::Files;
use crate::ending::Halt;
use crate::files::{function_of, query_of, row_query_of};
use crate::over_tables::arguments::{values_for, values_of};
use away_types::{CheckedFunction, CheckedQuery, CheckedRows, CheckedSchema};
use away_values::{Answer, NoMemory, Tables, Value};
use plsql_run::run_function;
use sql_eval::{RowsAnswer, run_query, run_rows};
use sqlite_items::{Boxed, Items};
use std::alloc::Global;

/// What a command runs.
#[derive(Clone, Copy)]
pub(crate) enum Runnable {
    Query,
    Rows,
    Function,
}

/// What a run gives: the answer of a query or a function, or all rows of a query.
#[derive(Drop)]
pub(crate) enum Reply {
    Answer(Answer),
    Rows(RowsAnswer),
}

/// A query or a function that was read and judged.
#[derive(Drop)]
pub(crate) enum Program {
    Query(Boxed<CheckedQuery>),
    Rows(Boxed<CheckedRows>),
    Function(Boxed<CheckedFunction>),
}

impl Program {
    /// Reads its file, judged over the tables of the schema.
    pub fn read<F: Files>(
        alloc: Global,
        what: Runnable,
        tables: &CheckedSchema,
        name: &str,
        files: &mut F,
    ) -> Result<Program, Halt>
        ensures { Follows F.Files files.old
            (program_course what tables.now.schema name.now) files.new
            (stretch_end as_program result) }
    {
        match what {
            Runnable::Query => Ok(Program::Query(query_of(alloc, tables, name, files)?)),
            Runnable::Rows => Ok(Program::Rows(row_query_of(alloc, tables, name, files)?)),
            Runnable::Function => Ok(Program::Function(function_of(alloc, tables, name, files)?)),
        }
    }

    /// The values that the words spell for its parameters. None where they spell none.
    pub fn arguments(
        &self,
        alloc: Global,
        words: &[String],
    ) -> Result<Option<Items<Value>>, NoMemory>
        ensures { IfOk result (λ values. values
            ≡ arguments_of (as_program self.now) (map string_bytes words.now)) }
    {
        match self {
            Program::Query(query) => values_of(alloc, query.get().params.as_slice(), words),
            Program::Rows(query) => values_of(alloc, query.get().params.as_slice(), words),
            Program::Function(function) => {
                values_for(alloc, function.get().function.params.as_slice(), words)
            }
        }
    }

    /// What it gives over the tables, within the bound on its iterations or turns.
    pub fn reply(
        &self,
        alloc: Global,
        tables: &Tables,
        values: &[Value],
        bound: u64,
    ) -> Result<Reply, NoMemory>
        ensures { IfOk result (λ r. r ≡ reply_of (as_program self.now)
            (rows_of_tables tables.now.list) values.now bound) }
    {
        match self {
            Program::Query(query) => {
                let answer = run_query(alloc, &query.get().query, tables, values, bound)?;
                Ok(Reply::Answer(answer))
            }
            Program::Rows(query) => {
                let rows = run_rows(alloc, &query.get().query, tables, values, bound)?;
                Ok(Reply::Rows(rows))
            }
            Program::Function(function) => {
                let answer = run_function(alloc, function.get(), tables, values, bound)?;
                Ok(Reply::Answer(answer))
            }
        }
    }
}
