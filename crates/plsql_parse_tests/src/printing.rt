//! Expressions, and selects in two parts, as text.

use away_trees::{Expr, Function, Select, Stmt};
use function_printer::{print_expr, print_parts};
use plsql_parse::read_function;
use sqlite_items::Boxed;
use std::alloc::{AllocError, Global};
use std::test::Fail;

/// What is printed of the first statement of a body.
fn shown(alloc: Global, statement: &str) -> Result<String, AllocError> {
    let file = format!(in alloc;
        "CREATE FUNCTION f() RETURNS bigint LANGUAGE plpgsql AS $$ BEGIN {statement} END $$"
    )?;
    match read_function(alloc, file.as_bytes()) {
        Ok(function) => printed(alloc, function),
        Err(_) => Err(AllocError),
    }
}

fn printed(alloc: Global, function: Function) -> Result<String, AllocError> {
    let function = Boxed::new(alloc, function)?;
    match &function.get().body {
        Stmt::Block { body, .. } => of_first(alloc, body.as_slice()),
        _ => Err(AllocError),
    }
}

fn of_first(alloc: Global, statements: &[Stmt]) -> Result<String, AllocError> {
    match statements {
        [Stmt::Return(value), ..] => expression(alloc, value),
        [Stmt::Into { query, .. }, ..] => parts(alloc, query),
        _ => Err(AllocError),
    }
}

/// An expression, and behind it the same before LOOP.
fn expression(alloc: Global, value: &Expr) -> Result<String, AllocError> {
    let plain = print_expr(alloc, value, false);
    let closed = print_expr(alloc, value, true);
    match (&plain, &closed) {
        (Ok(plain), Ok(closed)) => format!(in alloc; "{plain} | {closed}"),
        _ => Err(AllocError),
    }
}

/// The list of a select, and behind it what follows the list.
fn parts(alloc: Global, select: &Select) -> Result<String, AllocError> {
    match print_parts(alloc, select) {
        Ok((list, clauses)) => format!(in alloc; "{list} | {clauses}"),
        Err(_) => Err(AllocError),
    }
}

#[test]
fn a_case_before_loop_is_in_parentheses(rt: HostRuntime) -> Result<(), Fail> {
    assert_eq!(rt;
        shown(rt.alloc(), "RETURN 1 + (CASE WHEN TRUE THEN 2 END);")?.as_str(),
        "1 + CASE WHEN TRUE THEN 2 END | 1 + (CASE WHEN TRUE THEN 2 END)"
    );
    Ok(())
}

#[test]
fn a_select_has_two_parts(rt: HostRuntime) -> Result<(), Fail> {
    assert_eq!(rt;
        shown(
            rt.alloc(),
            "SELECT a.b, 1 AS c INTO x, y FROM t a WHERE (TRUE) LIMIT 2;"
        )?
        .as_str(),
        "SELECT a.b, 1 AS c | FROM t AS a WHERE TRUE LIMIT 2"
    );
    assert_eq!(rt;
        shown(rt.alloc(), "SELECT INTO x 1;")?.as_str(),
        "SELECT 1 | "
    );
    Ok(())
}
