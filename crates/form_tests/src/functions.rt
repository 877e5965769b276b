//! Functions that are read from their texts and checked. A test that finds no memory stops.

ghost use Rattle.away_trees.specs.Limits.{KeepsLimits};

use away_trees::Function;
use away_types::{CheckedFunction, CheckedSchema, check_function, check_schema};
use plsql_parse::read_function;
use sql_text::read_schema;
use sqlite_items::Boxed;
use std::process::Abort;

/// A schema without tables.
pub fn no_tables(rt: &(impl Abort + AllocGlobal)) -> CheckedSchema {
    let Ok(schema) = read_schema(rt.alloc(), "".as_bytes()) else {
        rt.abort();
    };
    let Ok(schema) = check_schema(rt.alloc(), schema) else {
        rt.abort();
    };
    schema
}

fn checked_tree(
    rt: &(impl Abort + AllocGlobal),
    schema: &CheckedSchema,
    function: Function,
) -> Boxed<CheckedFunction>
    requires { KeepsLimits function }
{
    match check_function(rt.alloc(), schema, function) {
        Ok(function) => Boxed::new(rt.alloc(), function).expect(rt, "memory"),
        Err(_) => rt.abort(),
    }
}

/// The function that a text is.
pub fn checked(
    rt: &(impl Abort + AllocGlobal),
    schema: &CheckedSchema,
    text: &str,
) -> Boxed<CheckedFunction> {
    match read_function(rt.alloc(), text.as_bytes()) {
        Ok(function) => checked_tree(rt, schema, function),
        Err(_) => rt.abort(),
    }
}

/// The function with these parameters, attributes and body.
pub fn function(
    rt: &(impl Abort + AllocGlobal),
    params: &str,
    attributes: &str,
    body: &str,
) -> Boxed<CheckedFunction> {
    let text = format!(in rt.alloc();
        "CREATE FUNCTION f({params}) RETURNS bigint LANGUAGE plpgsql {attributes} AS $$ {body}; $$;"
    ).expect(rt, "memory");
    let schema = no_tables(rt);
    checked(rt, &schema, text.as_str())
}

/// The body of collatz, whose parameter is n.
pub const COLLATZ: &str =
    "DECLARE steps bigint := 0; BEGIN WHILE n <> 1 LOOP IF n % 2 = 0 THEN n := n / 2; ELSE n := 3 * n + 1; END IF; \
    steps := steps + 1; END LOOP; RETURN steps; END";

/// The body of a function of a with one test.
pub const SIGN_OF: &str = "BEGIN IF a > 0 THEN RETURN 1; END IF; RETURN 2; END";
