//! The texts of a case.

ghost use Rattle.std.specs.Prelude.{◌≡◌, ◌++◌, IfOk, OnOk, flat_map, string_bytes};
ghost use Rattle.away_gen.specs.Texts.{function_text as text_of_function, line, row_text, schema_text as text_of_schema, statement_over, statement_text, table_text as text_of_table, variable as text_of_variable};
ghost use Rattle.std.specs.Fmt.{decimal};

use crate::parts::{Kind, Row, Statement};
use std::alloc::{AllocError, Global};

const SCHEMA: &str = "CREATE TABLE route (src bigint, dst bigint, cost bigint);";

/// The function up to the statements that are drawn.
const HEAD: &str =
    "CREATE FUNCTION public.demo(a bigint, b bigint) RETURNS bigint LANGUAGE plpgsql AS $$ DECLARE v0 bigint := a; v1 bigint := b; v2 bigint := 0; v3 bigint := 1; t bigint := 0; BEGIN WHILE t < 20 LOOP\n";

/// What follows them.
const TAIL: &str = "t := t + 1; END LOOP; RETURN v0 + v1 + v2 + v3; END; $$;";

/// The schema's text.
pub fn schema_text(alloc: Global) -> Result<String, AllocError>
    ensures { IfOk result (λ text. string_bytes text ≡ text_of_schema) }
{
    String::from_str(alloc, SCHEMA)
}

/// The table's file.
pub fn table_text(alloc: Global, rows: &[Row]) -> Result<String, AllocError>
    ensures { IfOk result (λ text. string_bytes text ≡ text_of_table rows.now) }
{
    let mut text = String::from_str(alloc, "src,dst,cost\n")?;
    for row in rows {
        push_row(&mut text, row)?;
    }
    Ok(text)
}

fn push_row(text: &mut String, row: &Row) -> Result<(), AllocError>
    ensures { OnOk result (string_bytes text.new ≡ string_bytes text.old
        ++ line (row_text row.now)) }
{
    let Row { src, dst, cost } = *row;
    write!(text, "{src},{dst},{cost}\n")
}

/// The function's text.
pub fn function_text(alloc: Global, statements: &[Statement]) -> Result<String, AllocError>
    ensures { IfOk result (λ text. string_bytes text ≡ text_of_function statements.now) }
{
    let mut text = String::from_str(alloc, HEAD)?;
    for statement in statements {
        push_statement(alloc, &mut text, statement)?;
        text.push('\n')?;
    }
    text.push_str(TAIL)?;
    Ok(text)
}

fn push_statement(alloc: Global, text: &mut String, statement: &Statement) -> Result<(), AllocError>
    ensures { OnOk result (string_bytes text.new ≡ string_bytes text.old
        ++ statement_text statement.now) }
{
    let target = variable(alloc, statement.target)?;
    let source = variable(alloc, statement.source)?;
    let constant = number(alloc, statement.constant)?;
    push_over(text, statement.kind, &target, &source, &constant)
}

fn variable(alloc: Global, number: u64) -> Result<String, AllocError>
    ensures { IfOk result (λ text. string_bytes text ≡ text_of_variable number) }
{
    format!(in alloc; "v{number}")
}

fn number(alloc: Global, number: u64) -> Result<String, AllocError>
    ensures { IfOk result (λ text. string_bytes text ≡ decimal number) }
{
    format!(in alloc; "{number}")
}

/// Adds the statement of the kind over the variables x and y and the constant c.
fn push_over(text: &mut String, kind: Kind, x: &str, y: &str, c: &str) -> Result<(), AllocError>
    ensures { OnOk result (string_bytes text.new ≡ string_bytes text.old
        ++ statement_over kind x.now y.now c.now) }
{
    match kind {
        Kind::Add => push_all(text, &[x, " := ", y, " + ", c, ";"]),
        Kind::Multiply => push_all(text, &[x, " := ", y, " * ", c, " % 1000000;"]),
        Kind::Subtract => push_all(
            text,
            &[
                "IF ",
                x,
                " > ",
                y,
                " THEN ",
                x,
                " := ",
                x,
                " - ",
                y,
                "; ELSE ",
                y,
                " := ",
                y,
                " + 1; END IF;",
            ],
        ),
        Kind::Loop => push_all(
            text,
            &[
                "FOR k IN 1..",
                c,
                " LOOP ",
                x,
                " := ",
                x,
                " + k; EXIT WHEN ",
                x,
                " % 7 = 3; END LOOP;",
            ],
        ),
        Kind::Query => push_all(
            text,
            &[
                x,
                " := COALESCE((SELECT max(r.cost) FROM route r WHERE r.src = ",
                y,
                " % 10), 0);",
            ],
        ),
    }
}

fn push_all(text: &mut String, pieces: &[&str]) -> Result<(), AllocError>
    ensures { OnOk result (string_bytes text.new ≡ string_bytes text.old
        ++ flat_map (λ p. p.now) pieces.now) }
{
    for piece in pieces {
        text.push_str(piece)?;
    }
    Ok(())
}
