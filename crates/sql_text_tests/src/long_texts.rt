//! Readings of long texts.

use away_trees::{Expr, Query};
use sql_text::{read_query, read_schema};
use std::alloc::{AllocError, Global};
use std::test::Fail;

/// What the first item of the query's one select is.
fn first_item(query: &Query) -> Option<&Expr> {
    Some(&query.selects.get(0)?.list.get(0)?.expr)
}

/// How long the list of choices or the text is that the text selects; 0 where it selects neither.
fn length_of(alloc: Global, text: &str) -> usize {
    let Ok(query) = read_query(alloc, text.as_bytes()) else {
        return 0;
    };
    match first_item(&query) {
        Some(Expr::OneOf(_, _, choices)) => choices.len(),
        Some(Expr::Str(word)) => word.text().len(),
        _ => 0,
    }
}

#[test]
fn a_list_of_10_000_choices(rt: HostRuntime) -> Result<(), Fail> {
    let mut text = String::from_str(rt.alloc(), "SELECT a IN (0")?;
    for number in 1..10_000 {
        write!(text, ", {number}")?;
    }
    text.push_str(")")?;
    assert_eq!(rt; length_of(rt.alloc(), text.as_str()), 10_000);
    Ok(())
}

#[test]
fn a_text_of_one_mebibyte(rt: HostRuntime) -> Result<(), Fail> {
    let mut text = String::from_str(rt.alloc(), "SELECT '")?;
    for _part in 0..65_536 {
        text.push_str("0123456789abcdef")?;
    }
    text.push_str("'")?;
    assert_eq!(rt; length_of(rt.alloc(), text.as_str()), 1_048_576);
    Ok(())
}

/// A schema of so many tables of one column.
fn schema_text(alloc: Global, tables: usize) -> Result<String, AllocError> {
    let mut text = String::new(alloc);
    for number in 0..tables {
        write!(text, "CREATE TABLE t{number} (a bigint NOT NULL);\n")?;
    }
    Ok(text)
}

#[test]
fn a_schema_of_10_000_tables(rt: HostRuntime) -> Result<(), Fail> {
    let text = schema_text(rt.alloc(), 10_000)?;
    let found = match read_schema(rt.alloc(), text.as_bytes()) {
        Ok(schema) => schema.tables.len(),
        Err(_) => 0,
    };
    assert_eq!(rt; found, 10_000);
    Ok(())
}
