//! Printed queries.

use away_trees::{Expr, Item, Query, Select};
use away_values::word;
use sql_printer::print_query;
use sqlite_items::{Boxed, Items};
use std::alloc::{AllocError, Global};
use std::test::Fail;

fn select(alloc: Global, expr: Expr) -> Result<Select, AllocError> {
    let mut list = Items::new(alloc);
    list.push(Item { expr, alias: None })?;
    Ok(Select {
        list,
        from: Items::new(alloc),
        filter: None,
        order: Items::new(alloc),
        limit: None,
    })
}

/// The query that selects the expression.
fn select_alone(alloc: Global, expr: Expr) -> Result<Boxed<Query>, AllocError> {
    let mut selects = Items::new(alloc);
    selects.push(select(alloc, expr)?)?;
    Boxed::new(
        alloc,
        Query {
            recursive: None,
            selects,
        },
    )
}

fn text_alone(alloc: Global, text: &str) -> Result<Boxed<Query>, AllocError> {
    match word(alloc, text) {
        Ok(Some(word)) => select_alone(alloc, Expr::Str(word)),
        _ => Err(AllocError),
    }
}

fn printed(alloc: Global, query: &Query) -> Result<String, AllocError> {
    match print_query(alloc, query) {
        Ok(text) => Ok(text),
        Err(_) => Err(AllocError),
    }
}

/// The text that selects a text and prints nothing where it isn't one.
fn printed_text(alloc: Global, text: &str) -> Result<String, AllocError> {
    let query = text_alone(alloc, text)?;
    printed(alloc, query.get())
}

#[test]
fn a_quote_in_a_string_is_doubled(rt: HostRuntime) -> Result<(), Fail> {
    assert_eq!(rt;
        printed_text(rt.alloc(), "it's")?.as_str(),
        "SELECT 'it''s'\n"
    );
    Ok(())
}

#[test]
fn a_text_of_one_mebibyte(rt: HostRuntime) -> Result<(), Fail> {
    let mut text = String::new(rt.alloc());
    for _part in 0..65_536 {
        text.push_str("0123456789abcdef")?;
    }
    let printed = printed_text(rt.alloc(), text.as_str())?;
    assert_eq!(rt; printed.len(), 1_048_586);
    assert!(rt; printed.as_str().starts_with("SELECT '0123"));
    assert!(rt; printed.as_str().ends_with("cdef'\n"));
    Ok(())
}

fn numbers(alloc: Global) -> Result<Items<Expr>, AllocError> {
    let mut choices = Items::new(alloc);
    for number in 0_i64..10_000 {
        choices.push(Expr::Int(number))?;
    }
    Ok(choices)
}

/// The query that looks for NULL among 10,000 numbers.
fn among_numbers(alloc: Global) -> Result<Boxed<Query>, AllocError> {
    let choices = numbers(alloc)?;
    match Boxed::new(alloc, Expr::Null) {
        Ok(operand) => select_alone(alloc, Expr::OneOf(false, operand, choices)),
        Err(error) => Err(error),
    }
}

fn wanted_list(alloc: Global) -> Result<String, AllocError> {
    let mut wanted = String::from_str(alloc, "SELECT NULL IN (0")?;
    for number in 1_i64..10_000 {
        write!(wanted, ", {number}")?;
    }
    wanted.push_str(")\n")?;
    Ok(wanted)
}

#[test]
fn a_list_of_10_000_choices(rt: HostRuntime) -> Result<(), Fail> {
    let wanted = wanted_list(rt.alloc())?;
    let query = among_numbers(rt.alloc())?;
    let text = printed(rt.alloc(), query.get())?;
    assert_eq!(rt; text.as_str(), wanted.as_str());
    Ok(())
}
