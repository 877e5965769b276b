//! Functions at a limit and above it.

use crate::held::{Run, compile, execute, function, nested, show};
use crate::in_memory::TOTAL;
use away_top::code;
use std::alloc::{AllocError, Global};
use std::test::Fail;

#[test]
fn a_body_nests_64_deep(rt: HostRuntime) -> Result<(), Fail> {
    let alloc = rt.alloc();
    let deepest = compile(alloc, &function(alloc, &nested(alloc, 63)?)?)?;
    assert_eq!(rt; code(&deepest.status), 0);
    show(
        &rt,
        &compile(alloc, &function(alloc, &nested(alloc, 64)?)?)?,
        1,
        "refused f.sql X5 nesting 65\n",
    );
    Ok(())
}

/// A function of so many parameters, p0 and so on.
fn with_parameters(alloc: Global, count: usize) -> Result<Vec<u8>, AllocError> {
    let mut text = String::from_str(alloc, "CREATE FUNCTION f(")?;
    for i in 0..count {
        if i > 0 {
            text.push_str(", ")?;
        }
        text.push_str(&format!(in alloc; "p{i} bigint")?)?;
    }
    text.push_str(") RETURNS bigint LANGUAGE plpgsql AS $$ BEGIN RETURN p0; END; $$")?;
    Ok(text.into_bytes())
}

#[test]
fn a_function_has_64_parameters_at_most(rt: HostRuntime) -> Result<(), Fail> {
    let alloc = rt.alloc();
    let most = compile(alloc, &with_parameters(alloc, 64)?)?;
    assert_eq!(rt; code(&most.status), 0);
    show(
        &rt,
        &compile(alloc, &with_parameters(alloc, 65)?)?,
        1,
        "refused f.sql X5 variables 65\n",
    );
    Ok(())
}

/// So many blocks, one inside the other, round a RETURN.
fn nested_blocks(alloc: Global, depth: usize) -> Result<Vec<u8>, AllocError> {
    let mut body = String::new(alloc);
    for _ in 0..depth {
        body.push_str("BEGIN ")?;
    }
    body.push_str("RETURN 1;")?;
    for _ in 0..depth {
        body.push_str(" END;")?;
    }
    let text = format!(in alloc;
        "CREATE FUNCTION f() RETURNS bigint LANGUAGE plpgsql AS $$ {body} $$;"
    )?;
    Ok(text.into_bytes())
}

/// Runs a function without parameters.
fn call(alloc: Global, function: &[u8]) -> Result<Run, AllocError> {
    execute(
        alloc,
        &["fn", "100", "s.sql", "f.sql", "d"],
        &[("s.sql", b""), ("f.sql", function)],
        &[],
        &[],
    )
}

#[test]
fn blocks_nest_64_deep(rt: HostRuntime) -> Result<(), Fail> {
    let alloc = rt.alloc();
    let deepest = call(alloc, &nested_blocks(alloc, 64)?)?;
    show(&rt, &deepest, 0, "value 1\n");
    let deeper = call(alloc, &nested_blocks(alloc, 65)?)?;
    show(&rt, &deeper, 1, "refused f.sql X5 nesting 65\n");
    Ok(())
}

#[test]
fn a_long_function_is_refused(rt: HostRuntime) -> Result<(), Fail> {
    let alloc = rt.alloc();
    let most = vec![in alloc; b' '; 1048576]?;
    let long = vec![in alloc; b' '; 1048577]?;
    show(&rt, &compile(alloc, &most)?, 1, "refused f.sql X3\n");
    show(&rt, &compile(alloc, &long)?, 1, "refused f.sql LONG\n");
    Ok(())
}

#[test]
fn a_long_function_compiles(rt: HostRuntime) -> Result<(), Fail> {
    let alloc = rt.alloc();
    let mut text = vec![in alloc; b' '; 1048000]?;
    text.extend_from_slice(&function(alloc, "a + b * 2")?)?;
    show(&rt, &compile(alloc, &text)?, 0, TOTAL);
    Ok(())
}
