//! Each production of the grammar once, and each condition of it on both sides.

use away_lex::ReadRefusal;
use sql_text::{read_query, read_schema};
use std::alloc::{AllocError, Global};
use std::test::Fail;

/// Texts, and whether a query reads them.
pub static QUERIES: [(&str, bool); 62] = [
    ("SELECT a OR b OR c AND d", true),
    ("SELECT NOT a", true),
    ("SELECT NOT NOT a", false),
    ("SELECT NOT (NOT a)", true),
    ("SELECT a IS NULL, a IS NOT TRUE, a IS FALSE", true),
    ("SELECT a IS NULL IS NULL", false),
    ("SELECT (a IS NULL) IS NULL", true),
    ("SELECT a IS b", false),
    (
        "SELECT a = b, a <> b, a != b, a < b, a <= b, a > b, a >= b",
        true,
    ),
    ("SELECT a = b = c", false),
    ("SELECT a BETWEEN b AND c AND d", true),
    ("SELECT a NOT BETWEEN b AND c", true),
    ("SELECT a BETWEEN b", false),
    ("SELECT a IN (b), a NOT IN (b, c)", true),
    ("SELECT a IN ()", false),
    ("SELECT a NOT b", false),
    ("SELECT a || b || 'c'", true),
    ("SELECT a + b - c * d / e % f", true),
    ("SELECT - a, -(-a), - 9223372036854775808", true),
    ("SELECT - - a", false),
    ("SELECT 9223372036854775807", true),
    ("SELECT 9223372036854775808", false),
    ("SELECT (-9223372036854775808)::text", true),
    ("SELECT -9223372036854775808::text", false),
    (
        "SELECT a::bigint, a::int8, a::boolean, a::bool, a::text",
        true,
    ),
    ("SELECT a::numeric", false),
    ("SELECT TRUE, FALSE, NULL, 'it''s', a, a.b", true),
    ("SELECT a.", false),
    (
        "SELECT CAST(a + 1 AS text), CAST($2 AS bigint), $3::text",
        true,
    ),
    ("SELECT CAST($1::bigint AS text)", true),
    ("SELECT $1", false),
    ("SELECT CAST(a, text)", false),
    ("SELECT (SELECT 1), (1), ((a))", true),
    ("SELECT (a", false),
    ("SELECT EXISTS (SELECT 1), EXISTS (SELECT a FROM t)", true),
    ("SELECT EXISTS (1)", false),
    (
        "SELECT CASE WHEN a THEN 1 END, CASE WHEN a THEN 1 WHEN b THEN 2 ELSE 3 END",
        true,
    ),
    ("SELECT CASE a WHEN 1 THEN 2 END", false),
    ("SELECT CASE ELSE 1 END", false),
    ("SELECT coalesce(a, 1), GREATEST(a), least(a, b)", true),
    ("SELECT coalesce()", false),
    ("SELECT count(*), count(a), f(), f(a, b)", true),
    ("SELECT f(*)", false),
    ("SELECT count", true),
    ("SELECT a AS b, c", true),
    ("SELECT a b", false),
    ("SELECT", false),
    (
        "SELECT a FROM t, public.t, t u, t AS u, public.t AS u",
        true,
    ),
    ("SELECT a FROM public, public p", true),
    (
        "SELECT a FROM (SELECT 1) s, LATERAL (SELECT 2) AS s(a, b)",
        true,
    ),
    ("SELECT a FROM (SELECT 1)", false),
    ("SELECT a FROM LATERAL t", false),
    (
        "SELECT a FROM t WHERE a ORDER BY a, b ASC, c DESC LIMIT 1 + 1",
        true,
    ),
    ("SELECT a FROM t ORDER BY 1", false),
    ("SELECT a FROM t ORDER BY (1)", false),
    ("SELECT a FROM t ORDER BY -9223372036854775808", false),
    ("SELECT a FROM t ORDER BY 1 + 0", true),
    ("SELECT 1 UNION ALL SELECT 2 UNION ALL SELECT 3", true),
    ("SELECT 1 UNION SELECT 2", false),
    ("SELECT 1 UNION ALL SELECT 2 ORDER BY a", false),
    (
        "WITH RECURSIVE r(a) AS (SELECT 1 LIMIT 1 UNION ALL SELECT 2) SELECT 1",
        true,
    ),
    (
        "SELECT (WITH RECURSIVE r(a) AS (SELECT 1 UNION ALL SELECT 2) SELECT 1)",
        false,
    ),
];

/// Texts, and whether a schema reads them.
static SCHEMAS: [(&str, bool); 8] = [
    (
        "CREATE TABLE t (a bigint); create table public.u (b text not null, c bool);",
        true,
    ),
    ("CREATE TABLE t ();", false),
    ("CREATE TABLE t (a);", false),
    ("CREATE TABLE t (a bigint not);", false),
    ("CREATE TABLE t (a varchar);", false),
    ("CREATE TABLE (a bigint);", false),
    ("CREATE TABLE select (a bigint);", false),
    (";", false),
];

fn is_query(alloc: Global, text: &str) -> Result<bool, AllocError> {
    match read_query(alloc, text.as_bytes()) {
        Ok(_) => Ok(true),
        Err(ReadRefusal::NoTree) => Ok(false),
        Err(_) => Err(AllocError),
    }
}

fn is_schema(alloc: Global, text: &str) -> Result<bool, AllocError> {
    match read_schema(alloc, text.as_bytes()) {
        Ok(_) => Ok(true),
        Err(ReadRefusal::NoTree) => Ok(false),
        Err(_) => Err(AllocError),
    }
}

#[test]
fn each_production_of_queries(rt: HostRuntime) -> Result<(), Fail> {
    for (text, reads) in QUERIES.iter() {
        assert_eq!(rt; (*text, is_query(rt.alloc(), text)?), (*text, *reads));
    }
    Ok(())
}

#[test]
fn each_production_of_schemas(rt: HostRuntime) -> Result<(), Fail> {
    for (text, reads) in SCHEMAS.iter() {
        assert_eq!(rt; (*text, is_schema(rt.alloc(), text)?), (*text, *reads));
    }
    Ok(())
}
