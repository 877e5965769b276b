//! Queries, as they are written and as they print.

use sql_printer::print_query;
use sql_text::read_query;
use std::alloc::{AllocError, Global};
use std::test::Fail;

/// Texts, and what the query that each reads as prints as, without the line feed at the end.
static ROWS: [(&str, &str); 18] = [
    (
        "select (a + b) || c, a + (b || c)",
        "SELECT a + b || c, a + (b || c)",
    ),
    (
        "SELECT (a - b) - c, a - b - c, a - (b - c), (a * b) + c, a * (b + c)",
        "SELECT (a - b) - c, a - b - c, a - (b - c), a * b + c, a * (b + c)",
    ),
    (
        "SELECT a OR (b OR c), (a AND b) OR c, (a OR b) AND c, a / b % c",
        "SELECT a OR (b OR c), a AND b OR c, (a OR b) AND c, a / b % c",
    ),
    (
        "SELECT NOT (NOT a), NOT a, -(-a), -a, - 9223372036854775808, -(- 9223372036854775808)",
        "SELECT NOT (NOT a), NOT a, - (- a), - a, - 9223372036854775808, - (- 9223372036854775808)",
    ),
    (
        "SELECT (a::text)::text, a::int8::text, (a::bool::text)::text, -(a::bigint), (-a)::text",
        "SELECT CAST(CAST(a AS text) AS text), CAST(CAST(a AS bigint) AS text), CAST(CAST(CAST(a AS boolean) AS text) AS text), \
         - CAST(a AS bigint), CAST(- a AS text)",
    ),
    (
        "SELECT $1::bigint, CAST($64 AS text), CAST($2::int8 AS text)",
        "SELECT CAST($1 AS bigint), CAST($64 AS text), CAST(CAST($2 AS bigint) AS text)",
    ),
    (
        "SELECT (a IS NULL) IS NULL, a IS NOT TRUE, (a IS FALSE) = b, (a = b) IS NULL, NOT (a IS NULL), (NOT a) IS NULL",
        "SELECT (a IS NULL) IS NULL, a IS NOT TRUE, (a IS FALSE) = b, a = b IS NULL, NOT a IS NULL, (NOT a) IS NULL",
    ),
    (
        "SELECT x IN (1), x NOT IN ((1), a), (a IN (b)) IN (c), a = (b IN (c)), (a = b) = c",
        "SELECT x IN (1), x NOT IN (1, a), (a IN (b)) IN (c), a = b IN (c), (a = b) = c",
    ),
    (
        "SELECT a BETWEEN b AND c AND d, a NOT BETWEEN b AND (c AND d), a BETWEEN b || c AND d + e",
        "SELECT a BETWEEN b AND c AND d, a NOT BETWEEN b AND (c AND d), a BETWEEN b || c AND d + e",
    ),
    (
        "SELECT a = 1, a <> b, a != b, a < b, a <= b, a > b, a >= b",
        "SELECT a = 1, a <> b, a <> b, a < b, a <= b, a > b, a >= b",
    ),
    (
        "SELECT CASE WHEN a THEN 1 END + 1, NOT CASE WHEN a THEN b ELSE c END, -CASE WHEN a THEN 1 END, \
         CASE WHEN CASE WHEN a THEN b END THEN c WHEN d THEN e END IS NULL, f(CASE WHEN a OR b THEN 1 END)",
        "SELECT CASE WHEN a THEN 1 END + 1, NOT CASE WHEN a THEN b ELSE c END, - CASE WHEN a THEN 1 END, \
         CASE WHEN CASE WHEN a THEN b END THEN c WHEN d THEN e END IS NULL, f(CASE WHEN a OR b THEN 1 END)",
    ),
    (
        "SELECT (SELECT 1) + 1, x IN ((SELECT 1)), NOT EXISTS (SELECT a FROM t), CASE WHEN EXISTS (SELECT 1) THEN (SELECT 2) END",
        "SELECT (SELECT 1) + 1, x IN ((SELECT 1)), NOT EXISTS(SELECT a FROM t), CASE WHEN EXISTS(SELECT 1) THEN (SELECT 2) END",
    ),
    (
        "SELECT least(a), GREATEST(a, b), coalesce(a + 1, b), f(), g(a, b), count(*), count(a), count",
        "SELECT LEAST(a), GREATEST(a, b), COALESCE(a + 1, b), f(), g(a, b), count(*), count(a), count",
    ),
    (
        "SELECT TRUE, false, Null, '', 'a''b', '''', '''é''', A, t.B, 007",
        "SELECT TRUE, FALSE, NULL, '', 'a''b', '''', '''é''', a, t.b, 7",
    ),
    (
        "SELECT a FROM t, public.t, t T, t u, t AS u, (SELECT 1) s, LATERAL (SELECT 2) AS s(a, b), (SELECT 3) s (a)",
        "SELECT a FROM t, t, t, t AS u, t AS u, (SELECT 1) AS s, LATERAL (SELECT 2) AS s(a, b), (SELECT 3) AS s(a)",
    ),
    (
        "SELECT a AS b, c FROM t WHERE (a AND b) ORDER BY a, (b) ASC, c DESC, d + 1 DESC LIMIT (1 + 1);",
        "SELECT a AS b, c FROM t WHERE a AND b ORDER BY a, b, c DESC, d + 1 DESC LIMIT 1 + 1",
    ),
    (
        "SELECT 1 UNION ALL SELECT (SELECT 2 UNION ALL SELECT 3) UNION ALL SELECT 4",
        "SELECT 1 UNION ALL SELECT (SELECT 2 UNION ALL SELECT 3) UNION ALL SELECT 4",
    ),
    (
        "WITH RECURSIVE r(a, b) AS (SELECT 1, 2 UNION ALL SELECT 3, 4 UNION ALL SELECT a, b FROM r) SELECT a FROM r UNION ALL SELECT 5",
        "WITH RECURSIVE r(a, b) AS (SELECT 1, 2 UNION ALL SELECT 3, 4 UNION ALL SELECT a, b FROM r) SELECT a FROM r UNION ALL SELECT 5",
    ),
];

/// What the text's query prints as.
fn printed(alloc: Global, text: &str) -> Result<String, AllocError> {
    let Ok(query) = read_query(alloc, text.as_bytes()) else {
        return String::from_str(alloc, "not read");
    };
    match print_query(alloc, &query) {
        Ok(text) => Ok(text),
        Err(_) => Err(AllocError),
    }
}

#[test]
fn texts_and_what_they_print_as(rt: HostRuntime) -> Result<(), Fail> {
    for (text, wanted) in ROWS.iter() {
        assert_eq!(rt; printed(rt.alloc(), text)?.as_str().trim_end(), *wanted);
        assert_eq!(rt; printed(rt.alloc(), wanted)?.as_str().trim_end(), *wanted);
    }
    Ok(())
}
