//! What `certify` writes for functions of several statements.

use crate::held::{Run, execute, show};
use away_top::code;
use std::alloc::{AllocError, Global};
use std::test::Fail;

const SCHEMA: &[u8] =
    b"CREATE TABLE t (k bigint, v text); CREATE TABLE u (v bigint); CREATE TABLE w (z bigint); CREATE TABLE n (i int4 NOT NULL, b int8);";

const COLLATZ: &str =
    "CREATE FUNCTION public.collatz(n bigint) RETURNS bigint LANGUAGE plpgsql IMMUTABLE AS $$ DECLARE steps bigint := 0; BEGIN WHILE n <> 1 LOOP IF n % 2 = 0 THEN n := n / 2; ELSE n := 3 * n + 1; END IF; steps := steps + 1; END LOOP; RETURN steps; END; $$;";

const TABLES: &str =
    "CREATE FUNCTION f(x bigint) RETURNS bigint LANGUAGE plpgsql AS $$ BEGIN IF x <> 0 AND 10 / x > 1 THEN RETURN 100 / x + (SELECT max(u.v) FROM u); ELSE RETURN (SELECT count(*) FROM w); END IF; END; $$;";

/// An EXIT out of three loops.
const NESTED: &str =
    "CREATE FUNCTION f(a bigint) RETURNS bigint LANGUAGE plpgsql AS $$ DECLARE c bigint := 0; BEGIN <<far>> FOR i IN 1..9 LOOP FOR j IN 1..9 LOOP LOOP c := c + 1; EXIT far WHEN c > a; EXIT WHEN c % 2 = 0; END LOOP; END LOOP; END LOOP; RETURN c; END; $$;";

/// Values of two types for two targets, one of them NOT NULL.
const INTO: &str =
    "CREATE FUNCTION f(q bigint) RETURNS integer LANGUAGE plpgsql AS $$ DECLARE b bigint NOT NULL := 1; a integer; BEGIN SELECT NULL, q INTO b, a; RETURN a; END; $$";

/// A run over the function and the query.
fn run<'x>(
    alloc: Global,
    words: &[&'x str],
    function: &'x str,
    query: &'x [u8],
    cert: &'x [u8],
) -> Result<Run, AllocError> {
    let files: [(&str, &[u8]); 4] = [
        ("s.sql", SCHEMA),
        ("f.sql", function.as_bytes()),
        ("q.sql", query),
        ("c.json", cert),
    ];
    execute(alloc, words, &files, &[], &[])
}

/// The certificate of each function is accepted, and the query beside it is that of `compile`.
#[test]
fn certificates_are_accepted(rt: HostRuntime) -> Result<(), Fail> {
    let alloc = rt.alloc();
    for function in [COLLATZ, TABLES, NESTED, INTO] {
        let compiled = run(alloc, &["compile", "s.sql", "f.sql"], function, b"", b"")?;
        let certified = run(alloc, &["certify", "s.sql", "f.sql"], function, b"", b"")?;
        assert_eq!(rt; code(&certified.status), 0);
        let mut parts = certified.sink.written().splitn(2, |byte| *byte == b'\n');
        let cert = parts.next().unwrap_or(b"");
        let query = parts.next().unwrap_or(b"");
        assert_eq!(rt; query, compiled.sink.written());
        show(
            &rt,
            &run(
                alloc,
                &["check", "s.sql", "f.sql", "q.sql", "c.json"],
                function,
                query,
                cert,
            )?,
            0,
            "accepted\n",
        );
    }
    Ok(())
}
