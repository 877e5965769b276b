//! What `certify` writes, with parts put in place of others: the verdict on each.

use crate::held::{Run, execute};
use away_top::code;
use std::alloc::{AllocError, Global};
use std::test::Fail;

/// A text with a part put in place of the first that is another.
pub fn replaced(alloc: Global, text: &str, old: &str, new: &str) -> Result<String, AllocError> {
    let mut made = String::new(alloc);
    match text.split_once(old) {
        Some((front, rest)) => {
            made.push_str(front)?;
            made.push_str(new)?;
            made.push_str(rest)?;
        }
        None => made.push_str(text)?,
    }
    Ok(made)
}

const COLLATZ: &str =
    "CREATE FUNCTION collatz(n bigint) RETURNS bigint LANGUAGE plpgsql AS $$ DECLARE steps bigint := 0; BEGIN WHILE n <> 1 LOOP IF n % 2 = 0 THEN n := n / 2; ELSE n := 3 * n + 1; END IF; steps := steps + 1; END LOOP; RETURN steps; END; $$;";

const PRODUCT: &str =
    "CREATE FUNCTION f(a bigint) RETURNS bigint LANGUAGE plpgsql AS $$ DECLARE x bigint; y bigint; BEGIN x := a + 1; y := a + 2; RETURN x * y; END; $$;";

const UNUSED: &str =
    "CREATE FUNCTION f(a bigint) RETURNS bigint LANGUAGE plpgsql AS $$ DECLARE x bigint; BEGIN x := 1 / 0; RETURN 5; END; $$;";

const RAISED: &str =
    "CREATE FUNCTION f(a bigint) RETURNS text LANGUAGE plpgsql AS $$ BEGIN RAISE EXCEPTION SQLSTATE 'AB123'; END; $$;";

/// A function, what is put in place of what in its certificate and its query, the status and the line.
static EDITED: [(&str, &[(&str, &str)], u8, &str); 7] = [
    // What `certify` writes.
    (COLLATZ, &[], 0, "accepted\n"),
    // The map of the head has for `n` the name of `steps`.
    (
        COLLATZ,
        &[("[[[0,3],[1,4]],[[3", "[[[0,4],[1,4]],[[3")],
        8,
        "not accepted S3\n",
    ),
    // The two columns in the other order.
    (
        COLLATZ,
        &[
            (
                "\"places\":[[0],[0,1],[0,1]]",
                "\"places\":[[1],[1,0],[1,0]]",
            ),
            (
                "CAST($1 AS bigint), CAST(NULL AS bigint)",
                "CAST(NULL AS bigint), CAST($1 AS bigint)",
            ),
            (
                "away_r.away_c0, away_k2.away_v",
                "away_k2.away_v, away_r.away_c1",
            ),
            ("away_r.away_c0 <> ", "away_r.away_c1 <> "),
            ("away_r.away_c0 % ", "away_r.away_c1 % "),
            (
                "away_k8.away_v, away_r.away_c1",
                "away_r.away_c0, away_k8.away_v",
            ),
            ("away_r.away_c0 / ", "away_r.away_c1 / "),
            (
                "away_k10.away_v, away_r.away_c1",
                "away_r.away_c0, away_k10.away_v",
            ),
            ("* away_r.away_c0 +", "* away_r.away_c1 +"),
            ("(SELECT away_r.away_c1) AS", "(SELECT away_r.away_c0) AS"),
            (
                "away_r.away_c0, away_k2.away_v",
                "away_k2.away_v, away_r.away_c1",
            ),
            ("(SELECT away_r.away_c1 + ", "(SELECT away_r.away_c0 + "),
        ],
        0,
        "accepted\n",
    ),
    // Two lets exchanged.
    (
        PRODUCT,
        &[(
            "LATERAL (SELECT away_r.away_c0 + CAST(1 AS integer)) AS away_k4(away_v), LATERAL (SELECT away_r.away_c0 + CAST(2 AS integer)) AS away_k5(away_v)",
            "LATERAL (SELECT away_r.away_c0 + CAST(2 AS integer)) AS away_k5(away_v), LATERAL (SELECT away_r.away_c0 + CAST(1 AS integer)) AS away_k4(away_v)",
        )],
        8,
        "not accepted S7\n",
    ),
    // A let left out whose value nothing uses.
    (
        UNUSED,
        &[(
            "LATERAL (SELECT CAST(CAST(1 AS integer) / CAST(0 AS integer) AS bigint)) AS away_k3(away_v), ",
            "",
        )],
        8,
        "not accepted S7\n",
    ),
    // A gate left out.
    (
        UNUSED,
        &[(
            "LATERAL (SELECT CAST(TRUE AS boolean) WHERE away_r.away_fn = CAST(1 AS bigint)) AS away_k1(away_v), ",
            "",
        )],
        8,
        "not accepted S7\n",
    ),
    // The class in the column of the value.
    (
        RAISED,
        &[(
            "CAST(NULL AS text), CAST('AB123' AS text)",
            "CAST('AB123' AS text), CAST(NULL AS text)",
        )],
        8,
        "not accepted S7\n",
    ),
];

/// What `certify` writes for a function.
fn certified(alloc: Global, function: &str) -> Result<Run, AllocError> {
    let files: [(&str, &[u8]); 2] = [("s.sql", b" "), ("f.sql", function.as_bytes())];
    execute(alloc, &["certify", "s.sql", "f.sql"], &files, &[], &[])
}

/// The text that a run wrote.
fn text_of(run: &Run) -> &str {
    str::from_utf8(run.sink.written()).unwrap_or("")
}

/// A text with parts put in place of others, one after the other.
pub fn edited(alloc: Global, text: &str, edits: &[(&str, &str)]) -> Result<String, AllocError> {
    let mut made = String::from_str(alloc, text)?;
    for (old, new) in edits {
        made = replaced(alloc, &made, old, new)?;
    }
    Ok(made)
}

/// Runs `check` on a function and a text of two lines, its certificate and its query.
pub fn checked<'x>(alloc: Global, function: &'x str, text: &'x str) -> Result<Run, AllocError> {
    let (cert, query) = text.split_once("\n").unwrap_or(("", ""));
    let files: [(&str, &[u8]); 4] = [
        ("s.sql", b" "),
        ("f.sql", function.as_bytes()),
        ("q.sql", query.as_bytes()),
        ("c.json", cert.as_bytes()),
    ];
    let words = ["check", "s.sql", "f.sql", "q.sql", "c.json"];
    execute(alloc, &words, &files, &[], &[])
}

#[test]
fn edited_texts_are_judged(rt: HostRuntime) -> Result<(), Fail> {
    let alloc = rt.alloc();
    for (function, edits, status, line) in EDITED.iter() {
        let written = certified(alloc, function)?;
        let text = edited(alloc, text_of(&written), edits)?;
        let run = checked(alloc, function, &text)?;
        assert_eq!(rt; code(&run.status), *status);
        assert_eq!(rt; run.sink.written(), line.as_bytes());
    }
    Ok(())
}

// The labels are the entry, the head of the loop and the assignment behind the test.
#[test]
fn collatz_has_three_labels_and_two_columns(rt: HostRuntime) -> Result<(), Fail> {
    let run = certified(rt.alloc(), COLLATZ)?;
    let text = text_of(&run);
    assert!(rt; text.split_once("\"labels\":[0,3,7],").is_some());
    assert!(rt;
        text.split_once("\"columns\":[\"bigint\",\"bigint\"],")
            .is_some()
    );
    Ok(())
}
