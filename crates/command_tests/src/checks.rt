//! Certificates of a function and its query, with the status and the line of each.

use crate::edited::{edited, replaced};
use crate::held::{Run, execute};
use away_top::code;
use std::alloc::{AllocError, Global};
use std::test::Fail;

pub const FUNCTION: &[u8] =
    b"CREATE FUNCTION sign_of(a bigint) RETURNS bigint LANGUAGE plpgsql AS $$ BEGIN IF a > 0 THEN RETURN 1; END IF; RETURN 2; END; $$;";

/// The query of the form in which each block is a label.
pub const LABELS: &str =
    "WITH RECURSIVE away_r(away_go, away_fn, away_c0, away_res, away_err) AS (SELECT CAST(TRUE AS boolean), CAST(4 AS bigint), CAST($1 AS bigint), CAST(NULL AS bigint), CAST(NULL AS text) UNION ALL SELECT away_s.away_go, away_s.away_fn, away_s.away_c0, away_s.away_res, away_s.away_err FROM away_r, LATERAL (SELECT CAST(FALSE AS boolean), CAST(0 AS bigint), CAST(NULL AS bigint), away_k2.away_v, CAST(NULL AS text) FROM LATERAL (SELECT CAST(TRUE AS boolean) WHERE away_r.away_fn = CAST(1 AS bigint)) AS away_k1(away_v), LATERAL (SELECT CAST(CAST(2 AS integer) AS bigint)) AS away_k2(away_v) UNION ALL SELECT CAST(FALSE AS boolean), CAST(0 AS bigint), CAST(NULL AS bigint), away_k4.away_v, CAST(NULL AS text) FROM LATERAL (SELECT CAST(TRUE AS boolean) WHERE away_r.away_fn = CAST(2 AS bigint)) AS away_k3(away_v), LATERAL (SELECT CAST(CAST(1 AS integer) AS bigint)) AS away_k4(away_v) UNION ALL SELECT away_k7.away_go, away_k7.away_fn, away_k7.away_c0, away_k7.away_res, away_k7.away_err FROM LATERAL (SELECT CAST(TRUE AS boolean) WHERE away_r.away_fn = CAST(3 AS bigint)) AS away_k5(away_v), LATERAL (SELECT away_r.away_c0 > CAST(0 AS integer)) AS away_k6(away_v), LATERAL (SELECT CAST(TRUE AS boolean), CAST(2 AS bigint), CAST(NULL AS bigint), CAST(NULL AS bigint), CAST(NULL AS text) FROM LATERAL (SELECT CAST(TRUE AS boolean) WHERE away_k6.away_v) AS away_k8(away_v) UNION ALL SELECT CAST(TRUE AS boolean), CAST(1 AS bigint), CAST(NULL AS bigint), CAST(NULL AS bigint), CAST(NULL AS text) FROM LATERAL (SELECT CAST(TRUE AS boolean) WHERE away_k6.away_v IS NOT TRUE) AS away_k9(away_v)) AS away_k7(away_go, away_fn, away_c0, away_res, away_err) UNION ALL SELECT CAST(TRUE AS boolean), CAST(3 AS bigint), away_r.away_c0, CAST(NULL AS bigint), CAST(NULL AS text) FROM LATERAL (SELECT CAST(TRUE AS boolean) WHERE away_r.away_fn = CAST(4 AS bigint)) AS away_k10(away_v)) AS away_s(away_go, away_fn, away_c0, away_res, away_err) WHERE away_r.away_go) SELECT away_r.away_res, away_r.away_err FROM away_r WHERE NOT away_r.away_go";

/// The query of the form in which all blocks are merged into the entry.
pub const MERGED: &str =
    "WITH RECURSIVE away_r(away_go, away_fn, away_c0, away_res, away_err) AS (SELECT CAST(TRUE AS boolean), CAST(1 AS bigint), CAST($1 AS bigint), CAST(NULL AS bigint), CAST(NULL AS text) UNION ALL SELECT away_s.away_go, away_s.away_fn, away_s.away_c0, away_s.away_res, away_s.away_err FROM away_r, LATERAL (SELECT away_k3.away_go, away_k3.away_fn, away_k3.away_c0, away_k3.away_res, away_k3.away_err FROM LATERAL (SELECT CAST(TRUE AS boolean) WHERE away_r.away_fn = CAST(1 AS bigint)) AS away_k1(away_v), LATERAL (SELECT away_r.away_c0 > CAST(0 AS integer)) AS away_k2(away_v), LATERAL (SELECT CAST(FALSE AS boolean), CAST(0 AS bigint), CAST(NULL AS bigint), away_k5.away_v, CAST(NULL AS text) FROM LATERAL (SELECT CAST(TRUE AS boolean) WHERE away_k2.away_v) AS away_k4(away_v), LATERAL (SELECT CAST(CAST(1 AS integer) AS bigint)) AS away_k5(away_v) UNION ALL SELECT CAST(FALSE AS boolean), CAST(0 AS bigint), CAST(NULL AS bigint), away_k7.away_v, CAST(NULL AS text) FROM LATERAL (SELECT CAST(TRUE AS boolean) WHERE away_k2.away_v IS NOT TRUE) AS away_k6(away_v), LATERAL (SELECT CAST(CAST(2 AS integer) AS bigint)) AS away_k7(away_v)) AS away_k3(away_go, away_fn, away_c0, away_res, away_err)) AS away_s(away_go, away_fn, away_c0, away_res, away_err) WHERE away_r.away_go) SELECT away_r.away_res, away_r.away_err FROM away_r WHERE NOT away_r.away_go\n";

/// The forms before the labels.
pub const FORMS: &str =
    "{\"goto\":{\"entry\":0,\"end\":4,\"nodes\":[1,1,1,1,2,3],\"blocks\":[[false,null,[\"jump\",1]],[false,null,[\"branch\",0,[0],2,3]],[false,null,[\"return\",1,[]]],[false,null,[\"return\",2,[]]],[false,null,[\"fail\",\"2F005\"]]]},\"ssa\":{\"names\":[0],\"blocks\":[[[[0,0]],[],null,[\"jump\",1]],[[[0,0]],[],null,[\"branch\",0,[0],2,3]],[[],[],null,[\"return\",1,[]]],[[],[],null,[\"return\",2,[]]],[[],[],null,[\"fail\",\"2F005\"]]]},\"anf\":{\"blocks\":[[[0],null,[\"call\",1,[0]]],[[0],null,[\"if\",0,[0],2,[],3,[]]],[[],null,[\"return\",1,[]]],[[],null,[\"return\",2,[]]],[[],null,[\"fail\",\"2F005\"]]]},";

const ALL_LABELS: &str =
    "\"labels\":[3,2,1,0],\"columns\":[\"bigint\"],\"places\":[[],[],[0],[0]]}";

pub const ONE_LABEL: &str = "\"labels\":[0],\"columns\":[\"bigint\"],\"places\":[[0]]}";

fn run<'x>(alloc: Global, query: &'x str, cert: &'x str) -> Result<Run, AllocError> {
    let files: [(&str, &[u8]); 4] = [
        ("s.sql", b" "),
        ("f.sql", FUNCTION),
        ("q.sql", query.as_bytes()),
        ("c.json", cert.as_bytes()),
    ];
    execute(
        alloc,
        &["check", "s.sql", "f.sql", "q.sql", "c.json"],
        &files,
        &[],
        &[],
    )
}

/// The tail form behind the others, and what is put in place of what in the whole; whether the query is that of all labels; the status and the line.
static VERDICTS: [(&str, &str, &str, bool, u8, &str); 24] = [
    (ALL_LABELS, "", "", true, 0, "accepted\n"),
    (ONE_LABEL, "", "", false, 0, "accepted\n"),
    (ONE_LABEL, "", "", true, 8, "not accepted S7\n"),
    (ALL_LABELS, "", "", false, 8, "not accepted S7\n"),
    (
        ALL_LABELS,
        "\"end\":4",
        "\"end\":3",
        true,
        8,
        "not accepted S2\n",
    ),
    (
        ALL_LABELS,
        "\"entry\":0",
        "\"entry\":1",
        true,
        8,
        "not accepted S2\n",
    ),
    (
        ALL_LABELS,
        "[false,null,[\"branch\"",
        "[true,null,[\"branch\"",
        true,
        8,
        "not accepted S2\n",
    ),
    (
        ALL_LABELS,
        "[[0,0]],[],null,[\"jump\"",
        "[[0,1]],[],null,[\"jump\"",
        true,
        8,
        "not accepted S3\n",
    ),
    (
        ALL_LABELS,
        "\"names\":[0]",
        "\"names\":[1]",
        true,
        8,
        "not accepted S3\n",
    ),
    (
        ALL_LABELS,
        "[\"call\",1,[0]]",
        "[\"call\",2,[0]]",
        true,
        8,
        "not accepted S4\n",
    ),
    (
        ALL_LABELS,
        "[\"if\",0,[0],2,[],3,[]]",
        "[\"if\",0,[0],3,[],2,[]]",
        true,
        8,
        "not accepted S4\n",
    ),
    (
        ALL_LABELS,
        "[3,2,1,0]",
        "[3,2,1,1]",
        true,
        8,
        "not accepted S5\n",
    ),
    (
        ALL_LABELS,
        "[3,2,1,0]",
        "[3,2,1,7]",
        true,
        8,
        "not accepted S5\n",
    ),
    (
        ALL_LABELS,
        "\"columns\":[\"bigint\"]",
        "\"columns\":[\"text\"]",
        true,
        8,
        "not accepted S6\n",
    ),
    (
        ALL_LABELS,
        "[[],[],[0],[0]]",
        "[[],[],[0],[1]]",
        true,
        8,
        "not accepted S6\n",
    ),
    (
        ALL_LABELS,
        "[[],[],[0],[0]]",
        "[[],[0],[0]]",
        true,
        8,
        "not accepted S6\n",
    ),
    (
        ALL_LABELS,
        "[3,2,1,0]",
        "[2,3,1,0]",
        true,
        8,
        "not accepted S7\n",
    ),
    (
        ALL_LABELS,
        "{\"goto\"",
        "\"goto\"",
        true,
        1,
        "refused c.json C1\n",
    ),
    (
        ALL_LABELS,
        "\"entry\":0",
        "\"entry\":-1",
        true,
        1,
        "refused c.json C2 goto.entry\n",
    ),
    (
        ALL_LABELS,
        "\"entry\":0,",
        "",
        true,
        1,
        "refused c.json C2 goto.entry\n",
    ),
    (
        ALL_LABELS,
        "\"2F005\"",
        "\"2f005\"",
        true,
        1,
        "refused c.json C2 goto.blocks\n",
    ),
    (
        ALL_LABELS,
        "\"labels\"",
        "\"label\"",
        true,
        1,
        "refused c.json C2 labels\n",
    ),
    (
        ALL_LABELS,
        "[\"bigint\"]",
        "[\"integer\"]",
        true,
        8,
        "not accepted S6\n",
    ),
    (
        ALL_LABELS,
        "[\"bigint\"]",
        "[\"int\"]",
        true,
        1,
        "refused c.json C2 columns\n",
    ),
];

#[test]
fn certificates_are_judged(rt: HostRuntime) -> Result<(), Fail> {
    let alloc = rt.alloc();
    for (tail, old, new, labels, status, line) in &VERDICTS {
        let mut cert = String::from_str(alloc, FORMS)?;
        cert.push_str(tail)?;
        let cert = replaced(alloc, &cert, old, new)?;
        let query = if *labels { LABELS } else { MERGED };
        let run = run(alloc, query, &cert)?;
        assert_eq!(rt; code(&run.status), *status);
        assert_eq!(rt; run.sink.written(), line.as_bytes());
    }
    Ok(())
}

/// A query that differs in one place, with the line of its verdict.
static QUERIES: [(&str, &str, &str); 7] = [
    (
        "away_k6.away_v IS NOT TRUE",
        "away_k6.away_v IS FALSE",
        "not accepted S7\n",
    ),
    (
        "away_c0 > CAST(0 AS integer)",
        "away_c0 > CAST(1 AS integer)",
        "not accepted S7\n",
    ),
    (
        "SELECT CAST(FALSE AS boolean), CAST(0 AS bigint)",
        "SELECT CAST(TRUE AS boolean), CAST(0 AS bigint)",
        "not accepted S7\n",
    ),
    (
        "CAST(4 AS bigint), CAST($1 AS bigint)",
        "CAST(3 AS bigint), CAST($1 AS bigint)",
        "not accepted S7\n",
    ),
    (
        "WHERE away_r.away_go)",
        "WHERE away_r.away_go IS NOT NULL)",
        "not accepted S7\n",
    ),
    ("away_k6(away_v)", "away_k6(v)", "refused q.sql X7\n"),
    ("AS away_k1(away_v)", "AS gate(open)", "accepted\n"),
];

#[test]
fn other_queries_are_not_accepted(rt: HostRuntime) -> Result<(), Fail> {
    let alloc = rt.alloc();
    let mut cert = String::from_str(alloc, FORMS)?;
    cert.push_str(ALL_LABELS)?;
    for (old, new, line) in &QUERIES {
        let query = replaced(alloc, LABELS, old, new)?;
        let run = run(alloc, &query, &cert)?;
        assert_eq!(rt; run.sink.written(), line.as_bytes());
    }
    Ok(())
}

/// Block 2 has a further parameter, which nothing reads: in the form, as a place, and in the query.
static FURTHER_IN_THE_CERTIFICATE: [(&str, &str); 2] = [
    ("2,[],3,[]]],[[],null", "2,[0],3,[]]],[[0],null"),
    ("\"places\":[[],[],", "\"places\":[[],[0],"),
];

static FURTHER_IN_THE_QUERY: [(&str, &str); 1] = [(
    "CAST(2 AS bigint), CAST(NULL AS bigint), CAST(NULL AS bigint)",
    "CAST(2 AS bigint), away_r.away_c0, CAST(NULL AS bigint)",
)];

#[test]
fn a_name_that_nothing_reads_may_be_passed(rt: HostRuntime) -> Result<(), Fail> {
    let alloc = rt.alloc();
    let mut cert = String::from_str(alloc, FORMS)?;
    cert.push_str(ALL_LABELS)?;
    let cert = edited(alloc, &cert, &FURTHER_IN_THE_CERTIFICATE)?;
    let query = edited(alloc, LABELS, &FURTHER_IN_THE_QUERY)?;
    let passed = run(alloc, &query, &cert)?;
    assert_eq!(rt; passed.sink.written(), b"accepted\n".as_slice());
    let not_passed = run(alloc, LABELS, &cert)?;
    assert_eq!(rt; not_passed.sink.written(), b"not accepted S7\n".as_slice());
    Ok(())
}
