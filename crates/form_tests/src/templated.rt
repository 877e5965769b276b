//! The query of a function with one test is accepted, and with a piece changed it is refused.

use crate::edits::Edit;
use crate::forms::{Example, anf, goto, ssa, tail_of};
use crate::functions::{checked, no_tables};
use away_trees::Query;
use away_types::{CheckedFunction, CheckedQuery, CheckedSchema, check_query};
use block_forms::{Goto, Ssa};
use call_forms::{Anf, Tail};
use cte_check::check_templated;
use sql_text::read_query;
use sqlite_items::Boxed;
use std::process::Abort;

/// The query of the function's tail form, where a label is each block but the last.
const PIECES: [&str; 37] = [
    "WITH RECURSIVE r(go, fn, c, res, err) AS (SELECT CAST(TRUE AS boolean), ",
    "CAST(4 AS bigint), ",
    "CAST($1 AS bigint), ",
    "CAST(NULL AS bigint), CAST(NULL AS text) UNION ALL SELECT s.go, s.fn, ",
    "s.c, s.res, s.err FROM r, ",
    "LATERAL (",
    "SELECT CAST(FALSE AS boolean), ",
    "CAST(0 AS bigint), ",
    "CAST(NULL AS bigint), v.v, CAST(NULL AS text) FROM ",
    "LATERAL (SELECT CAST(TRUE AS boolean) WHERE ",
    "r.fn = CAST(1 AS bigint)) AS k(v), ",
    "LATERAL (SELECT CAST(CAST(2 AS integer) AS bigint)) AS v(v) UNION ALL ",
    "SELECT CAST(FALSE AS boolean), CAST(0 AS bigint), CAST(NULL AS bigint), v.v, CAST(NULL AS text) FROM ",
    "LATERAL (SELECT CAST(TRUE AS boolean) WHERE r.fn = CAST(2 AS bigint)) AS k(v), ",
    "LATERAL (SELECT CAST(CAST(1 AS integer) AS bigint)) AS v(v) UNION ALL ",
    "SELECT t.go, t.fn, ",
    "t.c, t.res, t.err FROM ",
    "LATERAL (SELECT CAST(TRUE AS boolean) WHERE r.fn = CAST(3 AS bigint)) AS k(v), ",
    "LATERAL (SELECT ",
    "r.c > ",
    "CAST(0 AS integer)) AS v(v), ",
    "LATERAL (SELECT CAST(TRUE AS boolean), ",
    "CAST(2 AS bigint), ",
    "CAST(NULL AS bigint), CAST(NULL AS bigint), CAST(NULL AS text) FROM LATERAL (SELECT CAST(TRUE AS boolean) WHERE ",
    "v.v) AS k(v) UNION ALL ",
    "SELECT CAST(TRUE AS boolean), CAST(1 AS bigint), CAST(NULL AS bigint), CAST(NULL AS bigint), CAST(NULL AS text) FROM ",
    "LATERAL (SELECT CAST(TRUE AS boolean) WHERE ",
    "v.v IS NOT TRUE) AS k(v)) AS t(go, fn, c, res, err) UNION ALL ",
    "SELECT CAST(TRUE AS boolean), CAST(3 AS bigint), ",
    "r.c, ",
    "CAST(NULL AS bigint), CAST(NULL AS text) FROM ",
    "LATERAL (SELECT CAST(TRUE AS boolean) WHERE r.fn = CAST(4 AS bigint)) AS k(v)",
    ") AS s(go, fn, c, res, err) ",
    "WHERE r.go) ",
    "SELECT r.res, r.err FROM r ",
    "WHERE NOT r.go",
    "",
];

/// The query with another piece at a place.
fn text(rt: &(impl Abort + AllocGlobal), place: usize, piece: &str) -> Vec<u8> {
    let mut text = Vec::new(rt.alloc());
    for i in 0..PIECES.len() {
        let next = if i == place { piece } else { PIECES[i] };
        for byte in next.as_bytes() {
            text.push(*byte).expect(rt, "memory");
        }
    }
    text
}

fn checked_query(
    rt: &(impl Abort + AllocGlobal),
    schema: &CheckedSchema,
    query: Query,
) -> Boxed<CheckedQuery> {
    match check_query(rt.alloc(), schema, query) {
        Ok(query) => Boxed::new(rt.alloc(), query).expect(rt, "memory"),
        Err(_) => rt.abort(),
    }
}

fn query(
    rt: &(impl Abort + AllocGlobal),
    schema: &CheckedSchema,
    place: usize,
    piece: &str,
) -> Boxed<CheckedQuery> {
    let text = text(rt, place, piece);
    match read_query(rt.alloc(), &text) {
        Ok(query) => checked_query(rt, schema, query),
        Err(_) => rt.abort(),
    }
}

/// The forms below the tail form.
#[derive(Drop)]
struct LowerForms {
    goto: Goto,
    ssa: Ssa,
    anf: Anf,
}

fn lower_forms(rt: &(impl Abort + AllocGlobal)) -> LowerForms {
    LowerForms {
        goto: goto(rt, Example::Sign, &mut Edit::none()),
        ssa: ssa(rt, Example::Sign, &mut Edit::none()),
        anf: anf(rt, Example::Sign, &mut Edit::none()),
    }
}

fn is_accepted(
    rt: &(impl Abort + AllocGlobal),
    function: &CheckedFunction,
    query: &CheckedQuery,
    tail: &Tail,
    tables: usize,
) -> bool {
    let forms = lower_forms(rt);
    check_templated(
        rt.alloc(),
        function,
        &forms.goto,
        &forms.ssa,
        &forms.anf,
        tail,
        query,
        tables,
    )
    .expect(rt, "memory")
}

fn accepts(
    rt: &(impl Abort + AllocGlobal),
    place: usize,
    piece: &str,
    tail: &Tail,
    tables: usize,
) -> bool {
    let schema = no_tables(rt);
    let function = checked(rt, &schema, Example::Sign.text());
    let query = query(rt, &schema, place, piece);
    is_accepted(rt, function.get(), query.get(), tail, tables)
}

#[test]
fn each_piece_of_a_query_counts(rt: HostRuntime) {
    let tail = tail_of(&rt, Example::Sign, &mut Edit::none());
    assert!(rt; accepts(&rt, 36, "", &tail, 0), "the query itself");
    assert!(rt; !accepts(&rt, 36, "", &tail, 1), "one table");
    for (place, piece) in [
        (1, "CAST(3 AS bigint), "),
        (1, "CAST(CAST(4 AS bigint) AS bigint), "),
        (2, "CAST(NULL AS bigint), "),
        (6, "SELECT CAST(TRUE AS boolean), "),
        (7, "CAST(1 AS bigint), "),
        (9, "LATERAL (SELECT CAST(FALSE AS boolean) WHERE "),
        (9, "LATERAL (SELECT CAST(TRUE AS boolean) WHERE r.go AND "),
        (10, "r.fn = CAST(2 AS bigint)) AS k(v), "),
        (10, "r.fn <= CAST(1 AS bigint)) AS k(v), "),
        (
            11,
            "LATERAL (SELECT CAST(CAST(1 AS integer) AS bigint)) AS v(v) UNION ALL ",
        ),
        (11, "LATERAL (SELECT CAST(2 AS bigint)) AS v(v) UNION ALL "),
        (11, "LATERAL (SELECT 2) AS v(v) UNION ALL "),
        (
            11,
            "LATERAL (SELECT CAST(CAST(2 AS integer) AS bigint) LIMIT 1) AS v(v) UNION ALL ",
        ),
        (
            11,
            "LATERAL (SELECT CAST(CAST(2 AS integer) AS bigint)) AS v(v), LATERAL (SELECT CAST(CAST(2 AS integer) AS bigint)) AS w(v) UNION ALL ",
        ),
        (19, "r.fn > "),
        (19, "r.c >= "),
        (20, "CAST(1 AS integer)) AS v(v), "),
        (20, "CAST(0 AS bigint)) AS v(v), "),
        (22, "CAST(1 AS bigint), "),
        (24, "NOT v.v) AS k(v) UNION ALL "),
        (
            27,
            "v.v IS FALSE) AS k(v)) AS t(go, fn, c, res, err) UNION ALL ",
        ),
        (
            27,
            "v.v IS TRUE) AS k(v)) AS t(go, fn, c, res, err) UNION ALL ",
        ),
        (
            27,
            "v.v IS NOT TRUE LIMIT 1) AS k(v)) AS t(go, fn, c, res, err) UNION ALL ",
        ),
        (29, "r.fn, "),
        (29, "CAST(NULL AS bigint), "),
        (33, "WHERE NOT r.go) "),
        (33, ") "),
        (34, "SELECT r.fn, r.err FROM r "),
        (35, "WHERE r.go"),
        (35, ""),
    ] {
        assert!(rt; !accepts(&rt, place, piece, &tail, 0), "{place}: {piece}");
    }
}

#[test]
fn names_are_not_compared(rt: HostRuntime) {
    let tail = tail_of(&rt, Example::Sign, &mut Edit::none());
    for (place, piece) in [
        (10, "r.fn = CAST(1 AS bigint)) AS other(name), "),
        (
            0,
            "WITH RECURSIVE r(go, fn, c, res, err) AS (SELECT CAST(TRUE AS boolean) AS yes, ",
        ),
    ] {
        assert!(rt; accepts(&rt, place, piece, &tail, 0), "{piece}");
    }
}

#[test]
fn each_part_of_a_tail_form_counts(rt: HostRuntime) {
    let mut edit = Edit::none();
    tail_of(&rt, Example::Sign, &mut edit);
    for place in 0..edit.numbers() {
        for to in [0, 1, 2, 3, 4, 9] {
            let mut edit = Edit::number(place, to);
            let form = tail_of(&rt, Example::Sign, &mut edit);
            let accepted = accepts(&rt, 36, "", &form, 0);
            assert!(rt;
                accepted == edit.changes_nothing(),
                "number {place} is {to}"
            );
        }
    }
}
