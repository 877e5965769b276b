//! Runs over files and a sink in memory, whose only end is the answer or want of memory.

use crate::held::{execute, function, held, words};
use away_top::{MemoryFiles, MemorySink, Status, away_in_memory, code};
use std::test::Fail;

pub const TOTAL: &str =
    "WITH RECURSIVE away_r(away_go, away_fn, away_c0, away_c1, away_res, away_err) AS (SELECT CAST(TRUE AS boolean), CAST(1 AS bigint), CAST($1 AS bigint), CAST($2 AS bigint), CAST(NULL AS bigint), CAST(NULL AS text) UNION ALL SELECT away_s.away_go, away_s.away_fn, away_s.away_c0, away_s.away_c1, away_s.away_res, away_s.away_err FROM away_r, LATERAL (SELECT CAST(FALSE AS boolean), CAST(0 AS bigint), CAST(NULL AS bigint), CAST(NULL AS bigint), away_k2.away_v, CAST(NULL AS text) FROM LATERAL (SELECT CAST(TRUE AS boolean) WHERE away_r.away_fn = CAST(1 AS bigint)) AS away_k1(away_v), LATERAL (SELECT away_r.away_c0 + away_r.away_c1 * CAST(2 AS integer)) AS away_k2(away_v)) AS away_s(away_go, away_fn, away_c0, away_c1, away_res, away_err) WHERE away_r.away_go) SELECT away_r.away_res, away_r.away_err FROM away_r WHERE NOT away_r.away_go\n";

const SUM: &str =
    "WITH RECURSIVE t(i) AS (SELECT 1 UNION ALL SELECT t.i + 1 FROM t WHERE t.i < 5) SELECT CAST(sum(t.i) AS bigint), CAST(NULL AS text) FROM t";

const COUNTING: &str =
    "WITH RECURSIVE t(i) AS (SELECT 1 UNION ALL SELECT t.i + 1 FROM t WHERE t.i < 5) SELECT t.i FROM t";

#[test]
fn a_run_in_memory_compiles(rt: HostRuntime) -> Result<(), Fail> {
    let alloc = rt.alloc();
    let function = function(alloc, "a + b * 2")?;
    let files = held(alloc, &[("s.sql", b""), ("f.sql", &function)])?;
    let mut files = MemoryFiles::new(files, Vec::new(alloc));
    let list = words(alloc, &["compile", "s.sql", "f.sql"])?;
    let Ok(mut sink) = MemorySink::new(alloc, TOTAL.len(), Vec::new(alloc)) else {
        return Ok(());
    };
    let status = away_in_memory(alloc, &list, &mut files, &mut sink);
    assert_eq!(rt; code(&status), 0);
    assert_eq!(rt; sink.written(), TOTAL.as_bytes());
    Ok(())
}

#[test]
fn a_run_in_memory_calls(rt: HostRuntime) -> Result<(), Fail> {
    let alloc = rt.alloc();
    let files = held(
        alloc,
        &[
            ("s.sql", b""),
            (
                "f.sql",
                b"CREATE FUNCTION f() RETURNS bigint LANGUAGE plpgsql AS $$ BEGIN RETURN 15; END; $$;",
            ),
        ],
    )?;
    let mut files = MemoryFiles::new(files, Vec::new(alloc));
    let list = words(alloc, &["fn", "0", "s.sql", "f.sql", "d"])?;
    let Ok(mut sink) = MemorySink::new(alloc, 9, Vec::new(alloc)) else {
        return Ok(());
    };
    let status = away_in_memory(alloc, &list, &mut files, &mut sink);
    assert_eq!(rt; code(&status), 0);
    assert_eq!(rt; sink.written(), b"value 15\n".as_slice());
    Ok(())
}

#[test]
fn a_run_in_memory_answers(rt: HostRuntime) -> Result<(), Fail> {
    let alloc = rt.alloc();
    let files = held(alloc, &[("s.sql", b""), ("q.sql", SUM.as_bytes())])?;
    let mut files = MemoryFiles::new(files, Vec::new(alloc));
    let list = words(alloc, &["sql", "5", "s.sql", "q.sql", "d"])?;
    let Ok(mut sink) = MemorySink::new(alloc, 9, Vec::new(alloc)) else {
        return Ok(());
    };
    let status = away_in_memory(alloc, &list, &mut files, &mut sink);
    assert_eq!(rt; code(&status), 0);
    assert_eq!(rt; sink.written(), b"value 15\n".as_slice());
    Ok(())
}

#[test]
fn a_run_in_memory_writes_rows(rt: HostRuntime) -> Result<(), Fail> {
    let alloc = rt.alloc();
    let files = held(alloc, &[("s.sql", b""), ("q.sql", COUNTING.as_bytes())])?;
    let mut files = MemoryFiles::new(files, Vec::new(alloc));
    let list = words(alloc, &["rows", "5", "s.sql", "q.sql", "d"])?;
    let Ok(mut sink) = MemorySink::new(alloc, 10, Vec::new(alloc)) else {
        return Ok(());
    };
    let status = away_in_memory(alloc, &list, &mut files, &mut sink);
    assert_eq!(rt; code(&status), 0);
    assert_eq!(rt; sink.written(), b"1\n2\n3\n4\n5\n".as_slice());
    Ok(())
}

// Where memory is wanting, nothing was written and the status is 5.
#[test]
fn want_of_memory_writes_nothing(rt: HostRuntime) {
    let alloc = rt.alloc();
    let files: [(&str, &[u8]); 2] = [
        ("s.sql", b""),
        (
            "f.sql",
            b"CREATE FUNCTION f() RETURNS bigint LANGUAGE plpgsql AS $$ BEGIN RETURN 1; END $$",
        ),
    ];
    if let Ok(run) = execute(alloc, &["compile", "s.sql", "f.sql"], &files, &[], &[]) {
        assert!(rt; matches!(run.status, Status::Done | Status::NoMemory));
        assert_eq!(rt;
            run.sink.written().is_empty(),
            run.status == Status::NoMemory
        );
    }
}
