//! A walk over a table of 1,000 rows, and its query.

use crate::held::{execute, show};
use away_top::code;
use std::alloc::{AllocError, Global};
use std::test::Fail;

const WALK: &[u8] =
    b"CREATE FUNCTION public.walk(lim bigint) RETURNS bigint LANGUAGE plpgsql STABLE AS $$ DECLARE best bigint; total bigint := 0; BEGIN <<outer_loop>> FOR s IN 0..99 LOOP best := (SELECT max(r.cost) FROM route r WHERE r.src = s); FOR d IN 0..9 LOOP total := total + COALESCE(best, 0); EXIT outer_loop WHEN total > lim; END LOOP; END LOOP; RETURN total; END; $$;";

/// The file of a table of 1,000 rows.
fn routes(alloc: Global) -> Result<Vec<u8>, AllocError> {
    let mut text = String::from_str(alloc, "src,dst,cost\n")?;
    for i in 0..1000usize {
        let (src, dst, cost) = (i / 10, i % 10, i * 7 % 100);
        text.push_str(&format!(in alloc; "{src},{dst},{cost}\n")?)?;
    }
    Ok(text.into_bytes())
}

const SCHEMA: &[u8] =
    b"CREATE TABLE public.route (src bigint NOT NULL, dst bigint NOT NULL, cost bigint);";

#[test]
fn a_walk_over_1000_rows(rt: HostRuntime) -> Result<(), Fail> {
    let alloc = rt.alloc();
    let rows = routes(alloc)?;
    let files: [(&str, &[u8]); 2] = [("s.sql", SCHEMA), ("f.sql", WALK)];
    let compiled = execute(alloc, &["compile", "s.sql", "f.sql"], &files, &[], &[])?;
    assert_eq!(rt; code(&compiled.status), 0);
    let files: [(&str, &[u8]); 4] = [
        ("s.sql", SCHEMA),
        ("f.sql", WALK),
        ("q.sql", compiled.sink.written()),
        ("d/route.csv", &rows),
    ];
    for (turns, iterations, limit, status, output) in [
        ("1100", "193777", "100000", 0, "value 89100\n"),
        ("64", "11441", "5000", 0, "value 5032\n"),
        ("63", "63", "5000", 6, "more\n"),
    ] {
        let words = ["fn", turns, "s.sql", "f.sql", "d", limit];
        show(
            &rt,
            &execute(alloc, &words, &files, &[], &[])?,
            status,
            output,
        );
        let words = ["sql", iterations, "s.sql", "q.sql", "d", limit];
        show(
            &rt,
            &execute(alloc, &words, &files, &[], &[])?,
            status,
            output,
        );
    }
    Ok(())
}
