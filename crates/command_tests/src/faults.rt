//! Reads and writes that fail, and words that are none.

use crate::held::{execute, held, show};
use away_top::{Files, MemoryFiles, ReadError};
use std::test::Fail;

#[test]
fn a_write_that_fails_leaves_a_front(rt: HostRuntime) -> Result<(), Fail> {
    let alloc = rt.alloc();
    let files: [(&str, &[u8]); 2] = [
        ("s.sql", b""),
        (
            "f.sql",
            b"CREATE FUNCTION f() RETURNS bigint LANGUAGE plpgsql AS $$ BEGIN RETURN 1; END $$",
        ),
    ];
    let compile = ["compile", "s.sql", "f.sql"];
    show(
        &rt,
        &execute(alloc, &compile, &files, &[], &[(1, 3)])?,
        4,
        "WIT",
    );
    show(
        &rt,
        &execute(alloc, &compile, &[], &[], &[(1, 3)])?,
        4,
        "rea",
    );
    let refused: [(&str, &[u8]); 2] = [("s.sql", b""), ("f.sql", b"")];
    show(
        &rt,
        &execute(alloc, &compile, &refused, &[], &[(1, 3)])?,
        4,
        "ref",
    );
    show(&rt, &execute(alloc, &[], &[], &[], &[(1, 0)])?, 4, "");
    Ok(())
}

#[test]
fn a_read_that_fails_is_told(rt: HostRuntime) -> Result<(), Fail> {
    let alloc = rt.alloc();
    for (call, output) in [(1, "read fault s.sql\n"), (2, "read fault f.sql\n")] {
        let files: [(&str, &[u8]); 2] = [("s.sql", b" "), ("f.sql", b"?")];
        show(
            &rt,
            &execute(alloc, &["compile", "s.sql", "f.sql"], &files, &[call], &[])?,
            3,
            output,
        );
    }
    Ok(())
}

#[test]
fn limits_of_a_read(rt: HostRuntime) -> Result<(), Fail> {
    let alloc = rt.alloc();
    let files = held(alloc, &[("f", b"abc"), ("f", b"not this one")])?;
    let mut files = MemoryFiles::new(files, Vec::new(alloc));
    match files.read(alloc, "f", 3) {
        Ok(bytes) => assert_eq!(rt; bytes.as_slice(), b"abc".as_slice()),
        Err(_) => assert!(rt; false),
    }
    assert!(rt; matches!(&files.read(alloc, "f", 2), Err(ReadError::Long(3))));
    assert!(rt; matches!(&files.read(alloc, "none", 2), Err(ReadError::Failed)));
    Ok(())
}

#[test]
fn no_words_are_usage(rt: HostRuntime) -> Result<(), Fail> {
    show(&rt, &execute(rt.alloc(), &[], &[], &[], &[])?, 2, "usage\n");
    Ok(())
}
