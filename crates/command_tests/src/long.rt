//! Files with 20,000 blanks in front of what they hold.

use crate::checks::{FORMS, FUNCTION, MERGED, ONE_LABEL};
use crate::held::execute;
use away_top::code;
use std::alloc::{AllocError, Global};
use std::test::Fail;

fn long(alloc: Global, text: &[u8]) -> Result<Vec<u8>, AllocError> {
    let mut long = vec![in alloc; b' '; 20_000]?;
    long.extend_from_slice(text)?;
    Ok(long)
}

#[test]
fn long_files_are_read(rt: HostRuntime) -> Result<(), Fail> {
    let alloc = rt.alloc();
    let function = long(alloc, FUNCTION)?;
    let query = long(alloc, MERGED.as_bytes())?;
    let mut cert = long(alloc, FORMS.as_bytes())?;
    cert.extend_from_slice(ONE_LABEL.as_bytes())?;
    let files: [(&str, &[u8]); 5] = [
        ("s.sql", b" "),
        ("short.sql", FUNCTION),
        ("f.sql", &function),
        ("q.sql", &query),
        ("c.json", &cert),
    ];
    let short = execute(alloc, &["certify", "s.sql", "short.sql"], &files, &[], &[])?;
    let rows: [(&[&str], &[u8]); 3] = [
        (&["certify", "s.sql", "f.sql"], short.sink.written()),
        (
            &["check", "s.sql", "f.sql", "q.sql", "c.json"],
            b"accepted\n",
        ),
        (&["sql", "2", "s.sql", "q.sql", "d", "5"], b"value 1\n"),
    ];
    for (words, output) in rows {
        let run = execute(alloc, words, &files, &[], &[])?;
        assert_eq!(rt; code(&run.status), 0);
        assert_eq!(rt; run.sink.written(), output);
    }
    Ok(())
}
