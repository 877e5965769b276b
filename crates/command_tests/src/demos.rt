//! Cases that are shown.

use crate::held::{Run, execute};
use away_top::code;
use std::alloc::{AllocError, Global};
use std::process::Abort;
use std::test::Fail;

/// The run of `demo` over no files.
fn demo(alloc: Global, number: &str) -> Result<Run, AllocError> {
    execute(alloc, &["demo", number], &[], &[], &[])
}

/// The line that begins with the word, without it.
fn behind<'x>(output: &'x [u8], word: &[u8]) -> Option<&'x [u8]> {
    output
        .split(|byte| *byte == b'\n')
        .find_map(|line| line.strip_prefix(word))
}

fn show_agreement(rt: &impl Abort, run: &Run) {
    let output = run.sink.written();
    assert_eq!(rt; code(&run.status), 0);
    let function = behind(output, b"function ").unwrap_or(b"");
    assert!(rt; function.starts_with(b"value "));
    assert_eq!(rt; behind(output, b"query ").unwrap_or(b""), function);
    assert_ne!(rt;
        behind(output, b"iterations ").unwrap_or(b"more"),
        b"more".as_slice()
    );
}

#[test]
fn a_case_is_shown(rt: HostRuntime) -> Result<(), Fail> {
    let alloc = rt.alloc();
    let first = demo(alloc, "7")?;
    show_agreement(&rt, &first);
    let second = demo(alloc, "7")?;
    assert_eq!(&rt; second.sink.written(), first.sink.written());
    Ok(())
}

#[test]
fn the_greatest_number_has_a_case(rt: HostRuntime) -> Result<(), Fail> {
    show_agreement(&rt, &demo(rt.alloc(), "18446744073709551615")?);
    Ok(())
}

#[test]
fn a_number_is_digits_of_64_bits(rt: HostRuntime) -> Result<(), Fail> {
    let alloc = rt.alloc();
    for word in ["18446744073709551616", "-1", "+1", "", "seven", " 7"] {
        let run = demo(alloc, word)?;
        assert_eq!(&rt; code(&run.status), 2);
        assert_eq!(&rt; run.sink.written(), b"usage\n".as_slice());
    }
    for words in [&["demo"][..], &["demo", "7", "7"], &["Demo", "7"]] {
        assert_eq!(&rt; code(&execute(alloc, words, &[], &[], &[])?.status), 2);
    }
    Ok(())
}
