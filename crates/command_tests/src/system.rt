//! The system's files and a writer.

use away_top::{Files, ReadError, RealFiles, RealSink, Sink};
use std::fs;
use std::test::Fail;

#[test]
fn a_file_that_is_not_there_fails(rt: HostRuntime) {
    let mut files = RealFiles::new(&rt);
    let answer = files.read(rt.alloc(), "no such file", 10);
    assert!(rt; matches!(&answer, Err(ReadError::Failed)));
}

// Longer than what is read at once, and no multiple of it.
const LENGTH: u64 = 20_001;

#[test]
fn a_file_is_read_whole(rt: HostRuntime) -> Result<(), Fail> {
    let alloc = rt.alloc();
    let bytes = vec![in alloc; b'x'; LENGTH as usize]?;
    fs::write(&rt, "whole", bytes.as_slice())?;
    let mut files = RealFiles::new(&rt);
    match files.read(alloc, "whole", LENGTH) {
        Ok(found) => assert_eq!(rt; found.as_slice(), bytes.as_slice()),
        Err(_) => assert!(rt; false),
    }
    Ok(())
}

#[test]
fn a_longer_file_is_long(rt: HostRuntime) -> Result<(), Fail> {
    let alloc = rt.alloc();
    let bytes = vec![in alloc; b'x'; LENGTH as usize]?;
    fs::write(&rt, "longer", bytes.as_slice())?;
    let mut files = RealFiles::new(&rt);
    let by_one = files.read(alloc, "longer", LENGTH - 1);
    assert!(rt; matches!(&by_one, Err(ReadError::Long(LENGTH))));
    let by_far = files.read(alloc, "longer", 10);
    assert!(rt; matches!(&by_far, Err(ReadError::Long(11))));
    let empty = files.read(alloc, "longer", 0);
    assert!(rt; matches!(&empty, Err(ReadError::Long(1))));
    Ok(())
}

#[test]
fn a_writer_takes_what_is_written(rt: HostRuntime) -> Result<(), Fail> {
    let mut bytes = Vec::new(rt.alloc());
    let mut sink = RealSink::new(&mut bytes);
    assert!(rt; sink.write(b"three ").is_ok());
    assert!(rt; sink.write(b"words").is_ok());
    drop(sink);
    assert_eq!(rt; bytes.as_slice(), b"three words".as_slice());
    Ok(())
}
