//! Files, words and sinks for the tests.

use away_top::{MemoryFiles, MemorySink, Status, away, code};
use away_values::NoMemory;
use std::alloc::{AllocError, Global};
use std::process::Abort;
use std::test::Fail;

/// The bytes of files, by their names.
pub fn held(alloc: Global, files: &[(&str, &[u8])]) -> Result<Vec<(String, Vec<u8>)>, AllocError> {
    let mut held = Vec::new(alloc);
    for (name, bytes) in files {
        held.push((String::from_str(alloc, name)?, bytes.to_vec(alloc)?))?;
    }
    Ok(held)
}

pub fn words(alloc: Global, list: &[&str]) -> Result<Vec<String>, AllocError> {
    let mut words = Vec::new(alloc);
    for word in list {
        words.push(String::from_str(alloc, word)?)?;
    }
    Ok(words)
}

/// What a run leaves.
#[derive(Drop)]
pub struct Run {
    pub status: Status,
    pub sink: MemorySink,
}

/// Runs the words over these files; the writes fail as they are told.
pub fn execute(
    alloc: Global,
    list: &[&str],
    files: &[(&str, &[u8])],
    reads: &[u64],
    writes: &[(u64, usize)],
) -> Result<Run, AllocError> {
    let words = words(alloc, list)?;
    let mut files = MemoryFiles::new(held(alloc, files)?, reads.to_vec(alloc)?);
    match MemorySink::new(alloc, 65536, writes.to_vec(alloc)?) {
        Ok(mut sink) => {
            let status = away(alloc, &words, &mut files, &mut sink);
            Ok(Run { status, sink })
        }
        Err(NoMemory) => Err(AllocError),
    }
}

/// That a run ended with this status and wrote this.
pub fn show(rt: &impl Abort, run: &Run, status: u8, output: &str) {
    assert_eq!(rt; code(&run.status), status);
    assert_eq!(rt; run.sink.written(), output.as_bytes());
}

/// A function of this body over the parameters a and b.
pub fn function(alloc: Global, value: &str) -> Result<Vec<u8>, AllocError> {
    let text = format!(in alloc;
        "CREATE FUNCTION f(a bigint, b bigint) RETURNS bigint LANGUAGE plpgsql AS $$ BEGIN RETURN {value}; END; $$;"
    )?;
    Ok(text.into_bytes())
}

/// So many parentheses round a value.
pub fn nested(alloc: Global, depth: usize) -> Result<String, AllocError> {
    let mut text = String::new(alloc);
    for _ in 0..depth {
        text.push_str("(")?;
    }
    text.push_str("a")?;
    for _ in 0..depth {
        text.push_str(")")?;
    }
    Ok(text)
}

/// What `compile` writes for a function in `f.sql`, over a schema without tables.
pub fn compile(alloc: Global, function: &[u8]) -> Result<Run, Fail> {
    Ok(execute(
        alloc,
        &["compile", "s.sql", "f.sql"],
        &[("s.sql", b" \n"), ("f.sql", function)],
        &[],
        &[],
    )?)
}
