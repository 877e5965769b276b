// The program: each line of the file `runs` is a run of away over the files of this folder. Each is shown with what it wrote and its status.
#![tactic(auto)]

mod words;

use crate::words::words_of;
use away_top::{RealFiles, RealSink, Status, away, code};
use std::alloc::AllocError;
use std::io::Write;
use std::rt::Files;
use std::{fs, io};

fn main(rt: HostRuntime) -> io::Result<()> {
    let runs = fs::read_to_string(&rt, "runs")?;
    for line in runs.lines() {
        if line.is_empty() || line.starts_with('#') {
            println!(rt; "{line}")?;
        } else {
            show(&rt, line)?;
        }
    }
    Ok(())
}

// A run with what it wrote and its status. Files behind a `>` take what a run with status 0 wrote.
fn show<R: Files + Print + AllocGlobal>(rt: &R, line: &str) -> io::Result<()> {
    let (command, files) = line.split_once(" > ").unwrap_or((line, ""));
    println!(rt; "$ away {line}")?;
    let (status, written) = run(rt, command)?;
    if files.is_empty() || status != Status::Done {
        io::writer(rt).write_all(&written)?;
    } else {
        keep(rt, files, &written)?;
    }
    let status = code(&status);
    println!(rt; "-> {status}")
}

// The status of a run over the system's files, and what it writes.
fn run<R: Files + AllocGlobal>(rt: &R, command: &str) -> Result<(Status, Vec<u8>), AllocError> {
    let words = words_of(rt.alloc(), command)?;
    let mut written = Vec::new(rt.alloc());
    let mut files = RealFiles::new(rt);
    let mut out = RealSink::new(&mut written);
    let status = away(rt.alloc(), &words, &mut files, &mut out);
    drop(out);
    Ok((status, written))
}

// Puts what a run wrote into files: a line into each but the last, and all that is left into the last.
fn keep<R: Files + AllocGlobal>(rt: &R, files: &str, written: &[u8]) -> io::Result<()> {
    let files = words_of(rt.alloc(), files)?;
    let parts = written.splitn(files.len(), |byte| *byte == b'\n');
    for (file, part) in files.iter().zip(parts) {
        fs::write(rt, file.as_str(), part)?;
    }
    Ok(())
}
