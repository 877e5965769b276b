//! The system's standard output, or another writer. It tells nothing of what was written.

ghost use Rattle.std.specs.Prelude.{None};

use crate::{Sink, WriteFailed};
use std::io::{ErrorKind, Write};

/// A writer, as standard output.
#[derive(Drop)]
pub struct RealSink<W> {
    out: W,
    calls: u64,
    faults: u64,
}

impl<W: Write> RealSink<W> {
    pub fn new(out: W) -> RealSink<W> {
        RealSink {
            out,
            calls: 0,
            faults: 0,
        }
    }
}

impl<W: Write> Sink for RealSink<W> {
    ghost written = { λ _. None };

    ghost safe_room = { λ _. 0 };

    ghost faults = { λ s. s.faults };

    ghost writes = { λ s. s.calls };

    fn write(&mut self, piece: &[u8]) -> Result<(), WriteFailed> {
        self.calls = self.calls.saturating_add(1);
        if write_whole(&mut self.out, piece) {
            return Ok(());
        }
        self.faults = self.faults.saturating_add(1);
        Err(WriteFailed)
    }
}

// Whether all of it was taken.
fn write_whole<W: Write>(out: &mut W, piece: &[u8]) -> bool {
    let mut rest = piece;
    for _ in 0..u64::MAX {
        if rest.is_empty() {
            return out.flush().is_ok();
        }
        match out.write(rest) {
            Ok(0) => return false,
            Ok(count) => rest = &rest[count..],
            Err(error) => {
                if error.kind() != ErrorKind::Interrupted {
                    return false;
                }
            }
        }
    }
    false
}
