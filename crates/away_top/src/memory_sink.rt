//! A sink in memory, which fails at the calls that it is told.

ghost use Rattle.std.specs.Prelude.{◌≡◌, ◌+◌, ◌≤◌, ◌++◌, [], Some, length, take, IfOk, IsErr, IsOk, OnErr, OnOk, ◌<◌, vec_len, vec_capacity};
ghost use Rattle.std.specs.Io.KnownBytes.{Appends};
ghost use Rattle.away_top.specs.Host.{AppendsPrefix, next_count, Fills, Rose};
ghost use Rattle.away_top.specs.MemorySink.{IsWhole, front, taken_at, safe_room};

use crate::{Sink, WriteFailed};
use away_values::NoMemory;
use std::alloc::Global;
use std::marker::Model;

/// A sink in memory.
#[derive(Drop)]
pub struct MemorySink {
    bytes: Vec<u8>,
    room: usize,
    fails: Vec<(u64, usize)>,
    calls: u64,
    faults: u64,
}

impl Model for MemorySink {
    ghost use Rattle.std.specs.Prelude.{◌≤◌, vec_capacity, vec_len, ◌+◌};
    ghost use Rattle.away_top.specs.MemorySink.{RoomySink};

    ghost Value = { RoomySink };

    ghost view = { λ m. record {
      bytes = m.bytes.items;
      room = m.room;
      fails = m.fails.items;
      calls = m.calls;
      faults = m.faults;
    } };

    ghost invariant = { λ m. vec_len m.bytes + m.room ≤ vec_capacity m.bytes };
}

impl MemorySink {
    /// Room for so many bytes, all taken at once. The writes with these numbers, next_count from 1, fail, and take the
    /// number of bytes beside it. The first of two entries with one number counts.
    pub fn new(alloc: Global, room: usize, fails: Vec<(u64, usize)>) -> Result<MemorySink, NoMemory>
        ensures bytes { IfOk result (λ sink. sink.bytes ≡ []) }
        ensures room { IfOk result (λ sink. sink.room ≡ room) }
        ensures fails { IfOk result (λ sink. sink.fails ≡ fails.items) }
        ensures calls { IfOk result (λ sink. sink.calls ≡ 0) }
        ensures faults { IfOk result (λ sink. sink.faults ≡ 0) }
    {
        let bytes = Vec::with_capacity(alloc, room)?;
        Ok(MemorySink {
            bytes,
            room,
            fails,
            calls: 0,
            faults: 0,
        })
    }

    /// The bytes that were written.
    pub fn written(&self) -> &[u8]
        ensures { result.now ≡ self.now.bytes }
    {
        &self.bytes
    }
}

impl Sink for MemorySink {
    ghost written = { λ m. Some m.bytes };

    ghost safe_room = { safe_room };

    ghost faults = { λ m. m.faults };

    ghost writes = { λ m. m.calls };

    fn write(&mut self, piece: &[u8]) -> Result<(), WriteFailed>
        // As of every implementation:
        ensures whole { OnOk result
            (Appends (Some self.old.bytes) (Some self.new.bytes) piece.now) }
        ensures part { OnErr result
            (AppendsPrefix (Some self.old.bytes) (Some self.new.bytes) piece.now) }
        ensures counted { self.new.calls ≡ next_count self.old.calls }
        ensures later { self.old.faults ≤ self.new.faults }
        ensures failed { OnErr result (Rose self.old.faults self.new.faults) }
        ensures room { 0 < length piece.now → length piece.now ≤ safe_room self.old
            → Fills result (safe_room self.old) (safe_room self.new) (length piece.now) }

        // And exactly:
        ensures taken { IsWhole self.old (length piece.now)
            → IsOk result × (self.new.bytes ≡ self.old.bytes ++ piece.now)
            × (self.new.room + length piece.now ≡ self.old.room)
            × (self.new.faults ≡ self.old.faults) }
        ensures cut { ¬ (IsWhole self.old (length piece.now))
            → IsErr result × (self.new.bytes ≡ self.old.bytes
            ++ take (front self.old (length piece.now)) piece.now)
            × (self.new.room + front self.old (length piece.now) ≡ self.old.room)
            × (self.new.faults ≡ next_count self.old.faults) }
        ensures stays { self.new.fails ≡ self.old.fails }
    {
        self.calls = self.calls.saturating_add(1);
        let failure = failure_at(&self.fails, self.calls);
        if failure.is_none() && piece.len() <= self.room {
            append(&mut self.bytes, piece);
            self.room -= piece.len();
            return Ok(());
        }
        let taken = failure
            .unwrap_or(piece.len())
            .min(piece.len())
            .min(self.room);
        append(&mut self.bytes, &piece[..taken]);
        self.room -= taken;
        self.faults = self.faults.saturating_add(1);
        Err(WriteFailed)
    }
}

// Appends with no new memory.
fn append(bytes: &mut Vec<u8>, piece: &[u8])
    requires { vec_len bytes.old + length piece.now ≤ vec_capacity bytes.old }
    ensures items { bytes.new.items ≡ bytes.old.items ++ piece.now }
    ensures capacity { vec_capacity bytes.old ≤ vec_capacity bytes.new }
{
    match bytes.extend_from_slice(piece) {
        Ok(()) => (),
        Err(_) => (),
    }
}

// How many bytes a write that fails takes.
fn failure_at(fails: &[(u64, usize)], call: u64) -> Option<usize>
    ensures { result ≡ taken_at fails.now call }
{
    let mut rest = fails;
    while let [(number, count), others @ ..] = rest {
        if *number == call {
            return Some(*count);
        }
        rest = others;
    }
    None
}
