//! The words of a line.

ghost use Rattle.std.specs.Prelude.{◌≡◌, ◌==◌, IfOk, map, string_bytes};
ghost use Rattle.std.specs.List.{join_with_byte, slice_split};
ghost use Rattle.worked_runs.specs.Lines.{separator};

use std::alloc::{AllocError, Global};

/// The words of a line, which are its parts between TABs where it has one, and else between blanks.
pub fn words_of(alloc: Global, line: &str) -> Result<Vec<String>, AllocError>
    ensures parts { IfOk result (λ words. map string_bytes words.items
        ≡ slice_split (λ byte. byte == separator line.now) line.now) }
    ensures joined { IfOk result (λ words.
        join_with_byte (separator line.now) (map string_bytes words.items) ≡ line.now) }
{
    let parts = parts_of(alloc, line)?;
    let mut words = Vec::new(alloc);
    for part in &parts {
        words.push(String::from_str(alloc, part)?)?;
    }
    Ok(words)
}

/// The parts of a line between its separators.
fn parts_of(alloc: Global, line: &str) -> Result<Vec<&str>, AllocError>
    ensures { IfOk result (λ parts. map (λ part. part.now) parts.items
        ≡ slice_split (λ byte. byte == separator line.now) line.now) }
{
    if line.as_bytes().contains(&b'\t') {
        return line.split('\t').collect(alloc);
    }
    line.split(' ').collect(alloc)
}
