//! Lines and columns of a text.

ghost use Rattle.std.specs.Prelude.{◌≡◌, ◌≤◌, ◌<◌, ◌++◌, ◌∷◌, [], ◌+◌, ℕ, IsTrue, length, take, slice_index, slice_range, map, filter, count_by, IfOk};
ghost use Rattle.text_places.specs.Lines.{AreEnds, IsShown, begins, blank_under, characters, ends_line, is_end, starts_line};

use std::alloc::{AllocError, Global};
use std::ops::Range;

/// Where a byte stands: its line and its column in characters, both from 1.
#[derive(Clone, Copy, Debug, PartialEq, Eq)]
pub struct Place {
    pub line: usize,
    pub column: usize,
}

/// A place, and its line with LF and a caret under it with LF.
#[derive(Drop)]
pub struct Display {
    pub place: Place,
    pub lines: Vec<u8>,
}

/// Where the line begins in which the byte stands.
fn line_start(text: &[u8], offset: usize) -> usize
    requires { offset ≤ length text.now }
    ensures within { result ≤ offset }
    ensures starts { IsTrue (starts_line text.now result) }
    ensures earlier { (k : ℕ) → result ≤ k → k < offset → ¬ (slice_index text.now k ≡ 10) }
{
    let mut at = offset;
    while at > 0 && text[at - 1] != b'\n' {
        at -= 1;
    }
    at
}

/// Where the line ends in which the byte stands.
fn line_end(text: &[u8], offset: usize) -> usize
    requires { offset ≤ length text.now }
    ensures forward { offset ≤ result }
    ensures within { result ≤ length text.now }
    ensures ends { IsTrue (ends_line text.now result) }
    ensures later { (k : ℕ) → offset ≤ k → k < result → ¬ (slice_index text.now k ≡ 10) }
{
    let mut at = offset;
    while at < text.len() && text[at] != b'\n' {
        at += 1;
    }
    at
}

/// The line in which the byte stands.
fn line_of(text: &[u8], offset: usize) -> Range<usize>
    requires { offset ≤ length text.now }
    ensures { AreEnds text.now offset result.start result.end }
{
    line_start(text, offset)..line_end(text, offset)
}

/// Whether a byte of UTF-8 begins a character.
fn begins_character(b: u8) -> bool
    ensures { result ≡ begins b }
{
    !(128 <= b && b < 192)
}

/// How many line ends stand in the text.
fn line_ends(text: &[u8]) -> usize
    ensures { result ≡ count_by is_end text.now }
{
    text.iter().filter(|b| **b == b'\n').count()
}

/// How many characters begin in the text.
fn characters_in(text: &[u8]) -> usize
    ensures { result ≡ characters text.now }
{
    text.iter().filter(|b| begins_character(**b)).count()
}

/// The place of a byte of the text, or of its end, where its line begins there.
fn place_in(text: &[u8], start: usize, offset: usize) -> Place
    requires forward { start ≤ offset }
    requires within { offset ≤ length text.now }
    ensures line { result.line ≡ 1 + count_by is_end (take start text.now) }
    ensures column { result.column ≡ 1 + characters (slice_range text.now start offset) }
{
    Place {
        line: 1 + line_ends(&text[..start]),
        column: 1 + characters_in(&text[start..offset]),
    }
}

/// Puts what stands under the characters, and a caret behind it.
fn put_caret(output: &mut Vec<u8>, before: &[u8]) -> Result<(), AllocError>
    ensures { IfOk result (λ _. output.new.items
        ≡ output.old.items ++ (map blank_under (filter begins before.now) ++ 94 ∷ [])) }
{
    for b in before {
        if begins_character(*b) {
            output.push(if *b == b'\t' { b'\t' } else { b' ' })?;
        }
    }
    output.push(b'^')?;
    Ok(())
}

/// The line of a byte and LF, a caret under the byte and LF.
fn lines_of(
    alloc: Global,
    text: &[u8],
    line: &Range<usize>,
    offset: usize,
) -> Result<Vec<u8>, AllocError>
    requires { AreEnds text.now offset line.now.start line.now.end }
    ensures { IfOk result (λ output. output.items
        ≡ (slice_range text.now line.now.start line.now.end ++ 10 ∷ [])
        ++ ((map blank_under (filter begins (slice_range text.now line.now.start offset))
        ++ 94 ∷ []) ++ 10 ∷ [])) }
{
    let mut output = text[line.start..line.end].to_vec(alloc)?;
    output.push(b'\n')?;
    put_caret(&mut output, &text[line.start..offset])?;
    output.push(b'\n')?;
    Ok(output)
}

/// The place of a byte of the text, or of its end, and its line with a caret under it.
pub fn shown(alloc: Global, text: &[u8], offset: usize) -> Result<Display, AllocError>
    requires { offset ≤ length text.now }
    ensures { IfOk result (IsShown text.now offset) }
{
    let line = line_of(text, offset);
    Ok(Display {
        place: place_in(text, line.start, offset),
        lines: lines_of(alloc, text, &line, offset)?,
    })
}
