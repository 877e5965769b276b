//! What could stand at the place where the reader of functions is stuck.

ghost use Rattle.std.specs.Prelude.{◌≡◌, ◌++◌, map, IfOk, OnOk, string_bytes};
ghost use Rattle.std.specs.List.{All};
ghost use Rattle.away_grammar.specs.Tokens.{AreSpelled};
ghost use Rattle.away_lex.specs.Lexed.{seen};
ghost use Rattle.sql_text.specs.CodeTerminals.{HasSpelling};
ghost use Rattle.function_places.specs.HintEntries.{label_of};
ghost use Rattle.function_places.specs.Hints as spec;
ghost use Rattle.function_places.specs.Hints.{IsHint, IsHintOf};

use crate::hint_table::{Part, TABLE, Told};
use crate::stuck_places::Stuck;
use crate::token_places::tokens_of;
use crate::trials::{Reader, completes, listed, may_follow, stands_right};
use away_lex::Token;
use away_values::NoMemory;
use sql_text::{Terminal, terminals_of};
use std::alloc::{AllocError, Global};

/// Behind more tokens than these nothing is tried, since each trial reads them again.
pub(crate) const MOST_BEFORE: usize = 2000;

/// How much is told at most.
const MOST_TOLD: usize = 5;

/// What may complete a header behind an attribute.
const ENDINGS: [&str; 4] = [
    "",
    "language plpgsql",
    "as $$a$$",
    "language plpgsql as $$a$$",
];

/// What could stand at a place where the reader of functions is stuck, or behind it where the text ended: at most five labels of
/// the table. That a function goes on with each is tested alone; nothing is told where very many tokens stand before the place.
pub fn could_stand(alloc: Global, bytes: &[u8], stuck: Stuck) -> Result<String, NoMemory>
    ensures { IfOk result (λ text. IsHint stuck.ended (string_bytes text)) }
{
    match tokens_of(alloc, bytes)? {
        Some(lists) => told_of_lists(alloc, lists.outer.as_slice(), lists.body.as_slice(), stuck),
        None => Ok(nothing(alloc, stuck.ended)),
    }
}

/// Nothing is told.
fn nothing(alloc: Global, ended: bool) -> String
    ensures { IsHint ended (string_bytes result) }
{
    String::new(alloc)
}

fn told_of_lists(
    alloc: Global,
    outer: &[Token<'_>],
    inner: &[Token<'_>],
    stuck: Stuck,
) -> Result<String, NoMemory>
    requires outer { AreSpelled (map seen outer.now) }
    requires inner { AreSpelled (map seen inner.now) }
    ensures { IfOk result (λ text. IsHint stuck.ended (string_bytes text)) }
{
    if let Some(number) = number_at(outer, stuck.offset) {
        return told_of_list(alloc, Reader::Header, outer, number, stuck.ended);
    }
    match number_at(inner, stuck.offset) {
        Some(number) => told_of_list(alloc, Reader::Body, inner, number, stuck.ended),
        None => Ok(nothing(alloc, stuck.ended)),
    }
}

/// The number of the first token that begins at the byte.
fn number_at(list: &[Token<'_>], offset: u64) -> Option<usize> {
    for (number, token) in list.iter().enumerate() {
        if token.start == offset {
            return Some(number);
        }
    }
    None
}

fn told_of_list(
    alloc: Global,
    reader: Reader,
    list: &[Token<'_>],
    number: usize,
    ended: bool,
) -> Result<String, NoMemory>
    requires { AreSpelled (map seen list.now) }
    ensures { IfOk result (λ text. IsHint ended (string_bytes text)) }
{
    let terminals = terminals_of(alloc, list)?;
    let before = if ended { list.len() } else { number };
    told_behind(alloc, reader, terminals.as_slice(), before, ended)
}

/// What could stand behind so many of the terminals; nothing where the next of them does.
fn told_behind(
    alloc: Global,
    reader: Reader,
    terminals: &[Terminal<'_>],
    before: usize,
    ended: bool,
) -> Result<String, NoMemory>
    requires { All HasSpelling terminals.now }
    ensures { IfOk result (λ text. IsHint ended (string_bytes text)) }
{
    if before > terminals.len() || before > MOST_BEFORE {
        return Ok(nothing(alloc, ended));
    }
    if stands_right(alloc, reader, terminals, before)? {
        return Ok(nothing(alloc, ended));
    }
    told_over_table(alloc, reader, &terminals[..before], ended)
}

#[tactic(auto, unfolding(crate::specs::Hints::labels))]
fn told_over_table(
    alloc: Global,
    reader: Reader,
    before: &[Terminal<'_>],
    ended: bool,
) -> Result<String, NoMemory>
    requires { All HasSpelling before.now }
    ensures { IfOk result (λ text. IsHint ended (string_bytes text)) }
{
    told_over(alloc, reader, before, ended, &TABLE)
}

/// The first labels of the entries that a function goes on with behind these terminals.
fn told_over(
    alloc: Global,
    reader: Reader,
    before: &[Terminal<'_>],
    ended: bool,
    entries: &[(&str, &str, Part, &[Part])],
) -> Result<String, NoMemory>
    requires { All HasSpelling before.now }
    ensures { IfOk result (λ text. IsHintOf (map label_of entries.now) ended (string_bytes text)) }
{
    let mut text = String::new(alloc);
    let mut left = MOST_TOLD;
    let mut told = Told::nothing();
    for entry in entries {
        if left == 0 {
            return Ok(text);
        }
        if is_to_tell(alloc, reader, before, told, *entry)? {
            let (_, label, names, _) = *entry;
            push_label(&mut text, left == MOST_TOLD, ended, label)?;
            left -= 1;
            told = told.with(names);
        }
    }
    Ok(text)
}

/// Whether the entry isn't a part of what was told, and a function goes on with its sample.
fn is_to_tell(
    alloc: Global,
    reader: Reader,
    before: &[Terminal<'_>],
    told: Told,
    entry: (&str, &str, Part, &[Part]),
) -> Result<bool, NoMemory>
    requires { All HasSpelling before.now }
{
    let (sample, _, names, whole) = entry;
    if told.has_one(whole) {
        Ok(false)
    } else {
        goes_on_with(alloc, reader, before, sample, names)
    }
}

/// Adds a label behind what stands before it.
fn push_label(text: &mut String, is_first: bool, ended: bool, label: &str) -> Result<(), AllocError>
    ensures { OnOk result (string_bytes text.new
        ≡ string_bytes text.old ++ (spec.before_label is_first ended ++ label.now)) }
{
    text.push_str(before_label(is_first, ended))?;
    text.push_str(label)
}

/// What stands before a label.
fn before_label(is_first: bool, ended: bool) -> &'static str
    ensures { result.now ≡ spec.before_label is_first ended }
{
    if !is_first {
        " or "
    } else if ended {
        "; behind it could stand "
    } else {
        "; here could stand "
    }
}

/// Whether a function goes on with the sample behind these terminals; of an attribute, whether a header that has it does.
fn goes_on_with(
    alloc: Global,
    reader: Reader,
    before: &[Terminal<'_>],
    sample: &str,
    names: Part,
) -> Result<bool, NoMemory>
    requires { All HasSpelling before.now }
{
    let next = listed(alloc, sample)?;
    if let (Reader::Header, Part::Attribute) = (reader, names) {
        return is_attribute(alloc, before, next.as_slice());
    }
    if next.len() == 0 {
        return Ok(false);
    }
    may_follow(alloc, reader, &*before, next.as_slice()[0])
}

/// Whether a header may have the attribute behind these terminals.
fn is_attribute(
    alloc: Global,
    before: &[Terminal<'_>],
    next: &[Terminal<'_>],
) -> Result<bool, NoMemory>
    requires before { All HasSpelling before.now }
    requires next { All HasSpelling next.now }
{
    for ending in &ENDINGS {
        if completes(alloc, &*before, &*next, ending)? {
            return Ok(true);
        }
    }
    Ok(false)
}
