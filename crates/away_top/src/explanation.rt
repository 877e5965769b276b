//! What is told of a refused file: its place, the rule and the reason, the line, and a caret under it.

ghost use Rattle.std.specs.Prelude.{◌≡◌, ◌≤◌, ◌++◌, length, IfOk};
ghost use Rattle.away_top.specs.Explanations as spec;
ghost use Rattle.away_top.specs.Explanations.{IsTold};
ghost use Rattle.away_top.specs.Lines.{line};

use itoa::Buffer;
use std::alloc::{AllocError, Global};
use text_places::{Place, shown};

/// The line and the column.
fn put_place(output: &mut Vec<u8>, place: Place) -> Result<(), AllocError>
    ensures { IfOk result (λ _. output.new.items
        ≡ output.old.items ++ spec.place_text place.line place.column) }
{
    let mut buffer = Buffer::new();
    output.push(b':')?;
    output.extend_from_slice(buffer.format(place.line).as_bytes())?;
    output.push(b':')?;
    output.extend_from_slice(buffer.format(place.column).as_bytes())?;
    Ok(())
}

/// The rule and the reason.
fn put_reason(output: &mut Vec<u8>, rule: &[u8], reason: &str) -> Result<(), AllocError>
    ensures { IfOk result (λ _. output.new.items
        ≡ output.old.items ++ spec.reason_text rule.now reason.now) }
{
    output.extend_from_slice(b": ")?;
    output.extend_from_slice(rule)?;
    output.extend_from_slice(b": ")?;
    output.extend_from_slice(reason.as_bytes())?;
    Ok(())
}

/// The first line.
fn headline(
    alloc: Global,
    name: &str,
    place: Place,
    rule: &[u8],
    reason: &str,
) -> Result<Vec<u8>, AllocError>
    ensures { IfOk result (λ output. output.items
        ≡ line (spec.headline name.now place.line place.column rule.now reason.now)) }
{
    let mut output = name.as_bytes().to_vec(alloc)?;
    put_place(&mut output, place)?;
    put_reason(&mut output, rule, reason)?;
    output.push(b'\n')?;
    Ok(output)
}

/// The three lines of an explanation, of a byte of the file or its end.
pub(crate) fn explanation(
    alloc: Global,
    name: &str,
    bytes: &[u8],
    offset: usize,
    rule: &[u8],
    reason: &str,
) -> Result<Vec<u8>, AllocError>
    requires { offset ≤ length bytes.now }
    ensures { IfOk result (λ output. IsTold name.now bytes.now offset rule.now reason.now
        output.items) }
{
    let display = shown(alloc, bytes, offset)?;
    let mut output = headline(alloc, name, display.place, rule, reason)?;
    output.extend_from_slice(&display.lines)?;
    Ok(output)
}
