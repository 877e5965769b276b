//! The mark of a dollar quote.

ghost use Rattle.std.specs.Prelude.{◌≡◌, ◌<◌, ◌^◌, IfOk, length, string_bytes};
ghost use Rattle.function_printer.specs.Tags as spec;

use away_values::NoMemory;
use std::alloc::Global;

/// The first mark that stands nowhere in the text. A text in memory has fewer bytes than a word of the machine counts.
pub fn free_mark(alloc: Global, text: &str) -> Result<String, NoMemory>
    ensures mark { IfOk result (λ mark. string_bytes mark ≡ spec.free_mark text.now) }
    ensures fits { length text.now < 2 ^ 64 }
{
    for number in 0..text.len() {
        let mark = numbered_mark(alloc, number)?;
        if !stands_in(mark.as_str(), text) {
            return Ok(mark);
        }
    }
    numbered_mark(alloc, text.len())
}

fn stands_in(mark: &str, text: &str) -> bool
    ensures { result ≡ spec.stands_in mark.now text.now }
{
    text.contains(mark)
}

/// The mark of the tag of this number.
fn numbered_mark(alloc: Global, number: usize) -> Result<String, NoMemory>
    ensures { IfOk result (λ mark. string_bytes mark ≡ spec.numbered_mark number) }
{
    let mut mark = String::new(alloc);
    if number == 0 {
        mark.push_str("$$")?;
        return Ok(mark);
    }
    write!(mark, "$q{number}$")?;
    Ok(mark)
}
