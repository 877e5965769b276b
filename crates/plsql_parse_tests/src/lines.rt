//! Places of bytes, the lines that they stand in, and where bytes cease to be a text.

use std::alloc::{AllocError, Global};
use std::test::Fail;
use text_places::{shown, text_end};

/// A text, a byte of it, and its place with the line and the caret.
static ROWS: [(&str, usize, &str); 14] = [
    ("", 0, "1:1|\n^\n"),
    ("abc", 0, "1:1|abc\n^\n"),
    ("abc", 2, "1:3|abc\n  ^\n"),
    ("abc", 3, "1:4|abc\n   ^\n"),
    ("abc\n", 3, "1:4|abc\n   ^\n"),
    ("abc\n", 4, "2:1|\n^\n"),
    ("ab\ncd\nef", 3, "2:1|cd\n^\n"),
    ("ab\ncd\nef", 5, "2:3|cd\n  ^\n"),
    ("ab\ncd\nef", 7, "3:2|ef\n ^\n"),
    ("\n\n\n", 2, "3:1|\n^\n"),
    ("\tx\ty", 3, "1:4|\tx\ty\n\t \t^\n"),
    ("ä€𝄞x", 9, "1:4|ä€𝄞x\n   ^\n"),
    ("é\nüa", 5, "2:2|üa\n ^\n"),
    ("a\r\nb", 2, "1:3|a\r\n  ^\n"),
];

/// The place and the two lines, as a row has them.
fn told(alloc: Global, text: &str, offset: usize) -> Result<String, AllocError> {
    let bytes = text.as_bytes();
    if offset > bytes.len() {
        return Ok(String::new(alloc));
    }
    let display = shown(alloc, bytes, offset)?;
    let line = display.place.line;
    let column = display.place.column;
    let mut all = format!(in alloc; "{line}:{column}|")?;
    match str::from_utf8(display.lines.as_slice()) {
        Ok(lines) => all.push_str(lines)?,
        Err(_) => all.push_str("no text")?,
    }
    Ok(all)
}

#[test]
fn places_and_their_lines(rt: HostRuntime) -> Result<(), Fail> {
    for (text, offset, wanted) in ROWS.iter() {
        assert_eq!(rt; told(rt.alloc(), text, *offset)?.as_str(), *wanted);
    }
    Ok(())
}

#[test]
fn a_long_text_has_a_line_for_each_line_end(rt: HostRuntime) -> Result<(), Fail> {
    let mut text = String::new(rt.alloc());
    for _line in 0..20000 {
        text.push_str("ab\n")?;
    }
    assert_eq!(rt;
        told(rt.alloc(), text.as_str(), 59998)?.as_str(),
        "20000:2|ab\n ^\n"
    );
    Ok(())
}

#[test]
fn texts_end_where_no_character_goes_on(rt: HostRuntime) -> Result<(), Fail> {
    let rows: [(&[u8], usize); 9] = [
        (b"", 0),
        (b"abc", 3),
        (b"ab\0c", 2),
        (b"\0", 0),
        (b"ab\xffc", 2),
        (b"\xc3\xa4\xc3", 2),
        (b"a\xe2\x82\xac", 4),
        (b"a\xe2\x82b", 1),
        (b"a\xed\xa0\x80", 1),
    ];
    for (bytes, wanted) in rows.iter() {
        assert_eq!(rt; text_end(bytes), *wanted);
    }
    Ok(())
}
