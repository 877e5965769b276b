//! Classes that can be written as a text.

ghost use Rattle.std.specs.Prelude.{◌≡◌, true, bytes_eq, codes, IsTrue};
ghost use Rattle.std.specs.List.{list_all};
ghost use Rattle.away_values.specs.Classes.{is_class, is_class_char};

fn is_class_byte(c: u8) -> bool
    ensures { result ≡ is_class_char c }
{
    (b'0' <= c && c <= b'9') || (b'A' <= c && c <= b'Z')
}

fn has_class_bytes(code: &[u8]) -> bool
    ensures { result ≡ list_all is_class_char code.now }
{
    code.iter().all(|c| is_class_byte(*c))
}

fn is_zeros(code: &[u8]) -> bool
    ensures { result ≡ bytes_eq code.now (codes "00000") }
{
    code == b"00000".as_slice()
}

/// Five digits or upper-case letters, and not 00000.
pub(crate) fn is_class(code: &[u8]) -> bool
    ensures { IsTrue result → is_class code.now ≡ true }
{
    code.len() == 5 && (has_class_bytes(code) && !is_zeros(code))
}
