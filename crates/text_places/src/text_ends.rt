//! Where bytes cease to be a text.

ghost use Rattle.std.specs.Prelude.{◌≡◌, ◌⊎◌, ◌≤◌, ◌<◌, ℕ, length, slice_index};
ghost use Rattle.text_places.specs.TextEnds.{IsTextEnd};

/// Where the first zero stands, or the end of the bytes.
fn zero_or_end(bytes: &[u8]) -> usize
    ensures within { result ≤ length bytes.now }
    ensures none { (k : ℕ) → k < result → ¬ (slice_index bytes.now k ≡ 0) }
    ensures stops { (result ≡ length bytes.now) ⊎ (slice_index bytes.now result ≡ 0) }
{
    match bytes.iter().position(|b| *b == 0) {
        Some(at) => at,
        None => bytes.len(),
    }
}

/// Where the longest text ends that the bytes begin with.
pub fn text_end(bytes: &[u8]) -> usize
    ensures { IsTextEnd bytes.now result }
{
    let end = zero_or_end(bytes);
    match str::from_utf8(&bytes[..end]) {
        Ok(_) => end,
        Err(error) => error.valid_up_to(),
    }
}
