//! Where slots stand.

ghost use Rattle.std.specs.Prelude.{◌↔◌, ◌≡◌, IsTrue, Some};
ghost use Rattle.moved_slots.specs.Moved.{slots_by};

/// Where a slot stands, by the last pair that has it.
pub fn slot_at(pairs: &[(u32, u32)], slot: u32) -> Option<u32>
    ensures { result ≡ slots_by pairs.now slot }
{
    let mut found = None;
    for p in pairs {
        if slot == p.0 {
            found = Some(p.1);
        }
    }
    found
}

/// A slot stands where another is.
pub(crate) fn stands_at(pairs: &[(u32, u32)], slot: u32, other: u32) -> bool
    ensures { IsTrue result ↔ (slots_by pairs.now slot ≡ Some other) }
{
    match slot_at(pairs, slot) {
        None => false,
        Some(found) => found == other,
    }
}
