//! Lists of numbers.

ghost use Rattle.std.specs.Prelude.{◌≡◌, ◌≢◌, ℕ, ◌<◌, ◌↔◌, IsTrue, Some, None, Option, slice_get};
ghost use Rattle.block_forms.specs.Places.{Each, Distinct, NoneBefore};
ghost use Rattle.call_forms.specs.Called.{itself, Among};

/// Whether the number stands in the list.
pub(crate) fn stands_in(numbers: &[u32], n: u32) -> bool
    ensures { IsTrue result ↔ Among numbers.now n }
{
    for m in numbers {
        if *m == n {
            return true;
        }
    }
    false
}

/// Whether each of the other list stands in the list.
pub(crate) fn all_stand_in(numbers: &[u32], others: &[u32]) -> bool
    ensures { IsTrue result ↔ Each (Among numbers.now) others.now }
{
    others.iter().all(|n| stands_in(numbers, *n))
}

/// No number before the place is this one.
fn none_before(numbers: &[u32], place: usize, n: u32) -> bool
    ensures { IsTrue result ↔ NoneBefore itself numbers.now place n }
{
    numbers
        .iter()
        .enumerate()
        .all(|(j, m)| j >= place || *m != n)
}

/// No number stands at two places.
pub(crate) fn all_differ(numbers: &[u32]) -> bool
    ensures { IsTrue result ↔ Distinct itself numbers.now }
{
    numbers
        .iter()
        .enumerate()
        .all(|(i, n)| none_before(numbers, i, *n))
}

/// Each number is below a bound.
pub(crate) fn all_below(bound: usize, numbers: &[u32]) -> bool
    ensures { IsTrue result ↔ Each (λ n. n < bound) numbers.now }
{
    numbers.iter().all(|n| (*n as usize) < bound)
}
