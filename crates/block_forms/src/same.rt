//! Whether terms, assignments and lists of numbers are the same.

ghost use Rattle.std.specs.Prelude.{◌≡◌, ◌↔◌, IsTrue};

use crate::forms::Term;

/// Whether two terms have one expression and the same names.
pub fn same_term(t: &Term, u: &Term) -> bool
    ensures { IsTrue result ↔ (t.now ≡ u.now) }
{
    t.expr == u.expr && t.names.as_slice() == u.names.as_slice()
}

/// Whether two assignments set one target to the same term, or both set none.
pub fn same_assignment(x: &Option<(u32, Term)>, y: &Option<(u32, Term)>) -> bool
    ensures { IsTrue result ↔ (x.now ≡ y.now) }
{
    match x {
        None => match y {
            None => true,
            Some(_) => false,
        },
        Some(a) => match y {
            None => false,
            Some(b) => {
                if a.0 != b.0 {
                    return false;
                }
                same_term(&a.1, &b.1)
            }
        },
    }
}

/// Whether two lists have the same numbers in the same order.
pub fn same_numbers(xs: &[u32], ys: &[u32]) -> bool
    ensures { IsTrue result ↔ (xs.now ≡ ys.now) }
{
    xs == ys
}
