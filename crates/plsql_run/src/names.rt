//! Which loop or block a label means.

ghost use Rattle.std.specs.Prelude.{◌≡◌};
ghost use Rattle.plsql_meaning.specs.Outcomes as spec;

use away_values::Name;

/// Whether an EXIT or CONTINUE with the label means the loop that has the label `own`.
pub(crate) fn names_loop(label: &Option<Name>, own: &Option<Name>) -> bool
    ensures { result ≡ spec.names_loop label.now own.now }
{
    match label {
        None => true,
        Some(label) => match own {
            None => false,
            Some(own) => label.text() == own.text(),
        },
    }
}

/// The same of an EXIT and a block.
pub(crate) fn names_block(label: &Option<Name>, own: &Option<Name>) -> bool
    ensures { result ≡ spec.names_block label.now own.now }
{
    match label {
        None => false,
        Some(label) => match own {
            None => false,
            Some(own) => label.text() == own.text(),
        },
    }
}
