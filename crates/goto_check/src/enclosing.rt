//! The loops and blocks around a statement.

ghost use Rattle.std.specs.Prelude.{◌≡◌};
ghost use Rattle.block_forms.specs.Around.{exit_to, again_to};
ghost use Rattle.plsql_meaning.specs.Outcomes.{names_loop, names_block};
ghost use Rattle.goto_check.specs.Enclosing.{around_of, label_of};

use away_values::Name;

/// Where EXIT and CONTINUE lead, for each loop and block around a statement, innermost first.
#[derive(Drop)]
pub(crate) enum Enclosing<'a> {
    Outside,
    Loop(Option<&'a Name>, usize, usize, &'a Enclosing<'a>),
    Block(Option<&'a Name>, usize, &'a Enclosing<'a>),
}

fn names_block(label: &Option<Name>, own: &Option<&Name>) -> bool
    ensures { result ≡ names_block label.now (label_of own.now) }
{
    match label {
        None => false,
        Some(label) => match own {
            None => false,
            Some(own) => label.text() == own.text(),
        },
    }
}

fn names_loop(label: &Option<Name>, own: &Option<&Name>) -> bool
    ensures { result ≡ names_loop label.now (label_of own.now) }
{
    match label {
        None => true,
        Some(_) => names_block(label, own),
    }
}

/// Where EXIT leads.
pub(crate) fn exit_to(around: &Enclosing<'_>, label: &Option<Name>, finish: usize) -> usize
    ensures { result ≡ exit_to finish (around_of around.now) label.now }
{
    match around {
        Enclosing::Outside => finish,
        Enclosing::Loop(own, exit, _, outer) => {
            if names_loop(label, own) {
                *exit
            } else {
                exit_to(outer, label, finish)
            }
        }
        Enclosing::Block(own, exit, outer) => {
            if names_block(label, own) {
                *exit
            } else {
                exit_to(outer, label, finish)
            }
        }
    }
}

/// Where CONTINUE leads.
pub(crate) fn again_to(around: &Enclosing<'_>, label: &Option<Name>, finish: usize) -> usize
    ensures { result ≡ again_to finish (around_of around.now) label.now }
{
    match around {
        Enclosing::Outside => finish,
        Enclosing::Loop(own, _, again, outer) => {
            if names_loop(label, own) {
                *again
            } else {
                again_to(outer, label, finish)
            }
        }
        Enclosing::Block(_, _, outer) => again_to(outer, label, finish),
    }
}
