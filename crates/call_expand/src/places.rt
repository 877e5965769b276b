//! Calls of a program's functions.

ghost use Rattle.std.specs.Prelude.{◌≡◌, bytes_eq};
ghost use Rattle.call_meaning.specs.Calls.{place_among};
ghost use Rattle.call_expand.specs.CallPlaces.{maybe_called};
ghost use Rattle.call_expand.specs.Expanding as spec;
ghost use Rattle.call_expand.specs.Untailing.{self_names};

use away_names::function::function;
use away_trees::{Expr, Function};
use away_values::Name;

/// The function that is called, by its number, and its arguments.
#[derive(Clone, Copy)]
pub struct Place<'a> {
    pub part: usize,
    pub args: &'a [Expr],
}

fn number_of(fs: &[Function], name: &Name) -> Option<usize>
    ensures { result ≡ place_among (spec.names_of fs.now) name.now }
{
    let mut i = 0;
    for f in fs {
        if f.name.text() == name.text() {
            return Some(i);
        }
        i += 1;
    }
    None
}

/// What an expression calls, where it is as a whole a call of one of the functions.
pub fn call_place<'a>(fs: &[Function], e: &'a Expr) -> Option<Place<'a>>
    ensures { maybe_called result ≡ spec.call_place (spec.names_of fs.now) e.now }
{
    match e {
        Expr::Call(name, args) => match number_of(fs, name) {
            None => None,
            Some(part) => Some(Place {
                part,
                args: args.as_slice(),
            }),
        },
        _ => None,
    }
}

/// What an expression calls, where it is as a whole a call of the function, whose name isn't that of an operator's function.
pub fn self_call<'a>(f: &Function, e: &'a Expr) -> Option<Place<'a>>
    ensures { maybe_called result ≡ spec.call_place (self_names f.now) e.now }
{
    match e {
        Expr::Call(name, args) => {
            if function(&f.name).is_none() && f.name.text() == name.text() {
                Some(Place {
                    part: 0,
                    args: args.as_slice(),
                })
            } else {
                None
            }
        }
        _ => None,
    }
}
