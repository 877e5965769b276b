//! The names of a program's functions, and where these are called.

ghost use Rattle.std.specs.Prelude.{◌≡◌, IfOk, length};
ghost use Rattle.call_expand.specs.Expanding.{names_of as names_by};
ghost use Rattle.call_expand.specs.Placing.{misplaces as misplaces_by};
ghost use Rattle.program_check.specs.Firsts.{Firstly};
ghost use Rattle.program_check.specs.Refusing as spec;

use away_names::function::function;
use away_trees::{Function, Stmt};
use away_values::{Name, NoMemory};
use moved_names::sought::{Sought, is_among};
use moved_names::words::{Looking, Places, in_stmt};
use sqlite_items::Items;
use std::alloc::Global;

pub(crate) fn names_of(alloc: Global, fs: &[Function]) -> Result<Items<Name>, NoMemory>
    ensures { IfOk result (λ names. names ≡ names_by fs.now) }
{
    let mut names = Items::new(alloc);
    for f in fs {
        names.push(f.name.copy(alloc)?)?;
    }
    Ok(names)
}

/// A name is that of an operator's function, or one of some others.
fn is_taken(name: &Name, others: &[Name]) -> bool
    ensures { result ≡ spec.is_taken name.now others.now }
{
    function(name).is_some() || is_among(name, others)
}

/// The first function whose name is that of an operator's function, or of a function before it.
pub(crate) fn first_taken(fs: &[Function], names: &[Name]) -> Option<usize>
    requires { names.now ≡ names_by fs.now }
    ensures { Firstly (spec.Taken fs.now) (length fs.now) result }
{
    for k in 0..fs.len() {
        if is_taken(&names[k], &names[..k]) {
            return Some(k);
        }
    }
    None
}

/// A call of one of the functions stands elsewhere than as a whole assignment or RETURN.
fn misplaces(names: &[Name], body: &Stmt) -> bool
    ensures { result ≡ misplaces_by names.now body.now }
{
    let l = Looking {
        sought: Sought::Calls(names),
        places: Places::Everywhere,
    };
    in_stmt(l, body)
}

/// The first function in which a call stands elsewhere.
pub(crate) fn first_misplaced(fs: &[Function], names: &[Name]) -> Option<usize>
    requires { names.now ≡ names_by fs.now }
    ensures { Firstly (spec.Misplaced fs.now) (length fs.now) result }
{
    for k in 0..fs.len() {
        if misplaces(names, &fs[k].body) {
            return Some(k);
        }
    }
    None
}
