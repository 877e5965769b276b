//! The line of the SQLSTATEs with which a function may end by a fault of its own.

ghost use Rattle.std.specs.Prelude.{◌≡◌, ◌++◌, IfOk, codes, flat_map};
ghost use Rattle.away_top.specs.ExplainCourse.{fault_words, with_blank};
ghost use Rattle.away_top.specs.Lines.{line};

use away_values::Class;
use std::alloc::AllocError;

/// A line of the classes' codes.
pub(crate) fn put_faults(output: &mut Vec<u8>, classes: &[Class]) -> Result<(), AllocError>
    ensures { IfOk result (λ _. output.new.items ≡ output.old.items
        ++ line (codes "faults" ++ fault_words classes.now)) }
{
    output.extend_from_slice(b"faults")?;
    put_words(output, classes)?;
    output.push(b'\n')?;
    Ok(())
}

/// A blank and the code of each class, or that there is none.
fn put_words(output: &mut Vec<u8>, classes: &[Class]) -> Result<(), AllocError>
    ensures { IfOk result (λ _. output.new.items ≡ output.old.items ++ fault_words classes.now) }
{
    if classes.is_empty() {
        output.extend_from_slice(b" none")
    } else {
        put_codes(output, classes)
    }
}

/// A blank and the code of each class.
fn put_codes(output: &mut Vec<u8>, classes: &[Class]) -> Result<(), AllocError>
    ensures { IfOk result (λ _. output.new.items ≡ output.old.items
        ++ flat_map with_blank classes.now) }
{
    for class in classes {
        put_code(output, class)?;
    }
    Ok(())
}

/// A blank and the code of the class.
fn put_code(output: &mut Vec<u8>, class: &Class) -> Result<(), AllocError>
    ensures { IfOk result (λ _. output.new.items ≡ output.old.items ++ with_blank class.now) }
{
    output.push(b' ')?;
    output.extend_from_slice(&class.code)?;
    Ok(())
}
