//! Numbers of places and aliases. There is no memory for what has more than a number can say.

ghost use Rattle.std.specs.Prelude.{◌≡◌, ◌+◌, IfOk, pos};

use away_values::NoMemory;

/// The next number.
pub fn after(n: usize) -> Result<usize, NoMemory>
    ensures { IfOk result (λ k. k ≡ n + 1) }
{
    sum(n, 1)
}

pub fn sum(a: usize, b: usize) -> Result<usize, NoMemory>
    ensures { IfOk result (λ k. k ≡ a + b) }
{
    match a.checked_add(b) {
        Some(n) => Ok(n),
        None => Err(NoMemory),
    }
}

/// The same number in 32 bits.
pub fn small(n: usize) -> Result<u32, NoMemory>
    ensures { IfOk result (λ k. k ≡ n) }
{
    match u32::try_from(n) {
        Ok(k) => Ok(k),
        Err(_) => Err(NoMemory),
    }
}

/// The same number as a bigint.
pub fn bigint(n: usize) -> Result<i64, NoMemory>
    ensures { IfOk result (λ k. k ≡ pos n) }
{
    match i64::try_from(n) {
        Ok(k) => Ok(k),
        Err(_) => Err(NoMemory),
    }
}
