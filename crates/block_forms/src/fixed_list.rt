//! The expressions that patterns need and no function writes, over the slots 0 and 1.

ghost use Rattle.std.specs.Prelude.{◌≡◌, ◌<◌, ◌++◌, IfOk, OnOk};
ghost use Rattle.away_values.specs.declared.operators.ChainOp.TheVariants as chain;
ghost use Rattle.away_values.specs.declared.operators.CmpOp.TheVariants as cmp;
ghost use Rattle.away_values.specs.declared.operators.IntOp.TheVariants as int;
ghost use Rattle.block_forms.specs.FixedList as spec;

use away_trees::Expr;
use away_values::{ChainOp, CmpOp, IntOp, IsTest, NoMemory, Ty};
use sqlite_items::{Boxed, Items};
use std::alloc::Global;

/// An expression of the fixed list, which stands behind a function's own expressions; what it computes over its slots a and b.
#[derive(Clone, Copy, Debug, PartialEq, Eq)]
pub enum Fixed {
    /// NULL of a type
    Null(Ty),
    /// Whether a, of this type, is NULL
    IsNull(Ty),
    /// a <= 0
    NotPositive,
    /// a <= b
    AtMost,
    /// a >= b
    AtLeast,
    /// Whether b + a is greater than every integer, for a that is positive
    PastGreatest,
    /// Whether b - a is less than every integer, for a that is positive
    PastLeast,
    /// a + b
    Sum,
    /// a - b
    Difference,
    /// The integer 1
    One,
    /// a
    Copy,
}

/// The entries in their order.
const ENTRIES: [Fixed; 17] = [
    Fixed::Null(Ty::Bigint),
    Fixed::Null(Ty::Boolean),
    Fixed::Null(Ty::Text),
    Fixed::IsNull(Ty::Bigint),
    Fixed::IsNull(Ty::Boolean),
    Fixed::IsNull(Ty::Text),
    Fixed::NotPositive,
    Fixed::AtMost,
    Fixed::AtLeast,
    Fixed::PastGreatest,
    Fixed::PastLeast,
    Fixed::Sum,
    Fixed::Difference,
    Fixed::One,
    Fixed::Copy,
    Fixed::Null(Ty::Integer),
    Fixed::IsNull(Ty::Integer),
];

/// The slot a.
const A: u32 = 0;

/// The slot b.
const B: u32 = 1;

fn compared(alloc: Global, op: CmpOp, x: Expr, y: Expr) -> Result<Expr, NoMemory>
    ensures { IfOk result (λ e. e ≡ spec.compared op x y) }
{
    let x = Boxed::new(alloc, x)?;
    let y = Boxed::new(alloc, y)?;
    Ok(Expr::Compare(op, x, y))
}

fn of_two(alloc: Global, op: ChainOp, x: Expr, y: Expr) -> Result<Expr, NoMemory>
    ensures { IfOk result (λ e. e ≡ spec.of_two op x y) }
{
    let x = Boxed::new(alloc, x)?;
    let mut links = Items::new(alloc);
    links.push((op, y))?;
    Ok(Expr::Chain(x, links))
}

fn null_as(alloc: Global, ty: Ty) -> Result<Expr, NoMemory>
    ensures { IfOk result (λ e. e ≡ spec.null_as ty) }
{
    Ok(Expr::Cast(Boxed::new(alloc, Expr::Null)?, ty))
}

fn a_is_null(alloc: Global) -> Result<Expr, NoMemory>
    ensures { IfOk result (λ e. e ≡ spec.a_is_null) }
{
    Ok(Expr::Is(Boxed::new(alloc, Expr::Slot(A))?, IsTest::Null, false))
}

/// An operation on a and b as integers.
fn small(alloc: Global, op: IntOp) -> Result<Expr, NoMemory>
    ensures { IfOk result (λ e. e ≡ spec.of_two (chain.Small op) spec.a spec.b) }
{
    of_two(alloc, ChainOp::Small(op), Expr::Slot(A), Expr::Slot(B))
}

/// Whether the greatest integer less a is less than b.
fn past_greatest(alloc: Global) -> Result<Expr, NoMemory>
    ensures { IfOk result (λ e. e
        ≡ spec.compared cmp.Lt (spec.of_two (chain.Small int.Sub) spec.greatest spec.a) spec.b) }
{
    let greatest = Expr::Int(2_147_483_647);
    let most = of_two(alloc, ChainOp::Small(IntOp::Sub), greatest, Expr::Slot(A))?;
    compared(alloc, CmpOp::Lt, most, Expr::Slot(B))
}

/// Whether the least integer and a are greater than b; its literal is a bigint, and so is the sum.
fn past_least(alloc: Global) -> Result<Expr, NoMemory>
    ensures { IfOk result (λ e. e
        ≡ spec.compared cmp.Gt (spec.of_two (chain.Int int.Add) spec.least spec.a) spec.b) }
{
    let least = Expr::Neg(Boxed::new(alloc, Expr::Int(2_147_483_648))?);
    let sum = of_two(alloc, ChainOp::Int(IntOp::Add), least, Expr::Slot(A))?;
    compared(alloc, CmpOp::Gt, sum, Expr::Slot(B))
}

impl Fixed {
    /// Whether a counter a is in range up to a last value b, or with REVERSE down to it.
    pub fn in_range(reverse: bool) -> Fixed
        ensures { result ≡ spec.in_range_entry reverse }
    {
        if reverse {
            Fixed::AtLeast
        } else {
            Fixed::AtMost
        }
    }

    /// Whether a counter b would leave the integers with a further step a.
    pub fn past_end(reverse: bool) -> Fixed
        ensures { result ≡ spec.past_end_entry reverse }
    {
        if reverse {
            Fixed::PastLeast
        } else {
            Fixed::PastGreatest
        }
    }

    /// The counter behind a, by a step b.
    pub fn next(reverse: bool) -> Fixed
        ensures { result ≡ spec.next_entry reverse }
    {
        if reverse {
            Fixed::Difference
        } else {
            Fixed::Sum
        }
    }

    /// Its position in the list.
    pub fn position(self) -> u32
        ensures position { result ≡ spec.position self }
        ensures within { result < spec.many }
    {
        match self {
            Fixed::Null(Ty::Bigint) => 0,
            Fixed::Null(Ty::Boolean) => 1,
            Fixed::Null(Ty::Text) => 2,
            Fixed::Null(Ty::Integer) => 15,
            Fixed::IsNull(Ty::Bigint) => 3,
            Fixed::IsNull(Ty::Boolean) => 4,
            Fixed::IsNull(Ty::Text) => 5,
            Fixed::IsNull(Ty::Integer) => 16,
            Fixed::NotPositive => 6,
            Fixed::AtMost => 7,
            Fixed::AtLeast => 8,
            Fixed::PastGreatest => 9,
            Fixed::PastLeast => 10,
            Fixed::Sum => 11,
            Fixed::Difference => 12,
            Fixed::One => 13,
            Fixed::Copy => 14,
        }
    }

    fn expression(self, alloc: Global) -> Result<Expr, NoMemory>
        ensures { IfOk result (λ e. e ≡ spec.expression self) }
    {
        match self {
            Fixed::Null(ty) => null_as(alloc, ty),
            Fixed::IsNull(_) => a_is_null(alloc),
            Fixed::NotPositive => compared(alloc, CmpOp::Le, Expr::Slot(A), Expr::Int(0)),
            Fixed::AtMost => compared(alloc, CmpOp::Le, Expr::Slot(A), Expr::Slot(B)),
            Fixed::AtLeast => compared(alloc, CmpOp::Ge, Expr::Slot(A), Expr::Slot(B)),
            Fixed::PastGreatest => past_greatest(alloc),
            Fixed::PastLeast => past_least(alloc),
            Fixed::Sum => small(alloc, IntOp::Add),
            Fixed::Difference => small(alloc, IntOp::Sub),
            Fixed::One => Ok(Expr::Int(1)),
            Fixed::Copy => Ok(Expr::Slot(A)),
        }
    }
}

/// Adds the fixed list.
pub(crate) fn push_fixed_list(alloc: Global, list: &mut Items<Expr>) -> Result<(), NoMemory>
    ensures { OnOk result (list.new ≡ list.old ++ spec.fixed_list) }
{
    for i in 0..ENTRIES.len() {
        list.push(ENTRIES[i].expression(alloc)?)?;
    }
    Ok(())
}
