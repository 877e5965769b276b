//! Which operation stands over operands whose types are found.

ghost use Rattle.std.specs.Prelude.{◌≡◌};
ghost use Rattle.elaboration.specs.Elaborating as elaborating;
ghost use Rattle.elaboration.specs.Marks as spec;

use crate::made::Made;
use away_trees::Expr;
use away_typing::kind::{Kind, are_integers, is_integer, is_number, only_if};
use away_values::{ChainOp, IntOp, Ty};
use sqlite_items::Boxed;

fn number_op(small: bool, op: IntOp) -> ChainOp
    ensures { result ≡ spec.number_op small op }
{
    if small {
        ChainOp::Small(op)
    } else {
        ChainOp::Int(op)
    }
}

/// The operation over operands of these types. The manual: 9.3, Mathematical Functions and Operators, where one on integers is an integer.
#[tactic(auto, unfolding(crate::specs::Marks::marked_op))]
pub fn marked_op(op: ChainOp, a: Kind, b: Kind) -> ChainOp
    ensures { result ≡ spec.marked_op op a b }
{
    match op {
        ChainOp::Int(o) => number_op(are_integers(a, b), o),
        ChainOp::Small(o) => number_op(are_integers(a, b), o),
        ChainOp::Or | ChainOp::And | ChainOp::Concat => op,
    }
}

/// The minus of an operand. The manual: 9.3; that of an integer is an integer.
pub fn negated(x: Made<Boxed<Expr>>) -> Made<Expr>
    ensures { result ≡ elaborating.negated x }
{
    if is_integer(x.kind) {
        Made {
            kind: Kind::Of(Ty::Integer),
            it: Expr::NegSmall(x.it),
        }
    } else {
        Made {
            kind: only_if(is_number(x.kind), Kind::Of(Ty::Bigint)),
            it: Expr::Neg(x.it),
        }
    }
}
