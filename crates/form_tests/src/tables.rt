//! The expression table of a small function.

use crate::functions::{checked, no_tables};
use away_trees::Expr;
use block_forms::expr_table;

/// Its expressions are, or compare with, the numbers from 0 to 7 in order.
const TEXT: &str =
    "CREATE FUNCTION f() RETURNS integer LANGUAGE plpgsql AS $$ DECLARE v integer := 0; BEGIN FOR i IN 1 .. 2 BY 3 LOOP \
    IF v = 4 THEN v := 5; ELSE EXIT WHEN v = 6; END IF; END LOOP; RETURN 7; END; $$;";

fn number_of(e: &Expr) -> Option<i64> {
    match e {
        Expr::Int(k) => Some(*k),
        Expr::Compare(_, _, right) => match right.get() {
            Expr::Int(k) => Some(*k),
            _ => None,
        },
        _ => None,
    }
}

/// Eight in order, and seventeen more.
#[test]
fn a_table_goes_by_the_text(rt: HostRuntime) {
    let schema = no_tables(&rt);
    let function = checked(&rt, &schema, TEXT);
    let table = expr_table(rt.alloc(), function.get()).expect(&rt, "memory");
    let list = table.list.as_slice();
    assert_eq!(&rt; list.len(), 25);
    for k in 0..8usize {
        assert_eq!(&rt; number_of(&list[k]), Some(k as i64));
    }
    assert_eq!(&rt; number_of(&list[8]), None);
}
