//! Worked queries, with the answers that the rules of SQL give.

mod trees;

use crate::evaluation::trees::Given::{Bool, Int, Null, Text};
use crate::evaluation::trees::{
    Given, answering, arithmetic, boxed, call, column, comparison, counting, filtered, item, key,
    lateral, literal, none, one, outer_column, query, recursive, select, table, tables, up_to,
    value, with,
};
use away_trees::{Expr, Query, Select};
use away_values::{Answer, CmpOp, IntOp, OpError, Tables, Ty, Value};
use sql_eval::{Frames, eval_expr, query_length, rows, run_query};
use sqlite_items::Items;
use std::alloc::{AllocError, Global};
use std::process::Abort;

fn shown(alloc: Global, v: &Value) -> Result<String, AllocError> {
    match v {
        Value::Null => String::from_str(alloc, "NULL"),
        Value::Int(n) => format!(in alloc; "{n}"),
        Value::Bool(b) => format!(in alloc; "{b}"),
        Value::Text(word) => String::from_str(alloc, word.text()),
    }
}

fn class(alloc: Global, code: &[u8]) -> Result<String, AllocError> {
    match std::str::from_utf8(code) {
        Ok(code) => format!(in alloc; "fault {code}"),
        Err(_) => String::from_str(alloc, "no class"),
    }
}

/// The answer of a query over a table of one column at a bound, as a line.
fn answer_at(rt: &(impl Abort + AllocGlobal), q: &Query, tables: &Tables, bound: u64) -> String {
    let args = [Value::Int(7)];
    let answer = run_query(rt.alloc(), q, tables, &args, bound).expect(rt, "memory");
    let line = match &answer {
        Answer::Value(v) => shown(rt.alloc(), v),
        Answer::Fault(c) => class(rt.alloc(), &c.code),
        Answer::More => String::from_str(rt.alloc(), "more"),
        Answer::Shape(n) => format!(in rt.alloc(); "shape {n}"),
    };
    line.expect(rt, "memory")
}

/// Whether the select's answer over the table is this line.
fn answers(rt: &(impl Abort + AllocGlobal), s: Select, column: &[Given], line: &str) -> bool {
    let tables = tables(rt, column);
    let q = query(rt, s);
    answer_at(rt, &q, &tables, 0).as_str() == line
}

fn alone(rt: &(impl Abort + AllocGlobal), e: Expr, line: &str) -> bool {
    answers(rt, answering(rt, e, none(rt)), &[], line)
}

#[test]
fn expressions(rt: HostRuntime) {
    let sum = arithmetic(&rt, IntOp::Add, Expr::Int(1), Expr::Int(2));
    assert!(rt; alone(&rt, sum, "3"));
    let by_zero = arithmetic(&rt, IntOp::Div, Expr::Int(1), Expr::Int(0));
    assert!(rt; alone(&rt, by_zero, "fault 22012"));
    assert!(rt; alone(&rt, call(&rt, "length", literal(&rt, Text("häß"))), "3"));
    assert!(rt; alone(&rt, Expr::Param(1, Ty::Bigint), "7"));
}

/// The answer of one row of these two values.
fn row(rt: &(impl Abort + AllocGlobal), first: Given, second: Given, line: &str) -> bool {
    let list = with(
        rt,
        one(rt, item(literal(rt, first))),
        item(literal(rt, second)),
    );
    answers(rt, select(rt, list, none(rt)), &[], line)
}

#[test]
fn answers_of_one_row(rt: HostRuntime) {
    assert!(rt; row(&rt, Bool(true), Null, "true"));
    assert!(rt; row(&rt, Null, Text("2201W"), "fault 2201W"));
    assert!(rt; row(&rt, Null, Text("00000"), "shape 1"));
    assert!(rt; row(&rt, Null, Text("2201w"), "shape 1"));
    assert!(rt; row(&rt, Null, Text("22O1Ä"), "shape 1"));
    assert!(rt; row(&rt, Int(1), Text("22003"), "shape 1"));
}

/// SELECT t.a, NULL FROM t ORDER BY t.a [DESC] LIMIT 1
fn first_in_order(rt: &(impl Abort + AllocGlobal), descending: bool) -> Select {
    let mut s = answering(rt, column(0), one(rt, table(rt, "0")));
    s.order = one(rt, key(column(0), descending));
    s.limit = Some(Expr::Int(1));
    s
}

const NUMBERS: [Given; 4] = [Int(3), Null, Int(-5), Int(4)];

#[test]
fn rows_in_order(rt: HostRuntime) {
    assert!(rt; answers(&rt, first_in_order(&rt, false), &NUMBERS, "-5"));
    assert!(rt; answers(&rt, first_in_order(&rt, true), &NUMBERS, "NULL"));
    assert!(rt; answers(&rt, first_in_order(&rt, true), &[Text("a"), Text("B")], "a"));
    let all = answering(&rt, column(0), one(&rt, table(&rt, "0")));
    assert!(rt; answers(&rt, all, &NUMBERS, "shape 4"));
}

/// The aggregate of the table's column.
fn aggregate(rt: &(impl Abort + AllocGlobal), text: &str, column_of: &[Given], line: &str) -> bool {
    let s = answering(rt, call(rt, text, column(0)), one(rt, table(rt, "0")));
    answers(rt, s, column_of, line)
}

#[test]
fn aggregates(rt: HostRuntime) {
    assert!(rt; aggregate(&rt, "count", &NUMBERS, "3"));
    assert!(rt; aggregate(&rt, "min", &NUMBERS, "-5"));
    assert!(rt; aggregate(&rt, "max", &NUMBERS, "4"));
    assert!(rt; aggregate(&rt, "sum", &NUMBERS, "2"));
    assert!(rt;
        aggregate(
            &rt,
            "sum",
            &[Int(i64::MAX), Int(1), Int(-2)],
            "9223372036854775806"
        )
    );
    assert!(rt; aggregate(&rt, "sum", &[Int(i64::MAX), Int(1)], "fault 22003"));
    assert!(rt; aggregate(&rt, "sum", &[Null], "NULL"));
    assert!(rt; aggregate(&rt, "bool_and", &[Bool(true), Null], "true"));
    assert!(rt; aggregate(&rt, "bool_or", &[Bool(false)], "false"));
}

#[test]
fn subqueries(rt: HostRuntime) {
    let inner = query(
        &rt,
        select(&rt, one(&rt, item(column(0))), one(&rt, table(&rt, "0"))),
    );
    let scalar = Expr::Scalar(boxed(&rt, inner));
    assert!(rt;
        answers(
            &rt,
            answering(&rt, scalar, none(&rt)),
            &[Int(1), Int(2)],
            "fault 21000"
        )
    );
    let next = arithmetic(&rt, IntOp::Add, outer_column(1, 0), Expr::Int(1));
    let beside = query(&rt, select(&rt, one(&rt, item(next)), none(&rt)));
    let from = with(&rt, one(&rt, table(&rt, "0")), lateral(&rt, beside));
    let mut s = answering(&rt, column(1), from);
    s.filter = Some(comparison(&rt, CmpOp::Gt, column(1), Expr::Int(4)));
    assert!(rt; answers(&rt, s, &NUMBERS, "5"));
}

#[test]
fn recursion(rt: HostRuntime) {
    let none_at_all = tables(&rt, &[]);
    let q = counting(&rt, 5);
    assert!(rt; answer_at(&rt, &q, &none_at_all, 4).as_str() == "more");
    assert!(rt; answer_at(&rt, &q, &none_at_all, 5).as_str() == "5");
    assert!(rt; query_length(rt.alloc(), &q, &none_at_all, &[], 4).expect(&rt, "memory") == None);
    assert!(rt;
        query_length(rt.alloc(), &q, &none_at_all, &[], 9).expect(&rt, "memory") == Some(5)
    );
    let plain = query(&rt, answering(&rt, Expr::Int(1), none(&rt)));
    assert!(rt;
        query_length(rt.alloc(), &plain, &none_at_all, &[], 7).expect(&rt, "memory") == Some(0)
    );
}

/// 1 / (r.n - of) = 9
fn ninth(rt: &(impl Abort + AllocGlobal), of: i64) -> Expr {
    let apart = arithmetic(rt, IntOp::Sub, column(0), Expr::Int(of));
    let part = arithmetic(rt, IntOp::Div, Expr::Int(1), apart);
    comparison(rt, CmpOp::Eq, part, Expr::Int(9))
}

/// The recursion speaks before the condition, whose class is told when it has ended.
#[test]
fn conditions_that_fail(rt: HostRuntime) {
    let none_at_all = tables(&rt, &[]);
    let q = up_to(&rt, 5, filtered(&rt, column(0), ninth(&rt, 2)));
    assert!(rt; answer_at(&rt, &q, &none_at_all, 5).as_str() == "fault 22012");
    assert!(rt; answer_at(&rt, &q, &none_at_all, 4).as_str() == "more");
    let next = arithmetic(
        &rt,
        IntOp::Mul,
        column(0),
        Expr::Int(4_000_000_000_000_000_000),
    );
    let q = recursive(&rt, next, None, filtered(&rt, column(0), ninth(&rt, 1)));
    assert!(rt; answer_at(&rt, &q, &none_at_all, 2).as_str() == "fault 22003");
    assert!(rt; answer_at(&rt, &q, &none_at_all, 1).as_str() == "more");
}

/// What the select says of the numbers from 1 to 5.
fn of_five(rt: &(impl Abort + AllocGlobal), s: Select, line: &str) -> bool {
    let none_at_all = tables(rt, &[]);
    let q = up_to(rt, 5, s);
    answer_at(rt, &q, &none_at_all, 5).as_str() == line
}

/// (SELECT e FROM the table at the place)
fn over(rt: &(impl Abort + AllocGlobal), e: Expr, place: &str) -> Expr {
    let s = select(rt, one(rt, item(e)), one(rt, table(rt, place)));
    Expr::Scalar(boxed(rt, query(rt, s)))
}

/// r.n = e
fn is(rt: &(impl Abort + AllocGlobal), e: Expr) -> Expr {
    comparison(rt, CmpOp::Eq, column(0), e)
}

/// Where a subquery reads the recursive table, it sees all of its rows, and not those alone that the condition keeps.
#[test]
fn tables_in_subqueries(rt: HostRuntime) {
    let greatest = over(&rt, call(&rt, "max", column(0)), "1");
    assert!(rt; of_five(&rt, filtered(&rt, column(0), is(&rt, greatest)), "5"));
    let count = over(&rt, Expr::CountRows, "1");
    assert!(rt; of_five(&rt, filtered(&rt, count, is(&rt, Expr::Int(2))), "5"));
    let other = over(&rt, column(0), "0");
    let q = up_to(&rt, 5, filtered(&rt, column(0), is(&rt, other)));
    assert!(rt; answer_at(&rt, &q, &tables(&rt, &[Int(4)]), 5).as_str() == "4");
}

#[test]
fn rows_that_are_kept(rt: HostRuntime) {
    let above = comparison(&rt, CmpOp::Gt, column(0), Expr::Int(2));
    let sum = Expr::Cast(boxed(&rt, call(&rt, "sum", column(0))), Ty::Bigint);
    assert!(rt; of_five(&rt, filtered(&rt, sum, above), "12"));
    let not_three = comparison(&rt, CmpOp::Ne, column(0), Expr::Int(3));
    let mut s = filtered(&rt, column(0), not_three);
    s.order = one(&rt, key(column(0), true));
    s.limit = Some(Expr::Int(1));
    assert!(rt; of_five(&rt, s, "5"));
    let mut s = filtered(&rt, column(0), Expr::Bool(false));
    s.limit = Some(Expr::Int(-1));
    assert!(rt; of_five(&rt, s, "fault 2201W"));
}

#[test]
fn rows_before_an_answer(rt: HostRuntime) {
    let none_at_all = tables(&rt, &[]);
    let q = counting(&rt, 5);
    assert!(rt; matches!(rows(rt.alloc(), &q, &none_at_all, &[], 4), Ok(None)));
    let Ok(Some(list)) = rows(rt.alloc(), &q, &none_at_all, &[], 5) else {
        rt.abort();
    };
    assert!(rt; list.len() == 1, "one row is left of the last step");
    for row in list.as_slice() {
        assert!(rt; row.len() == 2, "a value and a class");
    }
}

/// Each iteration takes the same time, whatever came before.
#[test]
fn many_iterations(rt: HostRuntime) {
    let none_at_all = tables(&rt, &[]);
    let q = counting(&rt, 200_000);
    assert!(rt; answer_at(&rt, &q, &none_at_all, 1_000_000).as_str() == "200000");
}

#[test]
fn variables_and_rows(rt: HostRuntime) {
    let frame = one(&rt, one(&rt, value(&rt, Int(40))));
    let inner = one(&rt, one(&rt, value(&rt, Int(1))));
    let frames = Frames {
        levels: with(&rt, one(&rt, frame), inner),
    };
    let e = arithmetic(&rt, IntOp::Add, outer_column(1, 0), Expr::Slot(1));
    let env = [Value::Null, Value::Int(2)];
    let v = eval_expr(rt.alloc(), &e, &env, &[], &frames, &tables(&rt, &[]));
    assert!(rt; matches!(v, Ok(Value::Int(42))));
}
