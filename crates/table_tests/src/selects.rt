//! Each part of a select once, on rows of integers.

use away_values::Value;
use lateral_rows::{Aggregate, Rows, aggregate, cut, extend, keep, keep_into, order};
use sqlite_items::Items;
use std::process::Abort;

fn row(rt: &(impl Abort + AllocGlobal), numbers: &[i64]) -> Items<Value> {
    let mut all = Items::new(rt.alloc());
    for n in numbers {
        all.push(Value::Int(*n)).expect(rt, "memory");
    }
    all
}

/// Rows of one column.
fn rows(rt: &(impl Abort + AllocGlobal), numbers: &[i64]) -> Rows {
    let mut list = Items::new(rt.alloc());
    for n in numbers {
        list.push(row(rt, &[*n])).expect(rt, "memory");
    }
    Rows { list }
}

/// The rows as a text: a row's numbers behind spaces, and a comma after it.
fn shown(rt: &(impl Abort + AllocGlobal), rows: &Rows) -> String {
    let mut out = String::new(rt.alloc());
    for row in rows.list.as_slice() {
        for v in row.as_slice() {
            if let Value::Int(n) = v {
                let text = format!(in rt.alloc(); " {n}").expect(rt, "memory");
                out.push_str(text.as_str()).expect(rt, "memory");
            }
        }
        out.push_str(",").expect(rt, "memory");
    }
    out
}

#[test]
fn parts_of_a_select(rt: HostRuntime) {
    let three = rows(&rt, &[3, 1, 2]);
    let groups = [rows(&rt, &[7, 8]), rows(&rt, &[]), rows(&rt, &[9])];
    let wide = extend(rt.alloc(), &three, &groups).expect(&rt, "memory");
    assert!(rt; shown(&rt, &wide).as_str() == " 3 7, 3 8, 2 9,");
    let flags = [Value::Bool(true), Value::Null, Value::Bool(true)];
    let some = keep(rt.alloc(), &three, &flags).expect(&rt, "memory");
    assert!(rt; shown(&rt, &some).as_str() == " 3, 2,");
    let mut kept = rows(&rt, &[9]);
    let two = rows(&rt, &[4, 5]);
    keep_into(
        rt.alloc(),
        &mut kept,
        &two,
        &[Value::Null, Value::Bool(true)],
    )
    .expect(&rt, "memory");
    assert!(rt; shown(&rt, &kept).as_str() == " 9, 5,");
    let keys = [row(&rt, &[1, 5]), row(&rt, &[1, 6]), row(&rt, &[0, 5])];
    let sorted = order(rt.alloc(), &three, &keys, &[true, false]).expect(&rt, "memory");
    assert!(rt; shown(&rt, &sorted).as_str() == " 3, 1, 2,");
    let first = cut(rt.alloc(), &three, &Value::Int(2)).expect(&rt, "memory");
    assert!(rt; shown(&rt, &first).as_str() == " 3, 1,");
}

#[test]
fn aggregates(rt: HostRuntime) {
    let column = [Value::Int(4), Value::Null, Value::Int(-6)];
    for (kind, want) in [
        (Aggregate::CountRows, 3),
        (Aggregate::Count, 2),
        (Aggregate::Min, -6),
        (Aggregate::Max, 4),
        (Aggregate::Sum, -2),
    ] {
        let v = aggregate(rt.alloc(), kind, &column).expect(&rt, "memory");
        assert!(rt; matches!(v, Value::Int(n) if n == want));
    }
    let truths = [Value::Bool(true), Value::Null];
    for kind in [Aggregate::BoolAnd, Aggregate::BoolOr] {
        let v = aggregate(rt.alloc(), kind, &truths).expect(&rt, "memory");
        assert!(rt; matches!(v, Value::Bool(true)));
    }
}
