//! What fields and files are read as.

use crate::made::{named, two};
use away_trees::{ColumnSchema, TableSchema};
use away_values::{Table, Ty, Value};
use csv_tables::{TableRefusal, read_table, read_value};
use std::process::Abort;

fn shown(rt: &(impl Abort + AllocGlobal), value: &Value) -> String {
    let text = match value {
        Value::Null => String::from_str(rt.alloc(), "NULL"),
        Value::Int(n) => format!(in rt.alloc(); "{n}"),
        Value::Bool(b) => format!(in rt.alloc(); "{b}"),
        Value::Text(word) => {
            let text = word.text();
            format!(in rt.alloc(); "'{text}'")
        }
    };
    text.expect(rt, "memory")
}

fn read(rt: &(impl Abort + AllocGlobal), ty: Ty, field: &str) -> String {
    match read_value(rt.alloc(), ty, field.as_bytes()).expect(rt, "memory") {
        Some(value) => shown(rt, &value),
        None => String::from_str(rt.alloc(), "none").expect(rt, "memory"),
    }
}

static FIELDS: [(Ty, &str, &str); 36] = [
    (Ty::Bigint, "\\N", "NULL"),
    (Ty::Bigint, "5", "5"),
    (Ty::Bigint, "+5", "5"),
    (Ty::Bigint, "-5", "-5"),
    (Ty::Bigint, "-0", "0"),
    (Ty::Bigint, "007", "7"),
    (Ty::Bigint, "9223372036854775807", "9223372036854775807"),
    (Ty::Bigint, "9223372036854775808", "none"),
    (Ty::Bigint, "-9223372036854775808", "-9223372036854775808"),
    (Ty::Bigint, "-9223372036854775809", "none"),
    (Ty::Bigint, "00000000000000000000000000001", "1"),
    (Ty::Bigint, "", "none"),
    (Ty::Bigint, "+", "none"),
    (Ty::Bigint, "-", "none"),
    (Ty::Bigint, "+-5", "none"),
    (Ty::Bigint, " 5", "none"),
    (Ty::Bigint, "5 ", "none"),
    (Ty::Bigint, "x", "none"),
    (Ty::Bigint, "5.0", "none"),
    (Ty::Bigint, "é", "none"),
    (Ty::Bigint, "\\n", "none"),
    (Ty::Integer, "\\N", "NULL"),
    (Ty::Integer, "2147483647", "2147483647"),
    (Ty::Integer, "2147483648", "none"),
    (Ty::Integer, "-2147483648", "-2147483648"),
    (Ty::Integer, "-2147483649", "none"),
    (Ty::Boolean, "\\N", "NULL"),
    (Ty::Boolean, "t", "true"),
    (Ty::Boolean, "true", "true"),
    (Ty::Boolean, "f", "false"),
    (Ty::Boolean, "false", "false"),
    (Ty::Boolean, "TRUE", "none"),
    (Ty::Text, "\\N", "NULL"),
    (Ty::Text, "", "''"),
    (Ty::Text, " é ", "' é '"),
    (Ty::Text, "a\0b", "none"),
];

#[test]
fn fields_are_read(rt: HostRuntime) {
    for (ty, field, expected) in &FIELDS {
        assert_eq!(rt; read(&rt, *ty, field).as_str(), *expected);
    }
}

fn is_text(rt: &(impl Abort + AllocGlobal), field: &[u8]) -> bool {
    read_value(rt.alloc(), Ty::Text, field)
        .expect(rt, "memory")
        .is_some()
}

#[test]
fn bytes_that_are_no_utf8_are_no_text(rt: HostRuntime) {
    assert!(rt; !is_text(&rt, &[0xC3, 0x28]));
}

#[test]
fn a_text_has_a_limit(rt: HostRuntime) {
    for (size, expected) in [(1_048_576, true), (1_048_577, false)] {
        let field = vec![in rt.alloc(); b'a'; size].expect(&rt, "memory");
        assert!(rt; is_text(&rt, field.as_slice()) == expected);
    }
}

fn column(rt: &(impl Abort + AllocGlobal), text: &str, ty: Ty, not_null: bool) -> ColumnSchema {
    ColumnSchema {
        name: named(rt, text),
        ty,
        not_null,
    }
}

/// The table t of k bigint and v text.
fn pairs(rt: &(impl Abort + AllocGlobal), not_null: bool) -> TableSchema {
    let key = column(rt, "k", Ty::Bigint, not_null);
    let value = column(rt, "v", Ty::Text, false);
    TableSchema {
        name: named(rt, "t"),
        columns: two(rt, key, value),
    }
}

fn rows_of(rt: &(impl Abort + AllocGlobal), table: &Table) -> String {
    let mut text = String::new(rt.alloc());
    for row in table.rows.as_slice() {
        for value in row.as_slice() {
            text.push_str(shown(rt, value).as_str())
                .expect(rt, "memory");
            text.push(' ').expect(rt, "memory");
        }
        text.push_str("/ ").expect(rt, "memory");
    }
    text
}

fn refusal_of(rt: &(impl Abort + AllocGlobal), refusal: TableRefusal) -> String {
    let text = match refusal {
        TableRefusal::Header => String::from_str(rt.alloc(), "Z1"),
        TableRefusal::Count { row } => format!(in rt.alloc(); "Z2 {row}"),
        TableRefusal::Cell { row, column } => format!(in rt.alloc(); "Z3 {row} {column}"),
        TableRefusal::NullCell { row, column } => format!(in rt.alloc(); "Z4 {row} {column}"),
        TableRefusal::NoMemory => rt.abort(),
    };
    text.expect(rt, "memory")
}

fn held(rt: &(impl Abort + AllocGlobal), not_null: bool, file: &str) -> String {
    match read_table(rt.alloc(), &pairs(rt, not_null), file.as_bytes()) {
        Ok(table) => rows_of(rt, &table),
        Err(refusal) => refusal_of(rt, refusal),
    }
}

/// Whether k is NOT NULL, the file, and what it holds.
static FILES: [(bool, &str, &str); 27] = [
    (false, "", "Z1"),
    (false, "\n\n", "Z1"),
    (false, "k\n", "Z1"),
    (false, "k,v,w\n", "Z1"),
    (false, "v,k\n", "Z1"),
    (false, "K,v\n", "Z1"),
    (false, "k, v\n", "Z1"),
    (false, "k,v", ""),
    (false, "\"k\",\"v\"\n", ""),
    (
        false,
        "k,v\n1,one\n2,two\n2,zwei\n",
        "1 'one' / 2 'two' / 2 'zwei' / ",
    ),
    (false, "k,v\r\n1,one\r\n", "1 'one' / "),
    (false, "k,v\n\n1,one\n\n", "1 'one' / "),
    (false, "k,v\n1,one\nx,two\n", "Z3 2 1"),
    (false, "k,v\n1,one\n2\n", "Z2 2"),
    (false, "k,v\n1,one,\n", "Z2 1"),
    (false, "k,v\nx\n", "Z2 1"),
    (false, "k,v\nx,\0\n", "Z3 1 1"),
    (false, "k,v\n1,\0\nx,\0\n", "Z3 1 2"),
    (false, "k,v\n 5,one\n", "Z3 1 1"),
    (false, "k,v\n,one\n", "Z3 1 1"),
    (true, "k,v\n\\N,one\n", "Z4 1 1"),
    (true, "k,v\n\"\\N\",one\n", "Z4 1 1"),
    (true, "k,v\n1,one\n\\N,\0\n", "Z4 2 1"),
    (false, "k,v\n\\N,\\N\n", "NULL NULL / "),
    (false, "k,v\n\"\\N\",\"\\N\"\n", "NULL NULL / "),
    (false, "k,v\n+5,\"\"\n007,\n", "5 '' / 7 '' / "),
    (false, "k,v\n1,\"a,\"\"b\"\"\n\"\n", "1 'a,\"b\"\n' / "),
];

#[test]
fn files_are_read(rt: HostRuntime) {
    for (not_null, file, expected) in &FILES {
        assert_eq!(rt; held(&rt, *not_null, file).as_str(), *expected);
    }
}

#[test]
fn a_byte_order_mark_is_no_part_of_a_file(rt: HostRuntime) {
    let held = held(&rt, false, "\u{FEFF}k,v\n1,one\n");
    assert_eq!(rt; held.as_str(), "1 'one' / ");
}

#[test]
fn a_long_file_is_read(rt: HostRuntime) {
    let mut file = String::from_str(rt.alloc(), "k,v\n").expect(&rt, "memory");
    for _ in 0..20_000 {
        file.push_str("1,one\n").expect(&rt, "memory");
    }
    file.push_str("x,one\n").expect(&rt, "memory");
    assert_eq!(rt; held(&rt, false, &file).as_str(), "Z3 20001 1");
}
