//! Worked examples of the operators.

use crate::made::worded;
use crate::operators::Given::{Bool, Int, Null, Text};
use away_values::{
    Class, CmpOp, IntOp, OpError, TextOp, Value, compare, int_op, name, small, text_op, word,
};
use std::process::Abort;

/// A value as a table has it.
#[derive(Clone, Copy)]
enum Given {
    Null,
    Int(i64),
    Bool(bool),
    Text(&'static str),
}

const LEAST: i64 = i64::MIN;

const GREATEST: i64 = i64::MAX;

fn value(rt: &(impl Abort + AllocGlobal), given: Given) -> Value {
    match given {
        Given::Null => Value::Null,
        Given::Int(n) => Value::Int(n),
        Given::Bool(b) => Value::Bool(b),
        Given::Text(t) => Value::Text(worded(rt, t)),
    }
}

fn shown(rt: &(impl Abort + AllocGlobal), v: &Value) -> String {
    let text = match v {
        Value::Null => String::from_str(rt.alloc(), "NULL"),
        Value::Int(n) => format!(in rt.alloc(); "{n}"),
        Value::Bool(b) => format!(in rt.alloc(); "{b}"),
        Value::Text(word) => String::from_str(rt.alloc(), word.text()),
    };
    text.expect(rt, "memory")
}

/// The value, or the class as a text.
fn answer(rt: &(impl Abort + AllocGlobal), given: Result<Value, Class>) -> String {
    match given {
        Ok(v) => shown(rt, &v),
        Err(class) => {
            let code = std::str::from_utf8(&class.code).expect(rt, "a code");
            String::from_str(rt.alloc(), code).expect(rt, "memory")
        }
    }
}

/// What the operator gives on texts where it finds memory.
fn text_of(rt: &(impl Abort + AllocGlobal), op: TextOp, args: &[Value]) -> Result<Value, Class> {
    match text_op(rt.alloc(), op, args) {
        Ok(v) => Ok(v),
        Err(OpError::Class(class)) => Err(class),
        Err(OpError::NoMemory) => rt.abort(),
    }
}

static ARITHMETIC: [(IntOp, Given, Given, &str); 36] = [
    (IntOp::Add, Int(GREATEST), Int(0), "9223372036854775807"),
    (IntOp::Add, Int(GREATEST), Int(1), "22003"),
    (IntOp::Add, Int(LEAST), Int(-1), "22003"),
    (IntOp::Add, Int(LEAST), Int(GREATEST), "-1"),
    (IntOp::Sub, Int(LEAST), Int(1), "22003"),
    (IntOp::Sub, Int(GREATEST), Int(-1), "22003"),
    (IntOp::Sub, Int(0), Int(LEAST), "22003"),
    (IntOp::Sub, Int(-1), Int(LEAST), "9223372036854775807"),
    (IntOp::Sub, Int(LEAST), Int(LEAST), "0"),
    (IntOp::Mul, Int(LEAST), Int(-1), "22003"),
    (IntOp::Mul, Int(LEAST), Int(1), "-9223372036854775808"),
    (IntOp::Mul, Int(GREATEST), Int(2), "22003"),
    (IntOp::Mul, Int(GREATEST), Int(-1), "-9223372036854775807"),
    (
        IntOp::Mul,
        Int(4_294_967_296),
        Int(-2_147_483_648),
        "-9223372036854775808",
    ),
    (IntOp::Mul, Int(4_294_967_296), Int(2_147_483_648), "22003"),
    (IntOp::Div, Int(LEAST), Int(-1), "22003"),
    (IntOp::Div, Int(LEAST), Int(GREATEST), "-1"),
    (IntOp::Div, Int(GREATEST), Int(LEAST), "0"),
    (IntOp::Div, Int(7), Int(2), "3"),
    (IntOp::Div, Int(7), Int(-2), "-3"),
    (IntOp::Div, Int(-7), Int(2), "-3"),
    (IntOp::Div, Int(-7), Int(-2), "3"),
    (IntOp::Div, Int(LEAST), Int(0), "22012"),
    (IntOp::Rem, Int(LEAST), Int(-1), "0"),
    (IntOp::Rem, Int(LEAST), Int(GREATEST), "-1"),
    (IntOp::Rem, Int(GREATEST), Int(LEAST), "9223372036854775807"),
    (IntOp::Rem, Int(7), Int(2), "1"),
    (IntOp::Rem, Int(7), Int(-2), "1"),
    (IntOp::Rem, Int(-7), Int(2), "-1"),
    (IntOp::Rem, Int(-7), Int(-2), "-1"),
    (IntOp::Rem, Int(0), Int(0), "22012"),
    (IntOp::Add, Null, Int(1), "NULL"),
    (IntOp::Sub, Int(1), Null, "NULL"),
    (IntOp::Mul, Null, Null, "NULL"),
    (IntOp::Div, Null, Int(0), "NULL"),
    (IntOp::Rem, Int(1), Null, "NULL"),
];

fn computed(rt: &(impl Abort + AllocGlobal), op: IntOp, a: Given, b: Given) -> String {
    answer(rt, int_op(op, &value(rt, a), &value(rt, b)))
}

#[test]
fn arithmetic(rt: HostRuntime) {
    for (op, a, b, expected) in &ARITHMETIC {
        assert_eq!(rt; computed(&rt, *op, *a, *b).as_str(), *expected);
    }
}

static INTEGERS: [(Given, &str); 5] = [
    (Int(2_147_483_647), "2147483647"),
    (Int(2_147_483_648), "22003"),
    (Int(-2_147_483_648), "-2147483648"),
    (Int(-2_147_483_649), "22003"),
    (Null, "NULL"),
];

#[test]
fn integers_of_32_bits(rt: HostRuntime) {
    for (v, expected) in &INTEGERS {
        assert_eq!(rt; answer(&rt, small(&value(&rt, *v))).as_str(), *expected);
    }
}

const LESS: &str = "ftttff";

const EQUAL: &str = "tfftft";

const GREATER: &str = "ftfftt";

const UNKNOWN: &str = "------";

static COMPARISONS: [(Given, Given, &str); 16] = [
    (Int(LEAST), Int(GREATEST), LESS),
    (Int(GREATEST), Int(LEAST), GREATER),
    (Int(LEAST), Int(LEAST), EQUAL),
    (Int(-1), Int(0), LESS),
    (Int(1), Null, UNKNOWN),
    (Null, Int(1), UNKNOWN),
    (Null, Null, UNKNOWN),
    (Bool(false), Bool(true), LESS),
    (Bool(true), Bool(true), EQUAL),
    (Text(""), Text("a"), LESS),
    (Text("ab"), Text("a"), GREATER),
    (Text("Z"), Text("a"), LESS),
    (Text("10"), Text("9"), LESS),
    (Text("é"), Text("z"), GREATER),
    (Text("\u{ffff}"), Text("\u{10000}"), LESS),
    (Text("héllo"), Text("héllo"), EQUAL),
];

/// What the six comparisons give, in the order `= <> < <= > >=`.
fn compared(rt: &(impl Abort + AllocGlobal), a: Given, b: Given) -> String {
    let left = value(rt, a);
    let right = value(rt, b);
    let mut all = String::new(rt.alloc());
    for op in [
        CmpOp::Eq,
        CmpOp::Ne,
        CmpOp::Lt,
        CmpOp::Le,
        CmpOp::Gt,
        CmpOp::Ge,
    ] {
        let letter = match compare(op, &left, &right) {
            Value::Bool(true) => 't',
            Value::Bool(false) => 'f',
            _ => '-',
        };
        all.push(letter).expect(rt, "memory");
    }
    all
}

#[test]
fn comparison(rt: HostRuntime) {
    for (a, b, expected) in &COMPARISONS {
        assert_eq!(rt; compared(&rt, *a, *b).as_str(), *expected);
    }
}

static PARTS: [(Given, Given, Given, &str); 12] = [
    (Text("héllo"), Int(-1), Int(4), "hé"),
    (Text("héllo"), Int(1), Int(-1), "22011"),
    (Text("héllo"), Int(GREATEST), Int(GREATEST), ""),
    (Text("héllo"), Int(LEAST), Int(GREATEST), ""),
    (Text("héllo"), Int(1), Int(GREATEST), "héllo"),
    (Text("héllo"), Int(2), Int(2), "él"),
    (Text("héllo"), Int(5), Int(1), "o"),
    (Text("héllo"), Int(6), Int(1), ""),
    (Text("héllo"), Int(0), Int(1), ""),
    (Text("héllo"), Null, Int(-1), "NULL"),
    (Text("héllo"), Int(1), Null, "NULL"),
    (Null, Int(1), Int(-1), "NULL"),
];

#[test]
fn parts_of_texts(rt: HostRuntime) {
    for (text, from, count, expected) in &PARTS {
        let args = [value(&rt, *text), value(&rt, *from), value(&rt, *count)];
        let part = answer(&rt, text_of(&rt, TextOp::Substr, &args));
        assert_eq!(rt; part.as_str(), *expected);
    }
}

static JOINED: [(Given, Given, &str); 6] = [
    (Text("a"), Int(LEAST), "a-9223372036854775808"),
    (Int(10), Text("é"), "10é"),
    (Bool(true), Text(""), "true"),
    (Text("a"), Bool(false), "afalse"),
    (Text("a"), Null, "NULL"),
    (Null, Text("a"), "NULL"),
];

#[test]
fn joined_texts(rt: HostRuntime) {
    for (a, b, expected) in &JOINED {
        let args = [value(&rt, *a), value(&rt, *b)];
        let joined = answer(&rt, text_of(&rt, TextOp::Concat, &args));
        assert_eq!(rt; joined.as_str(), *expected);
    }
}

static SPELLED: [(Given, &str, &str); 6] = [
    (Int(LEAST), "-9223372036854775808", "NULL"),
    (Int(0), "0", "NULL"),
    (Bool(false), "false", "NULL"),
    (Text("héllo"), "héllo", "5"),
    (Text(""), "", "0"),
    (Null, "NULL", "NULL"),
];

fn of_one(rt: &(impl Abort + AllocGlobal), op: TextOp, v: Given) -> String {
    let args = [value(rt, v)];
    answer(rt, text_of(rt, op, &args))
}

#[test]
fn spellings_and_lengths(rt: HostRuntime) {
    for (v, written, length) in &SPELLED {
        assert_eq!(rt; of_one(&rt, TextOp::ToText, *v).as_str(), *written);
        assert_eq!(rt; of_one(&rt, TextOp::Length, *v).as_str(), *length);
    }
}

fn letters(rt: &(impl Abort + AllocGlobal), count: usize) -> String {
    let mut all = String::new(rt.alloc());
    for _ in 0..count {
        all.push('a').expect(rt, "memory");
    }
    all
}

/// The length in bytes of the text as a word, where it is one.
fn word_len(rt: &(impl Abort + AllocGlobal), text: &str) -> Option<usize> {
    let word = word(rt.alloc(), text).expect(rt, "memory")?;
    Some(word.text().len())
}

#[test]
fn words(rt: HostRuntime) {
    let longest = letters(&rt, 1_048_576);
    let longer = letters(&rt, 1_048_577);
    for (text, expected) in [
        (longest.as_str(), Some(1_048_576)),
        (longer.as_str(), None),
        ("a\u{0}b", None),
        ("héllo", Some(6)),
    ] {
        assert_eq!(rt; word_len(&rt, text), expected);
    }
}

/// The length in bytes of the two texts joined, or the class.
fn joined_len(rt: &(impl Abort + AllocGlobal), a: &str, b: &str) -> String {
    let args = [Value::Text(worded(rt, a)), Value::Text(worded(rt, b))];
    match text_of(rt, TextOp::Concat, &args) {
        Ok(Value::Text(word)) => {
            let len = word.text().len();
            format!(in rt.alloc(); "{len}").expect(rt, "memory")
        }
        other => answer(rt, other),
    }
}

#[test]
fn the_longest_joined_text(rt: HostRuntime) {
    let nearly = letters(&rt, 1_048_575);
    for (second, expected) in [("a", "1048576"), ("ab", "54000"), ("é", "54000")] {
        assert_eq!(rt; joined_len(&rt, &nearly, second).as_str(), expected);
    }
}

/// The name's text, or `-` where the text is no name.
fn named(rt: &(impl Abort + AllocGlobal), text: &str) -> String {
    let shown = match name(rt.alloc(), text).expect(rt, "memory") {
        Some(name) => String::from_str(rt.alloc(), name.text()),
        None => String::from_str(rt.alloc(), "-"),
    };
    shown.expect(rt, "memory")
}

#[test]
fn names(rt: HostRuntime) {
    let longest = letters(&rt, 63);
    let longer = letters(&rt, 64);
    for good in [longest.as_str(), "a", "_", "9", "x_1"] {
        assert_eq!(rt; named(&rt, good).as_str(), good);
    }
    for bad in [longer.as_str(), "A", "", "é", "a b", "a-b"] {
        assert_eq!(rt; named(&rt, bad).as_str(), "-");
    }
}
