//! What the reader of bodies gives.

use away_lex::ReadRefusal;
use away_trees::{Arm, Decl, Expr, Function, LoopKind, Raised, Select, Stmt};
use away_values::Name;
use plsql_parse::read_function;
use sqlite_items::{Boxed, Items};
use std::alloc::{AllocError, Global};
use std::test::Fail;

/// Texts and the outlines of the bodies that they are, `-` where a text is none, and `outside` where a word outside the
/// profile stands in it.
static ROWS: [(&str, &str); 69] = [
    ("BEGIN END", ""),
    ("begin end;", ""),
    ("BEGIN END;;", "-"),
    ("", "-"),
    ("END", "-"),
    ("BEGIN", "-"),
    ("<<top>> BEGIN END top", "<<top>> :top"),
    ("<<top>> DECLARE BEGIN END", "<<top>>"),
    ("<<top BEGIN END", "-"),
    ("top BEGIN END", "-"),
    ("BEGIN END top bottom", "-"),
    (
        "DECLARE a bigint; b CONSTANT text; c boolean NOT NULL; d bool := TRUE; e int8 = 1; f text DEFAULT 'x'; BEGIN END",
        " a b constant c not null d default e default f default",
    ),
    (
        "DECLARE a CONSTANT bigint NOT NULL DEFAULT 1; BEGIN END",
        " a constant not null default",
    ),
    ("DECLARE a bigint NOT; BEGIN END", "-"),
    ("DECLARE a numeric; BEGIN END", "outside"),
    ("DECLARE a bigint BEGIN END", "-"),
    ("DECLARE a bigint := ; BEGIN END", "-"),
    ("DECLARE a; BEGIN END", "-"),
    ("BEGIN a bigint; END", "-"),
    ("BEGIN a := 1; b = a; END", " a:= b:="),
    ("BEGIN a := 1 END", "-"),
    ("BEGIN a 1; END", "-"),
    ("BEGIN 1; END", "-"),
    ("BEGIN NULL; null; END", " null null"),
    ("BEGIN NULL END", "-"),
    ("BEGIN RETURN a + 1; END", " return"),
    ("BEGIN RETURN; END", "-"),
    ("BEGIN IF a THEN END IF; END", " if+"),
    (
        "BEGIN IF a THEN NULL; ELSIF b THEN ELSEIF c THEN ELSE NULL; END IF; END",
        " if+++ else",
    ),
    ("BEGIN IF a NULL; END IF; END", "-"),
    ("BEGIN IF a THEN ELSE ELSIF b THEN END IF; END", "-"),
    ("BEGIN IF a THEN END; END", "-"),
    (
        "BEGIN CASE WHEN a THEN WHEN b THEN NULL; END CASE; END",
        " case++",
    ),
    ("BEGIN CASE WHEN a THEN ELSE END CASE; END", " case+ else"),
    ("BEGIN CASE a WHEN 1 THEN END CASE; END", "-"),
    ("BEGIN CASE ELSE END CASE; END", "-"),
    ("BEGIN CASE WHEN a THEN END IF; END", "-"),
    ("BEGIN LOOP NULL; END LOOP; END", " loop"),
    ("BEGIN <<l>> LOOP END LOOP l; END", " <<l>> loop :l"),
    ("BEGIN LOOP END; END", "-"),
    ("BEGIN WHILE a < 1 LOOP END LOOP; END", " while"),
    (
        "BEGIN WHILE (CASE WHEN a THEN b END) LOOP END LOOP; END",
        " while",
    ),
    ("BEGIN WHILE CASE WHEN a THEN b END LOOP END LOOP; END", "-"),
    ("BEGIN WHILE LOOP END LOOP; END", "-"),
    ("BEGIN FOR i IN 1..2 LOOP END LOOP; END", " for i"),
    (
        "BEGIN FOR i IN REVERSE a .. b + 1 BY 2 LOOP END LOOP; END",
        " for i reverse by",
    ),
    ("BEGIN FOR i IN 1 LOOP END LOOP; END", "-"),
    (
        "BEGIN FOR i IN 1..CASE WHEN a THEN b END LOOP END LOOP; END",
        "-",
    ),
    (
        "BEGIN EXIT; EXIT l; EXIT l WHEN a; EXIT WHEN a; END",
        " exit exit l exit l when exit when",
    ),
    (
        "BEGIN CONTINUE; CONTINUE l; CONTINUE l WHEN a; CONTINUE WHEN a; END",
        " continue continue l continue l when continue when",
    ),
    ("BEGIN EXIT a b; END", "-"),
    ("BEGIN CONTINUE WHEN; END", "-"),
    (
        "BEGIN RAISE EXCEPTION 'it''s'; RAISE 'a'; RAISE Exception SQLSTATE '22012'; raise sqlstate 'b'; END",
        " message it's message a state 22012 state b",
    ),
    ("BEGIN RAISE; END", "-"),
    ("BEGIN RAISE NOTICE 'a'; END", "outside"),
    ("BEGIN BEGIN END; <<in>> BEGIN END; END", "-"),
    (
        "BEGIN BEGIN END; <<l>> DECLARE a bigint; BEGIN NULL; END l; END",
        " block <<l>> block :l",
    ),
    ("BEGIN BEGIN END END", "-"),
    ("BEGIN SELECT; END", "-"),
    (
        "BEGIN SELECT INTO a 1; SELECT 1 INTO a; END",
        " into a * into a *",
    ),
    (
        "BEGIN SELECT INTO STRICT a, b 1, 2 AS c FROM t WHERE x ORDER BY y LIMIT 1; END",
        " strict a b ** from where order limit",
    ),
    (
        "BEGIN select 1, 2 into strict A, b from t, u limit 1; END",
        " strict a b ** from limit",
    ),
    ("BEGIN SELECT INTO a -1; END", " into a *"),
    ("BEGIN SELECT INTO a, t.k FROM t; END", "-"),
    ("BEGIN SELECT INTO a, b FROM t; END", "-"),
    ("BEGIN SELECT 1 FROM t INTO a; END", "-"),
    ("BEGIN SELECT 1 INTO a FROM t UNION ALL SELECT 2; END", "-"),
    ("BEGIN a := (SELECT 1 INTO a); END", "-"),
    ("BEGIN SELECT 1 INTO a FROM t GROUP BY x; END", "outside"),
];

/// The outline of the function's body that a text is.
fn shown(alloc: Global, text: &str) -> Result<String, AllocError> {
    let file = format!(in alloc;
        "CREATE FUNCTION f() RETURNS bigint LANGUAGE plpgsql AS $$ {text} $$;"
    )?;
    answer(alloc, file.as_str())
}

fn answer(alloc: Global, file: &str) -> Result<String, AllocError> {
    match read_function(alloc, file.as_bytes()) {
        Ok(f) => body_outline(alloc, f),
        Err(ReadRefusal::NoTree) => String::from_str(alloc, "-"),
        Err(ReadRefusal::Outside { .. }) => String::from_str(alloc, "outside"),
        Err(_) => Err(AllocError),
    }
}

fn body_outline(alloc: Global, f: Function) -> Result<String, AllocError> {
    let f = Boxed::new(alloc, f)?;
    outline(alloc, &f.get().body)
}

/// The label of a block, its declarations, its statements and its closing name.
fn outline(alloc: Global, body: &Stmt) -> Result<String, AllocError> {
    let mut shown = String::new(alloc);
    if let Stmt::Block {
        label,
        decls,
        body,
        closing,
    } = body
    {
        add_label(&mut shown, label)?;
        add_decls(&mut shown, decls)?;
        for statement in body.as_slice().iter() {
            add_statement(&mut shown, statement)?;
        }
        add_closing(&mut shown, closing)?;
    }
    Ok(shown)
}

fn add_label(shown: &mut String, label: &Option<Name>) -> Result<(), AllocError> {
    if let Some(name) = label {
        shown.push_str("<<")?;
        shown.push_str(name.text())?;
        shown.push_str(">>")?;
    }
    Ok(())
}

fn add_closing(shown: &mut String, closing: &Option<Name>) -> Result<(), AllocError> {
    if let Some(name) = closing {
        shown.push_str(" :")?;
        shown.push_str(name.text())?;
    }
    Ok(())
}

fn add_decls(shown: &mut String, decls: &Items<Decl>) -> Result<(), AllocError> {
    for decl in decls.as_slice().iter() {
        shown.push_str(" ")?;
        shown.push_str(decl.name.text())?;
        if decl.constant {
            shown.push_str(" constant")?;
        }
        if decl.not_null {
            shown.push_str(" not null")?;
        }
        if decl.default.is_some() {
            shown.push_str(" default")?;
        }
    }
    Ok(())
}

fn add_statement(shown: &mut String, statement: &Stmt) -> Result<(), AllocError> {
    shown.push_str(" ")?;
    match statement {
        Stmt::Block { label, closing, .. } => add_labelled(shown, label, "block", closing),
        Stmt::Loop {
            label,
            kind,
            closing,
            ..
        } => {
            add_labelled(shown, label, kind_word(kind), closing)?;
            add_count(shown, kind)
        }
        Stmt::Assign(name, _, _) => {
            shown.push_str(name.text())?;
            shown.push_str(":=")
        }
        Stmt::If(arms, other) => add_arms(shown, "if", arms, other.is_some()),
        Stmt::Cases(arms, other) => add_arms(shown, "case", arms, other.is_some()),
        Stmt::Exit(label, test) => add_leaving(shown, "exit", label, test),
        Stmt::Continue(label, test) => add_leaving(shown, "continue", label, test),
        Stmt::Return(_) => shown.push_str("return"),
        Stmt::Raise(raised) => add_raised(shown, raised),
        Stmt::Into {
            strict,
            targets,
            query,
        } => add_into(shown, *strict, targets, query),
        Stmt::Nothing => shown.push_str("null"),
    }
}

/// The targets, a star for each item of the list, and the clauses that are written.
fn add_into(
    shown: &mut String,
    strict: bool,
    targets: &Items<(Name, Option<u32>)>,
    query: &Select,
) -> Result<(), AllocError> {
    shown.push_str(if strict { "strict" } else { "into" })?;
    for target in targets.as_slice().iter() {
        shown.push_str(" ")?;
        shown.push_str(target.0.text())?;
    }
    shown.push_str(" ")?;
    for _item in query.list.as_slice().iter() {
        shown.push_str("*")?;
    }
    if !query.from.as_slice().is_empty() {
        shown.push_str(" from")?;
    }
    if query.filter.is_some() {
        shown.push_str(" where")?;
    }
    if !query.order.as_slice().is_empty() {
        shown.push_str(" order")?;
    }
    if query.limit.is_some() {
        shown.push_str(" limit")?;
    }
    Ok(())
}

fn add_labelled(
    shown: &mut String,
    label: &Option<Name>,
    word: &str,
    closing: &Option<Name>,
) -> Result<(), AllocError> {
    add_label(shown, label)?;
    if label.is_some() {
        shown.push_str(" ")?;
    }
    shown.push_str(word)?;
    add_closing(shown, closing)
}

fn kind_word(kind: &LoopKind) -> &'static str {
    match kind {
        LoopKind::Plain => "loop",
        LoopKind::While(_) => "while",
        LoopKind::Count { .. } => "for",
    }
}

fn add_count(shown: &mut String, kind: &LoopKind) -> Result<(), AllocError> {
    if let LoopKind::Count {
        var,
        reverse,
        step,
        ..
    } = kind
    {
        shown.push_str(" ")?;
        shown.push_str(var.text())?;
        if *reverse {
            shown.push_str(" reverse")?;
        }
        if step.is_some() {
            shown.push_str(" by")?;
        }
    }
    Ok(())
}

/// A `+` for each arm.
fn add_arms(
    shown: &mut String,
    word: &str,
    arms: &Items<Arm>,
    has_other: bool,
) -> Result<(), AllocError> {
    shown.push_str(word)?;
    for _arm in arms.as_slice().iter() {
        shown.push_str("+")?;
    }
    if has_other {
        shown.push_str(" else")?;
    }
    Ok(())
}

fn add_leaving(
    shown: &mut String,
    word: &str,
    label: &Option<Name>,
    test: &Option<Expr>,
) -> Result<(), AllocError> {
    shown.push_str(word)?;
    if let Some(name) = label {
        shown.push_str(" ")?;
        shown.push_str(name.text())?;
    }
    if test.is_some() {
        shown.push_str(" when")?;
    }
    Ok(())
}

fn add_raised(shown: &mut String, raised: &Raised) -> Result<(), AllocError> {
    match raised {
        Raised::Message(text) => {
            shown.push_str("message ")?;
            shown.push_str(text.text())
        }
        Raised::State(text) => {
            shown.push_str("state ")?;
            shown.push_str(text.text())
        }
    }
}

#[test]
fn texts_and_their_bodies(rt: HostRuntime) -> Result<(), Fail> {
    for (text, wanted) in ROWS.iter() {
        assert_eq!(rt;
            (*text, shown(rt.alloc(), text)?.as_str()),
            (*text, *wanted)
        );
    }
    Ok(())
}
