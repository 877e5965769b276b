//! What files read as, and what they are refused for.

use away_lex::{LimitKind, ReadRefusal};
use away_trees::{Expr, Function, Stmt};
use plsql_parse::read_function;
use sqlite_items::Boxed;
use std::alloc::{AllocError, Global};
use std::test::Fail;

/// As `pg_dump` writes it.
static COLLATZ: &str = "CREATE FUNCTION public.collatz(n bigint) RETURNS bigint
    LANGUAGE plpgsql
    AS $$
DECLARE steps bigint := 0;
BEGIN
  WHILE n <> 1 LOOP
    IF n % 2 = 0 THEN n := n / 2; ELSE n := 3 * n + 1; END IF;
    steps := steps + 1;
  END LOOP;
  RETURN steps;
END;
$$;
";

/// As `pg_get_functiondef` writes it.
static WALK: &str = "CREATE OR REPLACE FUNCTION public.walk(lim bigint)
 RETURNS bigint
 LANGUAGE plpgsql
 STABLE PARALLEL SAFE STRICT LEAKPROOF COST 10
AS $function$
DECLARE best bigint; total bigint := 0;
BEGIN
  <<outer_loop>>
  FOR s IN 0..99 LOOP
    best := (SELECT max(r.cost) FROM route r WHERE r.src = s);
    FOR d IN 0..9 LOOP
      total := total + COALESCE(best, 0);
      EXIT outer_loop WHEN total > lim;
    END LOOP;
  END LOOP;
  RETURN total;
END;
$function$
";

/// The name, the strictness and the parameters of the function that a text reads as, or what it is refused for.
fn answer(alloc: Global, text: &str) -> Result<String, AllocError> {
    match read_function(alloc, text.as_bytes()) {
        Ok(f) => shown(alloc, f),
        Err(refusal) => code(alloc, refusal),
    }
}

fn shown(alloc: Global, f: Function) -> Result<String, AllocError> {
    let f = Boxed::new(alloc, f)?;
    signature(alloc, f.get())
}

fn signature(alloc: Global, f: &Function) -> Result<String, AllocError> {
    let name = f.name.text();
    let strict = if f.strict { " strict" } else { "" };
    let mut text = format!(in alloc; "{name}{strict}")?;
    for (param, ty) in f.params.as_slice() {
        let param = param.text();
        write!(text, " {param} {ty:?}")?;
    }
    Ok(text)
}

fn code(alloc: Global, refusal: ReadRefusal) -> Result<String, AllocError> {
    match refusal {
        ReadRefusal::NotText => String::from_str(alloc, "X1"),
        ReadRefusal::Token { offset } => format!(in alloc; "X2 {offset}"),
        ReadRefusal::NoTree => String::from_str(alloc, "X3"),
        ReadRefusal::Outside { word } => {
            let word = word.text();
            format!(in alloc; "X4 {word}")
        }
        ReadRefusal::Limit { which, found } => {
            let which = match which {
                LimitKind::Nesting => "nesting",
                LimitKind::Nodes => "nodes",
                LimitKind::Variables => "variables",
                LimitKind::Loops => "loops",
            };
            format!(in alloc; "X5 {which} {found}")
        }
        ReadRefusal::NoMemory => Err(AllocError),
    }
}

#[test]
fn files(rt: HostRuntime) -> Result<(), Fail> {
    let rows = [
        (COLLATZ, "collatz n Bigint"),
        (WALK, "walk strict lim Bigint"),
        (
            "CREATE FUNCTION f(int int, a INTEGER) RETURNS int4 LANGUAGE plpgsql AS $$BEGIN RETURN int; END$$",
            "f int Integer a Integer",
        ),
        (
            "CREATE FUNCTION f(a smallint) RETURNS int LANGUAGE plpgsql AS $$BEGIN RETURN a; END$$",
            "X3",
        ),
        ("", "X3"),
        ("\u{0}", "X1"),
        (
            "CREATE FUNCTION f() RETURNS bigint LANGUAGE plpgsql AS $$BEGIN",
            "X2 55",
        ),
        (
            "CREATE FUNCTION f() RETURNS bigint LANGUAGE plpgsql AS $$BEGIN ? END$$",
            "X2 63",
        ),
        (
            "CREATE FUNCTION f() RETURNS bigint LANGUAGE plpgsql AS $$BEGIN $a$ $a$ END$$ ?",
            "X2 77",
        ),
        (
            "CREATE FUNCTION f() RETURNS bigint LANGUAGE plpgsql AS $$BEGIN $a$ $a$ END$$",
            "X2 63",
        ),
        (
            "create function F(In A int8, b BOOL, c Text) returns TEXT language 'plpgsql' as $$begin return c; end$$ ;",
            "f a Bigint b Boolean c Text",
        ),
        (
            "/**/CREATE/**/FUNCTION--\r\npublic/**/./**/f/**/(/**/)/**/RETURNS/**/text/**/AS/**/$$/**/BEGIN/**/RETURN/**/'a'/**/;/**/END/**/;/**/$$/**/LANGUAGE/**/plpgsql/**/;/**/",
            "f",
        ),
        (
            "CREATE FUNCTION f()\r\nRETURNS bigint\r\nLANGUAGE plpgsql\r\nAS $$\r\nBEGIN\r\nRETURN 1;\r\nEND\r\n$$;\r\n",
            "f",
        ),
        (
            "CREATE FUNCTION other.f() RETURNS bigint LANGUAGE plpgsql AS $$BEGIN RETURN 1; END$$",
            "X3",
        ),
        (
            "CREATE FUNCTION public() RETURNS bigint LANGUAGE plpgsql AS $$BEGIN RETURN 1; END$$",
            "public",
        ),
        (
            "CREATE FUNCTION f(a) RETURNS bigint LANGUAGE plpgsql AS $$BEGIN RETURN 1; END$$",
            "X3",
        ),
        (
            "CREATE FUNCTION f(a bigint,) RETURNS bigint LANGUAGE plpgsql AS $$BEGIN RETURN 1; END$$",
            "X3",
        ),
        (
            "CREATE FUNCTION f(INOUT a bigint) RETURNS bigint LANGUAGE plpgsql AS $$BEGIN RETURN 1; END$$",
            "X4 inout",
        ),
        (
            "CREATE FUNCTION f() RETURNS bigint LANGUAGE plpgsql AS $$BEGIN RETURN 1; END$$;;",
            "X3",
        ),
        (
            "CREATE FUNCTION f() RETURNS bigint LANGUAGE plpgsql AS $$BEGIN RETURN 1; END$$; SELECT 1",
            "X3",
        ),
        (
            "CREATE OR FUNCTION f() RETURNS bigint LANGUAGE plpgsql AS $$BEGIN RETURN 1; END$$",
            "X3",
        ),
    ];
    for (text, wanted) in rows.iter() {
        assert_eq!(rt; answer(rt.alloc(), text)?.as_str(), *wanted, "{text}");
    }
    Ok(())
}

/// A function with these attributes and this body.
fn with(alloc: Global, attributes: &str, body: &str) -> Result<String, AllocError> {
    format!(in alloc; "CREATE FUNCTION f() RETURNS bigint {attributes} AS $${body}$$")
}

#[test]
fn attributes(rt: HostRuntime) -> Result<(), Fail> {
    let rows = [
        ("", "X3"),
        ("LANGUAGE plpgsql", "f"),
        ("LANGUAGE 'plpgsql'", "f"),
        ("LANGUAGE 'PLPGSQL'", "X3"),
        ("LANGUAGE sql", "X3"),
        ("LANGUAGE", "X3"),
        ("LANGUAGE plpgsql LANGUAGE plpgsql", "X3"),
        ("LANGUAGE plpgsql AS $a$BEGIN RETURN 1; END$a$", "X3"),
        ("LANGUAGE plpgsql AS 'a'", "X3"),
        ("LANGUAGE plpgsql IMMUTABLE", "f"),
        ("STABLE LANGUAGE plpgsql", "f"),
        ("VOLATILE LANGUAGE plpgsql", "f"),
        ("VOLATILE LANGUAGE plpgsql STABLE", "X3"),
        ("LANGUAGE plpgsql STRICT", "f strict"),
        ("LANGUAGE plpgsql RETURNS NULL ON NULL INPUT", "f strict"),
        ("LANGUAGE plpgsql CALLED ON NULL INPUT", "f"),
        ("LANGUAGE plpgsql CALLED ON NULL", "X3"),
        ("LANGUAGE plpgsql CALLED ON NULL INPUT STRICT", "X3"),
        ("LANGUAGE plpgsql LEAKPROOF", "f"),
        ("LANGUAGE plpgsql NOT LEAKPROOF", "f"),
        ("LANGUAGE plpgsql NOT LEAKPROOF LEAKPROOF", "X3"),
        ("LANGUAGE plpgsql NOT STRICT", "X3"),
        ("LANGUAGE plpgsql PARALLEL safe", "f"),
        ("LANGUAGE plpgsql PARALLEL Restricted", "f"),
        ("LANGUAGE plpgsql PARALLEL UNSAFE", "f"),
        ("LANGUAGE plpgsql PARALLEL other", "X3"),
        ("LANGUAGE plpgsql PARALLEL safe PARALLEL safe", "X3"),
        ("LANGUAGE plpgsql COST 100", "f"),
        ("LANGUAGE plpgsql COST 1 COST 1", "X3"),
        ("LANGUAGE plpgsql COST", "X3"),
        ("LANGUAGE plpgsql SECURITY DEFINER", "X4 security"),
        ("LANGUAGE plpgsql SET search_path = public", "X4 set"),
    ];
    for (text, wanted) in rows.iter() {
        let file = with(rt.alloc(), text, "BEGIN RETURN 1; END")?;
        assert_eq!(rt;
            answer(rt.alloc(), file.as_str())?.as_str(),
            *wanted,
            "{text}"
        );
    }
    Ok(())
}

/// A function whose body has one part so many times between its front and its back.
fn repeated(
    alloc: Global,
    front: &str,
    part: &str,
    times: usize,
    back: &str,
) -> Result<String, AllocError> {
    let mut body = String::from_str(alloc, front)?;
    for _ in 0..times {
        body.push_str(part)?;
    }
    body.push_str(back)?;
    with(alloc, "LANGUAGE plpgsql", body.as_str())
}

#[test]
fn limits(rt: HostRuntime) -> Result<(), Fail> {
    let rows = [
        ("BEGIN ", "NULL; ", 498, "RETURN 1; END", "f"),
        ("BEGIN ", "NULL; ", 499, "RETURN 1; END", "X5 nodes 501"),
        ("DECLARE ", "a bigint; ", 64, "BEGIN RETURN 1; END", "f"),
        (
            "DECLARE ",
            "a bigint; ",
            65,
            "BEGIN RETURN 1; END",
            "X5 variables 65",
        ),
        (
            "BEGIN ",
            "FOR i IN 1..2 LOOP END LOOP; ",
            64,
            "RETURN 1; END",
            "f",
        ),
        (
            "BEGIN ",
            "FOR i IN 1..2 LOOP END LOOP; ",
            65,
            "RETURN 1; END",
            "X5 loops 65",
        ),
        (
            "BEGIN ",
            "WHILE true LOOP END LOOP; ",
            65,
            "RETURN 1; END",
            "f",
        ),
        ("BEGIN RETURN ", "(", 65, "1; END", "X5 nesting 66"),
        ("", "BEGIN ", 65, "PERFORM 1;", "X5 nesting 65"),
        ("", "BEGIN ", 64, "PERFORM 1;", "X4 perform"),
        ("BEGIN ", "PERFORM 1; ", 501, "END", "X4 perform"),
    ];
    for (front, part, times, back, wanted) in rows.iter() {
        let file = repeated(rt.alloc(), front, part, *times, back)?;
        assert_eq!(rt;
            answer(rt.alloc(), file.as_str())?.as_str(),
            *wanted,
            "{times} {part}"
        );
    }
    Ok(())
}

/// The value of the body's first statement, where that is RETURN.
fn returned(f: &Function) -> Option<&Expr> {
    let Stmt::Block { body, .. } = &f.body else {
        return None;
    };
    match body.get(0)? {
        Stmt::Return(value) => Some(value),
        _ => None,
    }
}

/// How long the list of choices or the text is that the function returns; 0 where it returns neither.
fn length_returned(alloc: Global, f: Function) -> Result<usize, AllocError> {
    let f = Boxed::new(alloc, f)?;
    Ok(match returned(f.get()) {
        Some(Expr::OneOf(_, _, choices)) => choices.len(),
        Some(Expr::Str(word)) => word.text().len(),
        _ => 0,
    })
}

fn length_of(alloc: Global, text: &str) -> Result<usize, AllocError> {
    match read_function(alloc, text.as_bytes()) {
        Ok(f) => length_returned(alloc, f),
        Err(_) => Ok(0),
    }
}

// The second file is as long as a function's may be, but for some bytes.
#[test]
fn long_functions(rt: HostRuntime) -> Result<(), Fail> {
    let rows = [
        ("BEGIN RETURN 0 IN (0", ", 7", 9_999, "); END", 10_000),
        (
            "BEGIN RETURN '",
            "0123456789abcdef",
            65_530,
            "'; END",
            1_048_480,
        ),
    ];
    for (front, part, times, back, wanted) in rows.iter() {
        let file = repeated(rt.alloc(), front, part, *times, back)?;
        assert_eq!(rt; length_of(rt.alloc(), file.as_str())?, *wanted);
    }
    Ok(())
}

/// A function with so many blocks, each inside the one before it.
fn nested(alloc: Global, blocks: usize) -> Result<String, AllocError> {
    let mut back = String::from_str(alloc, "RETURN 1;")?;
    for _ in 0..blocks {
        back.push_str(" END;")?;
    }
    repeated(alloc, "", "BEGIN ", blocks, back.as_str())
}

#[test]
fn nesting(rt: HostRuntime) -> Result<(), Fail> {
    for (blocks, wanted) in [(1, "f"), (64, "f"), (65, "X5 nesting 65")] {
        let file = nested(rt.alloc(), blocks)?;
        assert_eq!(rt; answer(rt.alloc(), file.as_str())?.as_str(), wanted);
    }
    Ok(())
}

/// The words that aren't read.
static WORDS: &str =
    "alias array assert call close collate commit cross cursor debug delete diagnostics distinct execute fetch foreach full get \
    group having ilike info inout insert intersect join left like log merge move next notice numeric open \
    out over perform query record right rollback security set setof similar slice trigger update using variadic warning window \
    with";

#[test]
fn words(rt: HostRuntime) -> Result<(), Fail> {
    let alloc = rt.alloc();
    for word in WORDS.split(" ") {
        let body = format!(in alloc; "BEGIN {word} 1; END")?;
        let wanted = format!(in alloc; "X4 {word}")?;
        let file = with(alloc, "LANGUAGE plpgsql", body.as_str())?;
        assert_eq!(rt; answer(alloc, file.as_str())?.as_str(), wanted.as_str());
    }
    let rows = [
        ("BEGIN Perform 1; END", "X4 perform"),
        ("BEGIN RETURN 1; EXCEPTION WHEN a THEN END", "X4 exception"),
        ("BEGIN RAISE EXCEPTION 'a'; END", "f"),
        ("BEGIN EXCEPTION THEN END", "X3"),
        ("BEGIN log := 1; RETURN log; END", "f"),
        ("BEGIN NULL END", "X3"),
    ];
    for (body, wanted) in rows.iter() {
        let file = with(alloc, "LANGUAGE plpgsql", body)?;
        assert_eq!(rt; answer(alloc, file.as_str())?.as_str(), *wanted, "{body}");
    }
    Ok(())
}
