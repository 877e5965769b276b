//! What the readers of queries, schemas and expressions give.

use away_lex::{LimitKind, ReadRefusal, tokens};
use away_trees::{Expr, Query, Schema, Select};
use away_values::Ty;
use sql_text::{read_expr, read_query, read_schema};
use std::alloc::{AllocError, Global};
use std::test::Fail;

/// What `away compile` writes for the function of the example.
pub static WRITTEN: &str =
    "WITH RECURSIVE away_r(away_go, away_fn, away_c0, away_c1, away_res, away_err) AS (SELECT CAST(TRUE AS boolean), CAST(1 \
    AS bigint), CAST($1 AS bigint), CAST($2 AS bigint), CAST(NULL AS bigint), CAST(NULL AS text) UNION ALL SELECT \
    away_s.away_go, away_s.away_fn, away_s.away_c0, away_s.away_c1, away_s.away_res, away_s.away_err FROM away_r, LATERAL \
    (SELECT CAST(FALSE AS boolean), CAST(0 AS bigint), CAST(NULL AS bigint), CAST(NULL AS bigint), away_k2.away_v, CAST(NULL \
    AS text) FROM LATERAL (SELECT CAST(TRUE AS boolean) WHERE away_r.away_fn = CAST(1 AS bigint)) AS away_k1(away_v), \
    LATERAL (SELECT away_r.away_c0 + away_r.away_c1 * CAST(2 AS bigint)) AS away_k2(away_v)) AS away_s(away_go, away_fn, \
    away_c0, away_c1, away_res, away_err) WHERE away_r.away_go) SELECT away_r.away_res, away_r.away_err FROM away_r WHERE \
    NOT away_r.away_go";

/// What the text begins with as an expression, and where that ends; `-` where it begins with none.
fn shown(alloc: Global, text: &str) -> Result<String, AllocError> {
    let Ok(list) = tokens(alloc, text) else {
        return Err(AllocError);
    };
    match read_expr(alloc, list.as_slice(), 0) {
        Ok((tree, end)) => {
            let kind = kind_of(&tree);
            format!(in alloc; "{kind} {end}")
        }
        Err(ReadRefusal::NoTree) => String::from_str(alloc, "-"),
        Err(_) => Err(AllocError),
    }
}

fn kind_of(tree: &Expr) -> &'static str {
    match tree {
        Expr::Chain(_, more) if more.len() == 1 => "chain of 2",
        Expr::Chain(_, _) => "chain",
        Expr::Cast(_, Ty::Text) => "cast to text",
        Expr::Param(1, Ty::Bigint) => "parameter",
        _ => "other",
    }
}

#[test]
fn expressions(rt: HostRuntime) -> Result<(), Fail> {
    let rows = [
        ("a + 1 THEN", "chain of 2 3"),
        ("a + THEN", "-"),
        ("a::text::text", "cast to text 5"),
        ("a::text::text::text", "-"),
        ("(a::text::text)::text", "cast to text 9"),
        ("$1::bigint::text::text", "cast to text 7"),
        ("$1::bigint", "parameter 3"),
        ("CAST($1 AS bigint)", "parameter 6"),
        ("a < b < c", "-"),
        ("a Or b oR c", "chain 5"),
        ("", "-"),
    ];
    for (text, wanted) in rows.iter() {
        assert_eq!(rt; shown(rt.alloc(), text)?.as_str(), *wanted);
    }
    Ok(())
}

/// What a text is as a query.
fn query_of(alloc: Global, text: &str) -> Result<&'static str, AllocError> {
    match read_query(alloc, text.as_bytes()) {
        Ok(
            Query {
                recursive: None,
                ..
            },
        ) => Ok("query"),
        Ok(
            Query {
                recursive: Some(_),
                ..
            },
        ) => Ok("recursive"),
        Err(ReadRefusal::NotText) => Ok("no text"),
        Err(ReadRefusal::Token { .. }) => Ok("token"),
        Err(ReadRefusal::NoTree) => Ok("no tree"),
        Err(ReadRefusal::Outside { .. }) => Ok("outside"),
        Err(ReadRefusal::Limit { .. }) => Ok("limit"),
        Err(ReadRefusal::NoMemory) => Err(AllocError),
    }
}

#[test]
fn queries(rt: HostRuntime) -> Result<(), Fail> {
    let rows = [
        ("", "no tree"),
        ("SELECT 1", "query"),
        ("sELECT 1 aS one;", "query"),
        ("SELECT 1;;", "no tree"),
        ("SELECT 1; SELECT 2", "no tree"),
        ("SELECT 1 ?", "token"),
        ("SELECT '\u{0}'", "no text"),
        (
            "SELECT a FROM public.t AS u WHERE a > 1 ORDER BY a LIMIT 1",
            "query",
        ),
        ("SELECT 1 LIMIT 1 UNION ALL SELECT 2", "no tree"),
        (
            "WITH RECURSIVE r(n) AS (SELECT 1 UNION ALL SELECT n + 1 FROM r WHERE n < 9) SELECT n FROM r;",
            "recursive",
        ),
        (
            "WITH RECURSIVE r(n) AS (SELECT 1) SELECT n FROM r",
            "no tree",
        ),
        (WRITTEN, "recursive"),
    ];
    for (text, wanted) in rows.iter() {
        assert_eq!(rt; query_of(rt.alloc(), text)?, *wanted);
    }
    Ok(())
}

/// The names and sizes of a recursive query: its table with the columns, the items of both terms, the FROM items of the
/// second with their columns, and the items of the last select.
fn outline(alloc: Global, text: &str) -> Result<String, AllocError> {
    let Ok(query) = read_query(alloc, text.as_bytes()) else {
        return String::from_str(alloc, "-");
    };
    outline_of(alloc, &query)
}

fn outline_of(alloc: Global, query: &Query) -> Result<String, AllocError> {
    let mut shown = String::new(alloc);
    let Some(recursive) = &query.recursive else {
        return Ok(shown);
    };
    shown.push_str(recursive.name.text())?;
    for column in recursive.columns.as_slice().iter() {
        shown.push_str(" ")?;
        shown.push_str(column.text())?;
    }
    for select in recursive.first.as_slice().iter() {
        add_select(&mut shown, select)?;
    }
    add_select(&mut shown, &recursive.second)?;
    for select in query.selects.as_slice().iter() {
        add_select(&mut shown, select)?;
    }
    Ok(shown)
}

fn add_select(shown: &mut String, select: &Select) -> Result<(), AllocError> {
    shown.push_str(";")?;
    for _item in select.list.as_slice().iter() {
        shown.push_str(" item")?;
    }
    for item in select.from.as_slice().iter() {
        shown.push_str(" ")?;
        shown.push_str(item.alias.text())?;
        for _column in item.columns.as_slice().iter() {
            shown.push_str("+")?;
        }
    }
    if select.filter.is_some() {
        shown.push_str(" where")?;
    }
    Ok(())
}

#[test]
fn the_compiled_query_reads_as_its_tree(rt: HostRuntime) -> Result<(), Fail> {
    let shown = outline(rt.alloc(), WRITTEN)?;
    assert_eq!(rt;
        shown.as_str(),
        "away_r away_go away_fn away_c0 away_c1 away_res away_err; item item item item item item; item item item item item item away_r away_s++++++ where; item item away_r where"
    );
    Ok(())
}

/// So many pairs of parentheses round a number.
fn nested(alloc: Global, depth: usize) -> Result<String, AllocError> {
    let mut text = String::from_str(alloc, "SELECT ")?;
    for _pair in 0..depth {
        text.push_str("(")?;
    }
    text.push_str("1")?;
    for _pair in 0..depth {
        text.push_str(")")?;
    }
    Ok(text)
}

#[test]
fn parentheses_nest_at_most_256_deep(rt: HostRuntime) -> Result<(), Fail> {
    let deep = nested(rt.alloc(), 256)?;
    assert!(rt; read_query(rt.alloc(), deep.as_bytes()).is_ok());
    let deeper = nested(rt.alloc(), 257)?;
    assert!(rt;
        matches!(
            read_query(rt.alloc(), deeper.as_bytes()),
            Err(ReadRefusal::Limit {
                which: LimitKind::Nesting,
                found: 257
            })
        )
    );
    Ok(())
}

/// The tables that a text is as a schema, with `!` behind a column that is NOT NULL; `-` where it is none.
fn schema_of(alloc: Global, text: &str) -> Result<String, AllocError> {
    let Ok(schema) = read_schema(alloc, text.as_bytes()) else {
        return String::from_str(alloc, "-");
    };
    tables_of(alloc, &schema)
}

fn tables_of(alloc: Global, schema: &Schema) -> Result<String, AllocError> {
    let mut shown = String::new(alloc);
    for table in schema.tables.as_slice().iter() {
        shown.push_str(table.name.text())?;
        for column in table.columns.as_slice().iter() {
            shown.push_str(" ")?;
            shown.push_str(column.name.text())?;
            if column.not_null {
                shown.push_str("!")?;
            }
        }
        shown.push_str(";")?;
    }
    Ok(shown)
}

#[test]
fn schemas(rt: HostRuntime) -> Result<(), Fail> {
    let rows = [
        (
            "--\n-- Name: route; Type: TABLE; Schema: public\n--\n\nCREATE TABLE public.route (\n    src bigint NOT NULL,\n    dst bigint NOT NULL,\n    cost bigint\n);\n",
            "route src! dst! cost;",
        ),
        ("", ""),
        ("CREATE TABLE t (a bigint)", "-"),
    ];
    for (text, wanted) in rows.iter() {
        assert_eq!(rt; schema_of(rt.alloc(), text)?.as_str(), *wanted);
    }
    Ok(())
}
