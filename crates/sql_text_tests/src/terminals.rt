//! Worked examples of what tokens say.

ghost use Rattle.sql_text.specs.CodeTerminals.{HasSpelling};

use away_lex::tokens;
use away_trees::{Expr, Query};
use away_values::{NoMemory, Ty};
use sql_text::{Cursor, Terminal, read_query, terminals_of, text_of};
use std::alloc::{AllocError, Global};
use std::test::Fail;

/// Texts, and what their tokens say.
static ROWS: [(&str, &str); 4] = [
    (
        "ALL And aS asC bEGIN Between BY case Cast COALESCE Constant continue Create DECLARE default Desc ELSE elseIf Elsif END \
         Exists exit FALSE For fROM greatest If IN into Is lateral Least LIMIT Loop noT Null oN or Order RAISE recursive Return \
         reverse SELECT Strict table Then tRUE union When where WHILE witH",
        "All And As Asc Begin Between By Case Cast Coalesce Constant Continue Create Declare Default Desc Else Elseif Elsif End \
         Exists Exit False For From Greatest If In Into Is Lateral Least Limit Loop Not Null On Or Order Raise Recursive Return \
         Reverse Select Strict Table Then True Union When Where While With ",
    ),
    (
        ":= = <> != < <= > >= + - * / % || :: ( ) , ; . .. << >>",
        "Assign Equal Differ Differ Less LessEqual Greater GreaterEqual Plus Minus Star Slash Percent Bars Colons Open Close \
         Comma Semicolon Dot Dots LabelOpen LabelClose ",
    ),
    (
        "Alls _ bigint 0 007 9223372036854775808 $1 $064 $q$ a $q$",
        "name:Alls name:_ name:bigint 0 7 9223372036854775808 $1 $64 quote:$q$ a $q$ ",
    ),
    (
        "'' 'a''b' '''' '''é''''' 'a' 'b'",
        "text: text:a'b text:' text:'é'' text:a text:b ",
    ),
];

fn part(alloc: Global, terminal: Terminal) -> Result<String, AllocError>
    requires { HasSpelling terminal }
{
    match terminal {
        Terminal::Mark(mark) => format!(in alloc; "{mark:?} "),
        Terminal::Name(name) => format!(in alloc; "name:{name} "),
        Terminal::Integer(number) => format!(in alloc; "{number} "),
        Terminal::Text(string) => match text_of(alloc, string) {
            Ok(word) => {
                let text = word.text();
                format!(in alloc; "text:{text} ")
            }
            Err(NoMemory) => String::from_str(alloc, "no memory"),
        },
        Terminal::Parameter(number) => format!(in alloc; "${number} "),
        Terminal::Quote(quote) => format!(in alloc; "quote:{quote} "),
    }
}

/// What the tokens of a text say.
fn shown(alloc: Global, text: &str) -> Result<String, AllocError> {
    let mut all = String::new(alloc);
    let Ok(list) = tokens(alloc, text) else {
        return String::from_str(alloc, "no tokens");
    };
    let Ok(terminals) = terminals_of(alloc, list.as_slice()) else {
        return Err(AllocError);
    };
    let mut left = Cursor::new(terminals.as_slice(), 0);
    for _turn in 0..64 {
        match left.take() {
            None => return Ok(all),
            Some(terminal) => {
                let shown = part(alloc, terminal)?;
                all.push_str(shown.as_str())?;
            }
        }
    }
    Ok(all)
}

#[test]
fn texts_and_what_they_say(rt: HostRuntime) -> Result<(), Fail> {
    for (text, wanted) in ROWS.iter() {
        assert_eq!(rt; shown(rt.alloc(), text)?.as_str(), *wanted);
    }
    Ok(())
}

/// The type that the query's first item is cast to.
fn cast_type(query: &Query) -> Option<Ty> {
    match &query.selects.get(0)?.list.get(0)?.expr {
        Expr::Cast(_, ty) => Some(*ty),
        _ => None,
    }
}

fn type_read(alloc: Global, text: &str) -> Option<Ty> {
    match read_query(alloc, text.as_bytes()) {
        Ok(query) => cast_type(&query),
        Err(_) => None,
    }
}

/// The type that a cast to this name makes, if there is such a type.
fn type_named(alloc: Global, name: &str) -> Result<Option<Ty>, AllocError> {
    let text = format!(in alloc; "SELECT a::{name}")?;
    Ok(type_read(alloc, text.as_str()))
}

#[test]
fn names_of_types(rt: HostRuntime) -> Result<(), Fail> {
    let rows = [
        ("bigint", Some(Ty::Bigint)),
        ("INT8", Some(Ty::Bigint)),
        ("BigInt", Some(Ty::Bigint)),
        ("boolean", Some(Ty::Boolean)),
        ("Bool", Some(Ty::Boolean)),
        ("TEXT", Some(Ty::Text)),
        ("integer", Some(Ty::Integer)),
        ("Int", Some(Ty::Integer)),
        ("INT4", Some(Ty::Integer)),
        ("int2", None),
        ("bigints", None),
        ("", None),
        ("varchar", None),
    ];
    for (name, wanted) in rows.iter() {
        assert!(rt; type_named(rt.alloc(), name)? == *wanted);
    }
    Ok(())
}
