//! Worked texts and their tokens.

use away_lex::{
    BadToken, Tokens, TokensRefusal, folded, function_tokens, is_reserved, nesting, tokens,
};
use std::alloc::{AllocError, Global};
use std::test::Fail;

const A63: &str = "aaaaaaaaaaaaaaaaaaaaaaaaaaaaaaaaaaaaaaaaaaaaaaaaaaaaaaaaaaaaaaa";

const A64: &str = "aaaaaaaaaaaaaaaaaaaaaaaaaaaaaaaaaaaaaaaaaaaaaaaaaaaaaaaaaaaaaaaa";

/// Texts, and their tokens with their offsets, up to the first bad one.
const ROWS: [(&str, &str); 62] = [
    ("", ""),
    (" \t\n\r\x0C", ""),
    ("a<=b--c", "a@0 <=@1 b@3 "),
    ("a ? b", "a@0 bad@2 "),
    ("1..4", "1@0 ..@1 4@3 "),
    ("1.5", "1@0 .@1 5@2 "),
    ("a.b", "a@0 .@1 b@2 "),
    ("...", "..@0 .@2 "),
    ("$1$", "$1@0 bad@2 "),
    ("$64", "$64@0 "),
    ("$65", "bad@0 "),
    ("$0", "bad@0 "),
    ("$007", "$007@0 "),
    ("$1a", "bad@0 "),
    ("$99999999999999999999", "bad@0 "),
    ("$$", "bad@0 "),
    ("$$$$", "$$$$@0 "),
    ("$$a$$ b", "$$a$$@0 b@6 "),
    ("$x$ $X$ $x$", "$x$ $X$ $x$@0 "),
    ("$x$ $X$", "bad@0 "),
    ("$select$;$select$", "$select$;$select$@0 "),
    ("$1x$;$1x$", "bad@0 "),
    ("$$ é\u{7f} $$", "$$ é\u{7f} $$@0 "),
    ("a $", "a@0 bad@2 "),
    ("'it''s'", "'it''s'@0 "),
    ("'a' 'b'", "'a'@0 'b'@4 "),
    ("''", "''@0 "),
    ("''''", "''''@0 "),
    ("'é'", "'é'@0 "),
    ("'a", "bad@0 "),
    ("'a''", "bad@0 "),
    ("'", "bad@0 "),
    ("'a\u{0}'", "bad@0 "),
    ("--", ""),
    ("a--b\nc", "a@0 c@5 "),
    ("a--b\rc", "a@0 c@5 "),
    ("-- é\n-", "-@6 "),
    ("a - - b", "a@0 -@2 -@4 b@6 "),
    ("/**/", ""),
    ("/* é */a", "a@8 "),
    ("/* /* */", "bad@0 "),
    ("/* /* */ */a", "a@11 "),
    ("/*/*/a", "bad@0 "),
    ("a/ *b", "a@0 /@1 *@3 b@4 "),
    ("a*/b", "a@0 *@1 /@2 b@3 "),
    (
        A63,
        "aaaaaaaaaaaaaaaaaaaaaaaaaaaaaaaaaaaaaaaaaaaaaaaaaaaaaaaaaaaaaaa@0 ",
    ),
    (A64, "bad@0 "),
    ("_a9 A", "_a9@0 A@4 "),
    ("9223372036854775808", "9223372036854775808@0 "),
    ("9223372036854775809", "bad@0 "),
    (
        "00000000000000000000000001",
        "00000000000000000000000001@0 ",
    ),
    ("12a", "bad@0 "),
    ("12_", "bad@0 "),
    ("12'a'", "12@0 'a'@2 "),
    ("\"a\"", "bad@0 "),
    ("a:b", "a@0 bad@1 "),
    (":==", ":=@0 =@2 "),
    ("<><<=", "<>@0 <<@2 =@4 "),
    ("!=!", "!=@0 bad@2 "),
    ("||| |", "||@0 bad@2 "),
    ("a::b>>c>=d", "a@0 ::@1 b@3 >>@4 c@6 >=@7 d@9 "),
    ("(a,b)%;", "(@0 a@1 ,@2 b@3 )@4 %@5 ;@6 "),
];

/// The tokens with their offsets, and the first bad one.
fn shown(alloc: Global, text: &str) -> Result<String, AllocError> {
    let mut all = String::new(alloc);
    let mut left = Tokens::new(text);
    for _turn in 0..64 {
        match left.next() {
            None => return Ok(all),
            Some(Err(BadToken { offset })) => {
                let part = format!(in alloc; "bad@{offset} ")?;
                all.push_str(part.as_str())?;
            }
            Some(Ok(token)) => {
                let start = token.start;
                let word = token.text;
                let part = format!(in alloc; "{word}@{start} ")?;
                all.push_str(part.as_str())?;
            }
        }
    }
    Ok(all)
}

#[test]
fn texts_and_their_tokens(rt: HostRuntime) -> Result<(), Fail> {
    for (text, wanted) in ROWS.iter() {
        assert_eq!(rt; shown(rt.alloc(), text)?.as_str(), *wanted);
        let found = match tokens(rt.alloc(), text) {
            Ok(list) => {
                let len = list.len();
                format!(in rt.alloc(); "{len} tokens")?
            }
            Err(TokensRefusal::Bad { offset }) => format!(in rt.alloc(); "bad@{offset} ")?,
            Err(TokensRefusal::NoMemory) => format!(in rt.alloc(); "no memory")?,
        };
        let count = wanted.as_bytes().iter().filter(|b| **b == b'@').count();
        let plain = format!(in rt.alloc(); "{count} tokens")?;
        assert!(rt; wanted.ends_with(found.as_str()) || found.as_str() == plain.as_str());
    }
    Ok(())
}

/// Whether the character, outside strings and comments, is a bad token.
fn is_bad(alloc: Global, code: u32) -> Result<bool, AllocError> {
    match char::from_u32(code) {
        None => Ok(false),
        Some(c) => {
            let text = format!(in alloc; "a {c}")?;
            let found = shown(alloc, text.as_str())?;
            Ok(found.as_str() == "a@0 bad@2 ")
        }
    }
}

/// The characters have each first byte above 127 of UTF-8, and each byte that goes on with it.
#[test]
fn no_token_begins_above_127(rt: HostRuntime) -> Result<(), Fail> {
    for step in 0..64 {
        assert!(rt; is_bad(rt.alloc(), 128 + step)?);
    }
    for step in 0..30 {
        assert!(rt; is_bad(rt.alloc(), 128 + step * 64)?);
    }
    assert!(rt; is_bad(rt.alloc(), 2048)?);
    for step in 1..16 {
        assert!(rt; is_bad(rt.alloc(), step * 4096)?);
    }
    for step in 0..5 {
        assert!(rt; is_bad(rt.alloc(), 65536 + step * 262143)?);
    }
    Ok(())
}

#[test]
fn a_string_has_at_most_a_text_value(rt: HostRuntime) -> Result<(), Fail> {
    let mut text = String::from_str(rt.alloc(), "'")?;
    for _byte in 0..1048576 {
        text.push_str("a")?;
    }
    let short = format!(in rt.alloc(); "{text}'")?;
    let long = format!(in rt.alloc(); "{text}a'")?;
    assert!(rt; tokens(rt.alloc(), short.as_str()).is_ok());
    assert!(rt;
        matches!(
            tokens(rt.alloc(), long.as_str()),
            Err(TokensRefusal::Bad { offset: 0 })
        )
    );
    Ok(())
}

#[test]
fn depths(rt: HostRuntime) -> Result<(), Fail> {
    let rows = [
        ("", 0),
        ("BEGIN IF a THEN END IF; END", 2),
        ("begin if a then end if; if a then end if; end", 2),
        ("((a)(b))", 2),
        (")))((", 0),
        (")(((", 2),
        ("case when a then (1) end case", 2),
        ("LOOP LOOP END LOOP; END LOOP", 2),
        ("END END IF", 0),
        ("IF END IF IF", 1),
        ("'IF' ( \n IF", 2),
    ];
    for (text, wanted) in rows.iter() {
        match tokens(rt.alloc(), text) {
            Ok(list) => assert_eq!(rt; nesting(list.as_slice()), *wanted),
            Err(_) => assert!(rt; false),
        }
    }
    Ok(())
}

#[test]
fn words(rt: HostRuntime) -> Result<(), Fail> {
    for word in ["all", "SELECT", "With", "elseif", "Coalesce"].iter() {
        assert!(rt; is_reserved(word));
    }
    for word in ["alls", "function", "bigint", "count", "_", "al"].iter() {
        assert!(rt; !is_reserved(word));
    }
    match folded(rt.alloc(), "Route_9") {
        Ok(name) => assert_eq!(rt; name.text(), "route_9"),
        Err(_) => assert!(rt; false),
    }
    Ok(())
}

/// A function's file, its number of tokens, and the body's tokens with their offsets in the file.
fn body_shown(alloc: Global, text: &str) -> Result<String, AllocError> {
    match function_tokens(alloc, text) {
        Ok(file) => {
            let len = file.outer.len();
            let mut all = format!(in alloc; "{len}: ")?;
            for token in file.body.iter() {
                let start = token.start;
                let word = token.text;
                let part = format!(in alloc; "{word}@{start} ")?;
                all.push_str(part.as_str())?;
            }
            Ok(all)
        }
        Err(TokensRefusal::Bad { offset }) => format!(in alloc; "bad@{offset} "),
        Err(TokensRefusal::NoMemory) => format!(in alloc; "no memory"),
    }
}

#[test]
fn files_of_functions(rt: HostRuntime) -> Result<(), Fail> {
    let rows = [
        ("", "0: "),
        ("CREATE FUNCTION f", "3: "),
        ("AS $$ BEGIN END; $$;", "3: BEGIN@6 END@12 ;@15 "),
        ("AS $f$é$f$", "bad@6 "),
        ("AS $f$$f$ x $g$ ? $g$", "4: "),
        ("AS $f$ a $$b$$ $f$", "bad@9 "),
        ("AS $f$ a ? $f$ ?", "bad@15 "),
        ("AS $f$ 'a", "bad@3 "),
        ("AS $f$ 'a $f$", "bad@7 "),
    ];
    for (text, wanted) in rows.iter() {
        assert_eq!(rt; body_shown(rt.alloc(), text)?.as_str(), *wanted);
    }
    Ok(())
}
