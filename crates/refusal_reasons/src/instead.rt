//! What to write in place of a word that stands outside the language.

ghost use Rattle.std.specs.Prelude.{◌≡◌, map};
ghost use Rattle.refusal_reasons.specs.Entries.{entry};
ghost use Rattle.refusal_reasons.specs.Instead as spec;

/// What is said of a word outside the language. What the profile leaves out is our own choice.
#[derive(Clone, Copy, Debug, PartialEq, Eq)]
pub enum Advice {
    /// ALIAS.
    OwnName,
    /// ARRAY.
    TableOfValues,
    /// ASSERT.
    RaiseWhere,
    /// CALL.
    OwnStatements,
    /// CLOSE, CURSOR, FETCH, MOVE, OPEN.
    LoopByKey,
    /// COLLATE.
    NoCollation,
    /// COMMIT, ROLLBACK.
    NoTransactions,
    /// CROSS, JOIN.
    JoinByWhere,
    /// DEBUG, INFO, LOG, NOTICE, WARNING.
    NoMessages,
    /// DELETE, INSERT, MERGE, UPDATE.
    NoChanges,
    /// DIAGNOSTICS, GET.
    CountRows,
    /// DISTINCT.
    NoEarlierRow,
    /// EXCEPTION.
    TestBefore,
    /// EXECUTE.
    ChosenQuery,
    /// FOREACH, SLICE.
    PlacesByFor,
    /// FULL, RIGHT.
    NoOuterJoin,
    /// GROUP, HAVING.
    CountInList,
    /// ILIKE, LIKE, SIMILAR.
    PartsOfText,
    /// INOUT, OUT.
    OneResult,
    /// INTERSECT.
    ExistsInOther,
    /// LEFT.
    RowInList,
    /// NEXT, QUERY, SETOF.
    OneRow,
    /// NUMERIC.
    LeastUnits,
    /// OVER, WINDOW.
    RowsBefore,
    /// PERFORM.
    ExistsTest,
    /// RECORD.
    VariableForEach,
    /// SECURITY, SET.
    NoSettings,
    /// TRIGGER.
    NoTriggers,
    /// USING.
    WhereForUsing,
    /// VARIADIC.
    ParameterForEach,
    /// WITH.
    QueryWhereUsed,
}

/// Each word outside the language, and EXCEPTION, which stands outside before WHEN alone.
const TABLE: [(&str, Advice); 55] = [
    ("alias", Advice::OwnName),
    ("array", Advice::TableOfValues),
    ("assert", Advice::RaiseWhere),
    ("call", Advice::OwnStatements),
    ("close", Advice::LoopByKey),
    ("collate", Advice::NoCollation),
    ("commit", Advice::NoTransactions),
    ("cross", Advice::JoinByWhere),
    ("cursor", Advice::LoopByKey),
    ("debug", Advice::NoMessages),
    ("delete", Advice::NoChanges),
    ("diagnostics", Advice::CountRows),
    ("distinct", Advice::NoEarlierRow),
    ("exception", Advice::TestBefore),
    ("execute", Advice::ChosenQuery),
    ("fetch", Advice::LoopByKey),
    ("foreach", Advice::PlacesByFor),
    ("full", Advice::NoOuterJoin),
    ("get", Advice::CountRows),
    ("group", Advice::CountInList),
    ("having", Advice::CountInList),
    ("ilike", Advice::PartsOfText),
    ("info", Advice::NoMessages),
    ("inout", Advice::OneResult),
    ("insert", Advice::NoChanges),
    ("intersect", Advice::ExistsInOther),
    ("join", Advice::JoinByWhere),
    ("left", Advice::RowInList),
    ("like", Advice::PartsOfText),
    ("log", Advice::NoMessages),
    ("merge", Advice::NoChanges),
    ("move", Advice::LoopByKey),
    ("next", Advice::OneRow),
    ("notice", Advice::NoMessages),
    ("numeric", Advice::LeastUnits),
    ("open", Advice::LoopByKey),
    ("out", Advice::OneResult),
    ("over", Advice::RowsBefore),
    ("perform", Advice::ExistsTest),
    ("query", Advice::OneRow),
    ("record", Advice::VariableForEach),
    ("right", Advice::NoOuterJoin),
    ("rollback", Advice::NoTransactions),
    ("security", Advice::NoSettings),
    ("set", Advice::NoSettings),
    ("setof", Advice::OneRow),
    ("similar", Advice::PartsOfText),
    ("slice", Advice::PlacesByFor),
    ("trigger", Advice::NoTriggers),
    ("update", Advice::NoChanges),
    ("using", Advice::WhereForUsing),
    ("variadic", Advice::ParameterForEach),
    ("warning", Advice::NoMessages),
    ("window", Advice::RowsBefore),
    ("with", Advice::QueryWhereUsed),
];

/// What to write in place of a word outside the language, in lower case. The words and the texts are those of docs/REFUSALS.md.
pub fn instead_of(word: &str) -> &'static str
    ensures { result.now ≡ spec.instead_of word.now }
{
    match advice_for(word) {
        Some(advice) => text_of(advice),
        None => "this word stands outside the language",
    }
}

/// What is said of the word, where it stands in the table.
#[tactic(auto, unfolding(crate::specs::Instead::advice_for))]
fn advice_for(word: &str) -> Option<Advice>
    ensures { result ≡ spec.advice_for word.now }
{
    advice_by(word, &TABLE)
}

/// What the first entry of the word has.
fn advice_by(word: &str, entries: &[(&str, Advice)]) -> Option<Advice>
    ensures { result ≡ spec.advice_by (map entry entries.now) word.now }
{
    for (outside, advice) in entries {
        if word == *outside {
            return Some(*advice);
        }
    }
    None
}

fn text_of(advice: Advice) -> &'static str
    ensures { result.now ≡ spec.text_of advice }
{
    match advice {
        Advice::OwnName => "use the parameter's own name",
        Advice::TableOfValues => {
            "write a table with a place and a value in each row, or a text, by length and substr"
        }
        Advice::RaiseWhere => "write IF .. THEN RAISE EXCEPTION '..'; END IF;",
        Advice::OwnStatements => "no procedure is called; write its statements here",
        Advice::LoopByKey => {
            "write a loop by key: k := (SELECT min(t.k) FROM t); WHILE k IS NOT NULL LOOP .. k := (SELECT min(t.k) FROM t WHERE t.k > k); END LOOP;"
        }
        Advice::NoCollation => "texts are compared by their bytes; leave it out",
        Advice::NoTransactions => "a function with transactions becomes no query",
        Advice::JoinByWhere => "write FROM t, u WHERE t.k = u.k",
        Advice::NoMessages => "leave the message out; only RAISE EXCEPTION is read",
        Advice::NoChanges => "a function that changes tables becomes no query",
        Advice::CountRows => "write EXISTS or count(*) in place of FOUND and ROW_COUNT",
        Advice::NoEarlierRow => {
            "write NOT EXISTS over the rows before, as WHERE NOT EXISTS (SELECT s.k FROM t AS s WHERE s.v = t.v AND s.k < t.k)"
        }
        Advice::TestBefore => "write a test before: IF n = 0 THEN RETURN NULL; END IF;",
        Advice::ChosenQuery => "write IF or CASE over the queries that it may be",
        Advice::PlacesByFor => "write FOR i IN 1 .. n LOOP over the places",
        Advice::NoOuterJoin => {
            "no outer join is read; LEFT JOIN is often (SELECT u.w FROM u WHERE u.k = t.k) in the list"
        }
        Advice::CountInList => "write (SELECT count(*) FROM t AS s WHERE s.v = t.v) in the list",
        Advice::PartsOfText => "write length and substr, as substr(s, 1, 1) = 'a'",
        Advice::OneResult => "write a function for each result",
        Advice::ExistsInOther => "write WHERE EXISTS over the other query",
        Advice::RowInList => {
            "write (SELECT u.w FROM u WHERE u.k = t.k) in the list, where u has one row at most; left(s, n) is substr(s, 1, n)"
        }
        Advice::OneRow => "write a function of a row's number, or the query itself",
        Advice::LeastUnits => "write bigint in the least unit, as (n * 119 + 50) / 100",
        Advice::RowsBefore => {
            "write a subquery over the rows before, as (SELECT CAST(sum(s.k) AS bigint) FROM t AS s WHERE s.k <= t.k)"
        }
        Advice::ExistsTest => "write IF EXISTS (SELECT ..) THEN",
        Advice::VariableForEach => {
            "declare a variable for each column, and set them all by one SELECT INTO"
        }
        Advice::NoSettings => "leave it out of the header; the query runs as the one who asks it",
        Advice::NoTriggers => "triggers become no query",
        Advice::WhereForUsing => {
            "write WHERE t.k = u.k; of RAISE write SQLSTATE '22003' in place of USING ERRCODE"
        }
        Advice::ParameterForEach => "write a parameter for each argument",
        Advice::QueryWhereUsed => {
            "write the query where it is used, or SELECT INTO a variable before"
        }
    }
}
