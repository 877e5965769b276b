//! Why a file is refused.

ghost use Rattle.std.specs.Prelude.{◌≡◌};
ghost use Rattle.refusal_reasons.specs.Reasons as spec;

use crate::instead::instead_of;
use away_lex::{LimitKind, ReadRefusal};
use away_names::rule::Rule;

/// Why a rule of names, scopes or types is broken, by the statement at its place.
pub fn rule_reason(rule: Rule) -> &'static str
    ensures { result.now ≡ spec.rule_reason rule }
{
    match rule {
        Rule::Duplicates => "two names of one list here are the same",
        Rule::Names => "a name here stands for nothing",
        Rule::Ambiguity => "a name here stands for two things",
        Rule::Tables => "a table here isn't one of the schema",
        Rule::Labels => "no block or loop around this statement fits it",
        Rule::Constants => "a CONSTANT is set here",
        Rule::Defaults => "a variable that is NOT NULL has no default here",
        Rule::Types => "the types, or the numbers of columns, don't fit here",
        Rule::Reserved => "a name here begins with away_, which the query's own names do",
        Rule::Aggregates => "an aggregate stands where none may, or a column beside it",
        Rule::Raises =>
            "the SQLSTATE isn't five digits or capitals or is 00000, or the message has a %",
        Rule::Recursion => "the terms of the recursive table don't fit",
        Rule::Answer => "the query hasn't two columns, the second a text",
    }
}

/// What there is too much of, from its place on.
pub fn limit_reason(which: LimitKind) -> &'static str
    ensures { result.now ≡ spec.limit_reason which }
{
    match which {
        LimitKind::Nesting => "with this token the body nests deeper than 64",
        LimitKind::Nodes => "with this there are more than 500 nodes",
        LimitKind::Variables => "with this there are more than 64 parameters and declarations",
        LimitKind::Loops => "with this there are more than 64 FOR loops",
    }
}

/// Why a function's file isn't read, where its text ends at the place or doesn't. Of a word outside the language it is what to
/// write in its place.
pub fn read_reason(error: &ReadRefusal, ended: bool) -> &'static str
    ensures { result.now ≡ spec.read_reason error.now ended }
{
    match error {
        ReadRefusal::NotText => "here the file ceases to be UTF-8 without U+0000",
        ReadRefusal::Token { offset: _ } => {
            "no token begins here, or the one that does isn't closed or is too long"
        }
        ReadRefusal::NoTree => {
            if ended {
                "no function ends so"
            } else {
                "no function goes on so"
            }
        }
        ReadRefusal::Outside { word } => instead_of(word.text()),
        ReadRefusal::Limit { which, found: _ } => limit_reason(*which),
        ReadRefusal::NoMemory => "no memory was left",
    }
}

/// Why a query's file isn't read, where its text ends at the place or doesn't.
pub fn query_reason(error: &ReadRefusal, ended: bool) -> &'static str
    ensures { result.now ≡ spec.query_reason error.now ended }
{
    match error {
        ReadRefusal::NoTree => {
            if ended {
                "no query ends so"
            } else {
                "no query goes on so"
            }
        }
        ReadRefusal::Limit { which: _, found: _ } => {
            "with this token the query nests deeper than 256"
        }
        ReadRefusal::NotText => read_reason(error, ended),
        ReadRefusal::Token { offset: _ } => read_reason(error, ended),
        ReadRefusal::Outside { word: _ } => read_reason(error, ended),
        ReadRefusal::NoMemory => read_reason(error, ended),
    }
}
