//! The attributes of a function (PostgreSQL manual, CREATE FUNCTION).

ghost use Rattle.std.specs.Prelude.{◌≡◌, ◌≤◌, ◌<◌, length, IfOk, true, false, codes};
ghost use Rattle.std.specs.List.{list_any};
ghost use Rattle.std.specs.Str.{str_eq_ignore_ascii_case};
ghost use Rattle.away_grammar.specs.FunctionGrammar as grammar;
ghost use Rattle.away_grammar.specs.FunctionGrammar.{attribute_of as an_attribute, attributes};
ghost use Rattle.away_grammar.specs.Reserved.{folded};
ghost use Rattle.sql_text.specs.Plans.{Gives, first, is_some, tail};
ghost use Rattle.plsql_parse.specs.HeaderRead.{of_group};
ghost use Rattle.plsql_parse.specs.Headers.{attribute_mark_plan, attribute_plan, attributes_plan, cost_plan, is_over};
ghost use Rattle.plsql_parse.specs.Headers.{language_plan, null_input_plan, parallel_plan, word_plan, word_with};
ghost use Rattle.plsql_parse.specs.Plans.{any_plan};
ghost use Rattle.plsql_parse.specs.Sorts.{AnyTree, integer_in, part, quote_in};

use crate::headers::expect_word;
use crate::words_and_strings::{eat_word, string};
use away_grammar::{Attribute, Mark};
use away_values::Name;
use sql_text::{Cursor, Refusal, Terminal};
use sqlite_items::Items;
use std::alloc::Global;

/// All attributes up to a `;` or the end.
pub fn attributes_of(alloc: Global, tokens: &mut Cursor<'_>) -> Result<Items<Attribute>, Refusal>
    ensures found { Gives AnyTree any_plan
        (part attributes) attributes_plan tokens.old result tokens.new }
    ensures shrinks { length tokens.new ≤ length tokens.old }
{
    let mut found = Items::new(alloc);
    while !are_over(tokens) {
        found.push(attribute_of(alloc, tokens)?)?;
    }
    Ok(found)
}

/// Whether no attribute stands next.
fn are_over(tokens: &Cursor<'_>) -> bool
    ensures { result ≡ is_over tokens.now }
{
    tokens.left() == 0 || tokens.sees(Mark::Semicolon)
}

fn attribute_of(alloc: Global, tokens: &mut Cursor<'_>) -> Result<Attribute, Refusal>
    ensures found { Gives AnyTree any_plan
        (part an_attribute) attribute_plan tokens.old result tokens.new }
    ensures shorter { IfOk result (λ _. length tokens.new < length tokens.old) }
    ensures shrinks { length tokens.new ≤ length tokens.old }
{
    match tokens.take() {
        Some(Terminal::Name(word)) => named_attribute(alloc, tokens, word),
        Some(Terminal::Mark(mark)) => marked_attribute(tokens, mark),
        Some(Terminal::Integer(_)) => Err(Refusal::NoTree),
        Some(Terminal::Text(_)) => Err(Refusal::NoTree),
        Some(Terminal::Parameter(_)) => Err(Refusal::NoTree),
        Some(Terminal::Quote(_)) => Err(Refusal::NoTree),
        None => Err(Refusal::NoTree),
    }
}

/// The attribute that this word begins, from what stands behind it.
fn named_attribute(alloc: Global, tokens: &mut Cursor<'_>, word: &str) -> Result<Attribute, Refusal>
    ensures found { Gives AnyTree any_plan (part an_attribute)
        (word_with (folded word.now)
        (grammar.one_word (folded word.now))) tokens.old result tokens.new }
    ensures shrinks { length tokens.new ≤ length tokens.old }
{
    match one_word(word) {
        Some(attribute) => Ok(attribute),
        None => longer_attribute(alloc, tokens, word),
    }
}

/// Whether it is this word, in any case.
fn is_word(word: &str, sought: &str) -> bool
    ensures { result ≡ str_eq_ignore_ascii_case word.now sought.now }
{
    word.eq_ignore_ascii_case(sought)
}

/// The attribute of one word.
fn one_word(word: &str) -> Option<Attribute>
    ensures { result ≡ grammar.one_word (folded word.now) }
{
    if is_word(word, "immutable") || is_word(word, "stable") || is_word(word, "volatile") {
        Some(Attribute::Volatility)
    } else if is_word(word, "leakproof") {
        Some(Attribute::Leakproof)
    } else {
        None
    }
}

/// The attribute of several words that this word begins, from what stands behind it.
fn longer_attribute(
    alloc: Global,
    tokens: &mut Cursor<'_>,
    word: &str,
) -> Result<Attribute, Refusal>
    ensures found { Gives AnyTree any_plan (part an_attribute)
        (word_plan (folded word.now)) tokens.old result tokens.new }
    ensures shrinks { length tokens.new ≤ length tokens.old }
{
    if is_word(word, "language") {
        language(alloc, tokens)
    } else if is_word(word, "returns") {
        tokens.expect(Mark::Null)?;
        null_input(tokens, true)
    } else if is_word(word, "called") {
        null_input(tokens, false)
    } else if is_word(word, "parallel") {
        parallel(alloc, tokens)
    } else if is_word(word, "cost") {
        cost(tokens)
    } else {
        Err(Refusal::NoTree)
    }
}

/// Behind LANGUAGE.
fn language(alloc: Global, tokens: &mut Cursor<'_>) -> Result<Attribute, Refusal>
    ensures found { Gives AnyTree any_plan
        (part an_attribute) language_plan tokens.old result tokens.new }
    ensures shrinks { length tokens.new ≤ length tokens.old }
{
    if eat_word(tokens, "plpgsql") {
        return Ok(Attribute::Language);
    }
    let name = string(alloc, tokens)?;
    if name.text() == "plpgsql" {
        Ok(Attribute::Language)
    } else {
        Err(Refusal::NoTree)
    }
}

/// ON NULL INPUT.
fn null_input(tokens: &mut Cursor<'_>, strict: bool) -> Result<Attribute, Refusal>
    ensures found { Gives AnyTree any_plan (part an_attribute)
        (null_input_plan strict) tokens.old result tokens.new }
    ensures shrinks { length tokens.new ≤ length tokens.old }
{
    tokens.expect(Mark::On)?;
    tokens.expect(Mark::Null)?;
    expect_word(tokens, "input")?;
    Ok(Attribute::NullInput(strict))
}

/// Behind PARALLEL.
fn parallel(alloc: Global, tokens: &mut Cursor<'_>) -> Result<Attribute, Refusal>
    ensures found { Gives AnyTree any_plan
        (part an_attribute) parallel_plan tokens.old result tokens.new }
    ensures shrinks { length tokens.new ≤ length tokens.old }
{
    let kind = tokens.name(alloc)?;
    if may_run(&kind) {
        Ok(Attribute::Parallel)
    } else {
        Err(Refusal::NoTree)
    }
}

fn may_run(kind: &Name) -> bool
    ensures { result ≡ grammar.may_run kind.now }
{
    let kind = kind.text();
    kind == "safe" || kind == "restricted" || kind == "unsafe"
}

/// Behind COST.
fn cost(tokens: &mut Cursor<'_>) -> Result<Attribute, Refusal>
    ensures found { Gives AnyTree any_plan
        (part an_attribute) cost_plan tokens.old result tokens.new }
    ensures shrinks { length tokens.new ≤ length tokens.old }
{
    if takes_integer(tokens) {
        Ok(Attribute::Cost)
    } else {
        Err(Refusal::NoTree)
    }
}

/// Takes what stands next. Whether it is an integer.
fn takes_integer(tokens: &mut Cursor<'_>) -> bool
    ensures found { result ≡ is_some (integer_in (first tokens.old)) }
    ensures rest { tokens.new ≡ tail tokens.old }
    ensures shrinks { length tokens.new ≤ length tokens.old }
{
    matches!(tokens.take(), Some(Terminal::Integer(_)))
}

/// The attribute that this mark begins, from what stands behind it.
fn marked_attribute(tokens: &mut Cursor<'_>, mark: Mark) -> Result<Attribute, Refusal>
    ensures found { Gives AnyTree any_plan (part an_attribute)
        (attribute_mark_plan mark) tokens.old result tokens.new }
    ensures shrinks { length tokens.new ≤ length tokens.old }
{
    match mark {
        Mark::As => body(tokens),
        Mark::Strict => Ok(Attribute::NullInput(true)),
        Mark::Not => {
            expect_word(tokens, "leakproof")?;
            Ok(Attribute::Leakproof)
        }
        _ => Err(Refusal::NoTree),
    }
}

/// Behind AS.
fn body(tokens: &mut Cursor<'_>) -> Result<Attribute, Refusal>
    ensures found { Gives AnyTree any_plan (part an_attribute)
        (attribute_mark_plan Mark.As) tokens.old result tokens.new }
    ensures shrinks { length tokens.new ≤ length tokens.old }
{
    if takes_quote(tokens) {
        Ok(Attribute::Body)
    } else {
        Err(Refusal::NoTree)
    }
}

/// Takes what stands next. Whether it is a dollar quote.
fn takes_quote(tokens: &mut Cursor<'_>) -> bool
    ensures found { result ≡ is_some (quote_in (first tokens.old)) }
    ensures rest { tokens.new ≡ tail tokens.old }
    ensures shrinks { length tokens.new ≤ length tokens.old }
{
    matches!(tokens.take(), Some(Terminal::Quote(_)))
}

/// The groups of attributes.
#[derive(Clone, Copy)]
pub enum Group {
    Language,
    Body,
    Volatility,
    NullInput,
    Leakproof,
    Parallel,
    Cost,
}

/// Whether a function may have these attributes: LANGUAGE and AS stand once each, and no group stands twice.
pub fn may_stand(found: &[Attribute]) -> bool
    ensures { result ≡ grammar.may_stand found.now }
{
    times(Group::Language, found) == 1
        && times(Group::Body, found) == 1
        && times(Group::Volatility, found) < 2
        && times(Group::NullInput, found) < 2
        && times(Group::Leakproof, found) < 2
        && times(Group::Parallel, found) < 2
        && times(Group::Cost, found) < 2
}

/// How many of the attributes are of the group.
fn times(group: Group, found: &[Attribute]) -> usize
    ensures { result ≡ grammar.times (of_group group) found.now }
{
    let mut count = 0;
    for attribute in found {
        if is_of(group, *attribute) {
            count += 1;
        }
    }
    count
}

fn is_of(group: Group, attribute: Attribute) -> bool
    ensures { result ≡ of_group group attribute }
{
    match (group, attribute) {
        (Group::Language, Attribute::Language) => true,
        (Group::Body, Attribute::Body) => true,
        (Group::Volatility, Attribute::Volatility) => true,
        (Group::NullInput, Attribute::NullInput(_)) => true,
        (Group::Leakproof, Attribute::Leakproof) => true,
        (Group::Parallel, Attribute::Parallel) => true,
        (Group::Cost, Attribute::Cost) => true,
        _ => false,
    }
}

/// Whether the attributes make the function strict. The manual: CREATE FUNCTION, where STRICT and RETURNS NULL ON NULL INPUT are the same.
pub fn makes_strict(found: &[Attribute]) -> bool
    ensures { result ≡ list_any grammar.makes_strict found.now }
{
    found.iter().any(|attribute| is_strict(attribute))
}

fn is_strict(attribute: &Attribute) -> bool
    ensures { result ≡ grammar.makes_strict attribute.now }
{
    match attribute {
        Attribute::NullInput(strict) => *strict,
        _ => false,
    }
}
