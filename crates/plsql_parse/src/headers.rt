//! The reader of what stands around a function's body (PostgreSQL manual, CREATE FUNCTION).

ghost use Rattle.std.specs.Prelude.{◌≡◌, ◌≤◌, ◌<◌, length, IfOk};
ghost use Rattle.away_grammar.specs.FunctionGrammar.{function, parameter, parameters, signature};
ghost use Rattle.away_grammar.specs.Reserved.{folded};
ghost use Rattle.sql_text.specs.Plans.{Gives};
ghost use Rattle.plsql_parse.specs.HeaderRead as spec;
ghost use Rattle.plsql_parse.specs.HeaderRead.{HeaderRead, WordExpected};
ghost use Rattle.plsql_parse.specs.Headers.{created_plan, function_plan, named_plan, parameter_plan, parameters_plan, signature_plan};
ghost use Rattle.plsql_parse.specs.Plans.{any_plan};
ghost use Rattle.plsql_parse.specs.Sorts.{AnyTree, part, schema_qualified_name};

use crate::attributes::{attributes_of, makes_strict, may_stand};
use crate::words_and_strings::eat_word;
use away_grammar::Mark;
use away_trees::{Function, Stmt};
use away_values::{Name, Ty};
use sql_text::{Cursor, Refusal, is_public};
use sqlite_items::{Boxed, Items};
use std::alloc::Global;

/// A function without its body.
#[derive(Drop)]
pub struct Header {
    pub name: Name,
    pub strict: bool,
    pub params: Items<(Name, Ty)>,
    pub result: Ty,
}

impl Header {
    /// The function with this body.
    pub fn around(self, inside: Boxed<Stmt>) -> Function
        ensures { result ≡ spec.around self inside }
    {
        Function {
            name: self.name,
            strict: self.strict,
            params: self.params,
            result: self.result,
            body: inside.into_inner(),
        }
    }
}

/// The header that the tokens begin with.
pub fn header_of(alloc: Global, tokens: &mut Cursor<'_>) -> Result<Header, Refusal>
    ensures found { HeaderRead function_plan tokens.old result tokens.new }
    ensures shrinks { length tokens.new ≤ length tokens.old }
{
    tokens.expect(Mark::Create)?;
    if !tokens.eat(Mark::Or) {
        return behind_create(alloc, tokens);
    }
    expect_word(tokens, "replace")?;
    behind_create(alloc, tokens)
}

/// What stands behind CREATE and OR REPLACE.
fn behind_create(alloc: Global, tokens: &mut Cursor<'_>) -> Result<Header, Refusal>
    ensures found { HeaderRead created_plan tokens.old result tokens.new }
    ensures shrinks { length tokens.new ≤ length tokens.old }
{
    expect_word(tokens, "function")?;
    schema_qualified(alloc, tokens)
}

/// The name, perhaps behind `public.`, and what stands behind it.
fn schema_qualified(alloc: Global, tokens: &mut Cursor<'_>) -> Result<Header, Refusal>
    ensures found { HeaderRead
        (λ inside. schema_qualified_name (named_plan inside)) tokens.old result tokens.new }
    ensures shrinks { length tokens.new ≤ length tokens.old }
{
    let first = tokens.name(alloc)?;
    if !is_public(&first) {
        return behind_name(alloc, tokens, first);
    }
    if !tokens.eat(Mark::Dot) {
        return behind_name(alloc, tokens, first);
    }
    let name = tokens.name(alloc)?;
    behind_name(alloc, tokens, name)
}

/// What stands behind the name.
fn behind_name(alloc: Global, tokens: &mut Cursor<'_>, name: Name) -> Result<Header, Refusal>
    ensures found { HeaderRead (λ inside. named_plan inside name) tokens.old result tokens.new }
    ensures shrinks { length tokens.new ≤ length tokens.old }
{
    let params = signature_of(alloc, tokens)?;
    expect_word(tokens, "returns")?;
    let result = tokens.type_name()?;
    let found = attributes_of(alloc, tokens)?;
    if !may_stand(found.as_slice()) {
        return Err(Refusal::NoTree);
    }
    tokens.eat(Mark::Semicolon);
    let strict = makes_strict(found.as_slice());
    Ok(Header {
        name,
        strict,
        params,
        result,
    })
}

/// The parameters with their parentheses.
fn signature_of(alloc: Global, tokens: &mut Cursor<'_>) -> Result<Items<(Name, Ty)>, Refusal>
    ensures found { Gives AnyTree any_plan
        (part signature) signature_plan tokens.old result tokens.new }
    ensures shrinks { length tokens.new ≤ length tokens.old }
{
    tokens.expect(Mark::Open)?;
    if tokens.eat(Mark::Close) {
        return Ok(Items::new(alloc));
    }
    let found = parameters_of(alloc, tokens)?;
    tokens.expect(Mark::Close)?;
    Ok(found)
}

/// One or more parameters with commas between them.
fn parameters_of(alloc: Global, tokens: &mut Cursor<'_>) -> Result<Items<(Name, Ty)>, Refusal>
    ensures found { Gives AnyTree any_plan
        (part parameters) parameters_plan tokens.old result tokens.new }
    ensures shrinks { length tokens.new ≤ length tokens.old }
{
    let mut found = Items::new(alloc);
    loop {
        found.push(parameter_of(alloc, tokens)?)?;
        if !tokens.eat(Mark::Comma) {
            return Ok(found);
        }
    }
}

fn parameter_of(alloc: Global, tokens: &mut Cursor<'_>) -> Result<(Name, Ty), Refusal>
    ensures found { Gives AnyTree any_plan
        (part parameter) parameter_plan tokens.old result tokens.new }
    ensures shrinks { length tokens.new ≤ length tokens.old }
{
    tokens.eat(Mark::In);
    let name = tokens.name(alloc)?;
    let ty = tokens.type_name()?;
    Ok((name, ty))
}

/// Takes the name that is this word, in any case, which has to stand next.
pub fn expect_word(tokens: &mut Cursor<'_>, word: &str) -> Result<(), Refusal>
    ensures found { WordExpected (folded word.now) tokens.old result tokens.new }
    ensures shrinks { length tokens.new ≤ length tokens.old }
    ensures shorter { IfOk result (λ _. length tokens.new < length tokens.old) }
{
    if eat_word(tokens, word) {
        Ok(())
    } else {
        Err(Refusal::NoTree)
    }
}
