//! Why a rule of names is broken, with the name that breaks it.

ghost use Rattle.std.specs.Prelude.{◌≡◌, ◌++◌, IfOk, string_bytes};
ghost use Rattle.refusal_reasons.specs.Reasons as reasons;
ghost use Rattle.text_places.specs.Lines.{IsInLine};
ghost use Rattle.broken_names.specs.Reasons as spec;

use crate::culprit::Culprit;
use away_names::rule::Rule;
use away_values::NoMemory;
use itoa::Buffer;
use refusal_reasons::rule_reason;
use std::alloc::Global;

/// A parameter, as it is written.
fn parameter(alloc: Global, number: u32) -> Result<String, NoMemory>
    ensures text { IfOk result (λ text. string_bytes text ≡ spec.parameter number) }
    ensures line { IfOk result (λ text. IsInLine (spec.parameter number)) }
{
    let mut text = String::from_str(alloc, "$")?;
    let mut buffer = Buffer::new();
    text.push_str(buffer.format(number))?;
    Ok(text)
}

/// The culprit, as it is written.
fn written(alloc: Global, it: &Culprit) -> Result<String, NoMemory>
    ensures text { IfOk result (λ text. string_bytes text ≡ spec.written it.now) }
    ensures line { IfOk result (λ text. IsInLine (spec.written it.now)) }
{
    match it {
        Culprit::Name(n) => Ok(String::from_str(alloc, n.text())?),
        Culprit::Column(a, n) => {
            let mut text = String::from_str(alloc, a.text())?;
            text.push_str(".")?;
            text.push_str(n.text())?;
            Ok(text)
        }
        Culprit::Function(n) => Ok(String::from_str(alloc, n.text())?),
        Culprit::Parameter(number) => parameter(alloc, *number),
        Culprit::Table(n) => Ok(String::from_str(alloc, n.text())?),
    }
}

/// A text between two others.
fn told(alloc: Global, before: &str, name: &str, behind: &str) -> Result<String, NoMemory>
    ensures { IfOk result (λ text. string_bytes text ≡ before.now ++ (name.now ++ behind.now)) }
{
    let mut text = String::from_str(alloc, before)?;
    text.push_str(name)?;
    text.push_str(behind)?;
    Ok(text)
}

/// What is said of the rule alone.
fn of_rule(alloc: Global, broken: Rule) -> Result<String, NoMemory>
    ensures { IfOk result (λ text. string_bytes text ≡ reasons.rule_reason broken) }
{
    Ok(String::from_str(alloc, rule_reason(broken))?)
}

/// What is said of a name that stands for nothing.
fn unknown(alloc: Global, it: &Culprit, name: &str) -> Result<String, NoMemory>
    requires { name.now ≡ spec.written it.now }
    ensures { IfOk result (λ text. string_bytes text ≡ spec.unknown it.now) }
{
    match it {
        Culprit::Name(_) => told(alloc, "nothing is called ", name, " here"),
        Culprit::Column(_, _) => told(alloc, "nothing is called ", name, " here"),
        Culprit::Function(_) => told(alloc, "no function is called ", name, ""),
        Culprit::Parameter(_) => told(alloc, "", name, " stands in no function"),
        Culprit::Table(_) => of_rule(alloc, Rule::Names),
    }
}

/// What is said of a table that is none of the schema.
fn unknown_table(alloc: Global, it: &Culprit, name: &str) -> Result<String, NoMemory>
    requires { name.now ≡ spec.written it.now }
    ensures { IfOk result (λ text. string_bytes text ≡ spec.unknown_table it.now) }
{
    match it {
        Culprit::Table(_) => told(alloc, "no table of the schema is called ", name, ""),
        Culprit::Name(_) => of_rule(alloc, Rule::Tables),
        Culprit::Column(_, _) => of_rule(alloc, Rule::Tables),
        Culprit::Function(_) => of_rule(alloc, Rule::Tables),
        Culprit::Parameter(_) => of_rule(alloc, Rule::Tables),
    }
}

/// What is said of a CONSTANT that is set.
fn constant(alloc: Global, it: &Culprit, name: &str) -> Result<String, NoMemory>
    requires { name.now ≡ spec.written it.now }
    ensures { IfOk result (λ text. string_bytes text ≡ spec.constant it.now) }
{
    match it {
        Culprit::Name(_) => told(alloc, "", name, " is a CONSTANT, and is set here"),
        Culprit::Column(_, _) => of_rule(alloc, Rule::Constants),
        Culprit::Function(_) => of_rule(alloc, Rule::Constants),
        Culprit::Parameter(_) => of_rule(alloc, Rule::Constants),
        Culprit::Table(_) => of_rule(alloc, Rule::Constants),
    }
}

/// The reason, with the culprit as it is written.
#[tactic(auto, unfolding(crate::specs::Reasons::culprit_reason))]
fn reason_with(alloc: Global, broken: Rule, it: &Culprit, name: &str) -> Result<String, NoMemory>
    requires { name.now ≡ spec.written it.now }
    ensures { IfOk result (λ text. string_bytes text ≡ spec.culprit_reason broken it.now) }
{
    match broken {
        Rule::Names => unknown(alloc, it, name),
        Rule::Ambiguity => told(alloc, "", name, " stands for two things here"),
        Rule::Tables => unknown_table(alloc, it, name),
        Rule::Constants => constant(alloc, it, name),
        Rule::Duplicates => of_rule(alloc, broken),
        Rule::Labels => of_rule(alloc, broken),
        Rule::Defaults => of_rule(alloc, broken),
        Rule::Types => of_rule(alloc, broken),
        Rule::Reserved => of_rule(alloc, broken),
        Rule::Aggregates => of_rule(alloc, broken),
        Rule::Raises => of_rule(alloc, broken),
        Rule::Recursion => of_rule(alloc, broken),
        Rule::Answer => of_rule(alloc, broken),
    }
}

/// Why the rule is broken, in one line: with the name that breaks it, where the rule is one of names, tables or constants, and
/// else as `refusal_reasons::rule_reason` says of the rule alone.
pub fn culprit_reason(alloc: Global, broken: Rule, it: &Culprit) -> Result<String, NoMemory>
    ensures text { IfOk result (λ text. string_bytes text ≡ spec.culprit_reason broken it.now) }
    ensures line { IfOk result (λ text. IsInLine (string_bytes text)) }
{
    let name = written(alloc, it)?;
    reason_with(alloc, broken, it, &name)
}
