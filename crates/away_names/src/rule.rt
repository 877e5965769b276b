//! The rules of names, scopes and types.

ghost use Rattle.std.specs.Prelude.{◌≡◌};
ghost use Rattle.away_names.specs.Rules as spec;

/// What a tree that is read may break. Each rule says what it judges and the number by which it is printed. Where PostgreSQL
/// has the rule, the condition of its manual's appendix A (PostgreSQL Error Codes) stands beside it; the others are our own.
#[derive(Clone, Copy, Debug, PartialEq, Eq)]
pub enum Rule {
    /// X6: names that stand in one list are different (42701 `duplicate_column`, 42712 `duplicate_alias`, 42P07 `duplicate_table`).
    Duplicates,
    /// X7: names stand for something (42703 `undefined_column`, 42883 `undefined_function`).
    Names,
    /// X8: a name stands for one thing (42702 `ambiguous_column`).
    Ambiguity,
    /// X9: tables of FROM are known (42P01 `undefined_table`).
    Tables,
    /// X10: EXIT, CONTINUE and closing labels fit the blocks and loops around them (43.2 and 43.6.5).
    Labels,
    /// X11: a CONSTANT is never assigned (43.3, Declarations).
    Constants,
    /// X12: what is NOT NULL has a default (43.3, Declarations).
    Defaults,
    /// X13: types, and numbers of columns (42804 `datatype_mismatch`).
    Types,
    /// X14: no name begins as the query's own do (42939 `reserved_name`).
    Reserved,
    /// X15: where aggregates stand (42803 `grouping_error`; 4.2.7, Aggregate Expressions).
    Aggregates,
    /// X16: the SQLSTATE or the message of RAISE (43.9.1, Reporting Errors and Messages).
    Raises,
    /// X17: the terms of a recursive table (42P19 `invalid_recursion`; 7.8.2, Recursive Queries).
    Recursion,
    /// X18: a query has two columns, and the second is a text.
    Answer,
}

impl Rule {
    /// The number by which the rule is printed, 6 to 18.
    #[tactic(auto, unfolding(crate::specs::Rules::number))]
    pub fn number(self) -> u8
        ensures { result ≡ spec.number self }
    {
        match self {
            Rule::Duplicates => 6,
            Rule::Names => 7,
            Rule::Ambiguity => 8,
            Rule::Tables => 9,
            Rule::Labels => 10,
            Rule::Constants => 11,
            Rule::Defaults => 12,
            Rule::Types => 13,
            Rule::Reserved => 14,
            Rule::Aggregates => 15,
            Rule::Raises => 16,
            Rule::Recursion => 17,
            Rule::Answer => 18,
        }
    }
}

/// The lesser of two rules, by their numbers; no rule is greater than any.
#[tactic(auto, unfolding(crate::specs::Rules::lesser))]
pub fn lesser(a: Option<Rule>, b: Option<Rule>) -> Option<Rule>
    ensures { result ≡ spec.lesser a b }
{
    match a {
        None => b,
        Some(x) => match b {
            None => a,
            Some(y) => { if x.number() <= y.number() { a } else { b } }
        },
    }
}

/// The numbers that are printed.
pub fn rules_have_their_numbers()
    ensures { spec.HaveNumbers }
{}
