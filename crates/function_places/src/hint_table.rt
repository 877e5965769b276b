//! What could stand at a place of a function: samples, and how they are told.

/// What a label names.
#[derive(Clone, Copy)]
pub(crate) enum Part {
    Statement,
    Value,
    Name,
    Operator,
    Assignment,
    Attribute,
    /// The token itself; no other label is a part of this one.
    Itself,
}

/// What any name may be a part of.
const ANY_NAME: &[Part] = &[Part::Name, Part::Value, Part::Statement];

const VALUE_OR_STATEMENT: &[Part] = &[Part::Value, Part::Statement];

const VALUE_OR_OPERATOR: &[Part] = &[Part::Value, Part::Operator];

const OPERATOR_OR_ASSIGNMENT: &[Part] = &[Part::Operator, Part::Assignment];

/// A sample, its label, what this label names, and what the sample may be a part of: where one of these was told, the label isn't.
/// What is told first stands first.
pub(crate) const TABLE: [(&str, &str, Part, &[Part]); 75] = [
    ("return", "a statement", Part::Statement, &[]),
    ("cast", "an expression", Part::Value, &[]),
    ("x", "a name", Part::Name, ANY_NAME),
    ("integer", "a type", Part::Itself, ANY_NAME),
    ("'a'", "a text", Part::Itself, &[Part::Value]),
    ("1", "an integer", Part::Itself, &[Part::Value]),
    ("$$a$$", "a body in $$", Part::Itself, &[]),
    ("plpgsql", "PLPGSQL", Part::Itself, ANY_NAME),
    ("then", "THEN", Part::Itself, &[]),
    ("loop", "LOOP", Part::Itself, &[Part::Statement]),
    (";", ";", Part::Itself, &[]),
    (":=", ":=", Part::Assignment, &[]),
    (")", ")", Part::Itself, &[]),
    (",", ",", Part::Itself, &[]),
    ("..", "..", Part::Itself, &[]),
    (">>", ">>", Part::Itself, &[]),
    ("||", "an operator", Part::Operator, &[]),
    ("into", "INTO", Part::Itself, &[]),
    ("from", "FROM", Part::Itself, &[]),
    ("begin", "BEGIN", Part::Itself, &[Part::Statement]),
    ("declare", "DECLARE", Part::Itself, &[Part::Statement]),
    ("elsif", "ELSIF", Part::Itself, &[]),
    ("else", "ELSE", Part::Itself, &[]),
    ("when", "WHEN", Part::Itself, &[]),
    ("end", "END", Part::Itself, &[]),
    ("create", "CREATE", Part::Itself, &[]),
    ("function", "FUNCTION", Part::Itself, ANY_NAME),
    ("replace", "REPLACE", Part::Itself, ANY_NAME),
    ("language plpgsql", "LANGUAGE", Part::Attribute, ANY_NAME),
    ("as $$a$$", "AS", Part::Attribute, &[]),
    ("immutable", "IMMUTABLE", Part::Attribute, ANY_NAME),
    ("stable", "STABLE", Part::Attribute, ANY_NAME),
    ("strict", "STRICT", Part::Attribute, &[]),
    ("volatile", "VOLATILE", Part::Attribute, ANY_NAME),
    ("parallel safe", "PARALLEL", Part::Attribute, ANY_NAME),
    ("cost 1", "COST", Part::Attribute, ANY_NAME),
    ("leakproof", "LEAKPROOF", Part::Attribute, ANY_NAME),
    ("called on null input", "CALLED", Part::Attribute, ANY_NAME),
    ("returns", "RETURNS", Part::Itself, ANY_NAME),
    ("exception", "EXCEPTION", Part::Itself, ANY_NAME),
    ("sqlstate", "SQLSTATE", Part::Itself, ANY_NAME),
    ("safe", "SAFE", Part::Itself, ANY_NAME),
    ("input", "INPUT", Part::Itself, ANY_NAME),
    ("select", "SELECT", Part::Itself, &[Part::Statement]),
    ("in", "IN", Part::Itself, &[Part::Operator]),
    ("and", "AND", Part::Itself, &[]),
    ("where", "WHERE", Part::Itself, &[]),
    ("order", "ORDER", Part::Itself, &[]),
    ("by", "BY", Part::Itself, &[]),
    ("limit", "LIMIT", Part::Itself, &[]),
    ("union", "UNION", Part::Itself, &[]),
    ("all", "ALL", Part::Itself, &[]),
    ("desc", "DESC", Part::Itself, &[]),
    ("asc", "ASC", Part::Itself, &[]),
    ("*", "*", Part::Itself, &[Part::Operator]),
    ("=", "=", Part::Itself, OPERATOR_OR_ASSIGNMENT),
    ("default", "DEFAULT", Part::Itself, &[]),
    ("constant", "CONSTANT", Part::Itself, &[]),
    ("null", "NULL", Part::Itself, VALUE_OR_STATEMENT),
    ("not", "NOT", Part::Itself, VALUE_OR_OPERATOR),
    ("true", "TRUE", Part::Itself, &[Part::Value]),
    ("false", "FALSE", Part::Itself, &[Part::Value]),
    ("or", "OR", Part::Itself, &[Part::Operator]),
    ("is", "IS", Part::Itself, &[Part::Operator]),
    ("on", "ON", Part::Itself, &[]),
    ("reverse", "REVERSE", Part::Itself, &[]),
    ("if", "IF", Part::Itself, &[Part::Statement]),
    ("case", "CASE", Part::Itself, VALUE_OR_STATEMENT),
    ("while", "WHILE", Part::Itself, &[Part::Statement]),
    ("for", "FOR", Part::Itself, &[Part::Statement]),
    ("<<", "<<", Part::Itself, &[Part::Statement]),
    ("lateral", "LATERAL", Part::Itself, &[]),
    ("exists", "EXISTS", Part::Itself, &[Part::Value]),
    ("(", "(", Part::Itself, VALUE_OR_OPERATOR),
    (".", ".", Part::Itself, &[Part::Operator]),
];

/// What was told of a place.
#[derive(Clone, Copy)]
pub(crate) struct Told {
    statement: bool,
    value: bool,
    name: bool,
    operator: bool,
    assignment: bool,
}

impl Told {
    pub(crate) fn nothing() -> Told {
        Told {
            statement: false,
            value: false,
            name: false,
            operator: false,
            assignment: false,
        }
    }

    /// What was told, with one thing more.
    pub(crate) fn with(self, part: Part) -> Told {
        let mut told = self;
        match part {
            Part::Statement => told.statement = true,
            Part::Value => told.value = true,
            Part::Name => told.name = true,
            Part::Operator => told.operator = true,
            Part::Assignment => told.assignment = true,
            Part::Attribute | Part::Itself => {}
        }
        told
    }

    /// Whether this was told. Attributes and tokens aren't kept, since nothing is a part of them.
    fn has(self, part: Part) -> bool {
        match part {
            Part::Statement => self.statement,
            Part::Value => self.value,
            Part::Name => self.name,
            Part::Operator => self.operator,
            Part::Assignment => self.assignment,
            Part::Attribute | Part::Itself => false,
        }
    }

    /// Whether one of these was told.
    pub(crate) fn has_one(self, parts: &[Part]) -> bool {
        for part in parts {
            if self.has(*part) {
                return true;
            }
        }
        false
    }
}
