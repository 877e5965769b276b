//! What the words ask for.

ghost use Rattle.std.specs.Prelude.{◌≡◌, map, string_bytes};
ghost use Rattle.away_top.specs.Commands.{
  as_command,
  asked_by,
  call_forms,
  command_of,
  forms,
  table_forms,
  turn_forms,
};
ghost use Rattle.away_top.specs.Commands as form;

use crate::compile::Wanted;
use crate::over_tables::program::Runnable;

/// What words ask for, with those behind the first.
#[derive(Clone, Copy)]
pub(crate) enum Command<'a> {
    Help,
    Version,
    Compile {
        wanted: Wanted,
        schema: &'a str,
        func: &'a str,
    },
    Batch {
        schema: &'a str,
        func: &'a str,
        table: &'a str,
    },
    Untail {
        schema: &'a str,
        func: &'a str,
    },
    Expand {
        schema: &'a str,
        main: &'a str,
        others: &'a [String],
    },
    Inline {
        schema: &'a str,
        query: &'a str,
        func: &'a str,
    },
    Unroll {
        turns: &'a str,
        schema: &'a str,
        func: &'a str,
    },
    Unrolled {
        bound: &'a str,
        turns: &'a str,
        schema: &'a str,
        func: &'a str,
        dir: &'a str,
        args: &'a [String],
    },
    Explain {
        schema: &'a str,
        func: &'a str,
    },
    Check {
        schema: &'a str,
        func: &'a str,
        query: &'a str,
        cert: &'a str,
    },
    Format {
        func: &'a str,
    },
    Demo {
        number: &'a str,
    },
    OverTables {
        what: Runnable,
        bound: &'a str,
        schema: &'a str,
        file: &'a str,
        dir: &'a str,
        args: &'a [String],
    },
    /// The words are no form.
    NoForm,
}

impl<'a> Command<'a> {
    /// The command that the words ask for, told by the first.
    #[tactic(auto, unfolding(crate::specs::Commands::command_of))]
    pub fn parse(words: &'a [String]) -> Command<'a>
        ensures { as_command result ≡ command_of (map string_bytes words.now) }
    {
        match words {
            [word, rest @ ..] => Command::named(word.as_str(), rest),
            [] => Command::NoForm,
        }
    }

    /// The command of this name, with the words behind it.
    fn named(word: &str, rest: &'a [String]) -> Command<'a>
        ensures { as_command result ≡ asked_by forms word.now (map string_bytes rest.now) }
    {
        if word == "--help" {
            return alone(Command::Help, rest);
        }
        if word == "--version" {
            return alone(Command::Version, rest);
        }
        if word == "compile" {
            return compile(Wanted::Query, rest);
        }
        if word == "certify" {
            return compile(Wanted::Certificate, rest);
        }
        if word == "batch" {
            return batch(rest);
        }
        if word == "check" {
            return check(rest);
        }
        if word == "format" {
            return format(rest);
        }
        if word == "demo" {
            return demo(rest);
        }
        Command::named_of_calls(word, rest)
    }

    /// The command of this name that writes a function or a query with calls in another form.
    fn named_of_calls(word: &str, rest: &'a [String]) -> Command<'a>
        ensures { as_command result ≡ asked_by call_forms word.now (map string_bytes rest.now) }
    {
        if word == "untail" {
            return untail(rest);
        }
        if word == "expand" {
            return expand(rest);
        }
        if word == "inline" {
            return inline(rest);
        }
        Command::named_of_turns(word, rest)
    }

    /// The command of this name that writes or runs a query of several turns in an iteration, or tells of a function.
    fn named_of_turns(word: &str, rest: &'a [String]) -> Command<'a>
        ensures { as_command result ≡ asked_by turn_forms word.now (map string_bytes rest.now) }
    {
        if word == "unroll" {
            return unroll(rest);
        }
        if word == "unrolled" {
            return unrolled(rest);
        }
        if word == "explain" {
            return explain(rest);
        }
        Command::named_over_tables(word, rest)
    }

    /// The command of this name that runs something over tables.
    fn named_over_tables(word: &str, rest: &'a [String]) -> Command<'a>
        ensures { as_command result ≡ asked_by table_forms word.now (map string_bytes rest.now) }
    {
        if word == "sql" {
            return over_tables(Runnable::Query, rest);
        }
        if word == "rows" {
            return over_tables(Runnable::Rows, rest);
        }
        if word == "fn" {
            return over_tables(Runnable::Function, rest);
        }
        Command::NoForm
    }
}

fn alone<'a>(asked: Command<'a>, rest: &[String]) -> Command<'a>
    ensures { as_command result ≡ form.alone (as_command asked.entry) (map string_bytes rest.now) }
{
    match rest {
        [] => asked,
        [_, ..] => Command::NoForm,
    }
}

fn compile<'a>(wanted: Wanted, rest: &'a [String]) -> Command<'a>
    ensures { as_command result ≡ form.with_two (form.compile wanted) (map string_bytes rest.now) }
{
    match rest {
        [schema, func] => Command::Compile {
            wanted,
            schema: schema.as_str(),
            func: func.as_str(),
        },
        _ => Command::NoForm,
    }
}

fn batch<'a>(rest: &'a [String]) -> Command<'a>
    ensures { as_command result ≡ form.with_three form.batch (map string_bytes rest.now) }
{
    match rest {
        [schema, func, table] => Command::Batch {
            schema: schema.as_str(),
            func: func.as_str(),
            table: table.as_str(),
        },
        _ => Command::NoForm,
    }
}

fn untail<'a>(rest: &'a [String]) -> Command<'a>
    ensures { as_command result ≡ form.with_two form.untail (map string_bytes rest.now) }
{
    match rest {
        [schema, func] => Command::Untail {
            schema: schema.as_str(),
            func: func.as_str(),
        },
        _ => Command::NoForm,
    }
}

fn expand<'a>(rest: &'a [String]) -> Command<'a>
    ensures { as_command result ≡ form.with_two_or_more form.expand (map string_bytes rest.now) }
{
    match rest {
        [schema, main, others @ ..] => Command::Expand {
            schema: schema.as_str(),
            main: main.as_str(),
            others,
        },
        _ => Command::NoForm,
    }
}

fn inline<'a>(rest: &'a [String]) -> Command<'a>
    ensures { as_command result ≡ form.with_three form.inline (map string_bytes rest.now) }
{
    match rest {
        [schema, query, func] => Command::Inline {
            schema: schema.as_str(),
            query: query.as_str(),
            func: func.as_str(),
        },
        _ => Command::NoForm,
    }
}

fn unroll<'a>(rest: &'a [String]) -> Command<'a>
    ensures { as_command result ≡ form.with_three form.unroll (map string_bytes rest.now) }
{
    match rest {
        [turns, schema, func] => Command::Unroll {
            turns: turns.as_str(),
            schema: schema.as_str(),
            func: func.as_str(),
        },
        _ => Command::NoForm,
    }
}

fn unrolled<'a>(rest: &'a [String]) -> Command<'a>
    ensures { as_command result ≡ form.with_turns form.unrolled (map string_bytes rest.now) }
{
    match rest {
        [bound, turns, schema, func, dir, args @ ..] => Command::Unrolled {
            bound: bound.as_str(),
            turns: turns.as_str(),
            schema: schema.as_str(),
            func: func.as_str(),
            dir: dir.as_str(),
            args,
        },
        _ => Command::NoForm,
    }
}

fn explain<'a>(rest: &'a [String]) -> Command<'a>
    ensures { as_command result ≡ form.with_two form.explain (map string_bytes rest.now) }
{
    match rest {
        [schema, func] => Command::Explain {
            schema: schema.as_str(),
            func: func.as_str(),
        },
        _ => Command::NoForm,
    }
}

fn check<'a>(rest: &'a [String]) -> Command<'a>
    ensures { as_command result ≡ form.with_four form.check (map string_bytes rest.now) }
{
    match rest {
        [schema, func, query, cert] => Command::Check {
            schema: schema.as_str(),
            func: func.as_str(),
            query: query.as_str(),
            cert: cert.as_str(),
        },
        _ => Command::NoForm,
    }
}

fn format<'a>(rest: &'a [String]) -> Command<'a>
    ensures { as_command result ≡ form.with_one form.format (map string_bytes rest.now) }
{
    match rest {
        [func] => Command::Format {
            func: func.as_str(),
        },
        _ => Command::NoForm,
    }
}

fn demo<'a>(rest: &'a [String]) -> Command<'a>
    ensures { as_command result ≡ form.with_one form.demo (map string_bytes rest.now) }
{
    match rest {
        [number] => Command::Demo {
            number: number.as_str(),
        },
        _ => Command::NoForm,
    }
}

fn over_tables<'a>(what: Runnable, rest: &'a [String]) -> Command<'a>
    ensures { as_command result ≡ form.with_tables (form.over_tables what)
        (map string_bytes rest.now) }
{
    match rest {
        [bound, schema, file, dir, args @ ..] => Command::OverTables {
            what,
            bound: bound.as_str(),
            schema: schema.as_str(),
            file: file.as_str(),
            dir: dir.as_str(),
            args,
        },
        _ => Command::NoForm,
    }
}
