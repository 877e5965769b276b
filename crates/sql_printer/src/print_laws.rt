//! What holds of the printed text of a query.

ghost use Rattle.std.specs.Prelude.{◌≡◌, ℕ, List, [], ◌++◌, None, IsUtf8};
ghost use Rattle.away_grammar.specs.declared.grammar.Level.{Level};
ghost use Rattle.away_trees.specs.declared.queries.Expr.{Expr};
ghost use Rattle.away_trees.specs.declared.queries.Query.{Query};
ghost use Rattle.away_grammar.specs.Terminals.{Terminal, token_terminals};
ghost use Rattle.away_grammar.specs.Texts.{ReadsQuery};
ghost use Rattle.away_grammar.specs.Tokens.{Lexeme, Lexes};
ghost use Rattle.away_grammar.specs.Grammar.{Reads, at, file};
ghost use Rattle.away_grammar.specs.Printing.{placed, printed, query_terminals, query_text};
ghost use Rattle.sql_printer.specs.Writable.{AllWritable};

/// An expression that terminals read as prints as terminals that read as it, at each place and whatever follows.
pub fn printed_expressions_read_back()
    ensures { (level place : Level) (ts rest after : List Terminal) (x : Expr)
        → Reads (at level) ts x rest
        → Reads (at place) (placed place (printed x) ++ after) x after }
{}

/// A query that terminals read as prints as terminals that read as it, whatever follows.
pub fn printed_queries_read_back()
    ensures { (ts rest after : List Terminal) (q : Query) → Reads file ts q rest
        → Reads file (query_terminals q ++ after) q after }
{}

/// The text of a query that writable terminals read as has tokens, and what they are as terminals reads as the query.
pub fn printing_reads_back()
    ensures { (ts : List Terminal) (q : Query) → AllWritable ts → Reads file ts q []
        → (tokens : List Lexeme) × Lexes 0 (query_text q) tokens None
        × (token_terminals tokens ≡ query_terminals q)
        × Reads file (token_terminals tokens) q [] }
{}

/// The terminals of a text's tokens are writable.
pub fn terminals_of_texts_are_writable()
    ensures { (z : List ℕ) (ts : List Lexeme) → IsUtf8 z → Lexes 0 z ts None
        → AllWritable (token_terminals ts) }
{}

/// A query that some text reads as prints as a text that reads as it.
pub fn queries_that_were_read_print_back()
    ensures { (z : List ℕ) (q : Query) → IsUtf8 z → ReadsQuery z q → ReadsQuery (query_text q) q }
{}
