//! What holds of the printed text of a function.

ghost use Rattle.std.specs.Prelude.{◌≡◌, ◌↔◌, ◌<◌, ◌^◌, ℕ, length, Bool, true, false, List, [], ◌∷◌, ◌++◌, None, IsUtf8};
ghost use Rattle.away_trees.specs.declared.queries.Expr.{Expr};
ghost use Rattle.away_trees.specs.declared.queries.Query.{Query};
ghost use Rattle.away_trees.specs.declared.queries.Expr.TheViews.{roll-Query};
ghost use Rattle.away_trees.specs.declared.queries.Select.{Select};
ghost use Rattle.away_trees.specs.declared.statements.Function.{Function};
ghost use Rattle.away_trees.specs.declared.statements.Stmt.{Stmt};
ghost use Rattle.away_grammar.specs.declared.grammar.Level.{Level};
ghost use Rattle.away_grammar.specs.declared.grammar.Level.TheVariants.{Or};
ghost use Rattle.away_grammar.specs.declared.grammar.Mark.TheVariants.{End};
ghost use Rattle.away_grammar.specs.FunctionGrammar.{ReadsFunction, ReadsPart, body};
ghost use Rattle.away_grammar.specs.Grammar.{Reads, at};
ghost use Rattle.away_grammar.specs.Printing.{query_text, terminals_text};
ghost use Rattle.away_grammar.specs.Terminals.{Terminal, mark, token_terminals};
ghost use Rattle.away_grammar.specs.Tokens.{Lexeme, Lexes};
ghost use Rattle.sql_printer.specs.Writable.{AllWritable};
ghost use Rattle.function_printer.specs.Closed.{closed};
ghost use Rattle.function_printer.specs.FunctionTerminals.{statement_terminals};
ghost use Rattle.function_printer.specs.FunctionTexts.{ReadsExpression, body_text, clauses_text, expression_text, function_text, list_text, with_space};
ghost use Rattle.function_printer.specs.Tags.{free_mark, numbered_mark, stands_in};

use plsql_parse::{a_condition_ends_with_no_end, a_range_ends_with_no_end};

/// An expression that writable terminals read as prints before LOOP as terminals that read as it, whatever follows. They don't end with END.
pub fn closed_expressions_read_back()
    ensures reads { (level : Level) (ts rest after : List Terminal) (x : Expr)
        → AllWritable ts → Reads (at level) ts x rest
        → Reads (at Or) (closed x ++ after) x after }
    ensures ends { (level : Level) (ts rest before : List Terminal) (x : Expr)
        → AllWritable ts → Reads (at level) ts x rest
        → ¬ (closed x ≡ before ++ mark End ∷ []) }
{}

/// The text of an expression that writable terminals read as has tokens that read as it.
pub fn printed_expressions_read()
    ensures { (level : Level) (ts rest : List Terminal) (x : Expr) (is_closed : Bool)
        → AllWritable ts → Reads (at level) ts x rest
        → ReadsExpression (expression_text x is_closed) x }
{}

/// The two parts of a select, with a space between them where the second isn't empty, are the text of its query.
pub fn parts_are_the_query()
    ensures { (q : Select) → query_text (roll-Query
        (record { recursive = None; selects = q ∷ [] }))
        ≡ with_space (list_text q) (clauses_text q) ++ 10 ∷ [] }
{}

/// A body that writable terminals read as prints as a text whose tokens read as it.
pub fn printed_bodies_read()
    ensures { (ts : List Terminal) (x : Stmt) → AllWritable ts → ReadsPart body ts x []
        → (tokens : List Lexeme)
        × Lexes 0 (terminals_text (statement_terminals x)) tokens None
        × ReadsPart body (token_terminals tokens) x [] }
{
    a_condition_ends_with_no_end();
    a_range_ends_with_no_end();
}

/// A text stands in another where the other one is it between two texts.
pub fn texts_stand_in_texts()
    ensures { (mark text : List ℕ) → (stands_in mark text ≡ true)
        ↔ ((before : List ℕ) × (behind : List ℕ) × (text ≡ before ++ (mark ++ behind))) }
{}

/// The mark of a text's dollar quote stands nowhere in the text, and the mark of each tag before it does.
pub fn marks_are_free()
    ensures free { (text : List ℕ) → length text < 2 ^ 64
        → stands_in (free_mark text) text ≡ false }
    ensures first { (text : List ℕ) → (number : ℕ) × (free_mark text ≡ numbered_mark number)
        × ((n : ℕ) → n < number → stands_in (numbered_mark n) text ≡ true) }
{}

/// A function that some text reads as prints as a text that reads as it, where its body is no longer than memory is. A
/// longer one could need a tag of more bytes than names have.
pub fn functions_that_were_read_print_back()
    ensures { (z : List ℕ) (f : Function) → IsUtf8 z → length (body_text f.body) < 2 ^ 64
        → ReadsFunction z f → ReadsFunction (function_text f) f }
{
    a_condition_ends_with_no_end();
    a_range_ends_with_no_end();
}
