//! Worked functions and their trees.

ghost use Rattle.std.specs.Prelude.{[]};
ghost use Rattle.away_trees.specs.declared.statements.Stmt.{Stmt};
ghost use Rattle.away_grammar.specs.FunctionGrammar.{ReadsPart, body, function};
ghost use Rattle.away_trees.specs.WorkedFunctions.{collatz, walk};
ghost use Rattle.plsql_parse.specs.WorkedTokens.{OutsideWordsFound};
ghost use Rattle.plsql_parse.specs.WorkedTerminals.{collatz_body, collatz_outer, into_statements, into_terminals, many_terminals, many_statements, unlisted_terminals, unpaired_terminals, walk_body, walk_outer};

/// The two lists of terminals of a function with a WHILE loop and an IF read as its tree.
pub fn a_function_with_while_reads()
    ensures { ReadsPart body collatz_body collatz.body []
        × ReadsPart (function collatz.body) collatz_outer collatz [] }
{}

/// So do those of a function with labels, FOR loops, EXIT and a query, and with many attributes.
pub fn a_function_with_for_reads()
    ensures { ReadsPart body walk_body walk.body []
        × ReadsPart (function walk.body) walk_outer walk [] }
{}

/// A body with statements of every other kind reads as its tree.
pub fn every_kind_of_statement_reads()
    ensures { ReadsPart body many_terminals many_statements [] }
{}

/// INTO stands before a list or behind it, and its names end where no comma follows one.
pub fn select_into_reads()
    ensures both { ReadsPart body into_terminals into_statements [] }
    ensures none { (x : Stmt) → ¬ (ReadsPart body unlisted_terminals x []) }
{}

/// A CASE isn't ended by the END of END LOOP.
pub fn end_loop_ends_no_case()
    ensures { (x : Stmt) → ¬ (ReadsPart body unpaired_terminals x []) }
{}

/// The words outside the profile are found in any case, those of the outer list first, and EXCEPTION only before WHEN.
pub fn words_outside_are_found()
    ensures { OutsideWordsFound }
{}
