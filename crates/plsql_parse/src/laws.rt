//! What holds of the grammar of functions and of the plans of its readers.

ghost use Rattle.std.specs.Prelude.{◌≡◌, ◌↔◌, ℕ, false, List, ◌∷◌, ◌++◌, Option, Some, None};
ghost use Rattle.away_trees.specs.declared.statements.Function.{Function};
ghost use Rattle.away_trees.specs.declared.queries.Expr.{Expr};
ghost use Rattle.away_grammar.specs.declared.grammar.Level.TheVariants.{Or};
ghost use Rattle.away_grammar.specs.declared.grammar.Mark.TheVariants.{Dots, End, Loop};
ghost use Rattle.away_grammar.specs.Terminals.{Terminal, mark};
ghost use Rattle.away_grammar.specs.Grammar.{Reads, Sort, Tree, at};
ghost use Rattle.away_grammar.specs.Tokens.{Lexeme};
ghost use Rattle.away_grammar.specs.FunctionFile.{LexesFile};
ghost use Rattle.away_grammar.specs.FunctionGrammar.{Part, PartTree, ReadsPart, ReadsFunction, opens_loop, step};
ghost use Rattle.sql_text.specs.Plans.{Runs};
ghost use Rattle.sql_text.specs.Descent.{plan};
ghost use Rattle.plsql_parse.specs.Sorts.{AnyTree, part, sql};
ghost use Rattle.plsql_parse.specs.Plans.{FileGives, any_plan, part_plan};
ghost use Rattle.plsql_parse.specs.Stops.{StopsPart};

/// What the plan of a part of a function gives, the grammar reads.
pub fn what_a_plan_gives_is_read()
    ensures { (p : Part) (ts : List Terminal) (x : PartTree p) (rest : List Terminal)
        → Runs AnyTree any_plan (part p) (part_plan p) ts (Some (x, rest)) → ReadsPart p ts x rest }
{}

/// Where the grammar reads a tree of a part, and what stands behind it ends the part, the part's plan gives that tree.
pub fn what_is_read_is_given()
    ensures { (p : Part) (ts : List Terminal) (x : PartTree p) (rest : List Terminal)
        → ReadsPart p ts x rest
        → StopsPart p rest → Runs AnyTree any_plan (part p) (part_plan p) ts (Some (x, rest)) }
{}

/// Where the part's plan gives no tree, the grammar reads none that ends where the part may end.
pub fn what_is_not_given_is_not_read()
    ensures { (p : Part) (ts : List Terminal) (x : PartTree p) (rest : List Terminal)
        → Runs AnyTree any_plan (part p) (part_plan p) ts None → ReadsPart p ts x rest
        → StopsPart p rest → ⊥ }
{}

/// Among the plans of functions the plan of a sort of SQL gives what it gives in SQL.
pub fn plans_of_sql_give_the_same()
    ensures { (n : Sort) (ts : List Terminal) (o : Option (Tree n × List Terminal))
        → Runs Tree plan n (plan n) ts o ↔ Runs AnyTree any_plan (sql n) (any_plan (sql n)) ts o }
{}

/// The terminals of a part have one tree, and the part has one end that ends it.
pub fn terminals_have_one_tree()
    ensures { (p : Part) (ts : List Terminal) (x y : PartTree p) (rest other : List Terminal)
        → ReadsPart p ts x rest
        → StopsPart p rest → ReadsPart p ts y other → StopsPart p other
        → (x ≡ y) × (rest ≡ other) }
{}

/// A file reads as one function.
pub fn a_file_is_one_function()
    ensures { (z : List ℕ) (f g : Function) → ReadsFunction z f → ReadsFunction z g → f ≡ g }
{}

/// A file whose tokens are there reads as the function that the plans give of its two lists, where they give one and nothing is left.
pub fn a_file_reads_as_the_plans_give()
    ensures { (z : List ℕ) (outer inner : List Lexeme) (f : Function) → LexesFile z outer inner None
        → ReadsFunction z f ↔ FileGives outer inner f }
{}

/// A loop may open behind WHILE and a condition, unless the condition's last terminal is an END.
pub fn a_condition_ends_with_no_end()
    ensures { (ts : List Terminal) (x : Expr) (rest : List Terminal)
        → Reads (at Or) ts x (mark Loop ∷ rest)
        → (opens_loop ts ≡ false) ↔
        ((before : List Terminal) × (ts ≡ before ++ mark End ∷ mark Loop ∷ rest)) }
{}

/// And behind the bounds of FOR and the step, unless the last terminal there is an END.
pub fn a_range_ends_with_no_end()
    ensures { (ts : List Terminal) (first : Expr) (after : List Terminal) (last : Expr)
        (middle : List Terminal) (x : Option Expr) (rest : List Terminal)
        → Reads (at Or) ts first (mark Dots ∷ after) → Reads (at Or) after last middle
        → ReadsPart step middle x (mark Loop ∷ rest)
        → (opens_loop ts ≡ false) ↔
        ((before : List Terminal) × (ts ≡ before ++ mark End ∷ mark Loop ∷ rest)) }
{}
