//! The laws of marks and of the types of integers.

ghost use Rattle.std.specs.Prelude.{◌≡◌};
ghost use Rattle.away_trees.specs.declared.queries.Expr.{Expr};
ghost use Rattle.away_values.specs.declared.operators.IntOp.{IntOp};
ghost use Rattle.away_typing.specs.Typing.{Places};
ghost use Rattle.elaboration_law.specs.Laws.{
  MarksAlone,
  Unmarked,
  PrintedAlike,
  Found,
  TypedMarked,
  TypedQueries,
  SmallValues,
  WholeMarked,
};
ghost use Rattle.elaboration_law.specs.Dots.{NamesWithoutMarks};
ghost use Rattle.elaboration_law.specs.ConvertingLaws.{Conversions, ConversionValues};
ghost use Rattle.away_trees.specs.declared.statements.Stmt.{Stmt};
ghost use Rattle.away_trees.specs.Count.{nodes_of};
ghost use Rattle.away_trees.specs.StatementEquations.{StatementSteps, statement_algebra};
ghost use Rattle.elaboration.specs.Converting.{Around, converted};
ghost use Rattle.elaboration_law.specs.StatementLaws.{StatementsKept};
ghost use Rattle.elaboration_law.specs.Table.{Arithmetic, Minus, Common, Casts, Calls, Literals};

/// The kinds of every operator over integers and bigints.
pub fn integers_have_their_kinds()
    ensures arithmetic { (op : IntOp) → Arithmetic op }
    ensures minus { (e : Expr) → Minus e }
    ensures common { Common }
    ensures casts { Casts }
    ensures calls { Calls }
    ensures literals { Literals }
{}

/// What a tree reads, its slots, aggregates, parameters and printed terminals are those of the tree
/// without marks; and so are the marks that it is to have.
pub fn marks_change_no_other_thing()
    ensures expr { (e : Expr) → Unmarked e }
    ensures marked { (p : Places) (e : Expr) → MarksAlone p e }
    ensures query { PrintedAlike }
    ensures names { NamesWithoutMarks }
{}

/// A tree that is marked has the type that was found with the marks.
pub fn marked_trees_have_the_types_found()
    ensures { Found }
{}

/// A tree that has a type is marked as it is to be, and comes back from the tree without marks.
pub fn marks_are_found_again()
    ensures expr { TypedMarked }
    ensures query { TypedQueries }
    ensures whole { WholeMarked }
{}

/// What an operation of 32 bits gives is an integer of 32 bits, or a fault.
pub fn small_operations_test_their_range()
    ensures { SmallValues }
{}

/// An expression that is converted to the type of its place has that type, reads the same, and has
/// the same value where its range allows it.
pub fn conversions_give_the_type()
    ensures types { Conversions }
    ensures values { ConversionValues }
{}

/// What ignores the expressions of a statement, as the number of its nodes does, is the same of the
/// converted statement.
pub fn conversions_keep_statements<AStmt, AnArm>()
    ensures every { (s : StatementSteps AStmt AnArm) → StatementsKept (statement_algebra s) }
    ensures nodes { (w : Around) (s : Stmt) → nodes_of (converted w s) ≡ nodes_of s }
{}
