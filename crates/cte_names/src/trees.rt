//! What holds of the names of a function's query.

ghost use Rattle.cte_names.specs.TreeLaws.{TableIsNamedOnce, TreeIsClear};

/// In the query of a checked function names are unambiguous.
pub fn names_of_trees_are_clear()
    ensures { TreeIsClear }
{}

/// With names again, the query names its recursive table never in its first term and once in its second.
pub fn the_table_is_named_once()
    ensures { TableIsNamedOnce }
{}
