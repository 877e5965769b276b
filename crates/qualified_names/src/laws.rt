//! What holds of queries with names again.

ghost use Rattle.std.specs.Prelude.{◌≡◌, None, Some, false};
ghost use Rattle.away_names.specs.Files.{file};
ghost use Rattle.away_names.specs.declared.scope.Hit.{Hit};
ghost use Rattle.away_names.specs.Lookups.{Name, column_qualified, column_named};
ghost use Rattle.away_trees.specs.declared.queries.Expr.TheVariants as expr;
ghost use Rattle.away_trees.specs.declared.queries.Query.{Query};
ghost use Rattle.away_trees.specs.declared.schemas.Schema.{Schema};
ghost use Rattle.qualified_names.specs.Examples as example;
ghost use Rattle.qualified_names.specs.Sight.{Sight, reference};
ghost use Rattle.qualified_names.specs.Trees.{qualified};
ghost use Rattle.qualified_names.specs.Unambiguous.{IsClearFile};

/// A query of a table, a LATERAL subquery whose columns have names of their own, and one with a list of columns, where one column stands nowhere; and
/// a query with a recursive table.
pub fn worked_queries_have_names()
    ensures joined { qualified example.joined_by_place ≡ example.joined_by_name }
    ensures recursive { qualified example.recursive_by_place ≡ example.recursive_by_name }
{}

/// Where names are unambiguous, a query with names again stands for the query by places that it was, and breaks no rule of names.
pub fn what_is_named_again_is_read_as_it_was()
    ensures query { (schema : Schema) (q : Query) → IsClearFile schema q
        → (file schema (qualified q)).query ≡ q }
    ensures unbroken { (schema : Schema) (q : Query) → IsClearFile schema q
        → (file schema (qualified q)).note.least ≡ None }
{}

/// A column that a name stands for, alone or behind an alias, is called by the alias of its item and that name, and is found by them again.
pub fn what_is_found_is_found_by_its_alias()
    ensures named { (n : Name) (s : Sight) (hit : Hit) → column_named n s ≡ Some hit
        → (a : Name) × (reference s hit.column ≡ expr.Dotted a n)
        × (column_qualified a n s ≡ Some (record { column = hit.column; many = false })) }
    ensures qualified { (a n : Name) (s : Sight) (hit : Hit) → column_qualified a n s ≡ Some hit
        → (reference s hit.column ≡ expr.Dotted a n)
        × (hit.many ≡ false) }
{}
