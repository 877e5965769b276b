//! That the parts over flat rows are those of a select.

ghost use Rattle.std.specs.Prelude.{◌≡◌, ◌<◌, ◌+◌, ℕ, List, [], length, map, slice_index_or};
ghost use Rattle.away_values.specs.declared.values.Value.{Value};
ghost use Rattle.away_values.specs.Results.{Or, mapped, each};
ghost use Rattle.sql_meaning.specs.Context.{Rows as SqlRows, Frame, Context, at};
ghost use Rattle.sql_meaning.specs.Expressions.{FromMeaning};
ghost use Rattle.sql_meaning.specs.Selects as meant;
ghost use Rattle.lateral_rows.specs.RowParts.{extended, flat, kept_by, offset, rows_of};

/// A row of FROM keeps a row for each of its items. Laid out flat, an item extends the rows as `extend` does, by the groups that it has beside them.
pub fn the_product_extends_rows()
    ensures { (cx : Context) (item : FromMeaning) (frames : List Frame)
        → mapped (map flat) (meant.extend cx item frames)
        ≡ mapped (λ (groups : List SqlRows). extended (map flat frames) (map rows_of groups))
        (each (item cx) frames) }
{}

/// The column at a place of an item stands behind the columns of the items before it.
pub fn columns_keep_their_places()
    ensures { (frame : Frame) (item place : ℕ) → place < length (slice_index_or frame item [])
        → at (flat frame)
        (offset frame item + place) ≡ at (slice_index_or frame item []) place }
{}

/// WHERE keeps the rows as `keep` does, by its condition at each row.
pub fn conditions_keep_rows()
    ensures { (test : Frame → Or Value) (frames : List Frame)
        → meant.keep test frames ≡ mapped (kept_by frames) (each test frames) }
{}
