//! What the check of a schema answers.

ghost use Rattle.away_types.specs.CheckedSchemas.{IsCheckedSchema};

use away_trees::Schema;

/// A schema in which no two tables have one name, nor two columns of a table.
#[derive(Drop)]
pub struct CheckedSchema {
    pub schema: Schema,
    ghost checked: { ∥ IsCheckedSchema schema ∥₁ },
}
