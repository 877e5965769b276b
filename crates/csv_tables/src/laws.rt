//! Worked fields and files, and which refusal comes.

ghost use Rattle.csv_tables.specs.FirstLaws.{FirstDecides};
ghost use Rattle.csv_tables.specs.Worked.{FieldsWrite, FilesHold};

/// What worked fields write.
pub fn fields_write()
    ensures { FieldsWrite }
{}

/// What worked files hold.
pub fn files_hold()
    ensures { FilesHold }
{}

/// The first row that is no row of the table decides, and in it the first field.
pub fn the_first_decides()
    ensures { FirstDecides }
{}
