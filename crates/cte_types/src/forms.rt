//! What types stand in the forms of a checked function.

ghost use Rattle.cte_types.specs.FormLaws.{CallsKeepTypes, TermsHaveTypes};

/// In the forms of a checked function, where no item of a SELECT INTO is a chain without links, each assigned term has the type of
/// its name's slot, each test is boolean, and each returned term has the type of the result.
pub fn terms_of_forms_have_types()
    ensures { TermsHaveTypes }
{}

/// Each call passes names of its parameters' types.
pub fn calls_of_forms_keep_types()
    ensures { CallsKeepTypes }
{}
