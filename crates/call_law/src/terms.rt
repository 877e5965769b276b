//! What holds of the forms that a query is made of.

ghost use Rattle.call_law.specs.TermLaws.{FailsFit, LabelsHaveTrees, TermsFit};

/// In the forms of a function each term has one name for each slot of its expression, and each fail has a class.
pub fn terms_of_forms_fit()
    ensures terms { TermsFit }
    ensures fails { FailsFit }
{}

/// Under the relations each label of a tail form has a finite tree, in which every name has a reference.
pub fn labels_have_trees()
    ensures { LabelsHaveTrees }
{}
