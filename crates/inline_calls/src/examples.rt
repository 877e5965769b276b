//! Worked examples: how queries with calls of a small function are judged, computed.

ghost use Rattle.inline_calls.specs.Worked.{WorkedForms, WorkedPlaces, WorkedRules};

/// Which queries have the form.
pub fn forms_are_told()
    ensures { WorkedForms }
{}

/// Which calls are in their places.
pub fn places_are_told()
    ensures { WorkedPlaces }
{}

/// Which rules calls break.
pub fn rules_are_told()
    ensures { WorkedRules }
{}
