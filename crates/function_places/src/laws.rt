//! What holds of places, and of the list of a function's nodes.

ghost use Rattle.function_places.specs.PlaceLaws.{KindsAreCounted, PlacesAreTokens};

/// The list of a function's nodes has one entry for each node, and its counts are those that the limits are on.
pub fn kinds_are_counted()
    ensures { KindsAreCounted }
{}

/// Each place is that of a token of the file, or of its body.
pub fn places_are_tokens()
    ensures { PlacesAreTokens }
{}
