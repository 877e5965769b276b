//! What holds of places in a query's file.

ghost use Rattle.query_places.specs.QueryPlaceLaws.{PlacesAreTokens};

/// Each place is that of a token of the file.
pub fn query_places_are_tokens()
    ensures { PlacesAreTokens }
{}
