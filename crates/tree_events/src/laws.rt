//! What events determine.

ghost use Rattle.tree_events.specs.Placing.{EventsOfPlaced};
ghost use Rattle.tree_events.specs.SlotsRead.{EventsDetermineSlots};
ghost use Rattle.tree_events.specs.Telling.{EventsDetermine};

/// Two queries have the same events exactly where they differ in names alone.
pub fn events_determine_queries()
    ensures { EventsDetermine }
{}

/// An expression with columns for its slots and casts round its literals has the events of the expression, placed.
pub fn placed_expressions_have_events()
    ensures { EventsOfPlaced }
{}

/// The slots in an expression's events, in the order of reading and each once, are those that it reads.
pub fn events_determine_slots()
    ensures { EventsDetermineSlots }
{}
