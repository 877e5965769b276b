//! Laws on hints.

ghost use Rattle.function_places.specs.Hints.{AreDistinct, AreInLine};

/// What could stand at a place is told within a line, and nothing of it twice.
pub fn each_hint_stands_in_a_line()
    ensures lines { AreInLine }
    ensures distinct { AreDistinct }
{}
