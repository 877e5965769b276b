//! How large cases are, and a worked case.

ghost use Rattle.std.specs.Prelude.{ℕ};
ghost use Rattle.away_gen.specs.Parts.{parts_of};
ghost use Rattle.away_gen.specs.Small.{IsSmall};
ghost use Rattle.away_gen.specs.Worked.{DrawsOfSeven, PartsOfSeven, TextsOfSeven};

/// Each case has 50 to 99 rows and 40 to 63 statements, and small numbers in them.
pub fn every_case_is_small()
    ensures { (number : ℕ) → IsSmall (parts_of number) }
{}

/// The first draws of the number 7, its case's parts, and the first lines of its texts.
pub fn the_case_of_seven()
    ensures draws { DrawsOfSeven }
    ensures parts { PartsOfSeven }
    ensures texts { TextsOfSeven }
{}
