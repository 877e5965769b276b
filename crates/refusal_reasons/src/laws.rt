//! Laws on the reasons.

ghost use Rattle.refusal_reasons.specs.Laws.{AreLines, HaveEntries};

/// Each reason is one line.
pub fn each_reason_is_one_line()
    ensures { AreLines }
{}

/// Each word for which a file is refused has its own text.
pub fn each_word_outside_has_a_text()
    ensures { HaveEntries }
{}
