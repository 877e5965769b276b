//! Laws of functions in which calls are expanded, and of those in which self calls are turns of a loop.

ghost use Rattle.call_answers.specs.Laws.{ExpansionsAnswer, UntailingsAnswer};

/// A checked function in which the calls of a program are expanded answers as the program does.
pub fn expansions_answer_as_programs()
    ensures { ExpansionsAnswer }
{}

/// A checked function in which self calls are turns of a loop answers as the function that calls itself.
pub fn untailings_answer_as_self_callers()
    ensures { UntailingsAnswer }
{}
