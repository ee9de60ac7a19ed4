//! Which tokens spell which programs, and the laws of reading them.
#![tactic(auto)]

ghost use Rattle.vx_grammar.specs.Laws.{AnswersAreRight, SpelledIsRead, SpelledOnce};
ghost use Rattle.vx_grammar.specs.ProgramLaws.{MeasuresAreTold, ProgramsAreSpelled, ProgramsSpelledOnce, ReadingStopsAtFirst, SpelledProgramsAreRead};

/// What is read is spelled so within the limit, and else reading stops at the first token that does not fit.
pub fn answers_are_right()
    ensures { AnswersAreRight }
{}

/// What is spelled within the limit is read.
pub fn spelled_is_read()
    ensures { SpelledIsRead }
{}

/// Tokens spell one expression at most.
pub fn spelled_once()
    ensures { SpelledOnce }
{}

/// A program that is read is spelled so within the limits, and else the tokens fit up to where reading stops.
pub fn programs_are_spelled()
    ensures { ProgramsAreSpelled }
{}

/// A program that is spelled within the limits is read.
pub fn spelled_programs_are_read()
    ensures { SpelledProgramsAreRead }
{}

/// Tokens spell one program at most.
pub fn programs_spelled_once()
    ensures { ProgramsSpelledOnce }
{}

/// Where reading stops at a token that does not fit, no program goes on with it.
pub fn reading_stops_at_first()
    ensures { ReadingStopsAtFirst }
{}

/// Where reading stops at a measure, it tells so where a clause may come, and only there.
pub fn measures_are_told()
    ensures { MeasuresAreTold }
{}
