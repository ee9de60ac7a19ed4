//! The laws of typing: the relation and the first fault tell the same.

ghost use Rattle.vx_typing.specs.Laws.{MembersAgree, GroupsAgree, ProgramsAgree, OtherProgramsAreFaulty};
ghost use Rattle.vx_typing.specs.Programs.{program};
ghost use Rattle.vx_typing.specs.ProgramExamples.{names, statements, calls, contracts, groups};
ghost use Rattle.vx_expressions.specs.Examples.{Computes};

/// Members are typed exactly where they have no first fault.
pub fn members_are_told()
    ensures { MembersAgree }
{}

/// A member is in the group of another exactly where the test says so.
pub fn groups_are_told()
    ensures { GroupsAgree }
{}

/// A program is typed exactly where it has no first fault.
pub fn programs_are_told()
    ensures programs { ProgramsAgree }
    ensures others { OtherProgramsAreFaulty }
{}

/// Programs that are typed, and others with their first faults.
#[tactic(auto, unfolding(vx_frac::specs::Fractions::lowest))]
pub fn example_programs()
    ensures names { Computes program names }
    ensures statements { Computes program statements }
    ensures calls { Computes program calls }
    ensures contracts { Computes program contracts }
    ensures groups { Computes program groups }
{}
