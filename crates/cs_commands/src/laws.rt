//! Laws of the definitions, and examples.
ghost use Rattle.cs_commands.specs.Examples.{Examples};
ghost use Rattle.cs_commands.specs.Following.{UnderstoodMayFollow, UnderstoodIsSorted, UnderstoodIsWritable, UnderstoodAlike, UnderstoodHasWord, LookedUpInAnyOrder, UnderstoodInAnyOrder, StaysApart};
ghost use Rattle.cs_commands.specs.Laws.{WrittenIsUnderstood};

/// What is written for a command that may follow over what is declared is understood as that command.
pub fn written_is_understood()
    ensures { WrittenIsUnderstood }
{}

/// What is understood over the live levels may follow there, where a `pop` leaves a level.
pub fn understood_may_follow()
    ensures { UnderstoodMayFollow }
{}

/// An assertion that is understood is well-sorted.
pub fn understood_is_sorted()
    ensures { UnderstoodIsSorted }
{}

/// An assertion that is understood is writable.
pub fn understood_is_writable()
    ensures { UnderstoodIsWritable }
{}

/// A symbol that is declared has a word of its own.
pub fn understood_has_word()
    ensures { UnderstoodHasWord }
{}

/// What is understood is the same in any order of the declarations.
pub fn understood_in_any_order()
    ensures alike { UnderstoodAlike }
    ensures looked_up { LookedUpInAnyOrder }
    ensures turned { UnderstoodInAnyOrder }
{}

/// Where no symbol is declared twice, none is after a command that may follow.
pub fn stays_apart()
    ensures { StaysApart }
{}

/// S-expressions that are commands, and first faults of others.
pub fn examples()
    ensures { Examples }
{}
