//! The questions of walks are well-sorted.
#![tactic(auto)]

ghost use Rattle.vx_types.specs.StoreLanguage.{IsStoreMethod};
ghost use Rattle.vx_types.specs.FieldLanguage.{IsFieldMethod};
ghost use Rattle.vx_types.specs.CallLanguage.{IsCallingMember};
ghost use Rattle.vx_types.specs.InstanceLanguage.{IsInstanceMember};
ghost use Rattle.vx_live.specs.Live.{LiveLaw, LiveClosureLaw, LiveProgramLaw};
ghost use Rattle.vx_live.specs.Quiet.{QuietLaw};

/// Each question that a walk of a member of a typed program can meet is well-sorted: its condition and its path are of sort
/// Bool, over the standard symbols and the symbols of the program's functions, as they are declared, and symbols below one
/// number, each of one sort. The questions of a member that leads to no function are over the standard symbols alone; for a
/// method with fields and loops that is so by its own typing.
pub fn questions_are_live()
    ensures fields { LiveLaw IsFieldMethod }
    ensures store { LiveLaw IsStoreMethod }
    ensures calls { LiveClosureLaw IsCallingMember }
    ensures instances { LiveClosureLaw IsInstanceMember }
    ensures members { LiveProgramLaw }
{}

/// What is evaluated above level 0, as a function's body is where the function is applied, makes no symbol: the sides that it
/// leaves have the next number and the level that it began with, and only further entries of the path.
pub fn quiet_sides_make_no_symbol()
    ensures { QuietLaw }
{}
