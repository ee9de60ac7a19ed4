//! What is typed as it is written is typed when it is settled.
#![tactic(auto)]

ghost use Rattle.vx_ast.specs.Resolve.{program};
ghost use Rattle.vx_typing.specs.Programs.{IsTyped};
ghost use Rattle.vx_ast.specs.Apart.{Reaches, KeepsApart};
ghost use Rattle.vx_settled.specs.WhenSettled.{TypedWhenSettled, DistinctWhenSettled, KeptApartWhenSettled, DepthSufficesWhenSettled, TypedProgramWhenSettled};
ghost use Rattle.vx_settled.specs.Recursions.{f, counts_down, applies_itself_before};

use vx_depth::groups_kept_apart;
use vx_typing::programs_are_told;

/// A typed program of the whole language is typed when it is settled: each of its methods is.
pub fn typed_programs_settle_typed()
    ensures { TypedWhenSettled }
{}

/// A typed program is typed as a whole when it is settled: each member is found by its name, and is typed as its kind asks,
/// amounts in predicates and in preconditions of functions are known, predicates and functions say nothing of an earlier state,
/// and no member is entered within itself.
pub fn typed_programs_settle_whole()
    ensures { TypedProgramWhenSettled }
{}

/// In a typed program no function's precondition or measure applies the function again, and no predicate's body unfolds the
/// predicate again, by way of others either; so the depth of the rules suffices for it.
pub fn typed_programs_keep_apart()
    ensures apart { KeptApartWhenSettled }
    ensures depth { DepthSufficesWhenSettled }
{
    groups_kept_apart();
}

/// A function that applies itself in its body leads back to itself, is typed, and is kept apart; one that applies itself in
/// its precondition isn't kept apart, and so it isn't typed.
pub fn recursions_are_told_apart()
    ensures leads_back { Reaches (program counts_down) f f }
    ensures typed { IsTyped counts_down }
    ensures apart { KeepsApart (program counts_down) }
    ensures not_apart { KeepsApart (program applies_itself_before) → ⊥ }
    ensures not_typed { IsTyped applies_itself_before → ⊥ }
{
    programs_are_told();
    typed_programs_keep_apart();
}

/// In a typed program each member is the first of its name, and so the only one.
pub fn typed_programs_name_apart()
    ensures { DistinctWhenSettled }
{}
