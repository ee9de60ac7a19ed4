//! What is said in small dialogues; `a` and `b` stand for symbols v of sort Bool.

ghost use Rattle.std.specs.Prelude.{◌≡◌, [], ◌∷◌, Some, None};
ghost use Rattle.vx_terms.specs.Terms.{Not};
ghost use Rattle.vx_smt_meaning.specs.Commands.{Assert, Push, Pop, CheckSat};
ghost use Rattle.vx_dialogue.specs.Examples.{a, b, declare_a, declare_b, at};
ghost use Rattle.vx_dialogue.specs.Kept.{kept};
ghost use Rattle.vx_dialogue.specs.Scripts.{Outside, Inside, Left, Asks, Posts, Leaves, posted, said_by};

/// A member with `requires a`, which asks whether `b` holds: the fact stands on the member's level, the question on its own.
pub fn the_smallest_dialogue()
    ensures { posted Outside (at 0 a ∷ []) b ≡ Push 1 ∷ declare_a ∷ Assert a ∷ Push 1 ∷ declare_b ∷ Assert (Not b) ∷ CheckSat ∷ [] }
{}

/// `if (a) { assert a } else { assert !a }`: each side has a level, and the second is asked about behind two pops.
pub fn two_sides_of_a_fork()
    ensures first { posted Outside (at 1 a ∷ []) a ≡ Push 1 ∷ Push 1 ∷ declare_a ∷ Assert a ∷ Push 1 ∷ Assert (Not a) ∷ CheckSat ∷ [] }
    ensures second { posted (Inside (at 1 a ∷ [])) (at 2 (Not a) ∷ []) (Not a)
        ≡ Pop 1 ∷ Pop 1 ∷ Push 1 ∷ declare_a ∷ Assert (Not a) ∷ Push 1 ∷ Assert a ∷ CheckSat ∷ [] }
{}

/// A side of a fork within a side, and then the other side of the outer fork: both levels are closed, and the question's.
pub fn a_fork_within_a_side()
    ensures inner { posted Outside (at 1 a ∷ at 3 b ∷ []) b
        ≡ Push 1 ∷ Push 1 ∷ declare_a ∷ Assert a ∷ Push 1 ∷ declare_b ∷ Assert b ∷ Push 1 ∷ Assert (Not b) ∷ CheckSat ∷ [] }
    ensures outer { posted (Inside (at 1 a ∷ at 3 b ∷ [])) (at 2 (Not a) ∷ []) b
        ≡ Pop 1 ∷ Pop 1 ∷ Pop 1 ∷ Push 1 ∷ declare_a ∷ Assert (Not a) ∷ Push 1 ∷ declare_b ∷ Assert (Not b) ∷ CheckSat ∷ [] }
{}

/// The same path once more, and with a fact more: only what is new is sent. What a question declared on its own level is declared again.
pub fn a_fact_more()
    ensures same { posted (Inside (at 0 a ∷ [])) (at 0 a ∷ []) b ≡ Pop 1 ∷ Push 1 ∷ declare_b ∷ Assert (Not b) ∷ CheckSat ∷ [] }
    ensures more { posted (Inside (at 0 a ∷ [])) (at 0 a ∷ at 0 b ∷ []) b ≡ Pop 1 ∷ declare_b ∷ Assert b ∷ Push 1 ∷ Assert (Not b) ∷ CheckSat ∷ [] }
{}

/// A segment that goes on behind an inner one: the inner level is closed, and what is new stands on the outer one.
pub fn a_segment_that_goes_on()
    ensures { posted (Inside (at 0 a ∷ at 1 b ∷ [])) (at 0 a ∷ at 0 (Not b) ∷ []) a
        ≡ Pop 1 ∷ Pop 1 ∷ declare_b ∷ Assert (Not b) ∷ Push 1 ∷ Assert (Not a) ∷ CheckSat ∷ [] }
{}

/// Paths that part within a level: the whole level is closed and sent again, the member's own too.
pub fn paths_that_part_within_a_level()
    ensures side { posted (Inside (at 1 a ∷ at 1 b ∷ [])) (at 1 a ∷ at 1 (Not b) ∷ []) a
        ≡ Pop 1 ∷ Pop 1 ∷ Push 1 ∷ declare_a ∷ Assert a ∷ declare_b ∷ Assert (Not b) ∷ Push 1 ∷ Assert (Not a) ∷ CheckSat ∷ [] }
    ensures member { posted (Inside (at 0 a ∷ [])) (at 0 b ∷ []) a
        ≡ Pop 1 ∷ Pop 1 ∷ Push 1 ∷ declare_b ∷ Assert b ∷ Push 1 ∷ declare_a ∷ Assert (Not a) ∷ CheckSat ∷ [] }
{}

/// A member behind another: nothing is said where the first is left, and its levels are closed before the question of the second.
pub fn a_member_behind_another()
    ensures second { posted (Left (at 0 a ∷ [])) [] b ≡ Pop 1 ∷ Pop 1 ∷ Push 1 ∷ Push 1 ∷ declare_b ∷ Assert (Not b) ∷ CheckSat ∷ [] }
    ensures both { said_by Outside (Asks (at 0 a ∷ []) a ∷ Leaves ∷ Posts [] b ∷ [])
        ≡ Push 1 ∷ declare_a ∷ Assert a ∷ Push 1 ∷ Assert (Not a) ∷ CheckSat
        ∷ Pop 1 ∷ Pop 1 ∷ Push 1 ∷ Push 1 ∷ declare_b ∷ Assert (Not b) ∷ CheckSat ∷ [] }
    ensures no_question { said_by Outside (Leaves ∷ []) ≡ [] }
{}

/// How much of a path stays: up to where the two part, or to the beginning of the level that the old one has more on there.
pub fn what_stays()
    ensures nothing_yet { kept [] (at 0 a ∷ []) ≡ Some 0 }
    ensures whole { kept (at 0 a ∷ []) (at 0 a ∷ at 1 b ∷ []) ≡ Some 1 }
    ensures level_closed { kept (at 0 a ∷ at 1 b ∷ []) (at 0 a ∷ []) ≡ Some 1 }
    ensures level_cut { kept (at 1 a ∷ at 1 b ∷ []) (at 1 a ∷ []) ≡ Some 0 }
    ensures inner_level_cut { kept (at 1 a ∷ at 2 b ∷ at 2 (Not a) ∷ []) (at 1 a ∷ at 2 b ∷ at 2 a ∷ []) ≡ Some 1 }
    ensures other_segment { kept (at 1 a ∷ []) (at 2 a ∷ []) ≡ Some 0 }
    ensures other_term { kept (at 1 a ∷ []) (at 1 b ∷ []) ≡ Some 0 }
    ensures member_cut { kept (at 0 a ∷ []) [] ≡ None }
{}
