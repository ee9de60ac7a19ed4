//! Programs with calls.

ghost use Rattle.std.specs.Prelude.{◌≡◌, [], ◌∷◌};
ghost use Rattle.vx_smt_meaning.specs.declared.reply.Reply.TheVariants.{Unsat, Sat};
ghost use Rattle.vx_rules.specs.Trees.{CallCode, PostCode, Passed, Failed};
ghost use Rattle.vx_examples.specs.Words.{at, int, ref, null, number, falsity, equal, differ, plus, questions_of, ending_of, asks};
ghost use Rattle.vx_examples.specs.Calls.{m, inc, called_for, called_bare};

/// The caller's postcondition is the callee's: one check in all, and none for the callee, which has no body.
#[tactic(auto, unfolding(vx_frac::specs::Fractions::lowest, vx_rules::specs::Members::rules))]
pub fn a_call_for_the_postcondition()
    ensures callee { questions_of called_for inc ≡ [] }
    ensures callee_passed { ending_of called_for inc [] ≡ Passed }
    ensures asked { questions_of called_for m ≡
        asks (at 3 56) PostCode (differ (ref 0) null ∷ equal (int 2) (plus (int 1) (number 1)) ∷ []) (equal (int 2) (plus (int 1) (number 1))) ∷ [] }
    ensures passed { ending_of called_for m (Unsat ∷ []) ≡ Passed }
    ensures failed { ending_of called_for m (Sat ∷ []) ≡ Failed (at 3 56) PostCode Sat }
{}

/// A call without what its precondition asks for.
#[tactic(auto, unfolding(vx_frac::specs::Fractions::lowest, vx_rules::specs::Members::rules))]
pub fn a_call_with_nothing()
    ensures asked { questions_of called_bare m ≡ asks (at 3 20) CallCode [] falsity ∷ [] }
    ensures failed { ending_of called_bare m (Sat ∷ []) ≡ Failed (at 3 20) CallCode Sat }
{}
