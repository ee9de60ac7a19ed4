//! Programs over fields and fractions.

ghost use Rattle.std.specs.Prelude.{◌≡◌, [], ◌∷◌};
ghost use Rattle.vx_smt_meaning.specs.declared.reply.Reply.TheVariants.{Unsat, Sat};
ghost use Rattle.vx_rules.specs.Trees.{AssertCode, PermissionCode, Passed, Failed};
ghost use Rattle.vx_examples.specs.Words.{at, int, ref, null, falsity, equal, differ, implied, questions_of, ending_of, checks_of, asks, satisfied};
ghost use Rattle.vx_examples.specs.Fields.{m, two_halves, exhaled_twice, maybe_same, never_same, forgotten, half_write};

/// Two halves are one chunk of amount 1: no check is asked.
#[tactic(auto, unfolding(vx_frac::specs::Fractions::lowest))]
pub fn two_halves_make_a_whole()
    ensures asked { questions_of two_halves m ≡ [] }
    ensures passed { ending_of two_halves m [] ≡ Passed }
{}

/// The second part of the assertion finds no chunk.
#[tactic(auto, unfolding(vx_frac::specs::Fractions::lowest))]
pub fn an_exhale_twice()
    ensures asked { questions_of exhaled_twice m ≡ asks (at 4 20) PermissionCode (differ (ref 0) null ∷ []) falsity ∷ [] }
    ensures failed { ending_of exhaled_twice m (Sat ∷ []) ≡ Failed (at 4 20) PermissionCode Sat }
    ensures passed { ending_of exhaled_twice m (Unsat ∷ []) ≡ Passed }
{}

/// Two halves may be of one reference, and then have one value; two wholes not.
#[tactic(auto, unfolding(vx_frac::specs::Fractions::lowest))]
pub fn receivers_may_be_the_same()
    ensures halves { questions_of maybe_same m ≡ asks (at 5 8) AssertCode (differ (ref 0) null ∷ differ (ref 1) null
        ∷ implied (equal (ref 1) (ref 0)) (equal (int 3) (int 2)) ∷ []) (differ (ref 0) (ref 1)) ∷ [] }
    ensures halves_failed { ending_of maybe_same m (Sat ∷ []) ≡ Failed (at 5 8) AssertCode Sat }
    ensures wholes { questions_of never_same m ≡
        asks (at 5 8) AssertCode (differ (ref 0) null ∷ differ (ref 1) null ∷ differ (ref 0) (ref 1) ∷ implied (equal (ref 1) (ref 0))
        (equal (int 3) (int 2)) ∷ []) (differ (ref 0) (ref 1)) ∷ [] }
    ensures wholes_passed { ending_of never_same m (Unsat ∷ []) ≡ Passed }
{}

/// What is exhaled wholly has a new value when it is inhaled again.
#[tactic(auto, unfolding(vx_frac::specs::Fractions::lowest))]
pub fn a_value_is_forgotten()
    ensures asked { questions_of forgotten m ≡ asks (at 6 8) AssertCode (differ (ref 0) null ∷ []) (equal (int 2) (int 1)) ∷ [] }
    ensures failed { ending_of forgotten m (Sat ∷ []) ≡ Failed (at 6 8) AssertCode Sat }
{}

/// A write with half an amount: all that is there is half, so the one check is of a literal false.
#[tactic(auto, unfolding(vx_frac::specs::Fractions::lowest))]
pub fn a_write_with_half()
    ensures asked { questions_of half_write m ≡ asks (at 4 1) PermissionCode (differ (ref 0) null ∷ []) falsity ∷ [] }
    ensures failed { ending_of half_write m (Sat ∷ []) ≡ Failed (at 4 1) PermissionCode Sat }
    ensures checked { checks_of half_write m (Sat ∷ []) ≡ satisfied (asks (at 4 1) PermissionCode (differ (ref 0) null ∷ []) falsity) ∷ [] }
    ensures impossible { ending_of half_write m (Unsat ∷ []) ≡ Passed }
{}
