//! Programs with loops.

ghost use Rattle.std.specs.Prelude.{◌≡◌, [], ◌∷◌};
ghost use Rattle.vx_smt_meaning.specs.declared.reply.Reply.TheVariants.{Unsat, Sat};
ghost use Rattle.vx_rules.specs.Trees.{EntryCode, KeptCode, Passed, Failed};
ghost use Rattle.vx_examples.specs.Words.{at, int, number, equal, less, at_most, plus, questions_of, ending_of, checks_of, asks, refuted};
ghost use Rattle.vx_examples.specs.Loops.{count, counting, counting_from_any};

/// The invariant on entry and, from an arbitrary iteration, at its end: two checks.
pub fn a_counting_loop()
    ensures asked { questions_of counting count ≡
        asks (at 5 11) EntryCode (at_most (number 0) (int 0) ∷ []) (at_most (number 0) (int 0))
        ∷ asks (at 5 11) KeptCode (at_most (number 0) (int 0) ∷ at_most (int 2) (int 0) ∷ less (int 2) (int 0) ∷ equal (int 3) (plus (int 2) (number 1)) ∷ [])
        (at_most (int 3) (int 0)) ∷ [] }
    ensures passed { ending_of counting count (Unsat ∷ Unsat ∷ []) ≡ Passed }
    ensures not_kept { ending_of counting count (Unsat ∷ Sat ∷ []) ≡ Failed (at 5 11) KeptCode Sat }
{}

/// Without the bound the invariant doesn't hold on entry.
pub fn a_loop_from_any_number()
    ensures asked { questions_of counting_from_any count ≡
        asks (at 5 11) EntryCode [] (at_most (number 0) (int 0))
        ∷ asks (at 5 11) KeptCode (at_most (number 0) (int 0) ∷ at_most (int 2) (int 0) ∷ less (int 2) (int 0) ∷ equal (int 3) (plus (int 2) (number 1)) ∷ [])
        (at_most (int 3) (int 0)) ∷ [] }
    ensures failed { ending_of counting_from_any count (Sat ∷ []) ≡ Failed (at 5 11) EntryCode Sat }
{}
