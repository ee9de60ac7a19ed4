//! Programs whose locations may have several chunks.

ghost use Rattle.std.specs.Prelude.{◌≡◌, ◌++◌, [], ◌∷◌, Some, None};
ghost use Rattle.vx_smt_meaning.specs.declared.reply.Reply.TheVariants.{Unsat, Sat};
ghost use Rattle.vx_rules.specs.Trees.{AssertCode, PermissionCode, Passed, Failed};
ghost use Rattle.vx_examples.specs.Words.{all, asks, at, at_most, chosen_term, differ, either, ending_of, equal, falsity, implied, int, minus, none, null, number, plus, questions_of, real, ref};
ghost use Rattle.vx_examples.specs.Fields.{m};
ghost use Rattle.vx_examples.specs.Sums.{both_halves, other_half, candidate, taken_elsewhere, three_halves, wholly, same_path};
ghost use Rattle.vx_rules.specs.Chunks as chunks;
ghost use Rattle.vx_examples.specs.Walks.{f, field_chunk, half};

/// Three halves are never of one location.
#[tactic(auto, unfolding(vx_frac::specs::Fractions::lowest))]
pub fn three_halves_are_apart()
    ensures asked { questions_of three_halves m ≡
        asks (at 5 8) AssertCode
        (differ (ref 0) null
        ∷ differ (ref 1) null ∷ implied (equal (ref 1) (ref 0)) (equal (int 4) (int 3))
        ∷ differ (ref 2) null ∷ implied (equal (ref 2) (ref 0)) (equal (int 5) (int 3)) ∷ implied (equal (ref 2) (ref 1)) (equal (int 5) (int 4))
        ∷ at_most (plus (plus half (chosen_term (equal (ref 0) (ref 2)) half none)) (chosen_term (equal (ref 1) (ref 2)) half none)) all ∷ [])
        (either (differ (ref 0) (ref 1)) (differ (ref 1) (ref 2))) ∷ [] }
    ensures passed { ending_of three_halves m (Unsat ∷ []) ≡ Passed }
{}

/// Two halves of one location are written together: the write asks about their sum, the read has a chunk of its own.
#[tactic(auto, unfolding(vx_frac::specs::Fractions::lowest))]
pub fn two_halves_are_written()
    ensures asked { questions_of other_half m ≡
        asks (at 5 1) PermissionCode same_path wholly
        ∷ asks (at 6 8) AssertCode (same_path ++ wholly ∷ equal (int 4) (chosen_term (equal (ref 1) (ref 0)) (number 1) (int 3)) ∷ []) (equal (int 4) (number 1)) ∷ [] }
    ensures passed { ending_of other_half m (Unsat ∷ Unsat ∷ []) ≡ Passed }
    ensures failed { ending_of other_half m (Sat ∷ []) ≡ Failed (at 5 1) PermissionCode Sat }
{}

/// Two halves of one location are taken together: the first is gone, of the second its share; the value is that of both.
#[tactic(auto, unfolding(vx_frac::specs::Fractions::lowest))]
pub fn two_halves_are_taken()
    ensures asked { questions_of both_halves m ≡
        asks (at 5 8) PermissionCode same_path wholly
        ∷ asks (at 6 8) AssertCode
        (same_path ++ wholly
        ∷ equal (real 4) (chosen_term (equal (ref 1) (ref 0)) half none) ∷ equal (real 5) (minus half (real 4))
        ∷ equal (int 6) (int 2) ∷ implied (equal (ref 1) (ref 0)) (equal (int 6) (int 3)) ∷ [])
        falsity ∷ [] }
{}

/// A location that is taken wholly can't be written, wherever it was taken from.
#[tactic(auto, unfolding(vx_frac::specs::Fractions::lowest))]
pub fn what_is_taken_is_gone()
    ensures taken { ending_of taken_elsewhere m (Sat ∷ []) ≡ Failed (at 5 8) PermissionCode Sat }
    ensures written { ending_of taken_elsewhere m (Unsat ∷ Sat ∷ []) ≡ Failed (at 6 1) PermissionCode Sat }
{}

/// The parts of sums: the first own chunk that is surely as wanted, what chunks have and give at a receiver, and what is left of a heap.
#[tactic(auto, unfolding(vx_frac::specs::Fractions::lowest))]
pub fn parts_of_sums()
    ensures none_there { chunks.sum_at (ref 0) [] ≡ none }
    ensures there { chunks.sum_at (ref 0) (candidate 0 (ref 0) half ∷ candidate 1 (ref 1) all ∷ []) ≡ plus half (chosen_term (equal (ref 1) (ref 0)) all none) }
    ensures surely { chunks.surely (chunks.holds_amount all (ref 0 ∷ [])) (candidate 0 (ref 0) half ∷ candidate 1 (ref 1) all ∷ candidate 2 (ref 0) all ∷ [])
        ≡ Some (candidate 2 (ref 0) all) }
    ensures not_surely { chunks.surely (chunks.holds_amount all (ref 0 ∷ [])) (candidate 0 (ref 0) half ∷ candidate 1 (ref 1) all ∷ []) ≡ None }
    ensures share { chunks.share (ref 0) all (field_chunk f (ref 0) half (int 1)) ≡ half }
    ensures share_of_more { chunks.share (ref 0) half (field_chunk f (ref 0) all (int 1)) ≡ half }
    ensures share_elsewhere { chunks.share (ref 0) half (field_chunk f (ref 1) all (int 1)) ≡ chosen_term (equal (ref 1) (ref 0)) half none }
    ensures written { chunks.value_where (ref 0) (number 2) (field_chunk f (ref 1) half (int 1)) ≡ chosen_term (equal (ref 1) (ref 0)) (number 2) (int 1) }
    ensures left { chunks.without_empty (field_chunk f (ref 0) none (int 1) ∷ field_chunk f (ref 1) half (int 2) ∷ []) ≡ field_chunk f (ref 1) half (int 2) ∷ [] }
    ensures two { chunks.at_most_three (ref 0) (candidate 0 (ref 0) half ∷ candidate 1 (ref 1) half ∷ []) ≡ [] }
    ensures three { chunks.at_most_three (ref 0) (candidate 0 (ref 0) half ∷ candidate 1 (ref 1) half ∷ candidate 2 (ref 2) all ∷ []) ≡
        at_most (plus (plus half (chosen_term (equal (ref 1) (ref 0)) half none)) (chosen_term (equal (ref 2) (ref 0)) all none)) all ∷ [] }
{}
