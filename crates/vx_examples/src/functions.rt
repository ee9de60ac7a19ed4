//! Programs with functions.

ghost use Rattle.std.specs.Prelude.{◌≡◌, pos, [], ◌∷◌, ◌++◌};
ghost use Rattle.vx_smt_meaning.specs.declared.reply.Reply.TheVariants.{Unsat, Sat};
ghost use Rattle.vx_terms.specs.Sorts.{IntSort, RealSort};
ghost use Rattle.vx_rules.specs.Trees.{AssertCode, FunctionCode, PostCode, MeasureCode, Passed, Failed};
ghost use Rattle.vx_examples.specs.Words.{at, int, bool, real, ref, snap, null, unit, number, part, none, falsity, denied, equal, differ, less, at_most, plus, minus, times, both, implied, first, second, wrapped_int, wrapped_real, wrapped_ref, as_int, as_real, as_ref, questions_of, ending_of, asks};
ghost use Rattle.vx_examples.specs.Told.{told, length_at, whole_of, int_at, chain_told, lowered, bool_at, even_told, all_told, read_at, told_read};
ghost use Rattle.vx_examples.specs.Functions.{m, f, g, list, length, lengths, rising, unheld};
ghost use Rattle.vx_examples.specs.Chained.{even, odd, across, promised, behind, chained, older, shares};

/// The list predicate and its length function: no check, one for the postcondition where a node follows, and one for the assertion.
#[tactic(auto, unfolding(vx_frac::specs::Fractions::lowest, vx_rules::specs::Members::rules))]
pub fn the_length_of_a_list()
    ensures predicate { questions_of lengths list ≡ [] }
    ensures function { questions_of lengths length ≡
        asks (at 3 55) PostCode
        (whole_of (snap 1) ∷ equal (ref 2) (as_ref (first (snap 1))) ∷ equal (first (snap 1)) (wrapped_ref (ref 2))
        ∷ differ (ref 0) null ∷ differ (ref 2) null ∷ equal (snap 3) (second (snap 1)) ∷ told 3 [] (snap 3) (ref 2))
        (less (number 0) (plus (number 1) (length_at (snap 3) (ref 2)))) ∷ [] }
    ensures function_passed { ending_of lengths length (Unsat ∷ []) ≡ Passed }
    ensures function_failed { ending_of lengths length (Sat ∷ []) ≡ Failed (at 3 55) PostCode Sat }
    ensures method { questions_of lengths m ≡
        asks (at 9 8) AssertCode
        (told 3 (differ (ref 0) null ∷ []) (snap 1) (ref 0)
        ++ equal (int 3) (length_at (snap 1) (ref 0))
        ∷ whole_of (snap 1) ∷ equal (ref 4) (as_ref (first (snap 1))) ∷ equal (first (snap 1)) (wrapped_ref (ref 4))
        ∷ differ (ref 0) null ∷ differ (ref 4) null ∷ equal (snap 5) (second (snap 1)) ∷ told 3 [] (snap 5) (ref 4))
        (equal (int 3) (plus (number 1) (length_at (snap 5) (ref 4)))) ∷ [] }
    ensures method_passed { ending_of lengths m (Unsat ∷ []) ≡ Passed }
{}

/// A measure that doesn't fall; what applies the function asks nothing.
#[tactic(auto, unfolding(vx_frac::specs::Fractions::lowest, vx_rules::specs::Members::rules))]
pub fn a_rising_measure()
    ensures asked { questions_of rising f ≡
        asks (at 2 3) MeasureCode (equal (snap 1) unit ∷ []) (both (at_most (number 0) (int 0)) (less (plus (int 0) (number 1)) (int 0))) ∷ [] }
    ensures failed { ending_of rising f (Sat ∷ []) ≡ Failed (at 2 3) MeasureCode Sat }
    ensures method { questions_of rising m ≡ [] }
    ensures method_passed { ending_of rising m [] ≡ Passed }
{}

/// An application without what its precondition asks for.
#[tactic(auto, unfolding(vx_frac::specs::Fractions::lowest, vx_rules::specs::Members::rules))]
pub fn an_application_with_nothing()
    ensures function { questions_of unheld g ≡ [] }
    ensures asked { questions_of unheld m ≡ asks (at 3 27) FunctionCode [] falsity ∷ [] }
    ensures failed { ending_of unheld m (Sat ∷ []) ≡ Failed (at 3 27) FunctionCode Sat }
{}

/// Measures of a group: what odd is measured by doesn't fall below even's, and on the way back it falls by two.
#[tactic(auto, unfolding(vx_frac::specs::Fractions::lowest, vx_rules::specs::Members::rules))]
pub fn measures_across_a_group()
    ensures same { questions_of across even ≡
        asks (at 2 19) FunctionCode (at_most (number 0) (int 0) ∷ equal (snap 1) unit ∷ differ (int 0) (number 0) ∷ []) (at_most (number 0) (minus (int 0) (number 1)))
        ∷ asks (at 2 19) MeasureCode (at_most (number 0) (int 0) ∷ equal (snap 1) unit ∷ differ (int 0) (number 0) ∷ at_most (number 0) (minus (int 0) (number 1)) ∷ [])
        (both (at_most (number 0) (int 0)) (less (plus (minus (int 0) (number 1)) (number 1)) (int 0))) ∷ [] }
    ensures failed { ending_of across even (Unsat ∷ Sat ∷ []) ≡ Failed (at 2 19) MeasureCode Sat }
    ensures falls { questions_of across odd ≡
        asks (at 4 20) FunctionCode (at_most (number 0) (int 0) ∷ equal (snap 1) unit ∷ differ (int 0) (number 0) ∷ []) (at_most (number 0) (minus (int 0) (number 1)))
        ∷ asks (at 4 20) MeasureCode (at_most (number 0) (int 0) ∷ equal (snap 1) unit ∷ differ (int 0) (number 0) ∷ at_most (number 0) (minus (int 0) (number 1)) ∷ [])
        (both (at_most (number 0) (plus (int 0) (number 1))) (less (minus (int 0) (number 1)) (plus (int 0) (number 1)))) ∷ [] }
    ensures passed { ending_of across odd (Unsat ∷ Unsat ∷ []) ≡ Passed }
{}

/// What a function of a group tells by way of the other one: with each level one of them less, and its promise beside its body.
#[tactic(auto, unfolding(vx_frac::specs::Fractions::lowest, vx_rules::specs::Members::rules))]
pub fn told_across_a_group()
    ensures asked { questions_of promised even ≡
        asks (at 1 53) PostCode (at_most (number 0) (int 0) ∷ equal (snap 1) unit ∷ equal (int 0) (number 0) ∷ []) (differ (int 0) (number 1))
        ∷ asks (at 2 19) FunctionCode (at_most (number 0) (int 0) ∷ equal (snap 1) unit ∷ differ (int 0) (number 0) ∷ []) (at_most (number 0) (lowered 1))
        ∷ asks (at 2 19) MeasureCode (at_most (number 0) (int 0) ∷ equal (snap 1) unit ∷ differ (int 0) (number 0) ∷ at_most (number 0) (lowered 1) ∷ [])
        (both (at_most (number 0) (int 0)) (less (lowered 1) (int 0)))
        ∷ asks (at 1 53) PostCode
        (at_most (number 0) (int 0) ∷ equal (snap 1) unit ∷ differ (int 0) (number 0) ∷ at_most (number 0) (lowered 1)
        ∷ both (at_most (number 0) (int 0)) (less (lowered 1) (int 0))
        ∷ implied (equal (lowered 1) (number 0)) (equal (bool_at 1 1) falsity)
        ∷ implied (differ (lowered 1) (number 0)) (both (all_told even_told) (equal (bool_at 1 1) (bool_at 0 2))) ∷ [])
        (implied (equal (int 0) (number 1)) (denied (bool_at 1 1))) ∷ [] }
    ensures passed { ending_of promised even (Unsat ∷ Unsat ∷ Unsat ∷ Unsat ∷ []) ≡ Passed }
{}

/// What stands on the right of an implication asks and tells behind its branch alone.
#[tactic(auto, unfolding(vx_frac::specs::Fractions::lowest, vx_rules::specs::Members::rules))]
pub fn an_application_behind_a_branch()
    ensures asked { questions_of behind m ≡
        asks (at 4 14) FunctionCode (implied (bool 0) (less (number 0) (int 1)) ∷ bool 0 ∷ []) (less (number 0) (int 1))
        ∷ asks (at 4 8) AssertCode (implied (bool 0) (less (number 0) (int 1)) ∷ bool 0 ∷ less (number 0) (int 1) ∷ equal (int_at 0 (int 1))
        (minus (int 1) (number 1)) ∷ []) (at_most (number 0) (int_at 0 (int 1)))
        ∷ asks (at 5 8) FunctionCode (implied (bool 0) (less (number 0) (int 1)) ∷ bool 0 ∷ less (number 0) (int 1) ∷ equal (int_at 0 (int 1))
        (minus (int 1) (number 1)) ∷ at_most (number 0) (int_at 0 (int 1)) ∷ []) (less (number 0) (int 1))
        ∷ asks (at 5 8) AssertCode (implied (bool 0) (less (number 0) (int 1)) ∷ bool 0 ∷ less (number 0) (int 1) ∷ equal (int_at 0 (int 1))
        (minus (int 1) (number 1)) ∷ at_most (number 0) (int_at 0 (int 1)) ∷ []) (at_most (number 0) (int_at 0 (int 1)))
        ∷ asks (at 5 8) FunctionCode (implied (bool 0) (less (number 0) (int 1)) ∷ denied (bool 0) ∷ []) (less (number 0) (int 1))
        ∷ asks (at 5 8) AssertCode (implied (bool 0) (less (number 0) (int 1)) ∷ denied (bool 0) ∷ less (number 0) (int 1) ∷ equal (int_at 0 (int 1))
        (minus (int 1) (number 1)) ∷ []) (at_most (number 0) (int_at 0 (int 1))) ∷ [] }
    ensures failed { ending_of behind m (Unsat ∷ Unsat ∷ Unsat ∷ Unsat ∷ Sat ∷ []) ≡ Failed (at 5 8) FunctionCode Sat }
{}

/// Three levels of a chain are told; the fourth function tells of itself only where it was applied before.
#[tactic(auto, unfolding(vx_frac::specs::Fractions::lowest, vx_rules::specs::Members::rules))]
pub fn a_chain_of_applications()
    ensures asked { questions_of chained m ≡
        asks (at 7 17) AssertCode (bool 1 ∷ equal (int_at 3 (int 0)) (plus (int 0) (number 4)) ∷ less (int 0) (int_at 3 (int 0)) ∷ []) (equal (int_at 3 (int 0)) (plus (int 0) (number 4)))
        ∷ asks (at 8 8) AssertCode (bool 1 ∷ equal (int_at 3 (int 0)) (plus (int 0) (number 4)) ∷ less (int 0) (int_at 3 (int 0)) ∷ chain_told ∷ [])
        (equal (int_at 0 (int 0)) (plus (int 0) (number 10)))
        ∷ asks (at 8 8) AssertCode (denied (bool 1) ∷ chain_told ∷ []) (equal (int_at 0 (int 0)) (plus (int 0) (number 10))) ∷ [] }
    ensures failed { ending_of chained m (Unsat ∷ Unsat ∷ Sat ∷ []) ≡ Failed (at 8 8) AssertCode Sat }
{}

/// An application in the old heap has a snapshot of what was held there.
#[tactic(auto, unfolding(vx_frac::specs::Fractions::lowest, vx_rules::specs::Members::rules))]
pub fn an_application_in_the_old_heap()
    ensures asked { questions_of older m ≡
        asks (at 3 56) PostCode
        (differ (ref 0) null ∷ equal (int 2) (plus (int 1) (number 1)) ∷ equal (as_int (wrapped_int (int 2))) (int 2)
        ∷ told_read IntSort wrapped_int as_int (snap 3) (int 2)
        ++ equal (as_int (wrapped_int (int 1))) (int 1) ∷ told_read IntSort wrapped_int as_int (snap 4) (int 1))
        (equal (read_at IntSort (snap 3)) (plus (read_at IntSort (snap 4)) (number 1))) ∷ [] }
    ensures passed { ending_of older m (Unsat ∷ []) ≡ Passed }
{}

/// A Real is wrapped into the snapshot of a field of type Perm.
#[tactic(auto, unfolding(vx_frac::specs::Fractions::lowest, vx_rules::specs::Members::rules))]
pub fn a_function_of_a_share()
    ensures function { questions_of shares g ≡ [] }
    ensures method { questions_of shares m ≡
        asks (at 5 8) AssertCode
        (differ (ref 0) null ∷ less none (real 1) ∷ equal (as_real (wrapped_real (real 1))) (real 1) ∷ told_read RealSort wrapped_real as_real (snap 2) (real 1))
        (less none (read_at RealSort (snap 2)))
        ∷ asks (at 6 8) AssertCode
        (differ (ref 0) null ∷ less none (real 1) ∷ equal (as_real (wrapped_real (real 1))) (real 1)
        ∷ told_read RealSort wrapped_real as_real (snap 2) (real 1)
        ++ less none (read_at RealSort (snap 2))
        ∷ told_read RealSort wrapped_real as_real (snap 3) (real 1) ++ told_read RealSort wrapped_real as_real (snap 4) (real 1))
        (less (read_at RealSort (snap 3)) (times (part (pos 2) 0) (read_at RealSort (snap 4)))) ∷ [] }
    ensures passed { ending_of shares m (Unsat ∷ Unsat ∷ []) ≡ Passed }
{}
