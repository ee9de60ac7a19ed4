//! Sorts, symbols, well-sorted terms, and what becomes of terms that are not.

ghost use Rattle.std.specs.Prelude.{◌≡◌, true, false, pos, [], ◌∷◌};
ghost use Rattle.vx_frac.specs.Fractions.{none};
ghost use Rattle.vx_terms.specs.Sorts as sort;
ghost use Rattle.vx_terms.specs.Sorts.{IntSort, BoolSort, RealSort, RefSort, SnapSort, OtherSort, Takes};
ghost use Rattle.vx_terms.specs.Terms as term;
ghost use Rattle.vx_terms.specs.Formed.{Formed, IsKnown};
ghost use Rattle.vx_terms.specs.Interpretations.{value, as_sort, same_element, IsOf, IntElement, BoolElement, RealElement, TreeElement, Empty};
ghost use Rattle.vx_examples.specs.Words.{Computes, int, bool, real, number, part, denied, plus, less, both, chosen_term, first, snap};
ghost use Rattle.vx_examples.specs.Simplified.{truth, half};
ghost use Rattle.vx_examples.specs.Interpreted.{some};
ghost use Rattle.vx_examples.specs.Sorting.{of_texts, of_sort_numbers, of_sort_texts, of_sorts, of_symbols, of_operators, of_results, of_unsorted, of_ints, of_bools, of_reals, of_refs, of_elements, of_values};

/// Which texts, sorts, symbols and operators are the same.
pub fn sorts_and_symbols()
    ensures texts { Computes (λ p. sort.same_text p.0 p.1) of_texts }
    ensures sort_numbers { Computes sort.sort_number of_sort_numbers }
    ensures sort_texts { Computes sort.sort_text of_sort_texts }
    ensures sorts { Computes (λ p. sort.same_sort p.0 p.1) of_sorts }
    ensures symbols { Computes (λ p. sort.same_symbol p.0 p.1) of_symbols }
    ensures operators { Computes sort.operator_number of_operators }
    ensures same_operator { sort.same_operator sort.Less sort.Less ≡ true }
    ensures other_operator { sort.same_operator sort.Less sort.LessEqual ≡ false }
    ensures results { Computes (λ p. sort.gives p.0 p.1) of_results }
{}

/// Which sorts an operator takes.
pub fn taken_sorts()
    ensures and { Takes sort.And BoolSort × Takes sort.Or BoolSort × Takes sort.Implies BoolSort }
    ensures no_and { Takes sort.And IntSort → ⊥ }
    ensures no_or { Takes sort.Or RefSort → ⊥ }
    ensures no_implies { Takes sort.Implies RealSort → ⊥ }
    ensures equal { Takes sort.Equal SnapSort }
    ensures less { Takes sort.Less IntSort × Takes sort.Less RealSort × Takes sort.LessEqual IntSort × Takes sort.LessEqual RealSort }
    ensures no_less { Takes sort.Less BoolSort → ⊥ }
    ensures no_less_equal { Takes sort.LessEqual RefSort → ⊥ }
    ensures numbers { Takes sort.Add RealSort × Takes sort.Subtract IntSort × Takes sort.Multiply RealSort × Takes sort.Div IntSort × Takes sort.Mod IntSort }
    ensures no_add { Takes sort.Add RefSort → ⊥ }
    ensures no_subtract { Takes sort.Subtract BoolSort → ⊥ }
    ensures no_multiply { Takes sort.Multiply SnapSort → ⊥ }
    ensures no_div { Takes sort.Div RealSort → ⊥ }
    ensures no_mod { Takes sort.Mod RealSort → ⊥ }
{}

/// The constructors and interpretations at terms that are not well-sorted, and elements of other sorts.
#[tactic(auto, unfolding(vx_frac::specs::Fractions::lowest))]
pub fn unsorted_terms()
    ensures terms { Computes (λ t. t) of_unsorted }
    ensures ints { Computes (as_sort IntSort) of_ints }
    ensures bools { Computes (as_sort BoolSort) of_bools }
    ensures reals { Computes (as_sort RealSort) of_reals }
    ensures refs { Computes (as_sort RefSort) of_refs }
    ensures snaps { Computes (as_sort SnapSort) of_refs }
    ensures others { Computes (as_sort (OtherSort [])) of_refs }
    ensures elements { Computes (λ p. same_element p.0 p.1) of_elements }
    ensures values { Computes (value some) of_values }
    ensures of_bool { IsOf BoolSort (BoolElement true) × IsOf SnapSort (TreeElement Empty) × IsOf (OtherSort []) (TreeElement Empty) }
    ensures not_of_bool { IsOf BoolSort (IntElement (pos 1)) → ⊥ }
    ensures not_of_real { IsOf RealSort (IntElement (pos 1)) → ⊥ }
    ensures not_of_ref { IsOf RefSort (IntElement (pos 1)) → ⊥ }
    ensures not_of_snap { IsOf SnapSort (RealElement none) → ⊥ }
    ensures not_of_other { IsOf (OtherSort []) (BoolElement true) → ⊥ }
{}

/// Well-sorted terms over the symbols below v8, one by each form, and terms that are not.
#[tactic(auto, unfolding(vx_frac::specs::Fractions::lowest))]
pub fn formed_terms()
    ensures truth { Formed 8 truth BoolSort }
    ensures of_other_sort { Formed 8 truth IntSort → ⊥ }
    ensures number { Formed 8 (number 1) IntSort }
    ensures fraction { Formed 8 half RealSort }
    ensures not_lowest { Formed 8 (part (pos 2) 3) RealSort → ⊥ }
    ensures constant { Formed 8 (int 7) IntSort }
    ensures unknown { Formed 8 (int 8) IntSort → ⊥ }
    ensures applied { Formed 8 (first (snap 7)) SnapSort }
    ensures applied_to_unknown { Formed 8 (first (snap 8)) SnapSort → ⊥ }
    ensures denied { Formed 8 (denied (bool 0)) BoolSort }
    ensures denied_int { Formed 8 (denied (int 0)) BoolSort → ⊥ }
    ensures sum { Formed 8 (plus (int 0) (number 1)) IntSort }
    ensures mixed_sum { Formed 8 (plus (int 0) half) IntSort → ⊥ }
    ensures sum_of_bools { Formed 8 (plus truth truth) BoolSort → ⊥ }
    ensures choice { Formed 8 (chosen_term (bool 0) (int 1) (number 1)) IntSort }
    ensures choice_by_int { Formed 8 (chosen_term (int 0) (int 1) (number 1)) IntSort → ⊥ }
    ensures mixed_choice { Formed 8 (chosen_term (bool 0) (int 1) half) IntSort → ⊥ }
    ensures all_of { Formed 8 (term.AllOf (term.MoreTerms truth (term.MoreTerms (bool 0) term.NoTerms))) BoolSort }
    ensures all_of_ints { Formed 8 (term.AllOf (term.MoreTerms (int 0) term.NoTerms)) BoolSort → ⊥ }
    ensures some_of { Formed 8 (term.SomeOf term.NoTerms) BoolSort }
    ensures some_of_ints { Formed 8 (term.SomeOf (term.MoreTerms truth (term.MoreTerms (int 0) term.NoTerms))) BoolSort → ⊥ }
    ensures known { IsKnown 8 (sort.Variable 7) × IsKnown 0 (sort.Function 7) }
    ensures not_known { IsKnown 8 (sort.Variable 8) → ⊥ }
{}
