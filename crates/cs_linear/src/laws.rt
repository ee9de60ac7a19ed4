//! The law of contradictions.
ghost use Rattle.std.specs.Prelude.{List, ◌≡◌, false};
ghost use Rattle.vx_frac.specs.Fractions.{none};
ghost use Rattle.cs_linear.specs.Rows.{Assignment, Solves};
ghost use Rattle.cs_linear.specs.Contradictions.{IsContradiction, Meets};
ghost use Rattle.cs_linear.specs.declared.rows.Row.{Row};
ghost use Rattle.cs_linear.specs.declared.bounds.Bound.{Bound};
ghost use Rattle.cs_linear.specs.declared.bounds.Part.{Part};

/// Farkas' lemma, the way that is used: no numbers, and no numbers with multiples of the small one, solve the rows and meet
/// bounds that contradict one another over them.
pub fn contradictions_have_no_solution()
    ensures amounts { (rows : List Row) (bounds : List Bound) (ps : List Part) (a d : Assignment) → IsContradiction rows bounds ps → Solves rows a → Solves rows d → ¬ (Meets bounds a d) }
    ensures numbers { (rows : List Row) (bounds : List Bound) (ps : List Part) (a : Assignment) → IsContradiction rows bounds ps → Solves rows a → ¬ (Meets bounds a (λ k. none)) }
{}
