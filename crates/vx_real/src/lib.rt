//! The law of real failures: a failure that is told by a right `sat` is one of a run. Lemmas in proofs/ go backwards through expressions, assertions,
//! statements and methods (proofs/Matched), from an interpretation that makes a question true and its condition false: what is held is made forward,
//! and for each heap that is wanted behind there is one in front (proofs/Backwards).
#![tactic(auto)]

ghost use Rattle.std.specs.Prelude.{◌≡◌, List, [], ◌∷◌};
ghost use Rattle.vx_ast.specs.declared.Place.{Place};
ghost use Rattle.vx_meaning.specs.Fails.{MethodFails};
ghost use Rattle.vx_terms.specs.Interpretations.{Interpretation};
ghost use Rattle.vx_smt_meaning.specs.declared.reply.Reply.{Reply};
ghost use Rattle.vx_smt_meaning.specs.declared.reply.Reply.TheVariants.{Sat};
ghost use Rattle.vx_rules.specs.Trees.{Code, PermissionCode, AssertCode, Tree, Failed, walk};
ghost use Rattle.vx_rules.specs.Members.{method_tree};
ghost use Rattle.vx_types.specs.Premises.{IsTypedProgram};
ghost use Rattle.vx_real.specs.Law.{LastIsPossible, RealFieldLaw, RealLaw};
ghost use Rattle.vx_real.specs.Exposed.{Exposed};
ghost use Rattle.vx_real.specs.Examples.{on_line, cells, halves, counts, hopes, calls};

/// Where a walk ends at a place by a sat that was right, a question stands in the tree at that place whose path an interpretation makes true, and
/// whose condition it doesn't. Nothing is asked of the replies before the last one.
pub fn a_right_sat_exposes_its_place()
    ensures { (t : Tree) (replies : List Reply) (code : Code) (at : Place) → (walk t replies).ending ≡ Failed at code Sat
        → LastIsPossible (walk t replies).answered → (i : Interpretation) × Exposed i at code t }
{}

/// A method of the language of fields whose walk ends at a place by a sat that was right fails at that place.
pub fn field_failures_are_real()
    ensures { RealFieldLaw }
{}

/// The law for the methods of a typed program that lead only to methods with fields, loops and calls. Nothing is asked of the replies before the last one.
pub fn failures_are_real()
    ensures { RealLaw }
{}

/// A method that has a half of two locations and writes to one. A sat to the question whether it has the whole ends its walk, which is right where
/// they differ; and it fails there.
pub fn two_halves_fail()
    ensures stops { (walk (method_tree cells halves) (Sat ∷ [])).ending ≡ Failed (on_line 4) PermissionCode Sat }
    ensures possible { LastIsPossible (walk (method_tree cells halves) (Sat ∷ [])).answered }
    ensures fails { MethodFails cells halves (on_line 4) }
{}

/// A method whose loop leaves a field at any value that isn't below five. A sat to what is asserted of it is right where it is six; and the method
/// fails there.
pub fn a_loop_fails_behind()
    ensures stops { (walk (method_tree cells counts) (Sat ∷ [])).ending ≡ Failed (on_line 6) AssertCode Sat }
    ensures possible { LastIsPossible (walk (method_tree cells counts) (Sat ∷ [])).answered }
    ensures fails { MethodFails cells counts (on_line 6) }
{}

/// A caller that asserts what its callee may have changed. A sat to it is right where the field is six behind the call; and the caller fails there.
pub fn a_caller_fails()
    ensures typed { IsTypedProgram calls }
    ensures stops { (walk (method_tree calls hopes) (Sat ∷ [])).ending ≡ Failed (on_line 8) AssertCode Sat }
    ensures possible { LastIsPossible (walk (method_tree calls hopes) (Sat ∷ [])).answered }
    ensures fails { MethodFails calls hopes (on_line 8) }
{}
