//! What the written syntax becomes, and what the settled syntax mentions.

ghost use Rattle.std.specs.Prelude.{◌≡◌, true, false, [], ◌∷◌, Some, None};
ghost use Rattle.vx_ast.specs.declared.ValueType.TheVariants.{Int};
ghost use Rattle.vx_ast.specs.Written as written;
ghost use Rattle.vx_ast.specs.Syntax as syntax;
ghost use Rattle.vx_ast.specs.Mentions.{mentioned, mentioned_in, mentioned_by};
ghost use Rattle.vx_ast.specs.Resolve as resolve;
ghost use Rattle.vx_examples.specs.Words.{Computes, at};
ghost use Rattle.vx_examples.specs.Cells.{cell, f, get, hidden, read_name, x, cells, cells_cell, cells_get, cells_read};
ghost use Rattle.vx_examples.specs.Mentioned.{g, f_x, g_x, one_x, by_expressions, by_assertions, of_places, of_pure, of_clauses, of_pure_clauses, of_statements};
ghost use Rattle.vx_examples.specs.Settling as settling;

/// The functions that an expression or an assertion applies, with the predicates that it names.
pub fn mentions()
    ensures expressions { Computes mentioned by_expressions }
    ensures arguments { mentioned_in (syntax.More f_x (syntax.More g_x syntax.NoMore)) ≡ f ∷ g ∷ [] }
    ensures no_arguments { mentioned_in syntax.NoMore ≡ [] }
    ensures assertions { Computes mentioned_by by_assertions }
{}

/// Places, joined clauses and assigned variables of the settled syntax, and members by their names.
pub fn settled_parts()
    ensures places { Computes syntax.place_of of_places }
    ensures pure { Computes syntax.as_assertion of_pure }
    ensures clauses { Computes (syntax.joined (at 1 1)) of_clauses }
    ensures pure_clauses { Computes (syntax.conjoined (at 1 1)) of_pure_clauses }
    ensures assigned { Computes syntax.assigned of_statements }
    ensures none_assigned { syntax.assigned_in syntax.Done ≡ [] }
    ensures same_name { syntax.same_name cell cell ≡ true }
    ensures other_name { syntax.same_name f g ≡ false }
    ensures longer_name { syntax.same_name f cell ≡ false }
    ensures member { syntax.member_named cells cell ≡ Some (syntax.IsPredicate cells_cell) }
    ensures no_member { syntax.member_named cells g ≡ None }
    ensures field { syntax.field_named cells f ≡ Some Int }
    ensures no_field { syntax.field_named cells cell ≡ None }
    ensures predicate { syntax.predicate_named cells cell ≡ Some cells_cell }
    ensures no_predicate { syntax.predicate_named cells f ≡ None }
    ensures function { syntax.function_named cells get ≡ Some cells_get }
    ensures no_function { syntax.function_named cells read_name ≡ None }
    ensures method { syntax.method_named cells read_name ≡ Some cells_read }
    ensures no_method { syntax.method_named cells get ≡ None }
{}

/// Expressions and assertions: operators, absent amounts, and which of them hold a permission.
pub fn settled_expressions()
    ensures operators { Computes resolve.expression settling.of_operators }
    ensures expressions { Computes resolve.expression settling.of_expressions }
    ensures assertions { Computes (resolve.assertion settling.names) settling.of_assertions }
    ensures purity { Computes (resolve.is_pure settling.names) settling.of_purity }
    ensures clauses { resolve.assertions settling.names (written.More settling.written_held (written.More settling.written_true written.NoMore))
        ≡ settling.held ∷ syntax.Pure settling.truth ∷ [] }
    ensures no_clauses { resolve.assertions settling.names written.NoMore ≡ [] }
    ensures required { written.requires_of (written.Ensures settling.written_sum ∷ written.Requires settling.written_true
        ∷ written.Decreases settling.written_sum ∷ written.Requires settling.written_held ∷ []) ≡ settling.written_true ∷ settling.written_held ∷ [] }
    ensures ensured { written.ensures_of (written.Ensures settling.written_sum ∷ written.Requires settling.written_true
        ∷ written.Decreases settling.written_sum ∷ written.Ensures settling.written_held ∷ []) ≡ settling.written_sum ∷ settling.written_held ∷ [] }
    ensures measured { written.measure_of (written.Ensures settling.written_true ∷ written.Requires settling.written_true
        ∷ written.Decreases settling.written_sum ∷ written.Decreases settling.written_true ∷ []) ≡ Some settling.written_sum }
    ensures not_measured { written.measure_of (written.Ensures settling.written_true ∷ []) ≡ None }
    ensures measures { Computes (resolve.measure settling.names) settling.measures }
{}

/// Statements and members: a declaration with a value is two statements, and a call is told by the method's name.
pub fn settled_members()
    ensures statements { Computes (λ s. resolve.block settling.names (written.Then s written.Done)) settling.of_statements }
    ensures no_statement { resolve.block settling.names written.Done ≡ syntax.Done }
    ensures kinds { Computes (resolve.kind settling.names (at 6 1)) settling.of_kinds }
    ensures predicates { resolve.has_member resolve.is_predicate settling.written_members cell ≡ true }
    ensures no_predicate { resolve.has_member resolve.is_predicate settling.written_members f ≡ false }
    ensures unknown { resolve.has_member resolve.is_predicate settling.written_members hidden ≡ false }
    ensures methods { resolve.has_member resolve.is_method settling.written_members read_name ≡ true }
    ensures no_method { resolve.has_member resolve.is_method settling.written_members get ≡ false }
    ensures field { resolve.is_field (written.IsField Int) ≡ true }
    ensures no_field { resolve.is_field (written.IsMethod (settling.written_method None)) ≡ false }
    ensures fields { resolve.fields_of settling.written_members ≡ f ∷ g ∷ [] }
    ensures program { resolve.program settling.written_members ≡ settling.members }
    ensures no_program { resolve.program [] ≡ [] }
{}
