//! What lies inside instances, and which states can be.

ghost use Rattle.std.specs.Prelude.{◌≡◌, pos, [], ◌∷◌, Some, None, codes};
ghost use Rattle.vx_frac.specs.Fractions.{full, product};
ghost use Rattle.vx_meaning.specs.Values.{RefValue};
ghost use Rattle.vx_meaning.specs.States.{At, Folded};
ghost use Rattle.vx_meaning.specs.Flatten.{flat, IsGrounded, IsInside};
ghost use Rattle.vx_meaning.specs.Consistent.{IsHeld, IsConsistent, Changes};
ghost use Rattle.vx_examples.specs.Functions.{lengths};
ghost use Rattle.vx_examples.specs.Cells.{f, get, hidden, cells};
ghost use Rattle.vx_examples.specs.Scenes.{half, x_f, a_cell, with_x_f, holding, poor, owner, folder, next_of, list_at, two_nodes, round, at_first};

/// The entries inside an instance, to a depth: none where the depth doesn't suffice, no entries without a body.
pub fn flattening()
    ensures depth_none { flat lengths 0 two_nodes (list_at 2) ≡ None }
    ensures last { flat lengths 1 two_nodes (list_at 2) ≡ Some ((At (next_of 2), full) ∷ []) }
    ensures depth_one { flat lengths 1 two_nodes (list_at 1) ≡ None }
    ensures first { flat lengths 2 two_nodes (list_at 1) ≡ Some ((At (next_of 1), full) ∷ (Folded (list_at 2), full) ∷ (At (next_of 2), product full full) ∷ []) }
    ensures no_body { flat cells 1 [] (record { predicate = hidden; arguments = RefValue 1 ∷ [] }) ≡ Some [] }
    ensures no_predicate { flat cells 1 [] (record { predicate = get; arguments = RefValue 1 ∷ [] }) ≡ None }
{}

/// A list that ends is grounded, and one that leads to itself isn't; the rest of a list is inside it, and it isn't inside itself.
pub fn grounding()
    ensures last { IsGrounded lengths two_nodes (list_at 2) }
    ensures first { IsGrounded lengths two_nodes (list_at 1) }
    ensures round { IsGrounded lengths round (list_at 1) → ⊥ }
    ensures inside { IsInside lengths two_nodes (list_at 2) (list_at 1) }
    ensures not_inside { IsInside lengths two_nodes (list_at 1) (list_at 1) → ⊥ }
{}

/// A state holds at most the whole of each location, folded instances included, none on null, and grounded instances; what
/// is held, folded too, keeps its value.
pub fn consistency()
    ensures owner { IsConsistent cells owner }
    ensures more { IsConsistent cells (holding ((At x_f, half) ∷ (At x_f, full) ∷ [])) → ⊥ }
    ensures more_folded { IsConsistent cells (holding ((At x_f, half) ∷ (Folded a_cell, full) ∷ [])) → ⊥ }
    ensures null { IsConsistent cells (holding ((At record { receiver = 0; field = f }, half) ∷ [])) → ⊥ }
    ensures round { IsConsistent lengths (record (at_first ((Folded (list_at 1), full) ∷ [])) { heap = round }) → ⊥ }
    ensures held { IsHeld cells owner.heap owner.holdings x_f }
    ensures held_folded { IsHeld cells folder.heap folder.holdings x_f }
    ensures not_held { IsHeld cells poor.heap poor.holdings x_f → ⊥ }
    ensures changes { Changes cells poor (with_x_f (pos 9)) }
    ensures no_change { Changes cells owner (with_x_f (pos 9)) → ⊥ }
    ensures no_change_folded { Changes cells folder (with_x_f (pos 9)) → ⊥ }
{}
