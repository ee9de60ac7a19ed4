//! What is generated is a typed program.

ghost use Rattle.vx_gen.specs.Laws.{GeneratedIsSpelled, GeneratedIsTyped};

/// The text of so many methods spells a typed program.
pub fn generated_is_typed()
    ensures spelled { GeneratedIsSpelled }
    ensures typed { GeneratedIsTyped }
{}
