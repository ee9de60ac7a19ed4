//! What lanes begin with.

ghost use Rattle.vx_verifier.specs.Outsets.{Outset};

use std::marker::Brand;

/// What lanes begin with: the program whose members are dealt to them, and what the spawner shows then. Each run of lanes has its own.
pub trait Begun {
    ghost outset: { Outset };
}

impl Begun for Brand {
    ghost use Rattle.std.specs.Prelude.{[], false};

    ghost outset = { record { program = []; jobs = 0; command = []; first = record { starts = []; owed = λ _. 0; ended = []; faults = 0; steady = false } } };
}
