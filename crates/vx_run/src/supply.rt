//! What a run lives on.
ghost use Rattle.std.specs.Prelude.{◌≡◌, map, Ok, IfOk};
ghost use Rattle.vx_resolved.specs.Resolved.{declaration};
ghost use Rattle.vx_run.specs.Going as going;
ghost use Rattle.vx_run.specs.Draws.{by_draws};
ghost use Rattle.vx_run.specs.Views.{value};
ghost use Rattle.vx_run.specs.Supplies.{supply, stepped};

use crate::draws::{drawn_value, turned};
use crate::outcome::Whole;
use crate::values::Value;
use std::alloc::{AllocError, Global};
use vx_ast::ValueType;
use vx_resolved::Declaration;

/// The state of the draws, and the steps that are left.
#[derive(Clone, Copy)]
pub struct Supply {
    source: u64,
    steps: u64,
}

impl Supply {
    /// The supply of a run: a seed and its steps.
    pub fn new(seed: u64, steps: u64) -> Supply
        ensures { supply result ≡ record { source = seed; steps = steps } }
    {
        Supply {
            source: seed,
            steps,
        }
    }

    /// A step is taken, where one is left.
    #[tactic(auto, using(crate::proofs::Supplies::no_step, crate::proofs::Supplies::one_step))]
    pub fn step(&mut self) -> Result<(), Whole>
        ensures { stepped result (supply self.new) ≡ going.step (supply self.old) }
    {
        if self.steps == 0 {
            return Err(Whole::Running);
        }
        self.steps -= 1;
        Ok(())
    }

    /// A value of a type is drawn.
    pub fn draw(&mut self, of: ValueType) -> Value
        ensures { going.chosen by_draws of (supply self.old) ≡ Ok (value result, supply self.new) }
    {
        self.source = turned(self.source);
        drawn_value(of, self.source)
    }

    /// A value for each declaration is drawn, in order.
    pub fn draw_all(
        &mut self,
        alloc: Global,
        declarations: &[Declaration],
    ) -> Result<Vec<Value>, AllocError>
        ensures { IfOk result (λ vs. going.chosen_for by_draws (map declaration declarations.now) (supply self.old) ≡ Ok (map value vs.items, supply self.new)) }
    {
        let mut values = Vec::new(alloc);
        for d in declarations {
            values.push(self.draw(d.of))?;
        }
        Ok(values)
    }
}
