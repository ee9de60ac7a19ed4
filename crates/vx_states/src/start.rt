//! The state in which a function's parts are evaluated quietly.

ghost use Rattle.std.specs.Prelude.{◌≡◌, ◌<◌, IfOk, map};
ghost use Rattle.vx_ast.specs.Syntax.{Program, result_name};
ghost use Rattle.vx_heap.specs.Views.{held_term, terms_of};
ghost use Rattle.vx_resolved.specs.Resolved.{declaration};
ghost use Rattle.vx_rules.specs.Rules as rules;
ghost use Rattle.vx_rules.specs.States as states;
ghost use Rattle.vx_states.specs.SymStates.{state as state_of};

use crate::{Binding, SymState};
use std::alloc::{AllocError, Global};
use std::rc::Rc;
use vx_ast::Place;
use vx_resolved::Declaration;
use vx_terms::Term;

/// A state one level up, over parameters alone, in which nothing is held.
pub fn quiet(
    alloc: Global,
    from: &SymState,
    parameters: &[Declaration],
    arguments: &[Rc<Term>],
) -> Result<SymState, AllocError>
    requires { (state_of from.now).level < 255 }
    ensures { IfOk result (λ s. (p : Program) (o : rules.Outer)
        → state_of s ≡ rules.quietly p o (states.bind (map declaration parameters.now) (terms_of arguments.now)) (state_of from.now)) }
{
    let mut start = from.copy(alloc)?;
    let nowhere = Place { line: 0, column: 0 };
    start.enter(alloc, parameters, arguments, nowhere)?;
    start.clear_heap(alloc)?;
    start.keep_old()?;
    start.at = from.at;
    start.level = from.level + 1;
    Ok(start)
}

/// The variable `result` gets a function's value.
pub fn bind_outcome(alloc: Global, state: &mut SymState, value: Rc<Term>) -> Result<(), AllocError>
    ensures { IfOk result (λ _. state_of state.new ≡ states.declare result_name (held_term value) (state_of state.old)) }
{
    let name = Rc::new(alloc, String::from_str(alloc, "result")?)?;
    state.store.push(Binding { name, value })?;
    Ok(())
}
