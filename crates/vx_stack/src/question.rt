//! Questions.

ghost use Rattle.std.specs.Prelude.{◌≡◌, length};
ghost use Rattle.vx_states.specs.Paths.{entries};

use std::rc::Rc;
use vx_ast::Place;
use vx_rules::Code;
use vx_states::Path;
use vx_terms::Term;

/// A question: whether its path and its negated condition can be true together. A probe only chooses what follows.
#[derive(Drop)]
pub struct Query {
    pub place: Place,
    pub code: Code,
    pub path: Path,
    /// How many entries the path has.
    pub count: usize,
    pub condition: Rc<Term>,
    pub probe: bool,
    ghost counted: { count ≡ length (entries path) },
}
