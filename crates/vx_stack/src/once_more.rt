//! Questions once more.

ghost use Rattle.std.specs.Prelude.{◌≡◌, IfOk};
ghost use Rattle.vx_stack.specs.Stack.{query};

use crate::question::Query;
use std::alloc::AllocError;

impl Query {
    /// The same question once more.
    pub fn copy(&self) -> Result<Query, AllocError>
        ensures { IfOk result (λ copy. query copy ≡ query self.now) }
    {
        Ok(Query {
            place: self.place,
            code: self.code,
            path: self.path.copy()?,
            count: self.count,
            condition: self.condition.clone()?,
            probe: self.probe,
        })
    }
}
