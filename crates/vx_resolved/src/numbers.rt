//! The numbers of members, by their names.

ghost use Rattle.std.specs.Prelude.{◌≡◌, ◌∷◌, suc, IfOk, OnOk, map};
ghost use Rattle.vx_ast.specs.Syntax as syntax;
ghost use Rattle.vx_resolved.specs.Resolved.{member};
ghost use Rattle.vx_resolved.specs.Numbers.{AreNumbers};

use crate::Member;
use std::alloc::{AllocError, Global};
use std::collections::HashMap;
use std::rc::Rc;

/// The number of the first member of each name.
pub type Numbers = HashMap<Rc<String>, usize>;

// A member that stands before those that are entered.
fn add_first(m: &Member, number: usize, numbers: &mut Numbers) -> Result<(), AllocError>
    ensures { OnOk result ((ms : syntax.Program) → AreNumbers numbers.old (suc number) ms → AreNumbers numbers.new number (member m.now ∷ ms)) }
{
    let name = Rc::clone(&m.name)?;
    numbers.insert(name, number)?;
    Ok(())
}

/// The numbers of members. They are entered from the last one to the first, which so decides.
pub fn member_numbers(alloc: Global, all: &[Member]) -> Result<Numbers, AllocError>
    ensures { IfOk result (λ numbers. AreNumbers numbers 0 (map member all.now)) }
{
    let mut numbers: Numbers = HashMap::new(alloc);
    let mut left = all.len();
    while left > 0 {
        left -= 1;
        add_first(&all[left], left, &mut numbers)?;
    }
    Ok(numbers)
}
