//! A program with the numbers of its members.

ghost use Rattle.std.specs.Prelude.{◌<◌, ◌^◌, length};
ghost use Rattle.vx_resolved.specs.Numbers.{AreNumbers};
ghost use Rattle.vx_resolved.specs.Resolved as resolved;

use std::alloc::{AllocError, Global};
use std::rc::Rc;
use vx_ast::MemberId;
use vx_resolved::{Numbers, Program, member_numbers};

/// A program, and the number of the first member of each name. Contracts see it as the list of its members, `listed`.
#[derive(Drop)]
pub(crate) struct Table<'a> {
    pub(crate) program: &'a Program,
    pub(crate) numbers: Numbers,
    ghost few: { length program.now.members.items < 2 ^ 32 },
    ghost are_numbers: { AreNumbers numbers 0 (resolved.program program.now) },
}

impl<'a> Table<'a> {
    ghost use Rattle.std.specs.Prelude.{◌≡◌, IfOk, option_map, string_bytes};
    ghost use Rattle.vx_settling.specs.Tables.{listed};
    ghost use Rattle.vx_resolved.specs.Numbers.{number_named};

    /// With the numbers of its members' names.
    pub(crate) fn new(alloc: Global, program: &'a Program) -> Result<Table<'a>, AllocError>
        requires few { length program.now.members.items < 2 ^ 32 }
        ensures { IfOk result (λ t. listed t ≡ resolved.program program.now) }
    {
        let numbers = member_numbers(alloc, &program.members)?;
        Ok(Table { program, numbers })
    }

    /// The first member of a name, in file order.
    pub(crate) fn number_of(&self, name: &Rc<String>) -> Option<MemberId>
        ensures { option_map (λ m. m.0) result ≡ number_named 0 (listed self.now) (string_bytes name.now.value) }
    {
        match self.numbers.get(name) {
            Some(number) => Some(MemberId(*number as u32)),
            None => None,
        }
    }
}
