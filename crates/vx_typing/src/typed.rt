//! Typed programs.

ghost use Rattle.std.specs.Prelude.{◌≡◌, ◌<◌, ◌^◌, length};
ghost use Rattle.vx_ast.specs.Written.{written_program};
ghost use Rattle.vx_typing.specs.Known.{HasNoFault};
ghost use Rattle.vx_typing.specs.Members.{table_of};
ghost use Rattle.vx_expressions.specs.Views.{table};

use crate::groups::number;
use crate::laws::programs_are_told;
use vx_ast::{MemberId, Program};
use vx_expressions::{Members, Signature, member};

/// A typed program, with what its names stand for.
#[derive(Drop)]
pub struct Typed<'a> {
    pub(crate) program: &'a Program,
    pub(crate) members: Members<'a>,
    ghost few: { length members.entries < 2 ^ 32 },
    ghost typed: { HasNoFault (written_program program.now) },
    ghost names: { table members.entries ≡ table_of (written_program program.now) },
}

impl<'a> Typed<'a> {
    ghost use Rattle.std.specs.Prelude.{option_map};
    ghost use Rattle.vx_typing.specs.Groups.{number_of};
    ghost use Rattle.vx_typing.specs.Programs.{IsTyped};
    ghost use Rattle.vx_expressions.specs.Scopes.{named};
    ghost use Rattle.vx_typing.specs.Typed.{written_of};
    ghost use Rattle.vx_expressions.specs.Views.{signature};

    /// The program as it is written.
    pub fn program(&self) -> &'a Program
        ensures { written_program result.now ≡ written_of self.now }
    {
        self.program
    }

    /// It is typed, by its structure.
    pub fn typed(&self)
        ensures { IsTyped (written_of self.now) }
    {
        programs_are_told();
    }

    /// What a member's name stands for.
    pub fn signature(&self, name: &str) -> Option<Signature<'a>>
        ensures { option_map signature result ≡ named (table_of (written_of self.now)) name.now }
    {
        member(&self.members, name)
    }

    /// The number of the member of this name, in file order.
    pub fn number(&self, name: &str) -> Option<MemberId>
        ensures { option_map (λ m. m.0) result ≡ number_of (written_of self.now) name.now }
    {
        number(&self.members, name)
    }
}
