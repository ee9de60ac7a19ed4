//! The numbers of functions, in file order, and which of them are of one group.

ghost use Rattle.std.specs.Prelude.{◌≡◌, ◌<◌, ◌^◌, IfOk, if◌then◌else◌, length, map, string_bytes};
ghost use Rattle.vx_resolved.specs.Numbers.{AreRanks};
ghost use Rattle.vx_resolved.specs.Resolved.{kind, member};
ghost use Rattle.vx_resolved.specs.Settled.{settled};
ghost use Rattle.vx_rules.specs.Groups.{function_number, is_function, is_in_group};

use crate::{Kind, Member, Settled};
use std::alloc::{AllocError, Global};
use std::rc::Rc;
use vx_ast::MemberId;

/// How many functions a member is: one or none.
fn functions_in(k: &Kind) -> u32
    ensures { result ≡ (if is_function (kind k.now) then 1 else 0) }
{
    match k {
        Kind::Field(_) => 0,
        Kind::Predicate(_) => 0,
        Kind::Function(_) => 1,
        Kind::Method(_) => 0,
    }
}

/// For each member, and behind them all, how many functions stand before it.
pub fn function_ranks(alloc: Global, all: &[Member]) -> Result<Vec<u32>, AllocError>
    requires { length all.now < 2 ^ 32 }
    ensures { IfOk result (λ ranks. AreRanks ranks.items (map member all.now)) }
{
    let mut ranks = Vec::new(alloc);
    let mut before: u32 = 0;
    for m in all {
        ranks.push(before)?;
        before += functions_in(&m.kind);
    }
    ranks.push(before)?;
    Ok(ranks)
}

impl Settled {
    /// The number of a function among the functions, in file order.
    pub fn function_number(&self, name: &Rc<String>) -> u32
        ensures { result ≡ function_number (settled self.now) (string_bytes name.now.value) }
    {
        match self.number_of(name) {
            Some(number) => self.ranks[number],
            None => self.ranks[self.len()],
        }
    }

    /// Whether two functions are of one group: each leads to the other by what functions mention.
    pub fn is_in_group(&self, f: &Rc<String>, g: &Rc<String>) -> bool
        ensures { result ≡ is_in_group (settled self.now) (string_bytes f.now.value) (string_bytes g.now.value) }
    {
        let Some(a) = self.number_of(f) else {
            return false;
        };
        let Some(b) = self.number_of(g) else {
            return false;
        };
        self.groups
            .are_together(MemberId(a as u32), MemberId(b as u32))
    }
}
