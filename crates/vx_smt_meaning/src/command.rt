// Commands.
ghost use Rattle.std.specs.Prelude.{◌≡◌, IfOk, map};
ghost use Rattle.vx_terms.specs.Views.{sort, symbol};

use std::alloc::{AllocError, Global};
use std::rc::Rc;
use vx_terms::{Sort, Symbol, Term};

/// A symbol with the sorts that it takes and gives.
pub struct Declared {
    pub symbol: Symbol,
    pub takes: Vec<Sort>,
    pub gives: Sort,
}

impl Drop for Declared {
    fn drop(self) {
        let Self {
            symbol,
            takes,
            gives,
        } = self;
    }
}

fn copy_sorts(alloc: Global, sorts: &[Sort]) -> Result<Vec<Sort>, AllocError>
    ensures { IfOk result (λ copy. map sort copy.items ≡ map sort sorts.now) }
{
    let mut copy = Vec::new(alloc);
    for a in sorts {
        copy.push(a.copy()?)?;
    }
    Ok(copy)
}

impl Declared {
    ghost use Rattle.vx_smt_meaning.specs.Views.{declared_symbol};

    /// The same once more.
    pub fn copy(&self, alloc: Global) -> Result<Declared, AllocError>
        ensures { IfOk result (λ copy. declared_symbol copy ≡ declared_symbol self.now) }
    {
        let takes = copy_sorts(alloc, &self.takes)?;
        let symbol = self.symbol.copy()?;
        let gives = self.gives.copy()?;
        Ok(Declared {
            symbol,
            takes,
            gives,
        })
    }
}

/// A command of SMT-LIB 2.6, section 3.9.
#[derive(Drop)]
pub enum Command {
    /// The keyword, with its colon.
    SetOption(String, bool),
    SetLogic(String),
    /// A sort without parameters.
    DeclareSort(String),
    DeclareFun(Declared),
    Assert(Rc<Term>),
    Push(u32),
    Pop(u32),
    CheckSat,
    GetProof,
    Exit,
}
