//! The variables that a block assigns get new symbols.

ghost use Rattle.std.specs.Prelude.{◌≡◌, ◌++◌, ◌∷◌, [], List, IfOk, string_bytes};
ghost use Rattle.vx_ast.specs.Mentions as mentions;
ghost use Rattle.vx_ast.specs.Syntax.{Name, assigned, assigned_in};
ghost use Rattle.vx_resolved.specs.Resolved.{block as block_view, names_of, stmt as stmt_view};
ghost use Rattle.vx_rules.specs.Members as members;
ghost use Rattle.vx_rules.specs.States as states;
ghost use Rattle.vx_states.specs.SymStates.{renewed, state};

use crate::SymState;
use crate::state::is_same_name;
use std::alloc::{AllocError, Global};
use std::rc::Rc;
use vx_resolved::{Block, Stmt};

/// Whether a name is one of these.
fn is_among(name: &Rc<String>, those: &[Rc<String>]) -> bool
    ensures { result ≡ mentions.is_among (string_bytes name.now.value) (names_of those.now) }
{
    for other in those {
        if is_same_name(name.as_bytes(), other.as_bytes()) {
            return true;
        }
    }
    false
}

impl SymState {
    /// Whether a variable is known.
    fn is_stored(&self, name: &Rc<String>) -> bool
        ensures { result ≡ states.is_stored (string_bytes name.now.value) (state self.now).store }
    {
        for b in &self.store {
            if is_same_name(name.as_bytes(), b.name.as_bytes()) {
                return true;
            }
        }
        false
    }

    /// A variable gets a new symbol of its value's sort.
    fn renew(&mut self, alloc: Global, name: &Rc<String>) -> Result<(), AllocError>
        ensures { IfOk result (λ _. state self.new ≡ renewed (string_bytes name.now.value) (state self.old)) }
    {
        let value = self.value_of(alloc, name)?;
        let symbol = self.new_symbol(alloc, value.sort()?)?;
        self.assign(name, symbol);
        Ok(())
    }

    /// A variable that is known gets a new symbol, unless it has one.
    fn forget_one(
        &mut self,
        alloc: Global,
        name: &Rc<String>,
        done: &mut Vec<Rc<String>>,
    ) -> Result<(), AllocError>
        ensures { IfOk result (λ _. (rest : List Name) → members.forget (names_of done.new.items) rest (state self.new)
            ≡ members.forget (names_of done.old.items) (string_bytes name.now.value ∷ rest) (state self.old)) }
    {
        if !self.is_stored(name) {
            return Ok(());
        }
        if is_among(name, done) {
            return Ok(());
        }
        done.push(name.clone()?)?;
        self.renew(alloc, name)
    }

    /// Variables that are known get new symbols, those that have none.
    fn forget_each(
        &mut self,
        alloc: Global,
        those: &[Rc<String>],
        done: &mut Vec<Rc<String>>,
    ) -> Result<(), AllocError>
        ensures { IfOk result (λ _. (rest : List Name) → members.forget (names_of done.new.items) rest (state self.new)
            ≡ members.forget (names_of done.old.items) (names_of those.now ++ rest) (state self.old)) }
    {
        for name in those {
            self.forget_one(alloc, name, done)?;
        }
        Ok(())
    }

    /// What a statement assigns gets new symbols.
    #[cycle(forgetting)]
    fn forget_stmt(
        &mut self,
        alloc: Global,
        stmt: &Stmt,
        done: &mut Vec<Rc<String>>,
    ) -> Result<(), AllocError>
        ensures { IfOk result (λ _. (rest : List Name) → members.forget (names_of done.new.items) rest (state self.new)
            ≡ members.forget (names_of done.old.items) (assigned (stmt_view stmt.now) ++ rest) (state self.old)) }
    {
        match stmt {
            Stmt::Declare(_, _, _) => Ok(()),
            Stmt::Assign(_, x, _) => self.forget_one(alloc, x, done),
            Stmt::Write(_, _, _, _) => Ok(()),
            Stmt::New(_, x, _) => self.forget_one(alloc, x, done),
            Stmt::Call(_, targets, _, _) => self.forget_each(alloc, targets, done),
            Stmt::Inhale(_, _) => Ok(()),
            Stmt::Exhale(_, _) => Ok(()),
            Stmt::Assert(_, _) => Ok(()),
            Stmt::Assume(_, _) => Ok(()),
            Stmt::Fold(_, _, _, _) => Ok(()),
            Stmt::Unfold(_, _, _, _) => Ok(()),
            Stmt::If(_, _, a, b) => {
                self.forget_block(alloc, a, done)?;
                self.forget_block(alloc, b, done)
            }
            Stmt::While(_, _, _, body) => self.forget_block(alloc, body, done),
        }
    }

    /// What the statements of a block assign gets new symbols.
    #[cycle(forgetting)]
    fn forget_block(
        &mut self,
        alloc: Global,
        block: &Block,
        done: &mut Vec<Rc<String>>,
    ) -> Result<(), AllocError>
        ensures { IfOk result (λ _. (rest : List Name) → members.forget (names_of done.new.items) rest (state self.new)
            ≡ members.forget (names_of done.old.items) (assigned_in (block_view block.now) ++ rest) (state self.old)) }
    {
        let mut left = block;
        loop {
            match left {
                Block::Done => return Ok(()),
                Block::Then(first, others) => {
                    self.forget_stmt(alloc, first, done)?;
                    left = others;
                }
            }
        }
    }

    /// The variables that a block assigns get new symbols, each once.
    pub fn forget_assigned(&mut self, alloc: Global, body: &Block) -> Result<(), AllocError>
        ensures { IfOk result (λ _. state self.new ≡ members.forget [] (assigned_in (block_view body.now)) (state self.old)) }
    {
        let mut done = Vec::new(alloc);
        self.forget_block(alloc, body, &mut done)
    }
}
