//! Steps that are taken where their rules derive a clause.
ghost use Rattle.std.specs.Prelude.{◌≡◌, ◌+◌, ◌<◌, ◌^◌, [], ◌∷◌, ◌++◌, map, nat_abs, length, OnOk, IfOk, IfErr, Some};
ghost use Rattle.cs_certificate.specs.Certificate.{Stack, Input, Define, Pick, Chain, Congruence, Split, Trichotomy, Divide, Propagate};
ghost use Rattle.cs_certificate.specs.Certificate as certificate;
ghost use Rattle.cs_proof.specs.Views as views;
ghost use Rattle.cs_proof.specs.Views.{written, IsFit, IsFitClause};
ghost use Rattle.cs_writable.specs.Writable.{IsSmall};
ghost use Rattle.cs_derivation.specs.Reached.{Stands, Adds};
ghost use Rattle.cs_derivation.specs.Taken.{IsTaken, numbered, shows, with_step, taken, Takes};
ghost use Rattle.cs_derivation.specs.View.{reached};

use crate::Derivation;
use crate::numbers::{all_written, widened};
use cs_certificate::{Clause, Literal, refutes_by};
use cs_proof::{Duty, Step, Want, prepared};
use cs_table::Stop;
use std::alloc::Global;

impl Derivation {
    /// Whether the clauses so far show what a step has to show.
    fn shows(&mut self, duty: &Duty) -> Result<bool, Want>
        requires { IsFit (length self.old.nodes.nodes.items) duty.now }
        ensures value { IfOk result (λ b. b ≡ shows self.old.clauses.items (views.duty duty.now)) }
        ensures same { reached self.new ≡ reached self.old }
        ensures clauses { self.new.clauses ≡ self.old.clauses }
        ensures nodes { self.new.nodes ≡ self.old.nodes }
    {
        match duty {
            Duty::Derived => Ok(true),
            Duty::Hints(assumed, hints) => {
                if self.tries >= u64::MAX - 2 {
                    return Err(Want);
                }
                self.tries += 1;
                Ok(refutes_by(&mut self.marks, &self.clauses, &assumed.literals, hints))
            }
            Duty::Named | Duty::Missed | Duty::Sum(_, _) => Ok(false),
        }
    }

    /// A step with its clause, which comes behind the others.
    fn push(&mut self, step: Step, clause: Clause) -> Result<u32, Stop>
        requires { IsFitClause (length self.old.nodes.nodes.items) clause }
        ensures value { OnOk result (reached self.new ≡ with_step (reached self.old) (written step) clause.literals.items) }
        ensures number { IfOk result (λ n. n ≡ length self.old.clauses.items) }
        ensures want { IfErr result (λ e. reached self.new ≡ reached self.old) }
    {
        let number = self.clauses.len();
        if number >= u32::MAX as usize {
            return Err(Stop::Want);
        }
        self.clauses.push(clause)?;
        match self.steps.push(step) {
            Ok(()) => Ok(number as u32),
            Err(_) => {
                let _again = self.clauses.pop();
                Err(Stop::Want)
            }
        }
    }

    /// A step that meets its rule, with its clause.
    fn advance(&mut self, alloc: Global, step: Step) -> Result<Option<u32>, Want>
        ensures { Takes (taken self.old.clauses.items (reached self.old) (written step)) (reached self.old) (reached self.new) result }
    {
        match prepared(alloc, &self.nodes, &self.roots, &step) {
            Ok((duty, clause)) => {
                if self.shows(&duty)? {
                    let number = self.push(step, clause)?;
                    Ok(Some(number))
                } else {
                    Ok(None)
                }
            }
            Err(Stop::Miss) => Ok(None),
            Err(Stop::Want) => Err(Want),
        }
    }

    /// A step, where its rule derives a clause.
    fn take(&mut self, alloc: Global, step: Step) -> Result<Option<u32>, Want>
        ensures { (stack : Stack) (s : certificate.Step) → written step ≡ Some s → IsTaken s → Stands stack (reached self.old) → Adds stack s (reached self.old) (reached self.new) result }
    {
        self.advance(alloc, step)
    }

    /// `input`: the assertion of this number.
    ///
    /// # Errors
    /// `Want` where memory runs out.
    pub fn input(&mut self, alloc: Global, number: u32) -> Result<Option<u32>, Want>
        ensures { (stack : Stack) → Stands stack (reached self.old) → Adds stack (Input number) (reached self.old) (reached self.new) result }
    {
        self.take(alloc, Step::Input(u128::from(number)))
    }

    /// `def`: a row of the Bool term t.
    ///
    /// # Errors
    /// `Want` where memory runs out.
    pub fn define(&mut self, alloc: Global, t: u32, row: u32) -> Result<Option<u32>, Want>
        ensures { (stack : Stack) → Stands stack (reached self.old) → Adds stack (Define t row) (reached self.old) (reached self.new) result }
    {
        self.take(alloc, Step::Define(u128::from(t), u128::from(row)))
    }

    /// `pick`: a row of the choice t that isn't Bool.
    ///
    /// # Errors
    /// `Want` where memory runs out.
    pub fn pick(&mut self, alloc: Global, t: u32, row: u32) -> Result<Option<u32>, Want>
        ensures { (stack : Stack) → Stands stack (reached self.old) → Adds stack (Pick t row) (reached self.old) (reached self.new) result }
    {
        self.take(alloc, Step::Pick(u128::from(t), u128::from(row)))
    }

    /// `chain`: terms that are equal one after another.
    ///
    /// # Errors
    /// `Want` where memory runs out.
    pub fn chain(&mut self, alloc: Global, terms: &[u32]) -> Result<Option<u32>, Want>
        ensures { (stack : Stack) → Stands stack (reached self.old) → Adds stack (Chain terms.now) (reached self.old) (reached self.new) result }
    {
        let wide = widened(alloc, terms)?;
        self.take(alloc, Step::Chain(wide))
    }

    /// `cong`: terms of one head whose parts are equal.
    ///
    /// # Errors
    /// `Want` where memory runs out.
    pub fn congruence(&mut self, alloc: Global, a: u32, b: u32) -> Result<Option<u32>, Want>
        ensures { (stack : Stack) → Stands stack (reached self.old) → Adds stack (Congruence a b) (reached self.old) (reached self.new) result }
    {
        self.take(alloc, Step::Congruence(u128::from(a), u128::from(b)))
    }

    /// `split`: the Int t is at most a number, or at least the next. The number isn't -2^127.
    ///
    /// # Errors
    /// `Want` where memory runs out.
    pub fn split(&mut self, alloc: Global, t: u32, number: i128) -> Result<Option<u32>, Want>
        ensures { (stack : Stack) → Stands stack (reached self.old) → IsSmall (nat_abs number) → Adds stack (Split t number) (reached self.old) (reached self.new) result }
    {
        self.take(alloc, Step::Split(u128::from(t), number))
    }

    /// `tri`: two numbers are below, equal or above.
    ///
    /// # Errors
    /// `Want` where memory runs out.
    pub fn trichotomy(&mut self, alloc: Global, a: u32, b: u32) -> Result<Option<u32>, Want>
        ensures { (stack : Stack) → Stands stack (reached self.old) → Adds stack (Trichotomy a b) (reached self.old) (reached self.new) result }
    {
        self.take(alloc, Step::Trichotomy(u128::from(a), u128::from(b)))
    }

    /// `div`: a row of the quotient and the remainder of an Int by a literal.
    ///
    /// # Errors
    /// `Want` where memory runs out.
    pub fn divide(&mut self, alloc: Global, a: u32, d: u32, row: u32) -> Result<Option<u32>, Want>
        ensures { (stack : Stack) → Stands stack (reached self.old) → Adds stack (Divide a d row) (reached self.old) (reached self.new) result }
    {
        self.take(
            alloc,
            Step::Divide(u128::from(a), u128::from(d), u128::from(row)),
        )
    }

    /// `rup`: a clause whose denial the clauses of the hints refute, one after another.
    ///
    /// # Errors
    /// `Want` where memory runs out, or after 2^64 - 3 calls.
    pub fn propagate(
        &mut self,
        alloc: Global,
        literals: &[Literal],
        hints: &[u32],
    ) -> Result<Option<u32>, Want>
        ensures { (stack : Stack) → Stands stack (reached self.old) → Adds stack (Propagate (map numbered literals.now) hints.now) (reached self.old) (reached self.new) result }
    {
        let clause = all_written(alloc, literals)?;
        let hints = widened(alloc, hints)?;
        self.take(alloc, Step::Propagate(clause, hints))
    }
}
