//! The checker of a certificate.
ghost use Rattle.std.specs.Prelude.{◌≡◌, ◌↔◌, ◌+◌, ◌<◌, ◌≤◌, ◌^◌, length, slice_get, take, map, IfOk, OnOk, All, None, Some};
ghost use Rattle.std.specs.List.{list_any};
ghost use Rattle.vx_terms.specs.Interpretations.{Each};
ghost use Rattle.cs_numbers.specs.Laws.{IsSorted};
ghost use Rattle.cs_proof.specs.Answers.{Answers};
ghost use Rattle.cs_table.specs.Views.{nodes};
ghost use Rattle.cs_farkas.specs.Views.{Ends, width, IsClear, sums as seen_sums, combination as seen_combination};
ghost use Rattle.cs_farkas.specs.Rows as rows;
ghost use Rattle.cs_certificate.specs.Marks.{terms_in, rounds_in};
ghost use Rattle.cs_proof.specs.Checking as clean;
ghost use Rattle.cs_proof.specs.Plans as plans;
ghost use Rattle.cs_proof.specs.Fits.{stand, seen, Fits};
ghost use Rattle.cs_proof.specs.Meant.{all_meant};
ghost use Rattle.cs_proof.specs.Views.{written, duty, IsFit, IsFitClause};

use crate::plans::{Plans, plan_all, roots_of};
use crate::prepare::Duty;
use crate::stack::Stack;
use crate::step::{Step, steps_of};
use cs_certificate::{Clause, Marks, refutes_by};
use cs_farkas::{Break, Combination, Sums, refutes};
use cs_numbers::{extend, number};
use cs_reader::{Certificate, Refusal, SymbolIndex, Symbols};
use cs_table::{Node, Stop, Table};
use std::alloc::{AllocError, Global};
use vx_smt_meaning::Declared;

/// The first items, so many where there are as many.
fn first<T>(items: &[T], count: usize) -> &[T]
    ensures { result.now ≡ take count items.now }
{
    match items.get(..count) {
        Some(first) => first,
        None => items,
    }
}

/// Adds up constraints over the first terms. No memory.
#[tactic(auto, using(crate::proofs::Walks::nodes_take))]
fn add_up(all: &[Node], terms: u32, combination: &Combination, sums: &mut Sums) -> Result<(), Break>
    requires small { length all.now < 2 ^ 32 }
    requires width { length all.now ≤ width sums.old }
    requires sums { IsClear sums.old }
    ensures value { Ends (λ u. seen_sums sums.new) result (rows.refutes (take terms (nodes all.now)) (width sums.old) (seen_combination combination.now)) }
    ensures width { width sums.new ≡ width sums.old }
    ensures sums { OnOk result (IsClear sums.new) }
{
    refutes(first(all, terms as usize), combination, sums)
}

/// Does a step's duty: the number of clauses that are derived behind it. No memory.
fn meet(
    all: &[Node],
    clauses: &[Clause],
    derived: usize,
    duty: &Duty,
    sums: &mut Sums,
    marks: &mut Marks,
) -> Result<usize, Break>
    requires small { length all.now < 2 ^ 32 }
    requires derived { derived < 2 ^ 32 }
    requires width { width sums.old ≡ length all.now }
    requires sums { IsClear sums.old }
    requires marks { terms_in marks.old ≡ length all.now }
    requires rounds { rounds_in marks.old + 1 < 2 ^ 64 }
    requires duty { IsFit (length all.now) duty.now }
    requires clauses { All (IsFitClause (length all.now)) clauses.now }
    ensures value { Ends (λ n. n) result (clean.met (nodes all.now) clauses.now derived (Rattle.cs_proof.specs.Views.duty duty.now)) }
    ensures derived { IfOk result (λ n. n ≤ derived + 1) }
    ensures width { width sums.new ≡ width sums.old }
    ensures sums { OnOk result (IsClear sums.new) }
    ensures marks { terms_in marks.new ≡ terms_in marks.old }
    ensures rounds { rounds_in marks.new ≤ rounds_in marks.old + 1 }
{
    match duty {
        Duty::Named => Ok(derived),
        Duty::Derived => Ok(derived + 1),
        Duty::Missed => Err(Break::Miss),
        Duty::Sum(terms, combination) => {
            add_up(all, *terms, combination, sums)?;
            Ok(derived + 1)
        }
        Duty::Hints(assumed, hints) => {
            if refutes_by(marks, first(clauses, derived), &assumed.literals, hints) {
                Ok(derived + 1)
            } else {
                Err(Break::Miss)
            }
        }
    }
}

/// Why a step is refused.
fn refusal_at(step: u32, stop: Break) -> Refusal
    ensures { clean.refusal result ≡ clean.refused step stop }
{
    match stop {
        Break::Miss => Refusal::BadStep(step),
        Break::Over(over) => Refusal::Over(step, over.op, over.a, over.b),
    }
}

/// A checker of a certificate over a stack. It has taken all memory that the check needs.
#[derive(Drop)]
pub struct Checker {
    nodes: Vec<Node>,
    clauses: Vec<Clause>,
    duties: Vec<Duty>,
    sums: Sums,
    marks: Marks,
    done: usize,
    derived: usize,
    refusal: Option<Refusal>,
    ghost small: { length nodes.items < 2 ^ 32 },
    ghost few: { length duties.items < 2 ^ 32 },
    ghost within: { done ≤ length duties.items },
    ghost fewer: { derived ≤ done },
    ghost same_width: { width sums ≡ length nodes.items },
    ghost clear: { refusal ≡ None → IsClear sums },
    ghost same_terms: { terms_in marks ≡ length nodes.items },
    ghost rounds: { refusal ≡ None → rounds_in marks ≤ done + 2 },
    ghost fit_clauses: { All (IsFitClause (length nodes.items)) clauses.items },
    ghost fit_duties: { All (IsFit (length nodes.items)) duties.items },
}

/// Memory runs out.
#[derive(Clone, Copy)]
pub struct Want;

impl From<AllocError> for Want {
    ghost from_gives = { λ _ e. Unit {0} };

    fn from(_: AllocError) -> Self {
        Want
    }
}

impl From<Stop> for Want {
    ghost from_gives = { λ _ e. Unit {0} };

    fn from(_: Stop) -> Self {
        Want
    }
}

/// The plans of all steps over a stack.
fn plans_of(
    alloc: Global,
    stack: &Stack,
    symbols: &Symbols<'_>,
    steps: &[Step],
) -> Result<Plans, Stop>
    requires { symbols.now.declared.now ≡ stack.now.symbols.items }
    ensures value { IfOk result (λ p. plans.plans_of (seen stack.now) (map written steps.now) ≡ Some (stand p)) }
    ensures fits { IfOk result Fits }
    ensures few { IfOk result (λ p. length stack.now.assertions.items < 2 ^ 32) }
{
    if stack.assertions.len() >= 1 << 32 {
        return Err(Stop::Want);
    }
    let terms = number(alloc, &stack.assertions)?;
    let roots = roots_of(alloc, &terms, &stack.assertions)?;
    let mut nodes = Table::new(alloc)?;
    extend(alloc, &mut nodes, &terms)?;
    let mut plans = Plans {
        terms,
        nodes,
        duties: Vec::new(alloc),
        clauses: Vec::new(alloc),
    };
    plan_all(alloc, symbols, &roots, steps, &mut plans)?;
    Ok(plans)
}

impl Checker {
    ghost use Rattle.cs_reader.specs.Steps.{certificate as seen_certificate};
    ghost use Rattle.cs_proof.specs.CheckerView.{checker, Tells, Closes, Begins};

    /// A checker that has done no step. It reads the terms of `term` steps over the live symbols,
    /// numbers all terms and prepares each step's clause.
    ///
    /// # Errors
    /// `Want` where memory runs out.
    pub fn new(alloc: Global, stack: &Stack, certificate: Certificate) -> Result<Checker, Want>
        ensures value { IfOk result (λ c. Begins (plans.plans_of (seen stack.now) (all_meant (seen stack.now) (seen_certificate certificate))) (checker c)) }
        ensures answers { Each IsSorted (seen stack.now).assertions → (v : clean.Verdict)
            → IfOk result (λ c. Answers (seen stack.now) (all_meant (seen stack.now) (seen_certificate certificate)) v ↔ (v ≡ clean.verdict (checker c))) }
    {
        let declared: &[Declared] = &stack.symbols;
        let index = SymbolIndex::of(alloc, declared)?;
        let symbols = Symbols::new(declared, &index);
        let steps = steps_of(alloc, &symbols, certificate)?;
        Checker::of(alloc, stack, &symbols, &steps)
    }

    /// A checker of these steps.
    ///
    /// # Errors
    /// `Want` where memory runs out.
    pub fn of(
        alloc: Global,
        stack: &Stack,
        symbols: &Symbols<'_>,
        steps: &[Step],
    ) -> Result<Checker, Want>
        requires { symbols.now.declared.now ≡ stack.now.symbols.items }
        ensures value { IfOk result (λ c. Begins (plans.plans_of (seen stack.now) (map written steps.now)) (checker c)) }
        ensures answers { Each IsSorted (seen stack.now).assertions → (v : clean.Verdict)
            → IfOk result (λ c. Answers (seen stack.now) (map written steps.now) v ↔ (v ≡ clean.verdict (checker c))) }
    {
        let plans = plans_of(alloc, stack, symbols, steps)?;
        if plans.duties.len() >= 1 << 32 {
            return Err(Want);
        }
        if plans.clauses.len() >= 1 << 32 {
            return Err(Want);
        }
        let Plans {
            terms: _,
            nodes,
            duties,
            clauses,
        } = plans;
        let nodes = nodes.into_nodes();
        let sums = Sums::new(alloc, nodes.len())?;
        let marks = Marks::new(alloc, nodes.len())?;
        Ok(Checker {
            nodes,
            clauses,
            duties,
            sums,
            marks,
            done: 0,
            derived: 0,
            refusal: None,
        })
    }

    /// Does the next step, where none was refused.
    fn advance(&mut self) -> Result<(), Refusal>
        requires { self.old.refusal ≡ None }
        ensures value { checker self.new ≡ clean.next (checker self.old) (slice_get (checker self.old).duties self.old.done) }
        ensures refusal { Tells result (checker self.new).refusal }
    {
        let Some(duty) = self.duties.get(self.done) else {
            return Ok(());
        };
        match meet(
            &self.nodes,
            &self.clauses,
            self.derived,
            duty,
            &mut self.sums,
            &mut self.marks,
        ) {
            Ok(derived) => {
                self.done += 1;
                self.derived = derived;
                Ok(())
            }
            Err(stop) => {
                let refusal = refusal_at(self.done as u32, stop);
                self.refusal = Some(refusal);
                Err(refusal)
            }
        }
    }

    /// Does the next step. No memory. After a refusal it is given again, and after the last step
    /// nothing changes.
    ///
    /// # Errors
    /// `BadStep`, C1, with the number of a step that misses its rule; `Over`, C2, with that of a step
    /// of which a fraction leaves 128 bits, and the call.
    pub fn step(&mut self) -> Result<(), Refusal>
        ensures value { checker self.new ≡ clean.stepped (checker self.old) }
        ensures refusal { Tells result (checker self.new).refusal }
    {
        match self.refusal {
            Some(refusal) => Err(refusal),
            None => self.advance(),
        }
    }

    /// Does the steps that are left, and tells whether the certificate is finished. No memory.
    ///
    /// # Errors
    /// Those of `step`; `NotEmpty`, C3, where all steps hold and no clause is empty.
    #[tactic(auto, using(crate::proofs::Verdicts::verdict_stepped, crate::proofs::Verdicts::at_end, crate::proofs::Verdicts::refused_is))]
    pub fn finish(mut self) -> Result<(), Refusal>
        ensures { Closes result (clean.verdict (checker self)) }
    {
        for _at in self.done..self.duties.len() {
            if let Err(refusal) = self.step() {
                return Err(refusal);
            }
        }
        if let Some(refusal) = self.refusal {
            return Err(refusal);
        }
        if has_empty(&self.clauses) {
            Ok(())
        } else {
            Err(Refusal::NotEmpty)
        }
    }
}

fn has_empty(clauses: &[Clause]) -> bool
    ensures { result ≡ list_any clean.is_empty clauses.now }
{
    for clause in clauses {
        if clause.literals.is_empty() {
            return true;
        }
    }
    false
}
