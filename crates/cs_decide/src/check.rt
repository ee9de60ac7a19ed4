//! A check under way: the numbers of its clauses, its certificate and its models.
ghost use Rattle.std.specs.Prelude.{◌≤◌, IfOk};
ghost use Rattle.cs_proof.specs.Fits.{seen};
ghost use Rattle.cs_answer.specs.Answers.{IsRight};
ghost use Rattle.cs_decide.specs.Spent.{SpendsOnCases};

use crate::beginning::{CASES, put_cases};
use crate::elements::Sources;
use crate::figures::{Cases, Figures, Found};
use crate::misread::misread;
use crate::model::model_of;
use cs_answer::{Answer, certified, evaluated};
use cs_claims::claims::{Claim, Claims};
use cs_claims::shortcuts::Shortcuts;
use cs_meter::Meter;
use cs_proof::{Stack, Step};
use cs_record::assembly::assembled;
use cs_record::atoms::Atoms;
use cs_record::clauses::Clauses;
use cs_record::draft::Lemma;
use cs_record::numbered::Record;
use cs_record::orders::put_orders;
use cs_search::assignment::Assignment;
use cs_search::search::{Hints, Search};
use cs_search::{Clause, Literal, Value};
use cs_sums::Stop;
use std::alloc::Global;
use std::rc::Rc;
use vx_terms::Term;

/// How an attempt begins: with other signs of the atoms, but for the first one; or with cases of the numbers.
#[derive(Clone, Copy)]
pub(crate) enum Attempt {
    Signs(u32),
    Cases,
}

/// An attempt stopped after these steps.
#[derive(Drop)]
pub(crate) struct Stopped {
    pub(crate) stop: Stop,
    pub(crate) steps: Vec<Step>,
}

/// A check under way, but for its search.
#[derive(Drop)]
pub(crate) struct Check {
    pub(crate) record: Record,
    pub(crate) atoms: Atoms,
    // the numbers of the search's clauses in the certificate
    pub(crate) numbers: Vec<u32>,
    // how many of the clauses that the search derived have their steps
    told: usize,
    pub(crate) claims: Claims,
    shortcuts: Shortcuts,
    figures: Figures,
    // how many terms are those of the assertions
    pub(crate) live: u32,
    // of so many steps that may be deeds it is looked at whether they are
    shown: u32,
}

/// The clauses of the assertions, and of the first terms.
fn put_all(
    alloc: Global,
    clauses: &mut Clauses,
    record: &mut Record,
    assertions: &[Rc<Term>],
    live: u32,
    attempt: Attempt,
) -> Result<(), Stop> {
    if let Attempt::Cases = attempt {
        put_cases(alloc, clauses, record, live)?;
    }
    clauses.put_inputs(alloc, record, assertions)?;
    clauses.put_definitions(alloc, record, live)?;
    clauses.put_choices(alloc, record, live)?;
    clauses.put_divisions(alloc, record, live)?;
    Ok(put_orders(alloc, clauses, record, live)?)
}

/// Of so many steps that may be deeds it is looked at whether they are: of those with which the attempt begins, or of four times as many as are
/// wanted.
fn shown_of(attempt: Attempt) -> u32 {
    match attempt {
        Attempt::Signs(_) => 4 * CASES,
        Attempt::Cases => CASES,
    }
}

/// Whether a step derives a clause by a sum or by hints, or tells cases of numbers.
fn is_work(step: &Step) -> bool {
    match step {
        Step::Farkas(_, _) | Step::Propagate(_, _) => true,
        Step::Split(_, _) | Step::Trichotomy(_, _) => true,
        _ => false,
    }
}

/// Leaves out what is behind so many steps that may be deeds.
fn cut(steps: &mut Vec<Step>, shown: u32) {
    let mut left = shown;
    let mut count: usize = 0;
    for step in steps.iter() {
        if left == 0 {
            break;
        }
        if is_work(step) {
            left -= 1;
        }
        count = count.saturating_add(1);
    }
    steps.truncate(count);
}

impl Check {
    /// A check over these clauses, and what the search is given of them.
    fn over(
        alloc: Global,
        mut record: Record,
        clauses: Clauses,
        live: u32,
        shown: u32,
    ) -> Result<(Check, Vec<Clause>), Stop> {
        let claims = Claims::new(alloc, &mut record, &clauses.atoms)?;
        let figures = Figures::new(alloc, &record, &clauses.atoms)?;
        let Clauses {
            atoms,
            clauses,
            numbers,
            ..
        } = clauses;
        let check = Check {
            record,
            atoms,
            numbers,
            told: 0,
            claims,
            shortcuts: Shortcuts::new(alloc),
            figures,
            live,
            shown,
        };
        Ok((check, clauses))
    }

    /// The clauses of a stack, and a check that has them.
    pub(crate) fn new(
        alloc: Global,
        stack: &Stack,
        attempt: Attempt,
    ) -> Result<(Check, Vec<Clause>), Stop> {
        let mut record = Record::new(alloc, &stack.assertions)?;
        let live = record.count()?;
        let mut clauses = Clauses::new(alloc, &record)?;
        put_all(
            alloc,
            &mut clauses,
            &mut record,
            &stack.assertions,
            live,
            attempt,
        )?;
        Check::over(alloc, record, clauses, live, shown_of(attempt))
    }

    /// The check stops. Where something wasn't claimed, this may be why.
    pub(crate) fn stopped(self, stop: Stop) -> Stopped {
        let Check {
            record,
            figures,
            shown,
            ..
        } = self;
        let mut steps = record.into_steps();
        cut(&mut steps, shown);
        Stopped {
            stop: figures.excused(stop),
            steps,
        }
    }

    /// The numbers of clauses in the certificate, from the last one to the first.
    pub(crate) fn mapped(&self, alloc: Global, hints: &Hints) -> Result<Vec<u128>, Stop> {
        let mut all = Vec::new(alloc);
        for hint in hints.numbers.iter().rev() {
            let Some(number) = self.numbers.get(*hint) else {
                return Err(Stop::Miss);
            };
            all.push(u128::from(*number))?;
        }
        Ok(all)
    }

    /// The step of the next clause that the search derived.
    fn tell_next(&mut self, alloc: Global, clause: &Clause, hints: &Hints) -> Result<(), Stop> {
        let hints = self.mapped(alloc, hints)?;
        let literals = self.atoms.terms(alloc, &clause.literals)?;
        let number = self.record.propagate(alloc, &literals, hints)?;
        self.numbers.push(number)?;
        Ok(())
    }

    /// The steps of the clauses that the search has derived since.
    pub(crate) fn tell(&mut self, alloc: Global, search: &Search) -> Result<(), Stop> {
        let clauses = search.clauses.get(self.numbers.len()..).unwrap_or(&[]);
        let steps = search.steps.get(self.told..).unwrap_or(&[]);
        for (clause, hints) in clauses.iter().zip(steps) {
            self.tell_next(alloc, clause, hints)?;
        }
        self.told = search.steps.len();
        Ok(())
    }

    /// Hints derive the empty clause: the checker decides.
    pub(crate) fn refuted(
        &mut self,
        alloc: Global,
        stack: &Stack,
        hints: Vec<u128>,
    ) -> Result<Answer, Stop>
        ensures { IfOk result (IsRight (seen stack.now)) }
    {
        self.record.propagate(alloc, &[], hints)?;
        let steps = assembled(alloc, &stack.assertions, &self.record)?;
        certified(alloc, stack, steps)
    }

    /// A lemma refutes the clauses behind the reasons that make it false.
    pub(crate) fn refuted_by(
        &mut self,
        alloc: Global,
        stack: &Stack,
        reasons: &Hints,
        lemma: u32,
    ) -> Result<Answer, Stop>
        ensures { IfOk result (IsRight (seen stack.now)) }
    {
        let mut hints = self.mapped(alloc, reasons)?;
        hints.push(u128::from(lemma))?;
        self.refuted(alloc, stack, hints)
    }

    /// What elements are told by.
    fn sources<'s>(&'s self, values: &'s [Value]) -> Sources<'s> {
        Sources {
            record: &self.record,
            atoms: &self.atoms,
            values,
            claims: &self.claims,
            figures: &self.figures,
        }
    }

    /// No claim is broken: the model decides. Where it is none, a term whose meaning was needed may be the cause.
    pub(crate) fn modelled(
        &self,
        alloc: Global,
        stack: &Stack,
        values: &[Value],
    ) -> Result<Answer, Stop>
        ensures { IfOk result (IsRight (seen stack.now)) }
    {
        let sources = self.sources(values);
        let model = model_of(alloc, &sources, self.live)?;
        let misread = misread(alloc, &sources, &model, self.live)?;
        match evaluated(alloc, stack, model, misread) {
            Err(stop) => Err(self.figures.excused(stop)),
            answer => answer,
        }
    }

    /// What the numbers lead to.
    pub(crate) fn examine(
        &mut self,
        alloc: Global,
        made: &Assignment,
        meter: &mut Meter,
    ) -> Result<Found, Stop>
        ensures spent { meter.old.spent ≤ meter.new.spent }
        ensures cases { IfOk result (SpendsOnCases meter.old.spent meter.new.spent) }
    {
        self.figures.examine(
            alloc,
            &mut self.record,
            &self.atoms,
            made,
            &self.claims,
            meter,
        )
    }

    /// The next shortcut along the path that breaks a claim.
    pub(crate) fn shortcut(
        &mut self,
        alloc: Global,
        values: &[Value],
        broken: Claim,
    ) -> Result<Option<Lemma>, Stop> {
        Ok(
            self.shortcuts.next(
                alloc,
                &mut self.record,
                &self.claims,
                &self.atoms,
                values,
                broken,
            )?,
        )
    }

    /// The equalities of a shortcut are claimed from now on.
    pub(crate) fn meet_shortcut(
        &mut self,
        alloc: Global,
        shortcut: &Lemma,
    ) -> Result<Vec<Literal>, Stop> {
        for literal in &shortcut.literals {
            self.claims.add(&self.record, &self.atoms, literal.number)?;
        }
        Ok(self.atoms.literals(alloc, &shortcut.literals)?)
    }

    /// Whether the atom is an equality whose terms the classes have joined.
    pub(crate) fn is_joined(&self, alloc: Global, atom: u32) -> Result<bool, Stop> {
        let literal = Literal {
            positive: true,
            number: atom,
        };
        for term in self.atoms.terms(alloc, &[literal])? {
            if self.claims.is_joined(&self.record, term.number)? {
                return Ok(true);
            }
        }
        Ok(false)
    }

    /// The claim that is broken by what the assignment has so far, if one is. It has only grown since the last look.
    pub(crate) fn broken(
        &mut self,
        alloc: Global,
        made: &Assignment,
    ) -> Result<Option<Claim>, Stop> {
        self.claims
            .follow(alloc, &self.record, &self.atoms, &made.trail)?;
        Ok(self.claims.broken()?)
    }

    /// The atoms of a clause of cases are compared and claimed from now on.
    pub(crate) fn meet(&mut self, alloc: Global, cases: &Cases) -> Result<Vec<Literal>, Stop> {
        let literals = self.atoms.literals(alloc, &cases.lemma.literals)?;
        for literal in &cases.lemma.literals {
            self.figures
                .add(alloc, &self.record, literal.number, cases.of_split)?;
            self.claims.add(&self.record, &self.atoms, literal.number)?;
        }
        Ok(literals)
    }
}
