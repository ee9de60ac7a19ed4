//! A session: commands in, replies out.
ghost use Rattle.std.specs.Prelude.{◌≡◌, ◌∷◌, [], true, false, IfOk, OnOk, OnErr};
ghost use Rattle.std.specs.Option.{option_map};
ghost use Rattle.vx_smt_meaning.specs.Commands.{CheckSat, Push, Pop, empty_level};
ghost use Rattle.vx_smt_meaning.specs.Views.{command};
ghost use Rattle.cs_session.specs.declared.session.Last.TheVariants as lasts;
ghost use Rattle.cs_session.specs.Adding.{MayAdd};
ghost use Rattle.cs_session.specs.Replies.{Does, Proves, Replies, Tells};
ghost use Rattle.cs_session.specs.Views.{levels_of, state, is_spent, cause_of};

use crate::levels::Levels;
use crate::proving::shown;
use crate::reading::{answer_to, understand};
use crate::reply::{Complaint, Reply};
use cs_answer::{Answer, Cause};
use cs_decide::decide;
use cs_proof::{Step, Want};
use std::alloc::Global;
use vx_smt_meaning::Command;

/// So many levels may be opened by one command; how many are open in all is bounded by memory alone.
const MOST_AT_ONCE: u32 = 256;

/// What the last check said of the levels as they are.
#[derive(Drop)]
pub enum Last {
    /// There was none, or the levels changed since.
    Nothing,
    /// The assertions are refuted by these steps.
    Refuted(Vec<Step>),
    Satisfied,
    Unknown(Cause),
}

/// What is declared and asserted on open levels, and what the last check said.
#[derive(Drop)]
pub struct Session {
    levels: Levels,
    last: Last,
    // memory ran out
    spent: bool,
}

/// Checks what is asserted on the levels.
fn checked(alloc: Global, levels: &Levels) -> Result<(Reply, Last), Want>
    ensures { IfOk result (λ x. Tells (levels_of levels.now) x.0 x.1) }
{
    match decide(alloc, levels.stack())? {
        Answer::Refuted(steps) => Ok((Reply::Unsat, Last::Refuted(steps))),
        Answer::Satisfied(_) => Ok((Reply::Sat, Last::Satisfied)),
        Answer::Unknown(cause) => Ok((Reply::Undecided, Last::Unknown(cause))),
    }
}

impl Session {
    /// The base level alone, and nothing on it.
    pub fn new(alloc: Global) -> Session
        ensures state { state result ≡ record { levels = empty_level ∷ []; last = lasts.Nothing } }
        ensures unspent { is_spent result ≡ false }
    {
        Session {
            levels: Levels::new(alloc),
            last: Last::Nothing,
            spent: false,
        }
    }

    /// What is declared and asserted, on which levels.
    pub fn levels(&self) -> &Levels
        ensures { levels_of result.now ≡ (state self.now).levels }
    {
        &self.levels
    }

    /// What the last check said of the levels as they are.
    pub fn last(&self) -> &Last
        ensures { result.now ≡ (state self.now).last }
    {
        &self.last
    }

    /// Why the last check is undecided, where it is.
    pub fn cause(&self) -> Option<&Cause>
        ensures { option_map (λ c. c.now) result ≡ cause_of (state self.now).last }
    {
        match &self.last {
            Last::Unknown(cause) => Some(cause),
            Last::Nothing | Last::Refuted(_) | Last::Satisfied => None,
        }
    }

    fn push(&mut self, count: u32) -> Result<Reply, Want>
        ensures { IfOk result (λ r. Does (Push count) (state self.old) r (state self.new)) }
    {
        if count <= MOST_AT_ONCE {
            self.levels.open_all(count)?;
            self.last = Last::Nothing;
            Ok(Reply::Success)
        } else {
            Ok(Reply::Failed(Complaint::Levels))
        }
    }

    fn pop(&mut self, count: u32) -> Reply
        ensures { Does (Pop count) (state self.old) result (state self.new) }
    {
        if count as usize <= self.levels.depth() {
            self.levels.close_all(count);
            self.last = Last::Nothing;
            Reply::Success
        } else {
            Reply::Failed(Complaint::Levels)
        }
    }

    fn check(&mut self, alloc: Global) -> Result<Reply, Want>
        ensures { IfOk result (λ r. Does CheckSat (state self.old) r (state self.new)) }
    {
        let (reply, last) = checked(alloc, &self.levels)?;
        self.last = last;
        Ok(reply)
    }

    // the certificate of the last check, if it has one
    fn prove(&self, alloc: Global) -> Result<Reply, Want>
        ensures { IfOk result (λ r. Proves (state self.now).last r) }
    {
        match &self.last {
            Last::Refuted(steps) => shown(alloc, steps),
            Last::Nothing | Last::Satisfied | Last::Unknown(_) => Ok(Reply::Failed(
                Complaint::NoProof,
            )),
        }
    }

    /// Does what a command says.
    fn obey(&mut self, alloc: Global, given: Command) -> Result<Reply, Want>
        requires { MayAdd (levels_of self.old.levels) (command given) }
        ensures { IfOk result (λ r. Does (command given) (state self.old) r (state self.new)) }
    {
        match given {
            Command::SetOption(_, _) | Command::SetLogic(_) => return Ok(Reply::Success),
            Command::Exit => return Ok(Reply::Closed),
            Command::Push(count) => return self.push(count),
            Command::Pop(count) => return Ok(self.pop(count)),
            Command::CheckSat => return self.check(alloc),
            Command::GetProof => return self.prove(alloc),
            Command::DeclareSort(name) => self.levels.declare_sort(name)?,
            Command::DeclareFun(declared) => self.levels.declare(declared)?,
            Command::Assert(t) => self.levels.assert(t)?,
        }
        self.last = Last::Nothing;
        Ok(Reply::Success)
    }

    fn answer(&mut self, alloc: Global, bytes: &[u8]) -> Result<Reply, Want>
        ensures { IfOk result (λ r. Replies bytes.now (state self.old) r (state self.new)) }
    {
        match understand(alloc, &self.levels, bytes) {
            Ok(command) => self.obey(alloc, command),
            Err(fault) => answer_to(fault),
        }
    }

    /// Answers one command: the first s-expression of some bytes.
    ///
    /// # Errors
    /// Memory runs out; from then on nothing is answered.
    pub fn command(&mut self, alloc: Global, bytes: &[u8]) -> Result<Reply, Want>
        ensures replies { IfOk result (λ r. Replies bytes.now (state self.old) r (state self.new)) }
        ensures spent { OnErr result (is_spent self.new ≡ true) }
        ensures unspent { OnOk result (is_spent self.new ≡ false) }
        ensures over { is_spent self.old ≡ true → OnOk result ⊥ }
    {
        if self.spent {
            return Err(Want);
        }
        let said = self.answer(alloc, bytes);
        self.spent = said.is_err();
        said
    }
}
