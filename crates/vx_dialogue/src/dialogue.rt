// The dialogue that drives one link.
ghost use Rattle.std.specs.Prelude.{◌≡◌, Bool, ◌+◌, length, ◌++◌, ◌∷◌, ◌<◌, ◌≤◌, [], OnOk, IfOk, IfErr, None, Some, true, false, map, List, ◌↔◌, Err, ◌⊎◌, MatchResult, IsErr, is_err, IsSome};
ghost use Rattle.vx_ends.specs.Dialogue.{sent, got, Grows};
ghost use Rattle.vx_ends.specs.Causes.{HasCause};
ghost use Rattle.vx_terms.specs.Terms as Written;
ghost use Rattle.vx_smt_meaning.specs.Commands.{stack_of};
ghost use Rattle.vx_smt_meaning.specs.Commands as Spec;
ghost use Rattle.vx_smt_meaning.specs.Dialogues.{Check, is_plain, ArePlain};
ghost use Rattle.vx_smt_meaning.specs.Views.{command, declared_symbol};
ghost use Rattle.vx_smt_meaning.specs.Names.{AreCommands};
ghost use Rattle.vx_dialogue.specs.History.{Breaks};
ghost use Rattle.vx_dialogue.specs.Steady.{IsSteady};
ghost use Rattle.vx_segments.specs.Segments as segments;
ghost use Rattle.vx_segments.specs.Views.{entry};
ghost use Rattle.vx_dialogue.specs.Preamble.{preamble};
ghost use Rattle.vx_dialogue.specs.Scripts as Said;
ghost use Rattle.vx_dialogue.specs.Scripts.{ScopedTurn, question, script};
ghost use Rattle.vx_dialogue.specs.Bases.{standing, path_behind};
ghost use Rattle.vx_dialogue.specs.Places.{IsReady};
ghost use Rattle.vx_dialogue.specs.Dialogue.{shared, link_of, scope_of, has_failed, IsFree, IsAsked, Gathers, Waits, Stands, Awaits, base_of, check_of, told_check, gives};

use crate::Talk;
use crate::base::Base;
use crate::batch::expect_successes;
use crate::item::{Wanted, answer, expect};
use crate::preamble::front_commands;
use crate::question::put_declarations;
use crate::scope::Levels;
use std::alloc::Global;
use std::rc::Rc;
use vx_ends::{Link, send_all};
use vx_segments::Entry;
use vx_smt_meaning::{Command, Declared, Reply};
use vx_smt_text::write;
use vx_terms::Term;

/// The dialogue with one child.
#[derive(Drop)]
pub struct Dialogue<L> {
    link: L,
    // the text of the commands that are gathered, and their number
    batch: Vec<u8>,
    count: usize,
    // what is got and not read yet
    unread: Vec<u8>,
    // where it stands: the levels that are open, and what stands on them
    levels: Levels,
    // a question is open: so many successes are owed before its answer
    owed: Option<usize>,
    // an earlier call failed
    failed: bool,
}

/// The most commands that are sent before their replies are read.
const MOST: usize = 256;

/// The most bytes that are sent before their replies are read, unless one command alone is longer. A pipe holds as much, so a
/// child that waits until its replies are read has room for all of a batch, and the two don't wait for one another.
const ROOM: usize = 16_384;

/// The length of a check-sat's line.
const CHECK: usize = 12;

impl<L: Link> Dialogue<L> {
    /// Sends what is gathered, and reads the replies.
    fn flush(&mut self, alloc: Global) -> Result<(), Talk>
        ensures told { OnOk result ((commands : List Spec.Command) (checks : List Check) → Gathers L.dialogue self.old commands checks → Gathers L.dialogue self.new commands checks) }
        ensures count { OnOk result (self.new.count ≡ 0) }
        ensures same { (self.new.levels ≡ self.old.levels) × (self.new.owed ≡ self.old.owed) × (self.new.failed ≡ self.old.failed) }
        ensures fault { IfErr result (λ talk. (commands : List Spec.Command) (checks : List Check) → Gathers L.dialogue self.old commands checks
            → AreCommands commands → Breaks talk commands (L.dialogue self.new.link) checks) }
        ensures grows { Grows (L.dialogue self.old.link) (L.dialogue self.new.link) }
        ensures cause { HasCause Talk.Pipe (L.faults self.old.link) (L.faults self.new.link) result }
        ensures steady { IsSteady L.steady L.faults self.old.link → (commands : List Spec.Command) (checks : List Check)
            → Gathers L.dialogue self.old commands checks → AreCommands commands → IsSteady L.steady L.faults self.new.link }
        ensures open { result ≡ Err Talk.Closed → ⊥ }
    {
        send_all(alloc, &mut self.link, &self.batch)?;
        self.batch.clear();
        let count = self.count;
        self.count = 0;
        expect_successes(alloc, &mut self.link, &mut self.unread, count)
    }

    // the batch is full, or has no room for so many bytes more
    fn is_full(&self, more: usize) -> bool
        ensures { result ≡ false → (self.now.count < 256) × (length self.now.batch.items + more ≤ 16384) }
    {
        let used = self.batch.len();
        self.count >= MOST || used > ROOM || more > ROOM - used
    }

    // Sends what is gathered, where the batch is full.
    fn make_room(&mut self, alloc: Global, more: usize) -> Result<(), Talk>
        ensures told { OnOk result ((commands : List Spec.Command) (checks : List Check) → Gathers L.dialogue self.old commands checks → Gathers L.dialogue self.new commands checks) }
        ensures count { OnOk result (self.new.count < 256) }
        ensures room { OnOk result ((self.new.count ≡ 0) ⊎ (length self.new.batch.items + more ≤ 16384)) }
        ensures same { (self.new.levels ≡ self.old.levels) × (self.new.owed ≡ self.old.owed) × (self.new.failed ≡ self.old.failed) }
        ensures fault { IfErr result (λ talk. (commands : List Spec.Command) (checks : List Check) → Gathers L.dialogue self.old commands checks
            → AreCommands commands → Breaks talk commands (L.dialogue self.new.link) checks) }
        ensures grows { Grows (L.dialogue self.old.link) (L.dialogue self.new.link) }
        ensures cause { HasCause Talk.Pipe (L.faults self.old.link) (L.faults self.new.link) result }
        ensures steady { IsSteady L.steady L.faults self.old.link → (commands : List Spec.Command) (checks : List Check)
            → Gathers L.dialogue self.old commands checks → AreCommands commands → IsSteady L.steady L.faults self.new.link }
        ensures open { result ≡ Err Talk.Closed → ⊥ }
    {
        if self.is_full(more) {
            self.flush(alloc)
        } else {
            Ok(())
        }
    }

    /// Gathers a command that is answered by `success`.
    fn say(&mut self, alloc: Global, c: &Command) -> Result<(), Talk>
        ensures told { OnOk result (is_plain (command c.now) ≡ true → (commands : List Spec.Command) (checks : List Check)
            → Gathers L.dialogue self.old commands checks → Gathers L.dialogue self.new (commands ++ command c.now ∷ []) checks) }
        ensures same { (self.new.levels ≡ self.old.levels) × (self.new.owed ≡ self.old.owed) × (self.new.failed ≡ self.old.failed) }
        ensures fault { IfErr result (λ talk. (commands : List Spec.Command) (checks : List Check) → Gathers L.dialogue self.old commands checks
            → AreCommands commands → Breaks talk commands (L.dialogue self.new.link) checks) }
        ensures grows { Grows (L.dialogue self.old.link) (L.dialogue self.new.link) }
        ensures cause { HasCause Talk.Pipe (L.faults self.old.link) (L.faults self.new.link) result }
        ensures steady { IsSteady L.steady L.faults self.old.link → (commands : List Spec.Command) (checks : List Check)
            → Gathers L.dialogue self.old commands checks → AreCommands commands → IsSteady L.steady L.faults self.new.link }
        ensures open { result ≡ Err Talk.Closed → ⊥ }
    {
        let mut text = Vec::new(alloc);
        write(alloc, c, &mut text)?;
        self.make_room(alloc, text.len())?;
        self.batch.extend_from_slice(&text)?;
        self.count += 1;
        Ok(())
    }

    fn say_all(&mut self, alloc: Global, all: &[Command]) -> Result<(), Talk>
        ensures told { OnOk result (ArePlain (map command all.now) → (commands : List Spec.Command) (checks : List Check)
            → Gathers L.dialogue self.old commands checks → Gathers L.dialogue self.new (commands ++ map command all.now) checks) }
        ensures same { (self.new.levels ≡ self.old.levels) × (self.new.owed ≡ self.old.owed) × (self.new.failed ≡ self.old.failed) }
        ensures fault { IfErr result (λ talk. ArePlain (map command all.now) → (commands : List Spec.Command) (checks : List Check)
            → Gathers L.dialogue self.old commands checks → AreCommands (commands ++ map command all.now)
            → Breaks talk (commands ++ map command all.now) (L.dialogue self.new.link) checks) }
        ensures grows { Grows (L.dialogue self.old.link) (L.dialogue self.new.link) }
        ensures cause { HasCause Talk.Pipe (L.faults self.old.link) (L.faults self.new.link) result }
        ensures steady { ArePlain (map command all.now) → IsSteady L.steady L.faults self.old.link → (commands : List Spec.Command) (checks : List Check)
            → Gathers L.dialogue self.old commands checks → AreCommands (commands ++ map command all.now) → IsSteady L.steady L.faults self.new.link }
        ensures open { result ≡ Err Talk.Closed → ⊥ }
    {
        for c in all {
            self.say(alloc, c)?;
        }
        Ok(())
    }

    fn start(&mut self, alloc: Global, functions: &[Declared], certify: bool) -> Result<(), Talk>
        ensures told { OnOk result ((commands : List Spec.Command) (checks : List Check)
            → Gathers L.dialogue self.old commands checks → Gathers L.dialogue self.new (commands ++ preamble certify (map declared_symbol functions.now)) checks) }
        ensures count { OnOk result (self.new.count ≡ 0) }
        ensures same { (self.new.levels ≡ self.old.levels) × (self.new.owed ≡ self.old.owed) × (self.new.failed ≡ self.old.failed) }
        ensures fault { IfErr result (λ talk. (commands : List Spec.Command) (checks : List Check) → Gathers L.dialogue self.old commands checks
            → AreCommands (commands ++ preamble certify (map declared_symbol functions.now))
            → Breaks talk (commands ++ preamble certify (map declared_symbol functions.now)) (L.dialogue self.new.link) checks) }
        ensures grows { Grows (L.dialogue self.old.link) (L.dialogue self.new.link) }
        ensures cause { HasCause Talk.Pipe (L.faults self.old.link) (L.faults self.new.link) result }
        ensures steady { IsSteady L.steady L.faults self.old.link → (commands : List Spec.Command) (checks : List Check)
            → Gathers L.dialogue self.old commands checks → AreCommands (commands ++ preamble certify (map declared_symbol functions.now))
            → IsSteady L.steady L.faults self.new.link }
        ensures open { result ≡ Err Talk.Closed → ⊥ }
    {
        let mut commands = front_commands(alloc, certify)?;
        put_declarations(alloc, &mut commands, functions)?;
        self.say_all(alloc, &commands)?;
        self.flush(alloc)
    }

    /// Opens a dialogue: the preamble is sent, and its replies are read.
    ///
    /// # Errors
    /// `Pipe` where the link fails, `Garbled` where an item is no lawful reply, `Refused` where it refuses a command, `Want` where
    /// memory runs out. The link is given back.
    pub fn open(
        alloc: Global,
        link: L,
        functions: &[Declared],
        certify: bool,
    ) -> Result<Dialogue<L>, (L, Talk)>
        requires { L.dialogue link ≡ [] }
        ensures stands { IfOk result (λ d. Stands L.dialogue certify (map declared_symbol functions.now) [] d []) }
        ensures free { IfOk result (λ d. IsFree d × (has_failed d ≡ false) × (scope_of d ≡ Said.Outside)) }
        ensures fault { IfErr result (λ e. AreCommands (preamble certify (map declared_symbol functions.now))
            → Breaks e.1 (preamble certify (map declared_symbol functions.now)) (L.dialogue e.0) []) }
        ensures cause { MatchResult result (λ d. L.faults link ≤ L.faults (link_of d)) (λ e. HasCause Talk.Pipe (L.faults link) (L.faults e.0) (gives e.1)) }
        ensures steady { IsSteady L.steady L.faults link → AreCommands (preamble certify (map declared_symbol functions.now))
            → MatchResult result (λ d. IsSteady L.steady L.faults (link_of d)) (λ e. IsSteady L.steady L.faults e.0) }
        ensures open { MatchResult result (λ _. Unit {0}) (λ e. e.1 ≡ Talk.Closed → ⊥) }
    {
        let mut dialogue = Dialogue {
            link,
            batch: Vec::new(alloc),
            count: 0,
            unread: Vec::new(alloc),
            levels: Levels::new(alloc),
            owed: None,
            failed: false,
        };
        match dialogue.start(alloc, functions, certify) {
            Ok(()) => Ok(dialogue),
            Err(talk) => Err((dialogue.close(), talk)),
        }
    }

    // Sends the check-sat with what is gathered before it.
    fn send_check(&mut self, alloc: Global) -> Result<(), Talk>
        ensures told { OnOk result ((commands : List Spec.Command) (checks : List Check)
            → Gathers L.dialogue self.old commands checks → Waits L.dialogue self.new (commands ++ Spec.CheckSat ∷ []) checks) }
        ensures asked { OnOk result (IsSome self.new.owed × (self.new.count ≡ 0)) }
        ensures same { (self.new.levels ≡ self.old.levels) × (self.new.failed ≡ self.old.failed) }
        ensures fault { IfErr result (λ talk. (commands : List Spec.Command) (checks : List Check) → Gathers L.dialogue self.old commands checks
            → AreCommands commands → Breaks talk (commands ++ Spec.CheckSat ∷ []) (L.dialogue self.new.link) checks) }
        ensures grows { Grows (L.dialogue self.old.link) (L.dialogue self.new.link) }
        ensures cause { HasCause Talk.Pipe (L.faults self.old.link) (L.faults self.new.link) result }
        ensures steady { IsSteady L.steady L.faults self.old.link → (commands : List Spec.Command) (checks : List Check)
            → Gathers L.dialogue self.old commands checks → AreCommands commands → IsSteady L.steady L.faults self.new.link }
        ensures open { result ≡ Err Talk.Closed → ⊥ }
    {
        self.make_room(alloc, CHECK)?;
        write(alloc, &Command::CheckSat, &mut self.batch)?;
        send_all(alloc, &mut self.link, &self.batch)?;
        self.batch.clear();
        self.owed = Some(self.count);
        self.count = 0;
        Ok(())
    }

    fn post_all(
        &mut self,
        alloc: Global,
        base: Base,
        path: &[Entry],
        condition: &Rc<Term>,
    ) -> Result<(), Talk>
        requires { IsReady self.old.levels }
        ensures told { OnOk result ((commands : List Spec.Command) (checks : List Check) → Gathers L.dialogue self.old commands checks
            → Waits L.dialogue self.new ((commands ++ question (scope_of self.old) (path_behind base (scope_of self.old) (map entry path.now))
            (shared condition.now)) ++ Spec.CheckSat ∷ []) checks) }
        ensures asked { OnOk result (IsSome self.new.owed × (self.new.count ≡ 0) × IsReady self.new.levels) }
        ensures scope { OnOk result (scope_of self.new ≡ Said.Inside (path_behind base (scope_of self.old) (map entry path.now))) }
        ensures failed { self.new.failed ≡ self.old.failed }
        ensures fault { IfErr result (λ talk. (commands : List Spec.Command) (checks : List Check) → Gathers L.dialogue self.old commands checks
            → AreCommands (commands ++ question (scope_of self.old) (path_behind base (scope_of self.old) (map entry path.now)) (shared condition.now))
            → Breaks talk ((commands ++ question (scope_of self.old) (path_behind base (scope_of self.old) (map entry path.now)) (shared condition.now))
            ++ Spec.CheckSat ∷ []) (L.dialogue self.new.link) checks) }
        ensures grows { Grows (L.dialogue self.old.link) (L.dialogue self.new.link) }
        ensures cause { HasCause Talk.Pipe (L.faults self.old.link) (L.faults self.new.link) result }
        ensures steady { IsSteady L.steady L.faults self.old.link → (commands : List Spec.Command) (checks : List Check) → Gathers L.dialogue self.old commands checks
            → AreCommands (commands ++ question (scope_of self.old) (path_behind base (scope_of self.old) (map entry path.now)) (shared condition.now))
            → IsSteady L.steady L.faults self.new.link }
        ensures open { result ≡ Err Talk.Closed → ⊥ }
    {
        let commands = self.levels.question(alloc, base, path, condition)?;
        self.say_all(alloc, &commands)?;
        self.send_check(alloc)
    }

    /// Asks whether the condition follows from the path, which is the base and these entries behind it: the path and the negated
    /// condition are asserted and checked. Behind a base that stands the entries alone are looked at, and sent.
    ///
    /// # Errors
    /// `Pipe` where the link fails, `Garbled` where an item is no lawful reply, `Refused` where it refuses a command, `Want` where
    /// memory runs out, and `Closed` where an earlier call failed.
    pub fn post(
        &mut self,
        alloc: Global,
        base: Base,
        path: &[Entry],
        condition: &Rc<Term>,
    ) -> Result<(), Talk>
        requires { IsFree self.old }
        ensures asks { OnOk result ((certify : Bool) (functions : List Spec.Declared) (turns : List ScopedTurn) (checks : List Check)
            → Stands L.dialogue certify functions turns self.old checks
            → Awaits L.dialogue certify functions turns (path_behind base (scope_of self.old) (map entry path.now)) (shared condition.now) self.new checks) }
        ensures asked { IsAsked self.new }
        ensures scope { OnOk result (scope_of self.new ≡ Said.Inside (path_behind base (scope_of self.old) (map entry path.now))) }
        ensures fault { IfErr result (λ talk. (certify : Bool) (functions : List Spec.Declared) (turns : List ScopedTurn) (checks : List Check)
            → Stands L.dialogue certify functions turns self.old checks
            → AreCommands (script certify functions (turns ++ Said.Posts (path_behind base (scope_of self.old) (map entry path.now)) (shared condition.now) ∷ []))
            → Breaks talk (script certify functions (turns ++ Said.Posts (path_behind base (scope_of self.old) (map entry path.now)) (shared condition.now)
            ∷ [])) (L.dialogue (link_of self.new)) checks) }
        ensures grows { Grows (L.dialogue (link_of self.old)) (L.dialogue (link_of self.new)) }
        ensures cause { HasCause Talk.Pipe (L.faults (link_of self.old)) (L.faults (link_of self.new)) result }
        ensures steady { IsSteady L.steady L.faults (link_of self.old)
            → (certify : Bool) (functions : List Spec.Declared) (turns : List ScopedTurn) (checks : List Check)
            → Stands L.dialogue certify functions turns self.old checks
            → AreCommands (script certify functions (turns ++ Said.Posts (path_behind base (scope_of self.old) (map entry path.now)) (shared condition.now)
            ∷ [])) → IsSteady L.steady L.faults (link_of self.new) }
        ensures closed { (result ≡ Err Talk.Closed) ↔ (has_failed self.old ≡ true) }
        ensures failed { has_failed self.new ≡ is_err result }
    {
        if self.failed {
            return Err(Talk::Closed);
        }
        match self.post_all(alloc, base, path, condition) {
            Ok(()) => Ok(()),
            Err(talk) => {
                self.failed = true;
                Err(talk)
            }
        }
    }

    #[tactic(auto, unfolding(crate::specs::Items::is_lawful))]
    fn take_all(&mut self, alloc: Global, owed: usize) -> Result<Reply, Talk>
        ensures told { IfOk result (λ reply. self.old.owed ≡ Some owed → (commands : List Spec.Command) (checks : List Check) → Waits L.dialogue self.old commands checks
            → Gathers L.dialogue self.new commands (checks ++ told_check (stack_of commands) reply ∷ [])) }
        ensures free { OnOk result (self.new.owed ≡ None) }
        ensures same { (self.new.levels ≡ self.old.levels) × (self.new.count ≡ self.old.count) × (self.new.failed ≡ self.old.failed) }
        ensures fault { IfErr result (λ talk. self.old.owed ≡ Some owed → (commands : List Spec.Command) (checks : List Check)
            → Waits L.dialogue self.old commands checks → AreCommands commands → Breaks talk commands (L.dialogue self.new.link) checks) }
        ensures grows { Grows (L.dialogue self.old.link) (L.dialogue self.new.link) }
        ensures cause { HasCause Talk.Pipe (L.faults self.old.link) (L.faults self.new.link) result }
        ensures steady { IsSteady L.steady L.faults self.old.link → self.old.owed ≡ Some owed → (commands : List Spec.Command) (checks : List Check)
            → Waits L.dialogue self.old commands checks → AreCommands commands → IsSteady L.steady L.faults self.new.link }
        ensures open { result ≡ Err Talk.Closed → ⊥ }
    {
        expect_successes(alloc, &mut self.link, &mut self.unread, owed)?;
        let item = expect(alloc, &mut self.link, &mut self.unread, Wanted::Answer)?;
        self.owed = None;
        match answer(item.tokens()) {
            Some(reply) => Ok(reply),
            None => unreachable!(),
        }
    }

    /// Reads the reply to the open question.
    ///
    /// # Errors
    /// `Pipe` where the link fails, `Garbled` where an item is no lawful reply, `Refused` where it refuses a command, `Want` where
    /// memory runs out, and `Closed` where an earlier call failed.
    pub fn take(&mut self, alloc: Global) -> Result<Reply, Talk>
        requires { IsAsked self.old }
        ensures reply { IfOk result (λ reply. (certify : Bool) (functions : List Spec.Declared) (turns : List ScopedTurn) (path : List segments.Entry)
            (condition : Written.Term) (checks : List Check)
            → Awaits L.dialogue certify functions turns path condition self.old checks
            → Stands L.dialogue certify functions (turns ++ Said.Asks path condition ∷ []) self.new
            (checks ++ check_of (base_of certify functions) (segments.terms path) condition reply ∷ [])) }
        ensures free { IsFree self.new }
        ensures scope { OnOk result (scope_of self.new ≡ scope_of self.old) }
        ensures fault { IfErr result (λ talk. (certify : Bool) (functions : List Spec.Declared) (turns : List ScopedTurn) (path : List segments.Entry)
            (condition : Written.Term) (checks : List Check)
            → Awaits L.dialogue certify functions turns path condition self.old checks
            → AreCommands (script certify functions (turns ++ Said.Posts path condition ∷ []))
            → Breaks talk (script certify functions (turns ++ Said.Posts path condition ∷ [])) (L.dialogue (link_of self.new)) checks) }
        ensures grows { Grows (L.dialogue (link_of self.old)) (L.dialogue (link_of self.new)) }
        ensures cause { HasCause Talk.Pipe (L.faults (link_of self.old)) (L.faults (link_of self.new)) result }
        ensures steady { IsSteady L.steady L.faults (link_of self.old)
            → (certify : Bool) (functions : List Spec.Declared) (turns : List ScopedTurn) (path : List segments.Entry) (condition : Written.Term)
            (checks : List Check)
            → Awaits L.dialogue certify functions turns path condition self.old checks
            → AreCommands (script certify functions (turns ++ Said.Posts path condition ∷ [])) → IsSteady L.steady L.faults (link_of self.new) }
        ensures closed { (result ≡ Err Talk.Closed) ↔ (has_failed self.old ≡ true) }
        ensures failed { has_failed self.new ≡ is_err result }
    {
        let owed = match self.owed {
            Some(owed) if !self.failed => owed,
            _ => return Err(Talk::Closed),
        };
        match self.take_all(alloc, owed) {
            Ok(reply) => Ok(reply),
            Err(talk) => {
                self.failed = true;
                Err(talk)
            }
        }
    }

    /// Posts a question, whose path is the base and these entries behind it, and reads its reply.
    ///
    /// # Errors
    /// `Pipe` where the link fails, `Garbled` where an item is no lawful reply, `Refused` where it refuses a command, `Want` where
    /// memory runs out, and `Closed` where an earlier call failed.
    pub fn ask(
        &mut self,
        alloc: Global,
        base: Base,
        path: &[Entry],
        condition: &Rc<Term>,
    ) -> Result<Reply, Talk>
        requires { IsFree self.old }
        ensures reply { IfOk result (λ reply. (certify : Bool) (functions : List Spec.Declared) (turns : List ScopedTurn) (checks : List Check)
            → Stands L.dialogue certify functions turns self.old checks
            → Stands L.dialogue certify functions (turns ++ Said.Asks (path_behind base (scope_of self.old) (map entry path.now)) (shared condition.now) ∷ []) self.new
            (checks ++ check_of (base_of certify functions) (segments.terms (path_behind base (scope_of self.old) (map entry path.now))) (shared condition.now) reply ∷ [])) }
        ensures free { IsFree self.new }
        ensures scope { OnOk result (scope_of self.new ≡ Said.Inside (path_behind base (scope_of self.old) (map entry path.now))) }
        ensures fault { IfErr result (λ talk. (certify : Bool) (functions : List Spec.Declared) (turns : List ScopedTurn) (checks : List Check)
            → Stands L.dialogue certify functions turns self.old checks
            → AreCommands (script certify functions (turns ++ Said.Posts (path_behind base (scope_of self.old) (map entry path.now)) (shared condition.now) ∷ []))
            → Breaks talk (script certify functions (turns ++ Said.Posts (path_behind base (scope_of self.old) (map entry path.now)) (shared condition.now)
            ∷ [])) (L.dialogue (link_of self.new)) checks) }
        ensures grows { Grows (L.dialogue (link_of self.old)) (L.dialogue (link_of self.new)) }
        ensures cause { HasCause Talk.Pipe (L.faults (link_of self.old)) (L.faults (link_of self.new)) result }
        ensures steady { IsSteady L.steady L.faults (link_of self.old)
            → (certify : Bool) (functions : List Spec.Declared) (turns : List ScopedTurn) (checks : List Check)
            → Stands L.dialogue certify functions turns self.old checks
            → AreCommands (script certify functions (turns ++ Said.Posts (path_behind base (scope_of self.old) (map entry path.now)) (shared condition.now)
            ∷ [])) → IsSteady L.steady L.faults (link_of self.new) }
        ensures closed { (result ≡ Err Talk.Closed) ↔ (has_failed self.old ≡ true) }
        ensures failed { has_failed self.new ≡ is_err result }
    {
        self.post(alloc, base, path, condition)?;
        self.take(alloc)
    }

    /// How many entries of the member's last question stand, so that a path may go on behind them; none where no member is open.
    /// No memory.
    pub fn standing(&self) -> usize
        ensures { result ≡ length (standing (scope_of self.now)) }
    {
        self.levels.standing()
    }

    /// Ends the member. Its levels are closed before the next question.
    ///
    /// # Errors
    /// `Closed` where an earlier call failed, and only then.
    pub fn leave(&mut self) -> Result<(), Talk>
        requires { IsFree self.old }
        ensures stands { OnOk result ((certify : Bool) (functions : List Spec.Declared) (turns : List ScopedTurn) (checks : List Check)
            → Stands L.dialogue certify functions turns self.old checks
            → Stands L.dialogue certify functions (turns ++ Said.Leaves ∷ []) self.new checks) }
        ensures left { OnOk result (scope_of self.new ≡ Said.left (scope_of self.old)) }
        ensures free { IsFree self.new }
        ensures link { link_of self.new ≡ link_of self.old }
        ensures closed { (result ≡ Err Talk.Closed) ↔ (has_failed self.old ≡ true) }
        ensures others { IsErr result → result ≡ Err Talk.Closed }
        ensures failed { has_failed self.new ≡ has_failed self.old }
    {
        if self.failed {
            return Err(Talk::Closed);
        }
        self.levels.leave();
        Ok(())
    }

    /// Gives the link back. No memory.
    pub fn close(self) -> L
        ensures { result ≡ link_of self }
    {
        let Dialogue { link, .. } = self;
        link
    }
}
