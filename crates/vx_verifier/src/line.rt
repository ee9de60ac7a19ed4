//! The talker of a lane: its child, which is started at the lane's first question.

ghost use Rattle.std.specs.Prelude.{◌≡◌, ℕ, ◌+◌, ◌<◌, ◌++◌, ◌∷◌, [], List, IfOk, IfErr, OnOk, MatchResult, map, true};
ghost use Rattle.vx_smt_meaning.specs.Commands as smt;
ghost use Rattle.vx_smt_meaning.specs.Views.{declared_symbol};
ghost use Rattle.vx_segments.specs.Segments.{terms};
ghost use Rattle.vx_segments.specs.Views.{entry};
ghost use Rattle.vx_grows.specs.Grows.{Begins};
ghost use Rattle.vx_dialogue.specs.Bases.{path_behind, standing};
ghost use Rattle.vx_dialogue.specs.Dialogue.{scope_of};
ghost use Rattle.vx_rules.specs.Trees.{Question};
ghost use Rattle.vx_stack.specs.Stack as rules;
ghost use Rattle.vx_pool.specs.Events.{Event, GoesOn, IfFault};
ghost use Rattle.vx_pool.specs.Events as event;
ghost use Rattle.vx_report.specs.declared.run.Cause.{Cause as Why};
ghost use Rattle.vx_verifier.specs.Lanes as spec;
ghost use Rattle.vx_verifier.specs.Lanes.{IsBack, IsHeld, IsReady, IsToldOf, HearsOf, TellsOf, AsksOf, links_out};
ghost use Rattle.vx_verifier.specs.Outsets.{Hub, Moved, Outset, hub};
ghost use Rattle.vx_verifier.specs.Steady.{IsSpelled};

use crate::outset::Begun;
use std::alloc::{AllocError, Global};
use std::marker::PhantomData;
use std::mem;
use vx_dialogue::{Base, Dialogue, Talk};
use vx_ends::{Link, Parts, Spawner, StartFault};
use vx_pool::{Stop, Talker};
use vx_report::Cause;
use vx_resolved::Settled;
use vx_rules::Reply;
use vx_segments::Entry;
use vx_smt_meaning::Declared;
use vx_stack::Query;

/// The child of a lane.
pub enum Child<L> {
    NotStarted,
    Talking(Dialogue<L>),
    /// It faulted, or its start did, and no further one is started.
    Lost,
}

/// A lane's child, with the command that starts it and the symbols that it is told first.
pub struct Line<'a, K, L> {
    pub lane: u32,
    pub child: Child<L>,
    pub command: &'a Parts,
    pub functions: &'a [Declared],
    pub of: PhantomData<K>,
}

impl<'a, K: Begun, L: Link> Line<'a, K, L> {
    /// A lane whose child isn't started yet. No memory.
    pub fn new(lane: u32, command: &'a Parts, functions: &'a [Declared]) -> Line<'a, K, L>
        ensures { (result.lane ≡ lane) × (result.child ≡ Child.NotStarted) × (result.command.now ≡ command.now) × (result.functions.now ≡ functions.now) }
    {
        Line {
            lane,
            child: Child::NotStarted,
            command,
            functions,
            of: PhantomData,
        }
    }
}

fn stop_of(talk: Talk) -> Stop<Cause>
    ensures { result ≡ spec.stop_of talk }
{
    match talk {
        Talk::Pipe => Stop::Fault(Cause::Pipe),
        Talk::Garbled(kept) | Talk::Refused(kept) => Stop::Fault(Cause::Reply(kept)),
        Talk::Want => Stop::Want,
        Talk::Closed => Stop::Fault(Cause::Spent),
    }
}

// A child with its preamble said; or what there is in place of it.
fn start<K: Begun, W: Spawner>(
    alloc: Global,
    lane: u32,
    command: &Parts,
    functions: &[Declared],
    spawner: &mut W,
) -> Result<Dialogue<W::Link>, (Child<W::Link>, Stop<Cause>)>
    requires { IsHeld W.Link.steady W.Link.faults K.outset lane command.now (map declared_symbol functions.now) Child.NotStarted
        (hub W.starts W.owed W.ended W.faults W.steady spawner.old) }
    ensures held { MatchResult result
        (λ d. IsHeld W.Link.steady W.Link.faults K.outset lane command.now (map declared_symbol functions.now) (Child.Talking d)
        (hub W.starts W.owed W.ended W.faults W.steady spawner.new))
        (λ e. IsHeld W.Link.steady W.Link.faults K.outset lane command.now (map declared_symbol functions.now) e.0
        (hub W.starts W.owed W.ended W.faults W.steady spawner.new)) }
    ensures told { IfOk result (λ d. (events : List (Event Why))
        → HearsOf W.Link.dialogue K.outset lane Child.NotStarted (hub W.starts W.owed W.ended W.faults W.steady spawner.old) events
        → HearsOf W.Link.dialogue K.outset lane (Child.Talking d) (hub W.starts W.owed W.ended W.faults W.steady spawner.new) events) }
    ensures fault { IfErr result (λ e. IfFault e.1 (λ cause. (events : List (Event Why)) (q : Question)
        → HearsOf W.Link.dialogue K.outset lane Child.NotStarted (hub W.starts W.owed W.ended W.faults W.steady spawner.old) events
        → TellsOf W.Link.dialogue K.outset lane e.0 (hub W.starts W.owed W.ended W.faults W.steady spawner.new) (events ++ event.Lost q cause ∷ []))) }
    ensures moved { Moved lane (hub W.starts W.owed W.ended W.faults W.steady spawner.old) (hub W.starts W.owed W.ended W.faults W.steady spawner.new) }
{
    let link = match spawner.start(alloc, lane, command) {
        Ok(link) => link,
        Err(StartFault::Failed) => return Err((Child::Lost, Stop::Fault(Cause::Start))),
        Err(StartFault::Want) => return Err((Child::NotStarted, Stop::Want)),
    };
    match Dialogue::open(alloc, link, functions, false) {
        Ok(dialogue) => Ok(dialogue),
        Err((link, talk)) => {
            spawner.finish(lane, link);
            Err((Child::Lost, stop_of(talk)))
        }
    }
}

// The lane's child, which is started where there was none yet; or what there is in place of it.
fn talking<K: Begun, W: Spawner>(
    alloc: Global,
    lane: u32,
    command: &Parts,
    functions: &[Declared],
    spawner: &mut W,
    child: Child<W::Link>,
) -> Result<Dialogue<W::Link>, (Child<W::Link>, Stop<Cause>)>
    requires { IsHeld W.Link.steady W.Link.faults K.outset lane command.now (map declared_symbol functions.now) child
        (hub W.starts W.owed W.ended W.faults W.steady spawner.old) }
    ensures held { MatchResult result
        (λ d. IsHeld W.Link.steady W.Link.faults K.outset lane command.now (map declared_symbol functions.now) (Child.Talking d)
        (hub W.starts W.owed W.ended W.faults W.steady spawner.new))
        (λ e. IsHeld W.Link.steady W.Link.faults K.outset lane command.now (map declared_symbol functions.now) e.0
        (hub W.starts W.owed W.ended W.faults W.steady spawner.new)) }
    ensures told { IfOk result (λ d. (events : List (Event Why))
        → TellsOf W.Link.dialogue K.outset lane child (hub W.starts W.owed W.ended W.faults W.steady spawner.old) events
        → HearsOf W.Link.dialogue K.outset lane (Child.Talking d) (hub W.starts W.owed W.ended W.faults W.steady spawner.new) events) }
    ensures fault { IfErr result (λ e. IfFault e.1 (λ cause. (events : List (Event Why)) (q : Question)
        → TellsOf W.Link.dialogue K.outset lane child (hub W.starts W.owed W.ended W.faults W.steady spawner.old) events
        → TellsOf W.Link.dialogue K.outset lane e.0 (hub W.starts W.owed W.ended W.faults W.steady spawner.new) (events ++ event.Lost q cause ∷ []))) }
    ensures moved { Moved lane (hub W.starts W.owed W.ended W.faults W.steady spawner.old) (hub W.starts W.owed W.ended W.faults W.steady spawner.new) }
{
    match child {
        Child::NotStarted => start::<K, W>(alloc, lane, command, functions, spawner),
        Child::Talking(dialogue) => Ok(dialogue),
        Child::Lost => Err((Child::Lost, Stop::Fault(Cause::Spent))),
    }
}

// A question's path as its dialogue takes it: where it goes on from what stands there, what is new.
fn path_for<L: Link>(
    alloc: Global,
    dialogue: &Dialogue<L>,
    query: &Query,
    stays: bool,
) -> Result<(Base, Vec<Entry>), AllocError>
    requires { stays ≡ true → Begins (terms (standing (scope_of dialogue.now))) (rules.query query.now).path }
    ensures { IfOk result (λ r. terms (path_behind r.0 (scope_of dialogue.now) (map entry r.1.items)) ≡ (rules.query query.now).path) }
{
    if stays {
        let new = query.count - dialogue.standing();
        return Ok((Base::Standing, query.path.newest(alloc, new)?));
    }
    Ok((Base::Nothing, query.path.entries(alloc)?))
}

// A child that talks is asked a question, whose path stays or begins anew; where it takes none, it is handed back.
fn tell<K: Begun, W: Spawner>(
    alloc: Global,
    lane: u32,
    spawner: &mut W,
    dialogue: Dialogue<W::Link>,
    query: &Query,
    stays: bool,
) -> (Child<W::Link>, Result<(), Stop<Cause>>)
    requires owed { 0 < W.owed spawner.old lane }
    requires told { (events : List (Event Why))
        × HearsOf W.Link.dialogue K.outset lane (Child.Talking dialogue) (hub W.starts W.owed W.ended W.faults W.steady spawner.old) events
        × IsSpelled (rules.query query.now) × GoesOn events (rules.query query.now) stays }
    ensures held { (command : List (List ℕ)) (functions : List smt.Declared)
        → IsHeld W.Link.steady W.Link.faults K.outset lane command functions (Child.Talking dialogue) (hub W.starts W.owed W.ended W.faults W.steady spawner.old)
        → IsHeld W.Link.steady W.Link.faults K.outset lane command functions result.0 (hub W.starts W.owed W.ended W.faults W.steady spawner.new) }
    ensures told { OnOk result.1 ((events : List (Event Why))
        → HearsOf W.Link.dialogue K.outset lane (Child.Talking dialogue) (hub W.starts W.owed W.ended W.faults W.steady spawner.old) events
        → AsksOf W.Link.dialogue K.outset lane result.0 (hub W.starts W.owed W.ended W.faults W.steady spawner.new) events (rules.query query.now)) }
    ensures fault { IfErr result.1 (λ stop. IfFault stop (λ cause. (events : List (Event Why))
        → HearsOf W.Link.dialogue K.outset lane (Child.Talking dialogue) (hub W.starts W.owed W.ended W.faults W.steady spawner.old) events
        → TellsOf W.Link.dialogue K.outset lane result.0 (hub W.starts W.owed W.ended W.faults W.steady spawner.new)
        (events ++ event.Lost (rules.query query.now) cause ∷ []))) }
    ensures moved { Moved lane (hub W.starts W.owed W.ended W.faults W.steady spawner.old) (hub W.starts W.owed W.ended W.faults W.steady spawner.new) }
{
    let mut dialogue = dialogue;
    let (base, path) = match path_for(alloc, &dialogue, query, stays) {
        Ok(path) => path,
        Err(_) => return (Child::Talking(dialogue), Err(Stop::Want)),
    };
    match dialogue.post(alloc, base, &path, &query.condition) {
        Ok(()) => (Child::Talking(dialogue), Ok(())),
        Err(talk) => {
            spawner.finish(lane, dialogue.close());
            (Child::Lost, Err(stop_of(talk)))
        }
    }
}

// The reply to the open question; a child that gives none is handed back.
fn hear<K: Begun, W: Spawner>(
    alloc: Global,
    lane: u32,
    spawner: &mut W,
    dialogue: Dialogue<W::Link>,
) -> (Child<W::Link>, Result<Reply, Stop<Cause>>)
    requires owed { 0 < W.owed spawner.old lane }
    requires asked { (events : List (Event Why)) × (q : Question)
        × AsksOf W.Link.dialogue K.outset lane (Child.Talking dialogue) (hub W.starts W.owed W.ended W.faults W.steady spawner.old) events q }
    ensures held { (command : List (List ℕ)) (functions : List smt.Declared)
        → IsHeld W.Link.steady W.Link.faults K.outset lane command functions (Child.Talking dialogue) (hub W.starts W.owed W.ended W.faults W.steady spawner.old)
        → IsHeld W.Link.steady W.Link.faults K.outset lane command functions result.0 (hub W.starts W.owed W.ended W.faults W.steady spawner.new) }
    ensures told { IfOk result.1 (λ reply. (events : List (Event Why)) (q : Question)
        → AsksOf W.Link.dialogue K.outset lane (Child.Talking dialogue) (hub W.starts W.owed W.ended W.faults W.steady spawner.old) events q
        → TellsOf W.Link.dialogue K.outset lane result.0 (hub W.starts W.owed W.ended W.faults W.steady spawner.new) (events ++ event.Answered q reply ∷ [])) }
    ensures fault { IfErr result.1 (λ stop. IfFault stop (λ cause. (events : List (Event Why)) (q : Question)
        → AsksOf W.Link.dialogue K.outset lane (Child.Talking dialogue) (hub W.starts W.owed W.ended W.faults W.steady spawner.old) events q
        → TellsOf W.Link.dialogue K.outset lane result.0 (hub W.starts W.owed W.ended W.faults W.steady spawner.new) (events ++ event.Lost q cause ∷ []))) }
    ensures moved { Moved lane (hub W.starts W.owed W.ended W.faults W.steady spawner.old) (hub W.starts W.owed W.ended W.faults W.steady spawner.new) }
{
    let mut dialogue = dialogue;
    match dialogue.take(alloc) {
        Ok(reply) => (Child::Talking(dialogue), Ok(reply)),
        Err(talk) => {
            spawner.finish(lane, dialogue.close());
            (Child::Lost, Err(stop_of(talk)))
        }
    }
}

// The member is over.
fn left<L: Link>(child: Child<L>) -> Child<L>
    requires { IsReady child }
    ensures held { (o : Outset) (lane : ℕ) (command : List (List ℕ)) (functions : List smt.Declared) (h : Hub)
        → IsHeld L.steady L.faults o lane command functions child h → IsHeld L.steady L.faults o lane command functions result h }
    ensures told { (o : Outset) (lane : ℕ) (h : Hub) (events : List (Event Why))
        → TellsOf L.dialogue o lane child h events → TellsOf L.dialogue o lane result h (events ++ event.Left ∷ []) }
{
    match child {
        Child::Talking(dialogue) => {
            let mut dialogue = dialogue;
            match dialogue.leave() {
                Ok(()) => Child::Talking(dialogue),
                // Only a dialogue that has failed refuses it.
                Err(_) => unreachable!(),
            }
        }
        Child::NotStarted => Child::NotStarted,
        Child::Lost => Child::Lost,
    }
}

// Puts a child where no link is out.
fn put<L: Link>(place: &mut Child<L>, child: Child<L>)
    requires { links_out place.old ≡ 0 }
    ensures { place.new ≡ child }
{
    match mem::replace(place, child) {
        Child::NotStarted | Child::Lost => {}
        // No link is out.
        Child::Talking(_dialogue) => unreachable!(),
    }
}

impl<'a, K: Begun, W: Spawner> Talker<Settled, W, Cause> for Line<'a, K, W::Link> {
    ghost use Rattle.std.specs.Prelude.{◌++◌, ◌∷◌, [], map};
    ghost use Rattle.vx_smt_meaning.specs.Views.{declared_symbol};
    ghost use Rattle.vx_pool.specs.Events as event;
    ghost use Rattle.vx_verifier.specs.Going.{later_on, later_same};
    ghost use Rattle.vx_verifier.specs.Lanes.{AsksOf, IsHeld, TellsOf};
    ghost use Rattle.vx_verifier.specs.Outsets.{Later, hub};
    ghost use Rattle.vx_verifier.specs.Steady.{IsSpelled};

    ghost lane = { λ t. t.lane };

    ghost Held = { λ t h. IsHeld W.Link.steady W.Link.faults K.outset t.lane t.command.now (map declared_symbol t.functions.now) t.child (hub W.starts W.owed W.ended W.faults W.steady h) };

    ghost Tells = { λ t h log. TellsOf W.Link.dialogue K.outset t.lane t.child (hub W.starts W.owed W.ended W.faults W.steady h) log };

    ghost Asks = { λ t h log q. AsksOf W.Link.dialogue K.outset t.lane t.child (hub W.starts W.owed W.ended W.faults W.steady h) log q };

    ghost Loses = { λ t h log q cause. TellsOf W.Link.dialogue K.outset t.lane t.child (hub W.starts W.owed W.ended W.faults W.steady h) (log ++ event.Lost q cause ∷ []) };

    ghost IsPostable = { λ _ q. IsSpelled q };

    ghost Later = { λ g h. Later K.outset (hub W.starts W.owed W.ended W.faults W.steady g) (hub W.starts W.owed W.ended W.faults W.steady h) };

    fn post(
        &mut self,
        alloc: Global,
        _program: &Settled,
        hub: &mut W,
        query: &Query,
        stays: bool,
    ) -> Result<(), Stop<Cause>> {
        let child = mem::replace(&mut self.child, Child::Lost);
        match talking::<K, W>(alloc, self.lane, self.command, self.functions, hub, child) {
            Ok(dialogue) => {
                let (child, posted) = tell::<K, W>(alloc, self.lane, hub, dialogue, query, stays);
                put(&mut self.child, child);
                posted
            }
            Err((child, stop)) => {
                put(&mut self.child, child);
                Err(stop)
            }
        }
    }

    fn take(
        &mut self,
        alloc: Global,
        _program: &Settled,
        hub: &mut W,
    ) -> Result<Reply, Stop<Cause>> {
        match mem::replace(&mut self.child, Child::Lost) {
            Child::Talking(dialogue) => {
                let (child, reply) = hear::<K, W>(alloc, self.lane, hub, dialogue);
                put(&mut self.child, child);
                reply
            }
            // A question is open.
            Child::NotStarted | Child::Lost => unreachable!(),
        }
    }

    fn leave(
        &mut self,
        _alloc: Global,
        _program: &Settled,
        _hub: &mut W,
    ) -> Result<(), AllocError> {
        let child = left(mem::replace(&mut self.child, Child::Lost));
        put(&mut self.child, child);
        Ok(())
    }

    // A lane has no further child.
    fn renew(
        &mut self,
        _alloc: Global,
        _program: &Settled,
        _hub: &mut W,
    ) -> Result<(), AllocError> {
        Ok(())
    }

    fn ready(&self, hub: &W) -> bool {
        hub.is_ready(self.lane)
    }

    fn wait(hub: &W) {
        hub.wait();
    }

    ghost later_same = { λ h. later_same K.outset (hub W.starts W.owed W.ended W.faults W.steady h) };

    ghost later_on = { λ g h i. later_on K.outset (hub W.starts W.owed W.ended W.faults W.steady g) (hub W.starts W.owed W.ended W.faults W.steady h)
        (hub W.starts W.owed W.ended W.faults W.steady i) };
}

/// Hands the link of a lane's child back, if it is out. No memory.
pub fn end<K: Begun, W: Spawner>(line: Line<'_, K, W::Link>, spawner: &mut W)
    requires { IsHeld W.Link.steady W.Link.faults K.outset line.lane line.command.now (map declared_symbol line.functions.now) line.child
        (hub W.starts W.owed W.ended W.faults W.steady spawner.old) }
    ensures back { IsBack K.outset line.entry.lane (hub W.starts W.owed W.ended W.faults W.steady spawner.new) }
    ensures told { (events : List (Event Why))
        → TellsOf W.Link.dialogue K.outset line.entry.lane line.entry.child (hub W.starts W.owed W.ended W.faults W.steady spawner.old) events
        → IsToldOf K.outset line.entry.lane (hub W.starts W.owed W.ended W.faults W.steady spawner.new) events }
    ensures moved { Moved line.entry.lane (hub W.starts W.owed W.ended W.faults W.steady spawner.old) (hub W.starts W.owed W.ended W.faults W.steady spawner.new) }
{
    let Line {
        lane,
        child,
        command: _,
        functions: _,
        of: _,
    } = line;
    match child {
        Child::Talking(dialogue) => spawner.finish(lane, dialogue.close()),
        Child::NotStarted => {}
        Child::Lost => {}
    }
}
