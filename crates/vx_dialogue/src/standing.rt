// What stands on the levels of a member.
ghost use Rattle.std.specs.Prelude.{◌≡◌, ◌≤◌, ◌∷◌, [], ◌++◌, Some, OnOk, IfOk, length, map, take};
ghost use Rattle.vx_terms.specs.Views.{term};
ghost use Rattle.vx_smt_meaning.specs.Commands as Spec;
ghost use Rattle.vx_smt_meaning.specs.Views.{command};
ghost use Rattle.vx_segments.specs.Segments.{terms};
ghost use Rattle.vx_segments.specs.Views.{entry};
ghost use Rattle.vx_dialogue.specs.Symbols.{with_variables, with_listed};
ghost use Rattle.vx_dialogue.specs.Preamble.{declarations};
ghost use Rattle.vx_dialogue.specs.Segments as segments;
ghost use Rattle.vx_dialogue.specs.Segments.{last_of, missing, opening};
ghost use Rattle.vx_dialogue.specs.Kept as Stays;
ghost use Rattle.vx_dialogue.specs.Kept.{same_entry};
ghost use Rattle.vx_dialogue.specs.Scripts.{all_pops, from_outside, onto, asked};
ghost use Rattle.vx_dialogue.specs.Standing.{entries_of, path_of, IsSound};
ghost use Rattle.vx_dialogue.specs.Dialogue.{shared};

use crate::question::{put_declarations, put_pops};
use crate::symbols::Variables;
use std::alloc::{AllocError, Global};
use std::rc::Rc;
use vx_segments::Entry;
use vx_smt_meaning::Command;
use vx_terms::Term;
use vx_terms::make::not;

/// An entry that was sent, and how many symbols were declared before it.
#[derive(Drop)]
pub struct Sent {
    entry: Entry,
    before: usize,
}

/// The entries of the last question's path, and the symbols that are declared for them.
#[derive(Drop)]
pub struct Standing {
    sent: Vec<Sent>,
    declared: Variables,
}

// the segment of the last entry; where there is none, the first one
fn last_segment(sent: &[Sent]) -> u64
    ensures { result ≡ last_of 0 (entries_of sent.now) }
{
    match sent.last() {
        Some(last) => last.entry.segment,
        None => 0,
    }
}

// how many levels entries open that stand behind this segment
fn depth(before: u64, sent: &[Sent]) -> usize
    ensures { result ≡ segments.depth before (entries_of sent.now) }
{
    let mut last = before;
    let mut levels = 0;
    for s in sent {
        if s.entry.segment != last {
            levels += 1;
        }
        last = s.entry.segment;
    }
    levels
}

// the same term in the same segment
fn is_same(a: &Entry, b: &Entry) -> bool
    ensures { result ≡ same_entry (entry a.now) (entry b.now) }
{
    a.segment == b.segment && a.term.is_same(&b.term)
}

// how many entries stay where another path comes next (None: not even the member's own level stays)
fn kept(sent: &[Sent], path: &[Entry]) -> Option<usize>
    ensures { result ≡ Stays.kept (entries_of sent.now) (map entry path.now) }
{
    let mut last = 0;
    let mut start = None;
    for i in 0..sent.len() {
        let old = &sent[i].entry;
        // what stays if the two part here
        let here = if old.segment == last { start } else { Some(i) };
        if i >= path.len() || !is_same(old, &path[i]) {
            return here;
        }
        last = old.segment;
        start = here;
    }
    Some(sent.len())
}

impl Standing {
    pub fn new(alloc: Global) -> Standing {
        Standing {
            sent: Vec::new(alloc),
            declared: Variables::new(alloc),
        }
    }

    /// How many entries there are. No memory.
    pub fn len(&self) -> usize
        ensures { result ≡ length (path_of self.now) }
    {
        self.sent.len()
    }

    /// Goes back to the first so many entries.
    fn back_to(&mut self, count: usize)
        requires { IsSound self.old }
        ensures path { path_of self.new ≡ take count (path_of self.old) }
        ensures sound { IsSound self.new }
    {
        if count < self.sent.len() {
            let symbols = self.sent[count].before;
            self.sent.truncate(count);
            self.declared.back_to(symbols);
        }
    }

    /// Declares the symbols of a term that are missing, and tells how many were declared before.
    #[tactic(auto, using(crate::proofs::Counted::missing_within))]
    fn put_missing(
        &mut self,
        alloc: Global,
        commands: &mut Vec<Command>,
        t: &Term,
    ) -> Result<usize, AllocError>
        ensures said { OnOk result (map command commands.new.items ≡ map command commands.old.items ++ declarations (missing self.old.declared (term t.now))) }
        ensures declared { OnOk result (self.new.declared ≡ with_variables self.old.declared (term t.now)) }
        ensures before { IfOk result (λ before. before ≡ length self.old.declared) }
        ensures same { self.new.sent ≡ self.old.sent }
    {
        let before = self.declared.len();
        self.declared.add_term(alloc, t)?;
        put_declarations(alloc, commands, self.declared.behind(before))?;
        Ok(before)
    }

    /// Says an entry: its level, if it opens one, the symbols that are missing, and its assertion.
    fn say(
        &mut self,
        alloc: Global,
        commands: &mut Vec<Command>,
        e: &Entry,
    ) -> Result<(), AllocError>
        requires { IsSound self.old }
        ensures said { OnOk result (map command commands.new.items
            ≡ map command commands.old.items ++ ((opening (last_of 0 (path_of self.old)) (entry e.now)
            ++ declarations (missing self.old.declared (entry e.now).term)) ++ Spec.Assert (entry e.now).term ∷ [])) }
        ensures path { OnOk result (path_of self.new ≡ path_of self.old ++ entry e.now ∷ []) }
        ensures sound { OnOk result (IsSound self.new) }
    {
        if e.segment != last_segment(&self.sent) {
            commands.push(Command::Push(1))?;
        }
        let before = self.put_missing(alloc, commands, &e.term)?;
        commands.push(Command::Assert(e.term.clone()?))?;
        self.sent.push(Sent {
            entry: e.copy()?,
            before,
        })?;
        Ok(())
    }

    /// Says entries, one after the other.
    fn say_all(
        &mut self,
        alloc: Global,
        commands: &mut Vec<Command>,
        entries: &[Entry],
    ) -> Result<(), AllocError>
        requires { IsSound self.old }
        ensures said { OnOk result (map command commands.new.items
            ≡ map command commands.old.items ++ segments.sent (last_of 0 (path_of self.old)) (with_listed [] (terms (path_of self.old)))
            (map entry entries.now)) }
        ensures path { OnOk result (path_of self.new ≡ path_of self.old ++ map entry entries.now) }
        ensures sound { OnOk result (IsSound self.new) }
    {
        for e in entries {
            self.say(alloc, commands, e)?;
        }
        Ok(())
    }

    /// Opens the member's own level, and the levels of a path.
    pub fn begin(
        &mut self,
        alloc: Global,
        commands: &mut Vec<Command>,
        path: &[Entry],
    ) -> Result<(), AllocError>
        ensures said { OnOk result (map command commands.new.items ≡ map command commands.old.items ++ from_outside (map entry path.now)) }
        ensures path { OnOk result (path_of self.new ≡ map entry path.now) }
        ensures sound { OnOk result (IsSound self.new) }
    {
        self.sent.clear();
        self.declared.back_to(0);
        commands.push(Command::Push(1))?;
        self.say_all(alloc, commands, path)
    }

    /// Closes all levels of the member, and begins again.
    pub fn begin_again(
        &mut self,
        alloc: Global,
        commands: &mut Vec<Command>,
        path: &[Entry],
    ) -> Result<(), AllocError>
        ensures said { OnOk result (map command commands.new.items ≡ map command commands.old.items ++ (all_pops (path_of self.old) ++ from_outside (map entry path.now))) }
        ensures path { OnOk result (path_of self.new ≡ map entry path.now) }
        ensures sound { OnOk result (IsSound self.new) }
    {
        commands.push(Command::Pop(1))?;
        commands.push(Command::Pop(1))?;
        put_pops(commands, depth(0, &self.sent))?;
        self.begin(alloc, commands, path)
    }

    /// Goes on to another path, of which the first so many entries stay.
    fn go_on(
        &mut self,
        alloc: Global,
        commands: &mut Vec<Command>,
        path: &[Entry],
        count: usize,
    ) -> Result<(), AllocError>
        requires sound { IsSound self.old }
        requires stays { Stays.kept (path_of self.old) (map entry path.now) ≡ Some count }
        requires within { (count ≤ length self.old.sent.items) × (count ≤ length path.now) }
        ensures said { OnOk result (map command commands.new.items ≡ map command commands.old.items ++ onto (path_of self.old) (map entry path.now) (Some count)) }
        ensures path { OnOk result (path_of self.new ≡ map entry path.now) }
        ensures sound { OnOk result (IsSound self.new) }
    {
        let last = last_segment(&self.sent[..count]);
        commands.push(Command::Pop(1))?;
        put_pops(commands, depth(last, &self.sent[count..]))?;
        self.back_to(count);
        self.say_all(alloc, commands, &path[count..])
    }

    /// Goes on to another path: what stays of the last question's path isn't sent again.
    pub fn change_to(
        &mut self,
        alloc: Global,
        commands: &mut Vec<Command>,
        path: &[Entry],
    ) -> Result<(), AllocError>
        requires { IsSound self.old }
        ensures said { OnOk result (map command commands.new.items
            ≡ map command commands.old.items ++ onto (path_of self.old) (map entry path.now) (Stays.kept (path_of self.old) (map entry path.now))) }
        ensures path { OnOk result (path_of self.new ≡ map entry path.now) }
        ensures sound { OnOk result (IsSound self.new) }
    {
        match kept(&self.sent, path) {
            Some(count) => self.go_on(alloc, commands, path, count),
            None => self.begin_again(alloc, commands, path),
        }
    }

    /// Closes the last question's own level, and goes on behind its path with these entries.
    pub fn go_further(
        &mut self,
        alloc: Global,
        commands: &mut Vec<Command>,
        entries: &[Entry],
    ) -> Result<(), AllocError>
        requires { IsSound self.old }
        ensures said { OnOk result (map command commands.new.items
            ≡ map command commands.old.items ++ (Spec.Pop 1 ∷ segments.sent (last_of 0 (path_of self.old)) (with_listed [] (terms (path_of self.old)))
            (map entry entries.now))) }
        ensures path { OnOk result (path_of self.new ≡ path_of self.old ++ map entry entries.now) }
        ensures sound { OnOk result (IsSound self.new) }
    {
        commands.push(Command::Pop(1))?;
        self.say_all(alloc, commands, entries)
    }

    /// Opens the question's own level, and asserts its negated condition there. What is declared for it goes with that level.
    pub fn ask(
        &mut self,
        alloc: Global,
        commands: &mut Vec<Command>,
        condition: &Rc<Term>,
    ) -> Result<(), AllocError>
        requires { IsSound self.old }
        ensures said { OnOk result (map command commands.new.items ≡ map command commands.old.items ++ asked (path_of self.old) (shared condition.now)) }
        ensures path { OnOk result (path_of self.new ≡ path_of self.old) }
        ensures sound { OnOk result (IsSound self.new) }
    {
        let negated = not(alloc, condition)?;
        commands.push(Command::Push(1))?;
        let before = self.put_missing(alloc, commands, &negated)?;
        self.declared.back_to(before);
        commands.push(Command::Assert(negated))?;
        Ok(())
    }
}
