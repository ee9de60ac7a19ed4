// Where a dialogue stands between questions.
ghost use Rattle.std.specs.Prelude.{◌≡◌, ◌++◌, OnOk, IfOk, length, map};
ghost use Rattle.vx_smt_meaning.specs.Views.{command};
ghost use Rattle.vx_segments.specs.Views.{entry};
ghost use Rattle.vx_dialogue.specs.Scripts as Said;
ghost use Rattle.vx_dialogue.specs.Scripts.{said_before, question};
ghost use Rattle.vx_dialogue.specs.Bases.{standing, path_behind};
ghost use Rattle.vx_dialogue.specs.Standing.{path_of, IsSound};
ghost use Rattle.vx_dialogue.specs.Places.{scope, IsReady};
ghost use Rattle.vx_dialogue.specs.Dialogue.{shared};

use crate::base::Base;
use crate::standing::Standing;
use std::alloc::{AllocError, Global};
use std::rc::Rc;
use vx_segments::Entry;
use vx_smt_meaning::Command;
use vx_terms::Term;

#[derive(Clone, Copy)]
pub enum Place {
    Outside,
    Inside,
    Left,
}

/// The levels that are open between questions, and what stands on them.
#[derive(Drop)]
pub struct Levels {
    place: Place,
    // outside of members it tells nothing
    standing: Standing,
}

impl Levels {
    pub fn new(alloc: Global) -> Levels
        ensures scope { scope result ≡ Said.Outside }
        ensures ready { IsReady result }
    {
        Levels {
            place: Place::Outside,
            standing: Standing::new(alloc),
        }
    }

    /// Ends the member, if one is open. Its levels stay open until the next question.
    pub fn leave(&mut self)
        ensures scope { scope self.new ≡ Said.left (scope self.old) }
        ensures ready { IsReady self.old → IsReady self.new }
    {
        if let Place::Inside = self.place {
            self.place = Place::Left;
        }
    }

    /// How many entries of the member's last question stand; none where no member is open. No memory.
    pub fn standing(&self) -> usize
        ensures { result ≡ length (standing (scope self.now)) }
    {
        match self.place {
            Place::Inside => self.standing.len(),
            Place::Outside | Place::Left => 0,
        }
    }

    /// From where the dialogue stands to the levels of a path.
    fn move_to(
        &mut self,
        alloc: Global,
        commands: &mut Vec<Command>,
        base: Base,
        path: &[Entry],
    ) -> Result<(), AllocError>
        requires { IsReady self.old }
        ensures said { OnOk result (map command commands.new.items
            ≡ map command commands.old.items ++ said_before (scope self.old) (path_behind base (scope self.old) (map entry path.now))) }
        ensures path { OnOk result (path_of self.new.standing ≡ path_behind base (scope self.old) (map entry path.now)) }
        ensures sound { OnOk result (IsSound self.new.standing) }
    {
        match self.place {
            Place::Outside => self.standing.begin(alloc, commands, path),
            Place::Left => self.standing.begin_again(alloc, commands, path),
            Place::Inside => match base {
                Base::Nothing => self.standing.change_to(alloc, commands, path),
                Base::Standing => self.standing.go_further(alloc, commands, path),
            },
        }
    }

    /// The commands that ask a question, up to its check-sat. The dialogue stands behind them then.
    pub fn question(
        &mut self,
        alloc: Global,
        base: Base,
        path: &[Entry],
        condition: &Rc<Term>,
    ) -> Result<Vec<Command>, AllocError>
        requires { IsReady self.old }
        ensures said { IfOk result (λ commands. map command commands.items ≡ question (scope self.old) (path_behind base (scope self.old) (map entry path.now)) (shared condition.now)) }
        ensures inside { OnOk result (scope self.new ≡ Said.Inside (path_behind base (scope self.old) (map entry path.now))) }
        ensures ready { OnOk result (IsReady self.new) }
    {
        let mut commands = Vec::new(alloc);
        self.move_to(alloc, &mut commands, base, path)?;
        self.standing.ask(alloc, &mut commands, condition)?;
        self.place = Place::Inside;
        Ok(commands)
    }
}
