//! How a failure within something counts.
ghost use Rattle.std.specs.Prelude.{◌≡◌};
ghost use Rattle.vx_run.specs.Going.{Outcome, Failed, Stopped};
ghost use Rattle.vx_run.specs.Blame.{counted, failed_as};
ghost use Rattle.vx_run.specs.Views.{outcome};

use crate::outcome::Whole;
use vx_ast::Place;

/// How a failure within something counts.
#[derive(Clone, Copy)]
pub enum Blame {
    Itself,
    /// It is a failure here.
    Fails(Place),
    /// It is a stop here.
    Stops(Place),
}

impl Blame {
    /// An end within this.
    pub fn counted(self, end: Whole) -> Whole
        ensures { outcome result ≡ counted self (outcome end) }
    {
        match (self, end) {
            (Blame::Fails(at), Whole::Failed(_)) => Whole::Failed(at),
            (Blame::Stops(at), Whole::Failed(_)) => Whole::Stopped(at),
            (Blame::Itself, end) => end,
            (Blame::Fails(_), end) => end,
            (Blame::Stops(_), end) => end,
        }
    }

    /// Where a failure within counts as one here.
    pub fn fails(self, at: Place) -> Blame
        ensures { (o : Outcome) → counted self (failed_as (Failed at) o) ≡ counted result o }
    {
        match self {
            Blame::Itself => Blame::Fails(at),
            Blame::Fails(_) => self,
            Blame::Stops(_) => self,
        }
    }

    /// Where a failure within counts as a stop here.
    pub fn stops(self, at: Place) -> Blame
        ensures { (o : Outcome) → counted self (failed_as (Stopped at) o) ≡ counted result o }
    {
        Blame::Stops(at)
    }
}
