//! A worked example: the members of a small program, one of which rests on another.

ghost use Rattle.std.specs.Prelude.{codes};
ghost use Rattle.vx_resting.specs.Worked.{MustRead};

/// Where the walk of a predicate didn't pass, a method that requires an instance of it rests on it, and one that doesn't
/// mention it is verified.
pub fn a_method_rests_on_its_predicate()
    ensures requires_it { MustRead 1 (codes "rests on predicate P") }
    ensures stands_alone { MustRead 2 (codes "verified") }
{}
