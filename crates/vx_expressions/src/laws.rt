//! The laws of typing: the relation and the first fault tell the same.

ghost use Rattle.vx_expressions.specs.Laws.{TypesAgree, ListsAgree, SharesAgree, ValuesAgree, PermissionsAgree, AssertionsAgree, UntypedAreFaulty, OthersAreFaulty, HasOneType, PermissionsAreNoValues, PureAreWalkedAlike};
ghost use Rattle.vx_expressions.specs.Faults.{assertion, check};
ghost use Rattle.vx_expressions.specs.Examples.{Computes, after, asserted, bodies, faulty, here, later, typed, unapplied, within};

/// An expression has the type that its check gives, and a first fault exactly where it has none.
pub fn types_are_told()
    ensures types { TypesAgree }
    ensures lists { ListsAgree }
    ensures shares { SharesAgree }
    ensures untyped { UntypedAreFaulty }
{}

/// An assertion is what its check passes, and it has a first fault exactly where it is none.
pub fn assertions_are_told()
    ensures assertions { AssertionsAgree }
    ensures values { ValuesAgree }
    ensures permissions { PermissionsAgree }
    ensures others { OthersAreFaulty }
{}

/// Where no permission stands, an assertion is walked as any expression is.
pub fn pure_assertions_are_expressions()
    ensures { PureAreWalkedAlike }
{}

/// An expression has one type at most, and none where it holds a permission.
pub fn types_are_single()
    ensures one { HasOneType }
    ensures apart { PermissionsAreNoValues }
{}

/// Expressions with their types, and with their first faults.
pub fn example_expressions()
    ensures typed { Computes (check here) typed }
    ensures faulty { Computes (check here) faulty }
    ensures later { Computes (check after) later }
    ensures unapplied { Computes (check within) unapplied }
{}

/// Assertions, and what is none, with its first fault.
#[tactic(auto, unfolding(vx_frac::specs::Fractions::lowest))]
pub fn example_assertions()
    ensures asserted { Computes (assertion here) asserted }
    ensures bodies { Computes (assertion within) bodies }
{}
