// Laws of the definitions.
ghost use Rattle.std.specs.Prelude.{Bool, List, [], ◌++◌, map};
ghost use Rattle.vx_segments.specs.Segments.{Entry};
ghost use Rattle.vx_terms.specs.Terms.{Term};
ghost use Rattle.vx_smt_meaning.specs.Commands.{Level, stack_from};
ghost use Rattle.vx_smt_meaning.specs.WellFormed.{IsWellFormed};
ghost use Rattle.vx_dialogue.specs.Askable.{AreAskable};
ghost use Rattle.vx_dialogue.specs.Live.{IsAsked};
ghost use Rattle.vx_dialogue.specs.Scripts.{Outside, ScopedTurn, plain, question, said_by, scope_from, script};

/// Behind all turns, whatever they ask and whatever numbers their paths carry, a question's live assertions are its negated condition
/// and its path, and its live symbols are those of these; both stand over what the levels below all members have.
pub fn questions_are_live()
    ensures { (base : List Level) (turns : List ScopedTurn) (path : List Entry) (condition : Term) →
        IsAsked base path condition (stack_from base (said_by Outside turns ++ question (scope_from Outside turns) path condition)) }
{}

/// Where each question is over the standard symbols and symbols v, each v at one sort, and asserts what is of sort Bool,
/// all that a dialogue says is well formed: names are spelled, each symbol is declared before it is used, with its sorts,
/// and no live one is declared again; and no level is left that isn't open.
pub fn scripts_are_well_formed()
    ensures { (certify : Bool) (turns : List ScopedTurn) → AreAskable (map plain turns) → IsWellFormed (script certify [] turns) }
{}
