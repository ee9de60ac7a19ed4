// What a session shows of its proofs, and of its causes.
ghost use Rattle.cs_session.specs.Answering.{UndecidedHasItsCause};
ghost use Rattle.cs_session.specs.Few.{FewAreDecided, OppositesAreRefuted};
ghost use Rattle.cs_session.specs.Kept.{ShownIsReadBack, KeptIsShown};

/// What `get-proof` is answered by is the text of the steps that were kept of the last unsat, and is read back as these steps. Behind
/// each unsat it is answered so.
pub fn kept_proofs_are_shown()
    ensures read_back { ShownIsReadBack }
    ensures shown { KeptIsShown }
{}

/// Each undecided answer has its cause.
pub fn undecided_has_its_cause()
    ensures { UndecidedHasItsCause }
{}

/// Where no term of the live assertions is an Int or a Real, and at most ten are Bool, no answer is undecided.
pub fn few_are_decided()
    ensures { FewAreDecided }
{}

/// Where `false` is asserted, or a term and its negation, no answer is undecided.
pub fn opposites_are_refuted()
    ensures { OppositesAreRefuted }
{}
