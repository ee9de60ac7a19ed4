// Laws of what the link has answered.
ghost use Rattle.vx_companion.specs.Right.{CompanionIsRight};
ghost use Rattle.vx_companion.specs.Lawful.{CompanionIsLawful};

/// Each unsat that a record of the link tells is right, and each sat is: some interpretation makes all true that was asserted.
pub fn answers_are_right()
    ensures { CompanionIsRight }
{}

/// Where it takes each command of a script, no reply is garbled, and none a refusal.
pub fn replies_are_lawful()
    ensures { CompanionIsLawful }
{}
