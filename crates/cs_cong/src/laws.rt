//! What the classes and the walks say.
ghost use Rattle.cs_cong.specs.Laws.{MergedAreJoined, JoinedAreMerged, WalksLead, ExplainedAreJoined};

/// What is in one class follows from the claims.
pub fn merged_are_joined()
    ensures { MergedAreJoined }
{}

/// What follows from the claims is in one class.
pub fn joined_are_merged()
    ensures { JoinedAreMerged }
{}

/// A walk leads from its first term to its last, along merges before its time.
pub fn walks_lead()
    ensures { WalksLead }
{}

/// What a chain explains follows from the claims.
pub fn explained_are_joined()
    ensures { ExplainedAreJoined }
{}
