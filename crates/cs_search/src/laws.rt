//! What the search derives is what the checker of certificates accepts.
ghost use Rattle.cs_search.specs.Law.{DerivedRefutes};

/// The hints of a derived clause refute its negation, as the checker follows them.
pub fn derived_refutes()
    ensures { DerivedRefutes }
{}
