//! The hints of a step lead from what is assumed to a clause that leaves nothing.
ghost use Rattle.std.specs.Prelude.{◌≡◌, ◌+◌, ◌<◌, ◌^◌, All};
ghost use Rattle.cs_certificate.specs.Hints.{with, refutes};
ghost use Rattle.cs_certificate.specs.Marks.{is_marked, terms_in, rounds_in, flip, left_by, IsBelow};
ghost use Rattle.cs_certificate.specs.Bridge.{Law, Converse};

use crate::{Clause, Left, Literal, Marks};

fn negation(literal: Literal) -> Literal
    ensures { result ≡ flip literal }
{
    Literal {
        positive: !literal.positive,
        number: literal.number,
    }
}

fn with_literal(found: Left, literal: Literal) -> Left
    ensures { result ≡ with found literal }
{
    match found {
        Left::Nothing => Left::One(literal),
        Left::One(other) if other == literal => Left::One(other),
        Left::One(_) => Left::Many,
        Left::Many => Left::Many,
    }
}

/// What the clause leaves, literals whose negations are marked left out.
fn left_of(marks: &Marks, clause: &[Literal]) -> Left
    ensures { result ≡ left_by (λ l. is_marked marks.now (flip l)) Left.Nothing clause.now }
{
    let mut found = Left::Nothing;
    for literal in clause {
        if !marks.is_marked(negation(*literal)) {
            found = with_literal(found, *literal);
        }
    }
    found
}

/// Do the hints lead from what is assumed to a clause that leaves nothing? The time is that of the
/// literals read, and no memory is taken.
pub fn refutes_by(marks: &mut Marks, clauses: &[Clause], assumed: &[Literal], hints: &[u32]) -> bool
    requires rounds { rounds_in marks.old + 1 < 2 ^ 64 }
    requires assumed { All (IsBelow (terms_in marks.old)) assumed.now }
    requires clauses { All (λ c. All (IsBelow (terms_in marks.old)) c.literals.items) clauses.now }
    ensures value { result ≡ refutes clauses.now assumed.now hints.now }
    ensures terms { terms_in marks.new ≡ terms_in marks.old }
    ensures rounds { rounds_in marks.new ≡ rounds_in marks.old + 1 }
{
    marks.begin();
    for literal in assumed {
        marks.mark(*literal);
    }
    for hint in hints {
        let at = *hint as usize;
        if at >= clauses.len() {
            return false;
        }
        match left_of(marks, &clauses[at].literals) {
            Left::Nothing => return true,
            Left::One(literal) => marks.mark(literal),
            Left::Many => return false,
        }
    }
    false
}

/// Hints refute by number exactly what they refute by term.
pub fn by_terms()
    ensures sound { Law }
    ensures complete { Converse }
{}
