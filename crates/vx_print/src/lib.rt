//! The canonical text of a program.
#![tactic(auto)]

ghost use Rattle.vx_print.specs.Laws.{PlacesAreNotPrinted, PrintedReadsBack};

mod expr;
mod member;
mod stmt;
mod token;

pub use member::print;
use vx_grammar::programs_spelled_once;

/// The canonical text of a program that some text spells, spells it but for places, and nothing else.
pub fn printed_reads_back()
    ensures { PrintedReadsBack }
{
    programs_spelled_once();
}

/// Programs that are the same but for places have one canonical text.
pub fn places_are_not_printed()
    ensures { PlacesAreNotPrinted }
{}
