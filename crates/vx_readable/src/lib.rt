//! The questions of walks can be read back from their text.
#![tactic(auto)]

ghost use Rattle.vx_smt_text.specs.Shaped.{IsShaped};
ghost use Rattle.vx_readable.specs.Readable.{IsShapedQuestion, ShapedLaw};
ghost use Rattle.vx_readable.specs.Texts.{SmallNumeralsLaw};
ghost use Rattle.vx_readable.specs.Examples.{question, of_nothing, of_two, too_large, too_low};

/// Each question that a walk of a member can meet is written so that it can be read back: in its condition and its path
/// literals stay below 2^127, applications have arguments, and lists three parts or more. It is so for every program whose
/// own numerals are below 2^127, also for one that isn't typed.
pub fn questions_are_shaped()
    ensures { ShapedLaw }
{}

/// A program that a text spells has such numerals: a text with a larger one spells none.
pub fn texts_have_small_numerals()
    ensures { SmallNumeralsLaw }
{}

/// A question with an application and a conjunction of three can be read back; an application of nothing, a conjunction of
/// two as a list, and a literal of 2^127 or of its negation can't.
pub fn shapes_are_told_apart()
    ensures shaped { IsShapedQuestion question }
    ensures of_nothing { IsShaped of_nothing → ⊥ }
    ensures of_two { IsShaped of_two → ⊥ }
    ensures too_large { IsShaped too_large → ⊥ }
    ensures too_low { IsShaped too_low → ⊥ }
{}
