//! From the bytes of a text to its program.

ghost use Rattle.std.specs.Prelude.{◌≡◌, ◌≤◌, ◌<◌, ◌-◌, ◌↔◌, ℕ, List, length, take, Err, IfErr, IfOk, IsErrOf, MatchOption, option_copied, option_map};
ghost use Rattle.std.specs.List.{slice_get};
ghost use Rattle.std.specs.Str.{IsUtf8};
ghost use Rattle.std.specs.Str.Lossy.{utf8_valid_len};
ghost use Rattle.vx_tokens.specs.Text.{Scans, first_place, unmarked, after, Ending as End};
ghost use Rattle.vx_tokens.specs.Views.{ending_of};
ghost use Rattle.vx_tokens.specs.Tokens.{tokens_in, token_of, kind_of, Token as Tok};
ghost use Rattle.vx_grammar.specs.MemberReading as reading;
ghost use Rattle.vx_ast.specs.Written.{Program as Tree, written_program};
ghost use Rattle.vx_parser.specs.Answers as answers;
ghost use Rattle.vx_parser.specs.Refusing.{IsRefusal};
ghost use Rattle.vx_parser.specs.Spelling.{Spells, IsProgram};
ghost use Rattle.vx_parser.specs.declared.fault.TextFault.TheVariants as faults;
ghost use Rattle.vx_parser.specs.declared.program.Halt.TheVariants.{Inside};
ghost use Rattle.vx_expr_parser.specs.declared.stop.Stop.TheVariants.{Memory};
ghost use Rattle.vx_parser.specs.declared.stop.MemberStop.TheVariants.{Stopped};

use crate::fault::TextFault;
use crate::member::member;
use crate::stop::MemberStop;
use std::alloc::{AllocError, AllocFailed, Global};
use std::str;
use vx_ast::{Member, Place, Program};
use vx_expr_parser::Stop;
use vx_grammar::{
    measures_are_told, programs_are_spelled, reading_stops_at_first, spelled_programs_are_read,
};
use vx_stmt_parser::skip_semicolon;
use vx_tokens::{Ending, Kind, MAX_TEXT, Symbol, Token, Word, end_of, lex};

/// The most members of a program.
const MAX_MEMBERS: usize = 65536;

/// Why reading members stops. The tokens begin with the one that does not fit, nests too deep, or begins one member
/// too many.
#[derive(Drop)]
enum Halt<'t> {
    Inside(MemberStop<'t>),
    /// Where a member is due.
    NoMember(&'t [Token<'t>]),
    TooMany(&'t [Token<'t>]),
}

impl<'t> Halt<'t> {
    // The tokens where reading halts, unless memory ran out.
    fn rest(&self) -> Option<&'t [Token<'t>]>
        ensures { option_map (λ ts. tokens_in ts.now) result ≡ option_map answers.rest_of (answers.halt_of self.now) }
    {
        match self {
            Halt::Inside(MemberStop::Stopped(Stop::Memory)) => None,
            Halt::Inside(MemberStop::Stopped(Stop::Unexpected(rest))) => Some(*rest),
            Halt::Inside(MemberStop::Stopped(Stop::Measured(rest))) => Some(*rest),
            Halt::Inside(MemberStop::Stopped(Stop::TooDeep(rest))) => Some(*rest),
            Halt::Inside(MemberStop::Bodiless(rest)) => Some(*rest),
            Halt::Inside(MemberStop::MeasuredTwice(rest)) => Some(*rest),
            Halt::NoMember(rest) => Some(*rest),
            Halt::TooMany(rest) => Some(*rest),
        }
    }
}

impl<'t> From<MemberStop<'t>> for Halt<'t> {
    ghost from_gives = { λ stop halt. halt ≡ Inside stop };

    fn from(stop: MemberStop<'t>) -> Halt<'t> {
        Halt::Inside(stop)
    }
}

impl<'t, T: Drop> From<AllocFailed<T>> for Halt<'t> {
    ghost from_gives = { λ _ halt. halt ≡ Inside (Stopped Memory) };

    fn from(_e: AllocFailed<T>) -> Halt<'t> {
        Halt::Inside(MemberStop::Stopped(Stop::Memory))
    }
}

/// The program that a text spells.
///
/// # Errors
/// `TooLong` above 4,194,304 bytes; `NotUtf8` behind the last character before bytes that are no text; else what stands where no
/// program goes on; `Want` where memory runs out.
pub fn parse(alloc: Global, text: &[u8]) -> Result<Program, TextFault>
    // A program that is answered is spelled by the text.
    ensures spelled { IfOk result (λ p. Spells text.now (written_program p)) }
    // A program that the text spells is answered, unless memory runs out. So a text spells one program at most.
    ensures only { (p : Tree) → Spells text.now p → IsProgram result p }
    // A text is too long exactly above 4,194,304 bytes, which is decided first.
    ensures too_long { IsErrOf result faults.TooLong ↔ (4194304 < length text.now) }
    // Bytes that are no text are refused behind the last character before them, which is decided second.
    ensures not_utf8 { length text.now ≤ 4194304 → (IsUtf8 text.now → ⊥) → result ≡ Err (faults.NotUtf8 (after first_place (unmarked (take (utf8_valid_len text.now) text.now)))) }
    // Another fault stands at the first token with which no program goes on, whose text it has as its argument, at the
    // first that nests too deep, or at one member too many; or all tokens fit, and the text goes on with none.
    ensures refused { IfErr result (λ f. length text.now ≤ 4194304 → IsUtf8 text.now → (ts : List Tok) (e : End) → Scans first_place (unmarked text.now) ts e
        → IsRefusal (unmarked text.now) ts e f) }
    // Else the tokens of the text, and how it goes on behind them, give the answer, unless memory runs out.
    ensures reads { length text.now ≤ 4194304 → IsUtf8 text.now → (ts : List Tok) (e : End) → Scans first_place (unmarked text.now) ts e
        → answers.IsAnswer (unmarked text.now) result (answers.answer ts e) }
{
    programs_are_spelled();
    reading_stops_at_first();
    measures_are_told();
    spelled_programs_are_read();
    if text.len() > MAX_TEXT {
        return Err(TextFault::TooLong);
    }
    if let Err(error) = str::from_utf8(text) {
        let place = end_of(&text[..error.valid_up_to()]);
        return Err(TextFault::NotUtf8(place));
    }
    let lexed = lex(alloc, text)?;
    let tokens = lexed.tokens.as_slice();
    match members(alloc, tokens) {
        Ok(members) => match ended(lexed.ending) {
            None => Ok(Program { members }),
            Some(fault) => Err(fault),
        },
        Err(halt) => Err(fault(alloc, tokens, halt, lexed.ending)),
    }
}

fn begins_member(kind: Kind) -> bool
    ensures { result ≡ reading.begins_member (kind_of kind.entry) }
{
    matches!(
        kind,
        Kind::Word(Word::Field)
            | Kind::Word(Word::Predicate)
            | Kind::Word(Word::Function)
            | Kind::Word(Word::Method)
    )
}

#[tactic(auto, unfolding(vx_grammar::specs::MemberReading::members_within))]
fn members<'t>(alloc: Global, tokens: &'t [Token<'t>]) -> Result<Vec<Member>, Halt<'t>>
    ensures { answers.GivesMembers result (reading.members_at (tokens_in tokens.now)) }
{
    let mut members = Vec::new(alloc);
    let mut rest = tokens;
    for _ in 0..tokens.len() {
        let Some((first, inner)) = rest.split_first() else {
            return Ok(members);
        };
        if !begins_member(first.kind) {
            return Err(Halt::NoMember(rest));
        }
        if members.len() >= MAX_MEMBERS {
            return Err(Halt::TooMany(rest));
        }
        let (next, after) = member(alloc, first, inner)?;
        members.push(next)?;
        rest = skip_semicolon(after);
    }
    if rest.is_empty() {
        Ok(members)
    } else {
        Err(Halt::NoMember(rest))
    }
}

// Why a text that ends so is no program, although its tokens spell one.
fn ended(ending: Ending) -> Option<TextFault>
    ensures { MatchOption result (answers.IsEnd (ending_of ending)) (λ f. (answers.IsEnd (ending_of ending) → ⊥)
        × ((bytes : List ℕ) → answers.Shows bytes f (answers.early (ending_of ending)))) }
{
    match ending {
        Ending::AtEnd(_) => None,
        _ => Some(early(ending)),
    }
}

// What stands where no token is left, but one is due.
fn early(ending: Ending) -> TextFault
    ensures { (bytes : List ℕ) → answers.Shows bytes result (answers.early (ending_of ending)) }
{
    match ending {
        Ending::AtEnd(place) | Ending::OpenComment(place) => TextFault::EndOfText(place),
        Ending::WideLiteral(place) => TextFault::WideLiteral(place),
        Ending::BadCharacter(place) => TextFault::BadCharacter(place),
    }
}

// Why a text of these tokens is no program, where reading them halts so.
fn fault(alloc: Global, tokens: &[Token], halt: Halt, ending: Ending) -> TextFault
    ensures { (bytes : List ℕ) → answers.AllStandIn bytes tokens.now → answers.FaultsAs bytes (tokens_in tokens.now) result (answers.halt_of halt.entry) (ending_of ending) }
{
    let Some(rest) = halt.rest() else {
        return TextFault::Want;
    };
    match first_left(tokens, rest) {
        None => early(ending),
        Some(token) => token_fault(alloc, halt, token),
    }
}

// The token of all, with its text, at which the last ones begin.
fn first_left<'a, 't>(tokens: &'a [Token<'t>], last: &[Token<'t>]) -> Option<&'a Token<'t>>
    ensures { option_copied result ≡ slice_get tokens.now (length tokens.now - length last.now) }
{
    tokens.get(tokens.len().saturating_sub(last.len()))
}

// Why a text is no program, where reading halts so at a token.
fn token_fault(alloc: Global, halt: Halt, token: &Token) -> TextFault
    ensures { (bytes : List ℕ) → answers.StandsIn bytes token.now → answers.FaultsAt bytes result (answers.halt_of halt.entry) (token_of token.now) }
{
    match halt {
        Halt::Inside(MemberStop::Stopped(Stop::Memory)) => TextFault::Want,
        Halt::Inside(MemberStop::Stopped(Stop::Unexpected(_))) => {
            unfit(alloc, token, is_foreign(token.kind))
        }
        Halt::Inside(MemberStop::Stopped(Stop::Measured(_))) => unsupported(alloc, token),
        Halt::Inside(MemberStop::Stopped(Stop::TooDeep(_))) => TextFault::TooDeep(token.place),
        Halt::Inside(MemberStop::Bodiless(_)) => bodiless(alloc, token.place),
        Halt::Inside(MemberStop::MeasuredTwice(_)) => unfit(alloc, token, false),
        Halt::NoMember(_) => unfit(alloc, token, is_foreign_member(token.kind)),
        Halt::TooMany(_) => TextFault::TooManyMembers(token.place),
    }
}

// A function without a body.
fn bodiless(alloc: Global, place: Place) -> TextFault
    ensures { (bytes : List ℕ) → answers.Shows bytes result (answers.Abstract place) }
{
    match String::from_str(alloc, "abstract") {
        Err(_) => TextFault::Want,
        Ok(text) => TextFault::Unsupported(place, text),
    }
}

/// A token that is refused by its text.
pub fn unsupported(alloc: Global, token: &Token) -> TextFault
    ensures { (bytes : List ℕ) → answers.StandsIn bytes token.now → answers.Shows bytes result (answers.Unsupported token.now.place (kind_of token.now.kind)) }
{
    unfit(alloc, token, true)
}

// A token where no program goes on with it.
fn unfit(alloc: Global, token: &Token, foreign: bool) -> TextFault
    ensures { (bytes : List ℕ) → answers.StandsIn bytes token.now → answers.Shows bytes result (answers.unfit_token foreign (token_of token.now)) }
{
    match String::from_utf8_lossy(alloc, token.text) {
        Err(_) => TextFault::Want,
        Ok(text) if foreign => TextFault::Unsupported(token.place, text),
        Ok(text) => TextFault::Unexpected(token.place, text),
    }
}

// A word or sign of Viper that this language leaves out.
fn is_foreign(kind: Kind) -> bool
    ensures { result ≡ answers.is_foreign (kind_of kind.entry) }
{
    match kind {
        Kind::Word(word) => is_foreign_word(word),
        Kind::Symbol(symbol) => is_foreign_symbol(symbol),
        _ => false,
    }
}

// The same where a member is due, and the word `adt`.
fn is_foreign_member(kind: Kind) -> bool
    ensures { result ≡ answers.is_foreign_member (kind_of kind.entry) }
{
    match kind {
        Kind::Name(name) => name == "adt",
        _ => is_foreign(kind),
    }
}

fn is_foreign_symbol(symbol: Symbol) -> bool
    ensures { result ≡ answers.is_foreign_symbol symbol }
{
    matches!(symbol, Symbol::OpenBracket | Symbol::At | Symbol::Wand)
}

fn is_foreign_word(word: Word) -> bool
    ensures { result ≡ answers.is_foreign_word word }
{
    matches!(word, Word::Foreign)
}
