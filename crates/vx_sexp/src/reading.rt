// The first s-expression of bytes that come piece by piece.
ghost use Rattle.std.specs.Prelude.{◌≡◌, ◌≤◌, ◌<◌, ◌+◌, ◌++◌, ◌∷◌, ℕ, List, drop, IfOk, IfErr, Err, Some, true, slice_index};
ghost use Rattle.vx_sexp.specs.declared.reader.SexpFault.TheVariants as fault;
ghost use Rattle.vx_sexp.specs.declared.token.Token.TheVariants.{Open, Close, Atom};
ghost use Rattle.vx_sexp.specs.declared.token.Kind.{Kind};
ghost use Rattle.vx_sexp.specs.declared.scan.Mode.TheVariants.{Word};
ghost use Rattle.vx_sexp.specs.Scanning.{token_at, kind_of, Found};
ghost use Rattle.vx_sexp.specs.Pieces.{begun_by, lives, IsKnown, fresh, Meets, Before, StopsAt, RunsToEnd, Reached, EndsAt, IsFaulty, StepIs, Falls, OnAt, Beyond, IsNotOn};

use crate::characters::word_byte;
use crate::scan::{Class, Cut, Mode, all_in, scan_run};
use crate::word::{begun, kind};
use crate::{Kind, SexpFault};

/// The most lists that are open at once.
const MOST_OPEN: usize = 4096;

/// How far the first s-expression of some bytes is read, which come piece by piece: it goes on where it stopped.
#[derive(Clone, Copy)]
pub struct Reading {
    // so many bytes are looked at
    at: usize,
    // so many lists are open
    depth: usize,
    // what is being read, and where its token begins
    mode: Mode,
    start: usize,
    // of a word, the kind that it has so far
    kind: Option<Kind>,
}

/// What the first byte of a token begins.
#[derive(Clone, Copy)]
pub enum Begin {
    Open,
    Close,
    Inside(Mode),
    Bad,
}

/// What a step finds: it goes on, the bytes end before the expression does, it ends here, or there is none.
#[derive(Clone, Copy)]
pub enum Step {
    On(Reading),
    Paused(Reading),
    Ends(usize),
    Faulty(SexpFault),
}

#[tactic(auto, unfolding(crate::specs::Scanning::token_at))]
fn begins_with(b: u8) -> Begin
    ensures { (bs : List ℕ) → token_at (b ∷ bs) ≡ begun_by result b bs }
{
    if b == b'(' {
        Begin::Open
    } else if b == b')' {
        Begin::Close
    } else if b == b'"' {
        Begin::Inside(Mode::Text)
    } else if b == b'|' {
        Begin::Inside(Mode::Bars)
    } else if word_byte(b) {
        Begin::Inside(Mode::Word)
    } else {
        Begin::Bad
    }
}

// whether there is a first byte, and it isn't 0
fn starts_high(digits: &[u8]) -> bool
    ensures { result ≡ true → slice_index digits.now 0 ≡ 48 → ⊥ }
{
    if digits.is_empty() {
        return false;
    }
    digits[0] != b'0'
}

// whether a word of this kind that goes on with these bytes has that kind still
fn keeps(kind: Kind, so_far: &[u8], more: &[u8]) -> bool
    ensures { result ≡ true → kind_of so_far.now ≡ Some kind → kind_of (so_far.now ++ more.now) ≡ Some kind }
{
    match kind {
        Kind::Numeral => starts_high(so_far) && all_in(Class::Digit, more),
        Kind::Decimal => all_in(Class::Digit, more),
        Kind::Hexadecimal => all_in(Class::Hex, more),
        Kind::Binary => all_in(Class::Bit, more),
        Kind::Symbol => all_in(Class::Symbol, more),
        Kind::Keyword => all_in(Class::Symbol, more),
        Kind::Quoted => false,
        Kind::Text => false,
    }
}

// whether a word of this kind, or of none, can go on to one
fn is_live(kind: Option<Kind>, word: &[u8]) -> bool
    ensures { result ≡ lives kind word.now }
{
    match kind {
        Some(_) => true,
        None => begun(word),
    }
}

// the kind of a word of which the front was known
fn kind_on(known: Option<Kind>, so_far: &[u8], more: &[u8], word: &[u8]) -> Option<Kind>
    requires joined { word.now ≡ so_far.now ++ more.now }
    requires known { IsKnown known so_far.now }
    ensures { result ≡ kind_of word.now }
{
    match known {
        Some(k) => {
            if keeps(k, so_far, more) {
                Some(k)
            } else {
                kind(word)
            }
        }
        None => kind(word),
    }
}

impl Reading {
    /// Nothing is looked at yet.
    #[tactic(auto, using(crate::proofs::Pieces::reached_none))]
    pub fn new() -> Reading
        ensures { (bytes : List ℕ) → Reached result bytes }
    {
        Reading {
            at: 0,
            depth: 0,
            mode: Mode::Space,
            start: 0,
            kind: None,
        }
    }

    // a token ends here, and so many lists are open
    fn behind(at: usize, depth: usize) -> Reading
        ensures { result ≡ fresh at depth }
    {
        Reading {
            at,
            depth,
            mode: Mode::Space,
            start: at,
            kind: None,
        }
    }

    // a list is opened at this place
    fn opened(self, at: usize) -> Step
        requires low { self.depth ≤ 4096 }
        requires room { at < usize.MAX }
        ensures step { (bytes : List ℕ) → Meets self bytes Open (at + 1) → token_at (drop at bytes) ≡ Found Open (drop (at + 1) bytes) → StepIs result bytes }
        ensures falls { OnAt result (at + 1) }
    {
        if self.depth == MOST_OPEN {
            Step::Faulty(SexpFault::Deep(at))
        } else {
            Step::On(Reading::behind(at + 1, self.depth + 1))
        }
    }

    // a list is closed at this place
    fn closed(self, at: usize) -> Step
        requires low { self.depth ≤ 4096 }
        requires room { at < usize.MAX }
        ensures step { (bytes : List ℕ) → Meets self bytes Close (at + 1) → token_at (drop at bytes) ≡ Found Close (drop (at + 1) bytes) → StepIs result bytes }
        ensures falls { OnAt result (at + 1) }
    {
        if self.depth == 0 {
            Step::Faulty(SexpFault::BadToken(at))
        } else if self.depth == 1 {
            Step::Ends(at + 1)
        } else {
            Step::On(Reading::behind(at + 1, self.depth - 1))
        }
    }

    // an atom ends here
    fn atom(self, at: usize) -> Step
        ensures step { (bytes : List ℕ) (kind : Kind) (text : List ℕ) → Meets self bytes (Atom kind text) at → StepIs result bytes }
        ensures falls { OnAt result at }
    {
        if self.depth == 0 {
            Step::Ends(at)
        } else {
            Step::On(Reading::behind(at, self.depth))
        }
    }

    // a token begins at this place
    fn token(self, bytes: &[u8], at: usize) -> Step
        requires { Before self bytes.now at }
        ensures step { StepIs result bytes.now }
        ensures falls { Beyond result at bytes.now }
    {
        match begins_with(bytes[at]) {
            Begin::Open => self.opened(at),
            Begin::Close => self.closed(at),
            Begin::Inside(mode) => Step::On(Reading {
                at: at + 1,
                depth: self.depth,
                mode,
                start: at,
                kind: None,
            }),
            Begin::Bad => Step::Faulty(SexpFault::BadToken(at)),
        }
    }

    // the run stops at this place
    fn stopped(self, bytes: &[u8], at: usize) -> Step
        requires reached { Reached self bytes.now }
        requires stops { StopsAt self bytes.now at }
        ensures step { StepIs result bytes.now }
        ensures falls { Falls result self bytes.now }
    {
        match self.mode {
            Mode::Space => self.token(bytes, at),
            Mode::Comment => self.token(bytes, at),
            Mode::Word => match kind(&bytes[self.start..at]) {
                Some(_) => self.atom(at),
                None => Step::Faulty(SexpFault::BadToken(self.start)),
            },
            Mode::Text => self.atom(at),
            Mode::Quote => self.atom(at),
            Mode::Bars => self.atom(at),
        }
    }

    // the bytes end within a word
    fn word_paused(self, bytes: &[u8]) -> Step
        requires reached { Reached self bytes.now }
        requires word { self.mode ≡ Word }
        requires runs { RunsToEnd self bytes.now Word }
        ensures step { StepIs result bytes.now }
        ensures falls { IsNotOn result }
    {
        let word = &bytes[self.start..];
        let kind = kind_on(
            self.kind,
            &bytes[self.start..self.at],
            &bytes[self.at..],
            word,
        );
        if is_live(kind, word) {
            Step::Paused(Reading {
                at: bytes.len(),
                depth: self.depth,
                mode: Mode::Word,
                start: self.start,
                kind,
            })
        } else {
            Step::Faulty(SexpFault::BadToken(self.start))
        }
    }

    // the bytes end before the run stops
    fn paused(self, bytes: &[u8], mode: Mode) -> Step
        requires reached { Reached self bytes.now }
        requires runs { RunsToEnd self bytes.now mode }
        ensures step { StepIs result bytes.now }
        ensures falls { IsNotOn result }
    {
        match self.mode {
            Mode::Word => self.word_paused(bytes),
            _ => Step::Paused(Reading {
                at: bytes.len(),
                depth: self.depth,
                mode,
                start: self.start,
                kind: None,
            }),
        }
    }

    fn step(self, bytes: &[u8]) -> Step
        requires { Reached self bytes.now }
        ensures step { StepIs result bytes.now }
        ensures falls { Falls result self bytes.now }
    {
        match scan_run(self.mode, &bytes[self.at..]) {
            Cut::Stops(n) => self.stopped(bytes, self.at + n),
            Cut::Runs(mode) => self.paused(bytes, mode),
            Cut::Fails => Step::Faulty(SexpFault::BadToken(self.start)),
        }
    }

    /// How many bytes the first s-expression takes, of bytes of which the first were looked at before; as `read` finds it.
    /// No memory. Where they end before it does, call it again with these bytes and some more.
    ///
    /// # Errors
    /// `Unfinished` where the bytes end before it does; `BadToken` at the first token that can't stand there.
    pub fn go_on(&mut self, bytes: &[u8]) -> Result<usize, SexpFault>
        requires { Reached self.old bytes.now }
        ensures first { IfOk result (λ n. EndsAt n bytes.now) }
        ensures fault { IfErr result (λ e. IsFaulty e bytes.now) }
        ensures reached { (at : ℕ) (more : List ℕ) → result ≡ Err (fault.Unfinished at) → Reached self.new (bytes.now ++ more) }
    {
        'reading: loop {
            match self.step(bytes) {
                Step::On(next) => *self = next,
                Step::Paused(next) => {
                    *self = next;
                    return Err(SexpFault::Unfinished(bytes.len()));
                }
                Step::Ends(end) => return Ok(end),
                Step::Faulty(fault) => return Err(fault),
            }
        }
    }
}
