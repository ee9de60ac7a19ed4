//! The codes of what is asked.

ghost use Rattle.std.specs.Prelude.{◌≡◌};
ghost use Rattle.vx_rules.specs.Codes.{code, code_number};

/// What a question asks for.
#[derive(Clone, Copy)]
pub enum Code {
    Assert,
    Permission,
    Amount,
    Divisor,
    Call,
    Function,
    Postcondition,
    Entry,
    Kept,
    Fold,
    Unfold,
    Measure,
}

impl Code {
    /// Its number, from 1 to 12.
    pub fn number(self) -> u8
        ensures { result ≡ code_number (code self) }
    {
        match self {
            Code::Assert => 1,
            Code::Permission => 2,
            Code::Amount => 3,
            Code::Divisor => 4,
            Code::Call => 5,
            Code::Function => 6,
            Code::Postcondition => 7,
            Code::Entry => 8,
            Code::Kept => 9,
            Code::Fold => 10,
            Code::Unfold => 11,
            Code::Measure => 12,
        }
    }
}
