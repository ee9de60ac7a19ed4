// How serving ends.
ghost use Rattle.std.specs.Prelude.{◌≡◌};
ghost use Rattle.cs_serve.specs.Endings.{status, farewell};

/// How serving ended.
#[derive(Clone, Copy)]
pub enum Ending {
    /// `exit` is answered.
    Exited,
    /// The input is at its end, and only blanks and comments are left.
    Exhausted,
    /// No command goes on from what is left.
    BadToken,
    /// The input is at its end, and a command isn't.
    Unfinished,
    SourceFailed,
    /// So many bytes are read as may be, and no command is finished.
    TooLong,
    SinkFailed,
    /// Memory ran out.
    Want,
}

impl Ending {
    /// The status that tells it.
    pub fn status(self) -> u8
        ensures { result ≡ status self }
    {
        match self {
            Ending::Exited => 0,
            Ending::Exhausted => 0,
            Ending::BadToken => 1,
            Ending::Unfinished => 1,
            Ending::SourceFailed => 3,
            Ending::TooLong => 4,
            Ending::SinkFailed => 6,
            Ending::Want => 7,
        }
    }

    /// What is put behind the answers.
    pub fn farewell(self) -> &'static str
        ensures { result.now ≡ farewell self }
    {
        match self {
            Ending::Exited => "",
            Ending::Exhausted => "",
            Ending::BadToken => "(error \"S2\")\n",
            Ending::Unfinished => "(error \"S1\")\n",
            Ending::SourceFailed => "",
            Ending::TooLong => "",
            Ending::SinkFailed => "",
            Ending::Want => "",
        }
    }
}
