//! Replies to commands, and their texts.
ghost use Rattle.std.specs.Prelude.{◌≡◌};
ghost use Rattle.cs_session.specs.Texts.{complaint_text, reply_text};

use vx_sexp::Bytes;

/// What is wrong with a command.
#[derive(Clone, Copy)]
pub enum Complaint {
    /// The bytes end before an s-expression does.
    Unfinished,
    BadToken,
    /// Too many open lists.
    Deep,
    /// A name that is unknown, or taken where it is declared.
    Name,
    /// A number that leaves 128 bits.
    Wide,
    /// A command of another form, a term that isn't well-sorted, or no formula.
    Sort,
    /// More levels to be closed than are open, or too many to be opened at once.
    Levels,
    /// No proof where one is asked for.
    NoProof,
}

impl Complaint {
    /// The line that tells it.
    pub fn text(self) -> &'static str
        ensures { result.now ≡ complaint_text self }
    {
        match self {
            Complaint::Unfinished => "(error \"S1\")\n",
            Complaint::BadToken => "(error \"S2\")\n",
            Complaint::Deep => "(error \"S3\")\n",
            Complaint::Name => "(error \"name\")\n",
            Complaint::Wide => "(error \"wide\")\n",
            Complaint::Sort => "(error \"sort\")\n",
            Complaint::Levels => "(error \"levels\")\n",
            Complaint::NoProof => "(error \"no proof\")\n",
        }
    }
}

/// What is answered to a command.
#[derive(Drop)]
pub enum Reply {
    Success,
    /// Another command.
    Unsupported,
    Failed(Complaint),
    Sat,
    Unsat,
    /// The check is undecided.
    Undecided,
    /// The line of a certificate.
    Proof(Bytes),
    /// The reply to `exit`.
    Closed,
}

impl Reply {
    /// Its line.
    pub fn text(&self) -> &[u8]
        ensures { result.now ≡ reply_text self.now }
    {
        match self {
            Reply::Success => b"success\n",
            Reply::Unsupported => b"unsupported\n",
            Reply::Failed(complaint) => complaint.text().as_bytes(),
            Reply::Sat => b"sat\n",
            Reply::Unsat => b"unsat\n",
            Reply::Undecided => b"unknown\n",
            Reply::Proof(line) => line.as_slice(),
            Reply::Closed => b"success\n",
        }
    }
}
