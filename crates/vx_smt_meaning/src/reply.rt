// The answers to a check.
ghost use Rattle.std.specs.Prelude.{◌≡◌};
ghost use Rattle.vx_smt_meaning.specs.Replies.{reply_of};

#[derive(Clone, Copy)]
pub enum Reply {
    Unsat,
    Sat,
    Unknown,
}

impl Reply {
    /// The reply that these bytes spell. No memory.
    pub fn of(bytes: &[u8]) -> Option<Reply>
        ensures { result ≡ reply_of bytes.now }
    {
        if bytes == b"unsat".as_slice() {
            Some(Reply::Unsat)
        } else if bytes == b"sat".as_slice() {
            Some(Reply::Sat)
        } else if bytes == b"unknown".as_slice() {
            Some(Reply::Unknown)
        } else {
            None
        }
    }
}
