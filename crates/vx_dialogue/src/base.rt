// How the path of a question is given.

/// What the entries of a question stand behind.
#[derive(Clone, Copy)]
pub enum Base {
    /// Nothing: they are the whole path.
    Nothing,
    /// The path of the member's last question, which goes on with them.
    Standing,
}
