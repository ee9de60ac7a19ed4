// Blanks and comments.
ghost use Rattle.std.specs.Prelude.{◌≡◌, ℕ, ◌∷◌, List};
ghost use Rattle.vx_sexp.specs.Characters.{is_line_end};
ghost use Rattle.vx_sexp.specs.Tokens.{is_space, is_space_from};
ghost use Rattle.cs_serve.specs.Space.{space_by};

use vx_sexp::blank;

#[tactic(auto, unfolding(vx_sexp::specs::Characters::is_line_end))]
fn ends_line(b: u8) -> bool
    ensures { result ≡ is_line_end b }
{
    b == b'\n' || b == b'\r'
}

// whether a comment is open behind a byte; none where the byte is no space
fn comment_behind(comment: bool, b: u8) -> Option<bool>
    ensures { (bs : List ℕ) → is_space_from comment (b ∷ bs) ≡ space_by result bs }
{
    if comment {
        Some(!ends_line(b))
    } else if blank(b) {
        Some(false)
    } else if b == b';' {
        Some(true)
    } else {
        None
    }
}

/// Whether there are only blanks and comments.
pub fn is_space(bytes: &[u8]) -> bool
    ensures { result ≡ is_space bytes.now }
{
    let mut comment = false;
    for b in bytes {
        match comment_behind(comment, *b) {
            Some(open) => comment = open,
            None => return false,
        }
    }
    !comment
}
