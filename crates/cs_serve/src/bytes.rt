// Bytes behind a place.
ghost use Rattle.std.specs.Prelude.{◌≡◌, ◌≤◌, length, drop, vec_len};

/// What stands behind the first so many.
#[tactic(auto, using(vx_sexp::proofs::Pieces::rest_whole))]
pub fn behind(bytes: &[u8], at: usize) -> &[u8]
    requires { at ≤ length bytes.now }
    ensures { result.now ≡ drop at bytes.now }
{
    &bytes[at..]
}

/// The first so many are gone. No memory.
#[tactic(auto, using(crate::proofs::Fronts::rotated))]
pub fn drop_front(bytes: &mut Vec<u8>, count: usize)
    requires { count ≤ vec_len bytes.old }
    ensures { bytes.new.items ≡ drop count bytes.old.items }
{
    if count == 0 {
        return;
    }
    let left = bytes.len() - count;
    bytes.rotate_left(count);
    bytes.truncate(left);
}
