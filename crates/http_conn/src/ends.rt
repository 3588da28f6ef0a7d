//! The end of a head, and the bytes up to it.
ghost use Rattle.std.specs.Prelude.{◌≡◌, ◌<◌, ◌↔◌, ℕ, take, IsTrue, IfSome, IfNone};
ghost use Rattle.http_conn.specs.Heads.{EndsAt, EndsFirstAt, EndsNowhere};

// The place of the first CR LF CR LF, none of which stands before a known place.
pub(crate) fn find_end(bytes: &[u8], known: usize) -> Option<usize>
    requires { (k : ℕ) → k < known → ¬ (EndsAt bytes.now k) }
    ensures some { IfSome result (λ place. EndsFirstAt bytes.now place) }
    ensures none { IfNone result (EndsNowhere bytes.now) }
{
    for place in known..bytes.len() {
        let (_, rest) = bytes.split_at(place);
        if is_end(rest) {
            return Some(place);
        }
    }
    None
}

fn is_end(rest: &[u8]) -> bool
    ensures { IsTrue result ↔ EndsAt rest.now 0 }
{
    matches!(rest, [b'\r', b'\n', b'\r', b'\n', ..])
}

// So many bytes at the front, or all where there are fewer.
pub(crate) fn front(bytes: &[u8], most: usize) -> &[u8]
    ensures { result.now ≡ take most bytes.now }
{
    if bytes.len() <= most {
        return bytes;
    }
    &bytes[..most]
}
