//! How the lines of a head end, and their number.
ghost use Rattle.std.specs.Prelude.{◌≡◌, ◌==◌, nat_eq, cond, drop};
ghost use Rattle.std.specs.List.{count_by};
ghost use Rattle.http_conn.specs.Heads.{from_request_line, has_lone_line_feed, has_too_many_lines};
ghost use Rattle.httparse.specs.Ascii.{line_feed};

// The most lines between the request line and the empty line.
pub(crate) const MOST_LINES: usize = 64;

// Whether a line ends in a line feed alone.
pub(crate) fn has_lone_feed(head: &[u8]) -> bool
    ensures { result ≡ has_lone_line_feed head.now }
{
    let mut last = 0;
    'bytes: for byte in head {
        if *byte == b'\n' && last != b'\r' {
            return true;
        }
        last = *byte;
    }
    false
}

// Whether more lines than that stand between the request line and the empty line.
pub(crate) fn is_long(head: &[u8]) -> bool
    ensures { result ≡ has_too_many_lines head.now }
{
    line_count(request_on(head)) > MOST_LINES + 2
}

// A head from its request line on: an empty line in front of it is ignored (RFC 9112, section 2.2).
fn request_on(head: &[u8]) -> &[u8]
    ensures { result.now ≡ from_request_line head.now }
{
    match head {
        [b'\r', b'\n', rest @ ..] => rest,
        _ => head,
    }
}

fn line_count(head: &[u8]) -> usize
    ensures { result ≡ count_by (λ b. b == line_feed) head.now }
{
    head.iter().filter(|byte| **byte == b'\n').count()
}
