// A text is cut at a mark.
ghost use Rattle.std.specs.Prelude.{◌≡◌, ◌<◌, ◌==◌};
ghost use Rattle.std.specs.List.{before_first, after_first};

// What stands in front of the first such character, which is all where there is none, and what stands behind it.
pub(crate) fn parted<'a>(text: &'a str, mark: char) -> (&'a str, &'a str)
    requires { mark < 128 }
    ensures front { result.0.now ≡ before_first (λ b. b == mark) text.now }
    ensures behind { result.1.now ≡ after_first (λ b. b == mark) text.now }
{
    text.split_once(mark).unwrap_or((text, ""))
}
