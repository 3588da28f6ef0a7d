//! How large units, inputs and requests may be, in bytes.
ghost use Rattle.std.specs.Prelude.{◌≡◌, ◌^◌};
ghost use Rattle.span_io.specs.Limits.{AreLimits};

/// The most bytes that each thing may have: a unit of a binary form, a JSON text, a whole binary
/// input, and the head, the body and the answer of a request.
#[derive(Clone, Copy, PartialEq, Eq)]
pub struct Limits {
    pub unit: usize,
    pub json: usize,
    pub binary: u64,
    pub head: usize,
    pub body: usize,
    pub reply: usize,
}

impl Limits {
    /// The limits that the program has. No call takes larger ones.
    pub fn shipped() -> Limits
        ensures values { result
            ≡ record { unit = 16777216; json = 67108864; binary = 2 ^ 40; head = 16384; body = 67108864; reply = 67108864 } }
        ensures valid { AreLimits result }
    {
        Limits {
            unit: 16_777_216,
            json: 67_108_864,
            binary: 1_099_511_627_776,
            head: 16_384,
            body: 67_108_864,
            reply: 67_108_864,
        }
    }
}
