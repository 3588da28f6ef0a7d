//! Why a block of headers gives no context.
ghost use Rattle.std.specs.Prelude.{◌≡◌};
ghost use Rattle.propagation.specs.HeaderCauses.{header_cause_number, header_cause_name};

/// Why a block of header lines tells no context. Each cause has a number, which never changes, and a
/// name, which notes print.
#[derive(Clone, Copy, Debug, PartialEq, Eq)]
pub enum HeaderCause {
    /// A line isn't a name, a colon and a value.
    HeaderLine,
    /// No header of any form is there.
    NoContext,
    /// `traceparent` isn't of its form, or stands twice.
    BadTraceparent,
    /// `b3`, or one of the headers that begin with `X-B3-`, isn't of its form, or stands twice.
    BadB3,
    /// `uber-trace-id` isn't of its form, or stands twice.
    BadUber,
}

impl HeaderCause {
    pub fn number(&self) -> u8
        ensures { result ≡ header_cause_number self.now }
    {
        match self {
            HeaderCause::HeaderLine => 30,
            HeaderCause::NoContext => 31,
            HeaderCause::BadTraceparent => 32,
            HeaderCause::BadB3 => 34,
            HeaderCause::BadUber => 35,
        }
    }

    pub fn name(&self) -> &'static str
        ensures { result.now ≡ header_cause_name self.now }
    {
        match self {
            HeaderCause::HeaderLine => "HeaderLine",
            HeaderCause::NoContext => "NoContext",
            HeaderCause::BadTraceparent => "BadTraceparent",
            HeaderCause::BadB3 => "BadB3",
            HeaderCause::BadUber => "BadUber",
        }
    }
}
