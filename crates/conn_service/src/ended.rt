/// How a connection ended that was served.
#[derive(Clone, Copy, PartialEq, Eq)]
pub enum Ended {
    /// Behind a whole request, or at once, or by a request that asked for it.
    Closed,
    /// The stream ended within a request, which has no answer.
    Cut,
    /// By what is no request that is read. It was answered with this status.
    Refused(u16),
}

/// Why a connection wasn't served to its end.
#[derive(Clone, Copy, Debug, PartialEq, Eq)]
pub enum ServeFault {
    /// A read failed.
    Read,
    /// A write failed.
    Write,
    OutOfMemory,
}
