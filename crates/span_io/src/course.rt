//! How the calls on a source, a sink or a door went so far.
ghost use Rattle.std.specs.Prelude.{◌≡◌};
ghost use Rattle.span_io.specs.Courses.{accept_next, close_next, listen_next, read_next};

/// How the reads of a source went.
#[derive(Clone, Copy, PartialEq, Eq)]
pub enum ReadCourse {
    /// Each gave bytes.
    Going,
    /// The last one failed, or gave nothing.
    Stopped,
    /// Behind such a one came another.
    InVain,
}

impl ReadCourse {
    // With another read, which is the last one where it fails or gives nothing.
    pub(crate) fn next(self, last: bool) -> ReadCourse
        ensures { result ≡ read_next self last }
    {
        match self {
            ReadCourse::Going if !last => ReadCourse::Going,
            ReadCourse::Going => ReadCourse::Stopped,
            ReadCourse::Stopped | ReadCourse::InVain => ReadCourse::InVain,
        }
    }
}

/// How the writes to a sink went.
#[derive(Clone, Copy, PartialEq, Eq)]
pub enum WriteCourse {
    /// Each was of some bytes, and took some.
    Going,
    /// The last one failed, at this byte.
    Stopped(u8),
    /// One was of nothing, or came behind one that failed.
    InVain,
}

/// How the calls of a door went. It is asked to listen once, then to accept one connection after the other, each of
/// which is given back before the next.
#[derive(Clone, Copy, PartialEq, Eq)]
pub enum DoorCourse {
    /// None came.
    Fresh,
    /// It listens, and each connection was given back.
    Listening,
    /// It listens, and one connection is out.
    OneOut,
    /// The last one failed.
    Stopped,
    /// One came behind such a one, or out of this order.
    InVain,
}

impl DoorCourse {
    // With a call of `listen`, which went well or failed.
    pub(crate) fn listen(self, well: bool) -> DoorCourse
        ensures { result ≡ listen_next well self }
    {
        match self {
            DoorCourse::Fresh if well => DoorCourse::Listening,
            DoorCourse::Fresh => DoorCourse::Stopped,
            _ => DoorCourse::InVain,
        }
    }

    // With a call of `accept`, which went well or failed.
    pub(crate) fn accept(self, well: bool) -> DoorCourse
        ensures { result ≡ accept_next well self }
    {
        match self {
            DoorCourse::Listening if well => DoorCourse::OneOut,
            DoorCourse::Listening => DoorCourse::Stopped,
            _ => DoorCourse::InVain,
        }
    }

    // With a call of `close`, which can't fail.
    pub(crate) fn close(self) -> DoorCourse
        ensures { result ≡ close_next self }
    {
        match self {
            DoorCourse::OneOut => DoorCourse::Listening,
            _ => DoorCourse::InVain,
        }
    }
}
