//! How the calls on a post went so far.
ghost use Rattle.std.specs.Prelude.{◌≡◌};
ghost use Rattle.span_agent.specs.PostCourses.{listen_next, receive_next};

/// How the calls of a post went. It is asked to listen once, and then for one datagram after the other.
#[derive(Clone, Copy, PartialEq, Eq)]
pub enum PostCourse {
    /// None came.
    Fresh,
    /// It listens, and gave a datagram each time.
    Listening,
    /// The last one failed.
    Stopped,
    /// One came behind such a one, or out of this order.
    InVain,
}

impl PostCourse {
    // With a call of `listen`, which went well or failed.
    pub(crate) fn listen(self, well: bool) -> PostCourse
        ensures { result ≡ listen_next well self }
    {
        match self {
            PostCourse::Fresh if well => PostCourse::Listening,
            PostCourse::Fresh => PostCourse::Stopped,
            _ => PostCourse::InVain,
        }
    }

    // With a call of `receive`, which went well or failed.
    pub(crate) fn receive(self, well: bool) -> PostCourse
        ensures { result ≡ receive_next well self }
    {
        match self {
            PostCourse::Listening if well => PostCourse::Listening,
            PostCourse::Listening => PostCourse::Stopped,
            _ => PostCourse::InVain,
        }
    }
}
