/// A place in a group. Numbers begin at 1, and spans are counted through the scopes of their group.
#[derive(Clone, Copy, PartialEq, Eq)]
pub enum Place {
    Whole,
    Resource,
    Scope(u32),
    Span(u32),
    /// The span, and the event in it.
    Event(u32, u32),
    /// The span, and the link in it.
    Link(u32, u32),
}
