/// What is known of the bytes of a connection whose request isn't whole, so that each byte is looked at a few
/// times at most, however few of them come at once.
#[derive(Clone, Copy, PartialEq, Eq)]
pub enum Known {
    /// No head ends at a place before this one.
    Searched(usize),
    /// The request isn't whole before so many bytes came.
    Needs(usize),
}
