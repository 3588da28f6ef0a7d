/// How much was converted.
#[derive(Clone, Copy, PartialEq, Eq)]
pub struct Tally {
    pub units: u64,
    /// A count that stands still at the end of its type.
    pub spans: u64,
}
