/// Bytes that are no identifier: of another length, or all zero.
#[derive(Clone, Copy, Debug, PartialEq, Eq)]
pub struct BadId;
