/// A context without identifiers, which `traceparent` and `uber-trace-id` can't tell.
#[derive(Clone, Copy, Debug, PartialEq, Eq)]
pub struct NoIds;
