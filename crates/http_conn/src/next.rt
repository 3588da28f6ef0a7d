//! What stands next in the bytes of a connection.
use span_io::Form;

/// What stands at the front of the bytes that have no answer yet.
#[derive(Clone, Copy, PartialEq, Eq)]
pub enum Next {
    /// A request that isn't whole, or nothing.
    Need,
    /// A whole request.
    Whole(Request),
    /// No request that is read: this status is answered, and the connection ends (RFC 9112, section 9.6).
    Refuse(u16),
}

/// A whole request.
#[derive(Clone, Copy, PartialEq, Eq)]
pub struct Request {
    /// 0, or the status that is answered whatever the body holds.
    pub verdict: u16,
    /// The form of the body, where the verdict is 0.
    pub form: Option<Form>,
    /// Where the body begins (RFC 9112, section 6).
    pub body_at: usize,
    /// The length of head and body.
    pub length: usize,
    /// Whether the connection ends behind the answer (RFC 9112, section 9.3).
    pub close: bool,
}
