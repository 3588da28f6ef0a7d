//! The context that headers pass.
use crate::ids::Ids;
use crate::sampling::Sampling;
use span_io::Text;

/// What one service passes to the next with a call.
#[derive(Drop)]
pub struct Context {
    pub ids: Option<Ids>,
    pub sampling: Sampling,
    /// The `tracestate` of W3C Trace Context, its members joined by commas.
    pub state: Text,
}
