//! Laws over all streams of connections. The functions do nothing but call for what they rest on: their contracts
//! are the laws.
ghost use Rattle.span_gateway.specs.StatedLaws.{OneReply};

use http_conn::laws::{one_next_request, whole_requests};
use span_convert::laws::one_verdict;

/// A stream has one text of replies, and ends in one way.
pub fn one_reply()
    ensures { OneReply }
{
    one_next_request();
    whole_requests();
    one_verdict();
}
