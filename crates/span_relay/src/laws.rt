//! Laws over all streams of connections that are relayed. The functions do nothing but call for what they rest on: their
//! contracts are the laws.
ghost use Rattle.span_relay.specs.RelayLaws.{OneRelayReply};

use http_conn::laws::{one_next_request, whole_requests};
use span_convert::laws::one_verdict;

/// A stream has by its outcomes one text of replies, and its good requests have one list of texts.
pub fn one_relay_reply()
    ensures { OneRelayReply }
{
    one_next_request();
    whole_requests();
    one_verdict();
}
