//! A law of batches in datagrams, as the contract of a function that does nothing.
ghost use Rattle.span_agent.specs.Contents.{ContentCauses};

use thrift_binary::Binary;
use thrift_compact::Compact;

/// A cause of the batch in a datagram is that of the offence that counts in its content.
pub fn content_causes()
    ensures { ContentCauses }
{
    thrift_core::laws::one_step::<Compact>();
    thrift_core::laws::one_framing::<Compact>();
    thrift_core::laws::one_step::<Binary>();
    thrift_core::laws::one_framing::<Binary>();
}
