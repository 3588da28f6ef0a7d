//! The message in a datagram.
ghost use Rattle.std.specs.Prelude.{◌≡◌, ◌↔◌, ℕ, Bool, List, Result, Err, IsTrue};
ghost use Rattle.span_agent.specs.AgentCauses.{agent_cause_number, agent_cause_name};
ghost use Rattle.span_agent.specs.Headers.{emit_batch};
ghost use Rattle.span_agent.specs.Messages.{Finds, IsMessage, HasCause, TellsBatchIn};
ghost use Rattle.span_agent.specs.private.Arguments.{SaysBatch};
ghost use Rattle.span_agent.specs.declared.message.AgentCause.{AgentCause};

use crate::arguments::batch_in;
use crate::header::read_header;
use span_io::Cause;
use thrift_binary::Binary;
use thrift_compact::Compact;

/// The message of a datagram that hands a batch to the agent (agent.thrift).
#[derive(Clone, Copy)]
pub struct Message<'a> {
    /// Whether it is written in the compact protocol, or in the binary one.
    pub compact: bool,
    /// The bytes of the batch.
    pub batch: &'a [u8],
}

/// Why a datagram has no message that hands over a batch. Each cause has a number, which never changes,
/// and a name, which notes print.
#[derive(Clone, Copy, Debug, PartialEq, Eq)]
pub enum AgentCause {
    /// It doesn't begin with the header of a call (Thrift compact and strict binary protocol).
    BadMessage,
    /// The method isn't `emitBatch`.
    BadName,
    /// The arguments, or the batch, can't be read.
    Reading(Cause),
    /// Bytes follow the arguments.
    Tail,
    /// No argument is the batch.
    NoBatch,
}

impl AgentCause {
    pub fn number(&self) -> u8
        ensures { result ≡ agent_cause_number self.now }
    {
        match self {
            AgentCause::BadMessage => 40,
            AgentCause::BadName => 41,
            AgentCause::Reading(cause) => cause.number(),
            AgentCause::NoBatch => 42,
            AgentCause::Tail => 43,
        }
    }

    pub fn name(&self) -> &'static str
        ensures { result.now ≡ agent_cause_name self.now }
    {
        match self {
            AgentCause::BadMessage => "BadMessage",
            AgentCause::BadName => "BadName",
            AgentCause::Reading(cause) => cause.name(),
            AgentCause::NoBatch => "NoBatch",
            AgentCause::Tail => "Tail",
        }
    }
}

/// Reads the message of a datagram. It takes no memory.
pub fn read_message(datagram: &[u8]) -> Result<Message<'_>, AgentCause>
    // The batch of the datagram is found, and no other.
    ensures message { (compact : Bool) (batch : List ℕ)
        → Finds result compact batch ↔ IsMessage datagram.now compact batch }
    // A cause is answered exactly where it is the first that holds.
    ensures cause { (cause : AgentCause) → (result ≡ Err cause) ↔ HasCause datagram.now cause }
{
    let Some(header) = read_header(datagram) else {
        return Err(AgentCause::BadMessage);
    };
    if !is_emit_batch(header.name) {
        return Err(AgentCause::BadName);
    }
    match batch_by(header.compact, header.rest) {
        Ok(batch) => Ok(Message {
            compact: header.compact,
            batch,
        }),
        Err(cause) => Err(cause),
    }
}

// Whether this is the name of the method that hands over a batch.
fn is_emit_batch(name: &[u8]) -> bool
    ensures { IsTrue result ↔ (name.now ≡ emit_batch) }
{
    name == b"emitBatch".as_slice()
}

// The batch among the arguments, which are in this protocol.
fn batch_by<'a>(compact: bool, bytes: &'a [u8]) -> Result<&'a [u8], AgentCause>
    ensures { (told : Result (List ℕ) AgentCause)
        → TellsBatchIn compact bytes.now told ↔ SaysBatch result told }
{
    if compact {
        return batch_in::<Compact>(bytes);
    }
    batch_in::<Binary>(bytes)
}
