//! Bytes that are no text of a value.
ghost use Rattle.json_members.specs.Texts.{IsUnread};

use json_nodes::Unread;
use span_io::{Cause, Halt, Refusal};

/// What is answered of bytes that gave no value.
pub fn unread(why: Unread) -> Halt<Refusal>
    ensures { IsUnread why result }
{
    match why {
        Unread::OutOfMemory => Halt::OutOfMemory,
        Unread::BadJson => Halt::Why(Refusal {
            unit: 0,
            cause: Cause::BadJson,
        }),
    }
}
