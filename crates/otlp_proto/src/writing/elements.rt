//! Messages that stand one after the other in fields of one number.
ghost use Rattle.std.specs.Prelude.{◌≡◌, ◌++◌, ℕ, List, OnOk, OnErr};
ghost use Rattle.span_io.specs.Outside.{GrowsFront};
ghost use Rattle.proto_wire.specs.Records.{IsFieldNumber};
ghost use Rattle.otlp_proto.specs.Canonical.{bytes_field, filled_field, list_text};

use crate::writing::enclosed::{close_field, close_filled};
use proto_wire::open_record;
use span_io::{Blob, OutOfMemory};

/// A message, which stands in a field of wire type 2 of the message around it.
pub trait Message {
    // The one text that is written.
    ghost text: { Self → List ℕ };

    /// Appends the text.
    fn write(&self, out: &mut Blob) -> Result<(), OutOfMemory>
        ensures ok { OnOk result (out.new ≡ out.old ++ text self.now) }
        ensures err { OnErr result (GrowsFront out.old out.new (text self.now)) };
}

/// Appends a message in a field of this number, unless it is empty.
#[tactic(auto, using(crate::proofs::Growth::in_field))]
pub fn write_filled<T: Message>(out: &mut Blob, number: u32, message: &T) -> Result<(), OutOfMemory>
    requires { IsFieldNumber number }
    ensures ok { OnOk result (out.new ≡ out.old ++ filled_field number (T.text message.now)) }
    ensures err { OnErr result
        (GrowsFront out.old out.new (filled_field number (T.text message.now))) }
{
    let begins = out.len();
    open_record(out, number)?;
    let written = message.write(out);
    close_filled(out, number, begins, written)
}

/// Appends a message in a field of this number.
#[tactic(auto, using(crate::proofs::Growth::in_field))]
pub fn write_element<T: Message>(
    out: &mut Blob,
    number: u32,
    message: &T,
) -> Result<(), OutOfMemory>
    requires { IsFieldNumber number }
    ensures ok { OnOk result (out.new ≡ out.old ++ bytes_field number (T.text message.now)) }
    ensures err { OnErr result
        (GrowsFront out.old out.new (bytes_field number (T.text message.now))) }
{
    let begins = out.len();
    open_record(out, number)?;
    let written = message.write(out);
    close_field(out, number, begins, written)
}

/// Appends messages in fields of this number.
pub fn write_elements<T: Message>(
    out: &mut Blob,
    number: u32,
    items: &[T],
) -> Result<(), OutOfMemory>
    requires { IsFieldNumber number }
    ensures ok { OnOk result (out.new ≡ out.old ++ list_text number T.text items.now) }
    ensures err { OnErr result (GrowsFront out.old out.new (list_text number T.text items.now)) }
{
    for item in items {
        write_element(out, number, item)?;
    }
    Ok(())
}
