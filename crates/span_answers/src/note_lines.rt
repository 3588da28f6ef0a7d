//! The line that says why a body has no text in the target form.
ghost use Rattle.std.specs.Prelude.{◌≡◌, ◌++◌, ◌∷◌, [], codes, IfOk, IsErr, OnOk};
ghost use Rattle.json.specs.Print.{print};
ghost use Rattle.json.specs.Token.{string};
ghost use Rattle.span_answers.specs.NoteLines.{HasKey, fault_line, key_part, refusal_line};

use itoa::Buffer;
use json::Writer;
use span_convert::{Refusal, TargetFault};
use span_io::{Blob, OutOfMemory};
use span_notes::append_pieces;
use std::alloc::Global;
use trace_model::Fault;

/// Appends the unit and the cause of a refusal.
pub(crate) fn write_refusal(out: &mut Blob, refusal: &Refusal) -> Result<(), OutOfMemory>
    ensures { OnOk result (out.new ≡ out.old ++ refusal_line refusal.now) }
{
    let mut unit = Buffer::new();
    let mut number = Buffer::new();
    append_pieces(
        out,
        &[
            b"unit ".as_slice(),
            unit.format(refusal.unit).as_bytes(),
            b": cause ".as_slice(),
            number.format(refusal.cause.number()).as_bytes(),
            b" ".as_slice(),
            refusal.cause.name().as_bytes(),
            b"\n".as_slice(),
        ],
    )
}

/// Appends the unit and the fault of a target, with its key, where it has one.
pub(crate) fn write_fault(
    alloc: Global,
    out: &mut Blob,
    found: &TargetFault,
) -> Result<(), OutOfMemory>
    ensures { OnOk result (out.new ≡ out.old ++ fault_line found.now) }
{
    let mut unit = Buffer::new();
    let mut number = Buffer::new();
    let key = key_of(alloc, &found.fault)?;
    append_pieces(
        out,
        &[
            b"unit ".as_slice(),
            unit.format(found.unit).as_bytes(),
            b": fault ".as_slice(),
            number.format(found.fault.number()).as_bytes(),
            b" ".as_slice(),
            found.fault.name().as_bytes(),
            key.as_slice(),
            b"\n".as_slice(),
        ],
    )
}

/// A space and the key of a fault that has one, as a JSON string, or nothing. Only a key takes memory.
pub fn key_of(alloc: Global, fault: &Fault) -> Result<Blob, OutOfMemory>
    ensures says { IfOk result (λ key. key ≡ key_part fault.now) }
    ensures wants { IsErr result → HasKey fault.now }
{
    match fault {
        Fault::OwnKey(key) => json_of(alloc, key.as_str()),
        Fault::EndBeforeStart | Fault::EventText | Fault::ChildOfLink | Fault::DoubleInText => {
            Ok(Blob::new(alloc))
        }
    }
}

// A space and a text as a JSON string.
fn json_of(alloc: Global, text: &str) -> Result<Blob, OutOfMemory>
    ensures { IfOk result (λ json. json ≡ codes " " ++ print (string text.now ∷ [])) }
{
    let mut out = Writer::new(Vec::new(alloc));
    out.string(text)?;
    let mut json = Blob::new(alloc);
    json.append(b" ")?;
    json.append(out.into_inner().as_slice())?;
    Ok(json)
}
