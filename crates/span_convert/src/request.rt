//! The units of an OTLP request.
ghost use Rattle.std.specs.Prelude.{◌≡◌, ◌<◌, ◌^◌, length};
ghost use Rattle.span_io.specs.declared.form.Form.TheVariants as forms;
ghost use Rattle.proto_wire.specs.Records.{plain_record};
ghost use Rattle.otlp_proto.specs.Rows.{bytes_in};
ghost use Rattle.span_convert.specs.Targets.{form_target};
ghost use Rattle.span_convert.specs.Units.{request_form};
ghost use Rattle.span_convert.specs.Pens.{StandsForAny};
ghost use Rattle.span_convert.specs.private.WalkSteps.{lent_bytes};

use crate::laws::form_targets;
use crate::tally::Tally;
use crate::units::{UnitReader, UnitWriter};
use otlp_proto::{read_group, write_group};
use proto_wire::{Payload, UnitScanner, WireRecord, next_record};
use span_io::{Blob, Cause, Cursor, Halt, Items, OutOfMemory, Scan, Step};
use std::alloc::Global;
use trace_model::{Fault, Group, Remark, proper_group};

/// OTLP in protobuf. It can hold all of a group.
#[derive(Clone, Copy)]
pub(crate) struct Request;

impl UnitReader for Request {
    ghost form = { request_form };

    type Scanner = UnitScanner;

    fn held_by_frames() {
        proto_wire::laws::one_step();
        proto_wire::laws::pieces();
    }

    fn push(scanner: &mut UnitScanner, piece: &[u8]) -> Step {
        scanner.push(piece)
    }

    fn unit_in<'a>(frame: &'a [u8]) -> Option<&'a [u8]> {
        let mut frame = Cursor::new(frame);
        match next_record(&mut frame) {
            Ok(Some(found)) => held_unit(&found),
            Ok(None) => unreachable!(),
            Err(_) => unreachable!(),
        }
    }

    fn read(alloc: Global, unit: &[u8]) -> Result<(Group, Items<Remark>), Halt<Cause>> {
        let read = read_group(alloc, unit)?;
        Ok(read)
    }
}

impl UnitWriter for Request {
    ghost target = { form_target forms.OtlpProto };

    ghost stands = { StandsForAny };

    fn target_laws() {
        form_targets();
    }

    fn none() -> Self {
        Request
    }

    fn write(
        &mut self,
        _alloc: Global,
        out: &mut Blob,
        _before: Tally,
        unit: (Group, Items<Remark>),
    ) -> Result<(), Halt<Fault>> {
        proper_group(&unit.0);
        write_group(out, &unit.0)?;
        bytes_known(out.as_slice());
        Ok(())
    }

    fn close(&self, _out: &mut Blob, _all: Tally) -> Result<(), OutOfMemory> {
        Ok(())
    }
}

// Bytes in memory are fewer than 2^63.
fn bytes_known(bytes: &[u8])
    ensures { length bytes.now < 2 ^ 63 }
{
    // The type keeps it.
}

// What a record holds, if it is of the field of units.
fn held_unit<'a>(found: &WireRecord<'a>) -> Option<&'a [u8]>
    ensures { bytes_in 1 (plain_record found.now) ≡ lent_bytes result }
{
    match found.payload {
        Payload::Bytes(held) => match found.number {
            1 => Some(held),
            _ => None,
        },
        _ => None,
    }
}
