//! A file of OTLP/JSON: groups in the array of an object.
ghost use Rattle.span_io.specs.declared.form.Form.TheVariants as forms;
ghost use Rattle.span_convert.specs.GroupFiles.{group_document};
ghost use Rattle.span_convert.specs.Targets.{form_target};
ghost use Rattle.span_convert.specs.Pens.{StandsForAny};

use crate::laws::form_targets;
use crate::tally::Tally;
use crate::units::{DocumentReader, UnitWriter, append_if};
use otlp_json::{read_text, write_group};
use span_io::{Blob, Halt, Items, OutOfMemory, Refusal};
use std::alloc::Global;
use trace_model::{Fault, Group, Remark, proper_group};

/// OTLP in JSON. It can hold each group in which no double stands.
#[derive(Clone, Copy)]
pub(crate) struct GroupFile;

impl DocumentReader for GroupFile {
    ghost form = { group_document };

    fn read(alloc: Global, bytes: &[u8]) -> Result<Items<(Group, Items<Remark>)>, Halt<Refusal>> {
        let read = read_text(alloc, bytes)?;
        Ok(read)
    }
}

impl UnitWriter for GroupFile {
    ghost target = { form_target forms.OtlpJson };

    ghost stands = { StandsForAny };

    fn target_laws() {
        form_targets();
    }

    fn none() -> Self {
        GroupFile
    }

    fn write(
        &mut self,
        _alloc: Global,
        out: &mut Blob,
        before: Tally,
        unit: (Group, Items<Remark>),
    ) -> Result<(), Halt<Fault>> {
        proper_group(&unit.0);
        let size = out.len();
        append_if(out, before.units == 0, b"{\"resourceSpans\":[")?;
        append_if(out, before.units > 0, b",")?;
        match write_group(out, &unit.0) {
            Ok(()) => Ok(()),
            Err(Halt::Why(fault)) => {
                out.truncate(size);
                Err(Halt::Why(fault))
            }
            Err(Halt::OutOfMemory) => Err(Halt::OutOfMemory),
        }
    }

    fn close(&self, out: &mut Blob, all: Tally) -> Result<(), OutOfMemory> {
        append_if(out, all.units == 0, b"{\"resourceSpans\":[")?;
        out.append(b"]}")
    }
}
