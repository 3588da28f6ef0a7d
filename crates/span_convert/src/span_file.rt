//! A file of Zipkin: spans in a JSON array.
ghost use Rattle.std.specs.Prelude.{◌≡◌, ◌++◌, [], IfOk, OnOk};
ghost use Rattle.span_io.specs.declared.form.Form.TheVariants as forms;
ghost use Rattle.trace_model.specs.Soundness.{IsSoundGroup};
ghost use Rattle.zipkin_json.specs.Canonical.{zspan_text};
ghost use Rattle.map_zipkin.specs.NotedGroups.{noted_group};
ghost use Rattle.span_convert.specs.Pens.{StandsForAny};
ghost use Rattle.span_convert.specs.SpanFiles.{left_text, span_document};
ghost use Rattle.span_convert.specs.Targets.{form_target};
ghost use Rattle.span_convert.specs.private.WalkSteps.{ClosesText, IfWhy, WritesUnit};

use crate::tally::Tally;
use crate::units::{DocumentReader, append_if};
use map_zipkin::laws::zipkin_normal_forms;
use map_zipkin::{groups_of_spans, spans_of_group};
use span_io::{Blob, Halt, Items, OutOfMemory, Refusal};
use std::alloc::Global;
use trace_model::{Fault, Group, Remark, proper_group};
use zipkin_json::{ZSpan, read_text, write_span};

/// Spans of Zipkin v2, in a JSON array.
#[derive(Clone, Copy)]
pub(crate) struct SpanFile;

impl DocumentReader for SpanFile {
    ghost form = { span_document };

    fn read(alloc: Global, bytes: &[u8]) -> Result<Items<(Group, Items<Remark>)>, Halt<Refusal>> {
        let spans = read_text(alloc, bytes)?;
        Ok(groups_of_spans(alloc, spans)?)
    }
}

/// The spans of a unit that are left to be written.
#[derive(Drop)]
pub(crate) struct SpansLeft {
    /// Whether a span stands before them.
    pub(crate) behind: bool,
    pub(crate) spans: Items<ZSpan>,
}

impl SpansLeft {
    /// No span is left.
    pub(crate) fn none(alloc: Global) -> SpansLeft
        ensures { left_text result ≡ [] }
    {
        SpansLeft {
            behind: false,
            spans: Items::new(alloc),
        }
    }
}

/// Appends the text of a span. A writer of JSON makes room ready by the size of what stands before it,
/// so the text is made in a list of its own, whose room the next span has again.
pub(crate) fn append_span(out: &mut Blob, text: &mut Blob, span: &ZSpan) -> Result<(), OutOfMemory>
    ensures { OnOk result (out.new ≡ out.old ++ zspan_text span.now) }
{
    text.clear();
    write_span(text, span)?;
    out.append(text.as_slice())
}

impl SpanFile {
    /// Appends what opens the text of so many units and a unit, and answers the unit's spans; or answers
    /// the fault in it, and leaves `out` as it was.
    pub(crate) fn open(
        &self,
        alloc: Global,
        out: &mut Blob,
        before: Tally,
        unit: (Group, Items<Remark>),
    ) -> Result<SpansLeft, Halt<Fault>>
        requires sound { IsSoundGroup unit.0 }
        ensures ok { IfOk result
            (λ left. WritesUnit (form_target forms.ZipkinJson) StandsForAny
            (noted_group unit) before
            self.now self.now out.old (out.new ++ left_text left)) }
        ensures why { IfWhy result
            (λ fault. (form_target forms.ZipkinJson).FaultOf (noted_group unit) fault
            × (out.new ≡ out.old)) }
    {
        zipkin_normal_forms();
        proper_group(&unit.0);
        let spans = spans_of_group(alloc, unit.0)?;
        append_if(out, before.units == 0, b"[")?;
        Ok(SpansLeft {
            behind: before.spans > 0,
            spans,
        })
    }

    /// Appends what closes the text of so many units.
    pub(crate) fn close(&self, out: &mut Blob, all: Tally) -> Result<(), OutOfMemory>
        ensures { OnOk result
            (ClosesText (form_target forms.ZipkinJson) StandsForAny self.now all out.old out.new) }
    {
        append_if(out, all.units == 0, b"[")?;
        out.append(b"]")
    }
}
