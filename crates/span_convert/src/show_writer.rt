//! Writes a line for each span.
ghost use Rattle.std.specs.Prelude.{◌≡◌, ◌++◌, OnOk};
ghost use Rattle.std.specs.List.{flat_map};
ghost use Rattle.span_convert.specs.Reports.{group_shown, report_target, spans_shown};
ghost use Rattle.span_convert.specs.Pens.{StandsForAny};
ghost use Rattle.span_convert.specs.declared.report.Report.TheVariants as reports;

use crate::laws::report_targets;
use crate::tally::Tally;
use crate::units::UnitWriter;
use loss_report::show_line;
use span_io::{Blob, Halt, Items, OutOfMemory};
use std::alloc::Global;
use trace_model::{Fault, Group, Remark, Scope, Span, proper_group};

// Appends a line for each span.
fn show_spans(out: &mut Blob, spans: &[Span]) -> Result<(), OutOfMemory>
    ensures { OnOk result (out.new ≡ out.old ++ spans_shown spans.now) }
{
    'spans: for span in spans {
        show_line(out, span)?;
    }
    Ok(())
}

// Appends a line for each span of these scopes.
fn show_scopes(out: &mut Blob, scopes: &[Scope]) -> Result<(), OutOfMemory>
    ensures { OnOk result
        (out.new ≡ out.old ++ flat_map (λ scope. spans_shown scope.spans) scopes.now) }
{
    'scopes: for scope in scopes {
        show_spans(out, scope.spans.as_slice())?;
    }
    Ok(())
}

// Appends a line for each span of a group.
fn show_group(out: &mut Blob, group: &Group) -> Result<(), OutOfMemory>
    ensures { OnOk result (out.new ≡ out.old ++ group_shown group.now) }
{
    show_scopes(out, group.scopes.as_slice())
}

/// The spans of an input, each as a line.
#[derive(Clone, Copy)]
pub(crate) struct ShowWriter;

impl UnitWriter for ShowWriter {
    ghost target = { report_target reports.Show };

    ghost stands = { StandsForAny };

    fn target_laws() {
        report_targets();
    }

    fn none() -> Self {
        ShowWriter
    }

    fn write(
        &mut self,
        _alloc: Global,
        out: &mut Blob,
        _before: Tally,
        unit: (Group, Items<Remark>),
    ) -> Result<(), Halt<Fault>> {
        proper_group(&unit.0);
        show_group(out, &unit.0)?;
        Ok(())
    }

    fn close(&self, _out: &mut Blob, _all: Tally) -> Result<(), OutOfMemory> {
        Ok(())
    }
}
