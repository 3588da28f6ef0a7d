//! Writes a line for each remark on what was read.
ghost use Rattle.std.specs.Prelude.{◌≡◌, ◌++◌, OnOk};
ghost use Rattle.span_convert.specs.Pens.{CountsRemarks};
ghost use Rattle.span_convert.specs.Reports.{report_target, unit_checked};
ghost use Rattle.span_convert.specs.declared.report.Report.TheVariants as reports;

use crate::laws::report_targets;
use crate::tally::Tally;
use crate::units::UnitWriter;
use loss_report::{counts_line, remark_line};
use span_io::{Blob, Halt, Items, OutOfMemory};
use std::alloc::Global;
use trace_model::{Fault, Group, Remark, proper_group};

// Appends a line for each remark on the unit of this number.
fn write_remarks(out: &mut Blob, number: u64, remarks: &[Remark]) -> Result<(), OutOfMemory>
    ensures { OnOk result (out.new ≡ out.old ++ unit_checked number remarks.now) }
{
    'remarks: for remark in remarks {
        remark_line(out, number, remark)?;
    }
    Ok(())
}

/// The remarks on what was read, each as a line.
#[derive(Drop)]
pub(crate) struct CheckWriter {
    /// How many there were so far. The count stands still at the end of its type.
    remarks: u64,
}

impl UnitWriter for CheckWriter {
    ghost target = { report_target reports.Check };

    ghost stands = { CountsRemarks };

    fn target_laws() {
        report_targets();
    }

    fn none() -> Self {
        CheckWriter { remarks: 0 }
    }

    fn write(
        &mut self,
        _alloc: Global,
        out: &mut Blob,
        before: Tally,
        unit: (Group, Items<Remark>),
    ) -> Result<(), Halt<Fault>> {
        proper_group(&unit.0);
        let remarks = unit.1.as_slice();
        write_remarks(out, before.units + 1, remarks)?;
        self.remarks = self.remarks.saturating_add(remarks.len() as u64);
        Ok(())
    }

    fn close(&self, out: &mut Blob, all: Tally) -> Result<(), OutOfMemory> {
        counts_line(out, all.units, all.spans, self.remarks)
    }
}
