//! Writes a line for each loss of a move to a form.
ghost use Rattle.std.specs.Prelude.{◌≡◌, ◌++◌, OnOk};
ghost use Rattle.span_convert.specs.Pens.{CountsLosses};
ghost use Rattle.span_convert.specs.Reports.{report_target, unit_lost};
ghost use Rattle.span_convert.specs.declared.report.Report.TheVariants as reports;

use crate::laws::report_targets;
use crate::losing::Losing;
use crate::tally::Tally;
use crate::units::UnitWriter;
use loss_report::{loss_count_line, loss_line};
use span_io::{Blob, Halt, Items, OutOfMemory};
use std::alloc::Global;
use trace_model::{Fault, Group, Loss, Remark, proper_group};

// Appends a line for each loss in the unit of this number.
fn write_losses(out: &mut Blob, number: u64, losses: &[Loss]) -> Result<(), OutOfMemory>
    ensures { OnOk result (out.new ≡ out.old ++ unit_lost number losses.now) }
{
    'losses: for loss in losses {
        loss_line(out, number, loss)?;
    }
    Ok(())
}

/// The losses of a move to a form, each as a line.
#[derive(Drop)]
pub(crate) struct LossWriter<L> {
    losing: L,
    /// How many there were so far. The count stands still at the end of its type.
    count: u64,
}

impl<L: Losing> UnitWriter for LossWriter<L> {
    ghost target = { report_target (reports.Losses L.form) };

    ghost stands = { CountsLosses L.form L.behind };

    fn target_laws() {
        report_targets();
    }

    fn none() -> Self {
        LossWriter {
            losing: L::start(),
            count: 0,
        }
    }

    fn write(
        &mut self,
        alloc: Global,
        out: &mut Blob,
        before: Tally,
        unit: (Group, Items<Remark>),
    ) -> Result<(), Halt<Fault>> {
        proper_group(&unit.0);
        if let Some(fault) = L::fault_of(alloc, &unit.0)? {
            return Err(Halt::Why(fault));
        }
        let losses = self.losing.losses_of(alloc, &unit.0)?;
        let losses = losses.as_slice();
        write_losses(out, before.units + 1, losses)?;
        self.count = self.count.saturating_add(losses.len() as u64);
        Ok(())
    }

    fn close(&self, out: &mut Blob, _all: Tally) -> Result<(), OutOfMemory> {
        loss_count_line(out, self.count)
    }
}
