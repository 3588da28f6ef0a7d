//! All that an input may be written as.
ghost use Rattle.span_convert.specs.private.PenTargets.{StartsAs};

use crate::batch_file::{BinaryBatches, CompactBatches};
use crate::check_writer::CheckWriter;
use crate::group_file::GroupFile;
use crate::loss_writer::LossWriter;
use crate::pen::Pen;
use crate::report::Report;
use crate::request::Request;
use crate::show_writer::ShowWriter;
use crate::span_file::SpanFile;
use crate::unit_pen::UnitPen;
use crate::units::UnitWriter;
use span_io::Form;

/// What an input is written as.
#[derive(Clone, Copy, PartialEq, Eq)]
pub enum Written {
    Form(Form),
    Report(Report),
}

// What writes the text of a form.
fn form_pen(to: Form) -> Pen
    ensures { StartsAs (Written.Form to) result }
{
    match to {
        Form::OtlpProto => Pen::Units(UnitPen::Request(Request::none())),
        Form::OtlpJson => Pen::Units(UnitPen::GroupFile(GroupFile::none())),
        Form::JaegerBinary => Pen::Units(UnitPen::BinaryBatches(BinaryBatches::none())),
        Form::JaegerCompact => Pen::Units(UnitPen::CompactBatches(CompactBatches::none())),
        Form::ZipkinJson => Pen::Spans(SpanFile),
    }
}

// What writes the losses of a move to a form.
fn loss_pen(to: Form) -> Pen
    ensures { StartsAs (Written.Report (Report.Losses to)) result }
{
    match to {
        Form::OtlpProto => Pen::Units(UnitPen::RequestLosses(LossWriter::none())),
        Form::OtlpJson => Pen::Units(UnitPen::GroupFileLosses(LossWriter::none())),
        Form::JaegerBinary => Pen::Units(UnitPen::BinaryLosses(LossWriter::none())),
        Form::JaegerCompact => Pen::Units(UnitPen::CompactLosses(LossWriter::none())),
        Form::ZipkinJson => Pen::Units(UnitPen::SpanFileLosses(LossWriter::none())),
    }
}

impl Written {
    /// What writes the units of an input so.
    pub(crate) fn pen(self) -> Pen
        ensures { StartsAs self result }
    {
        match self {
            Written::Form(to) => form_pen(to),
            Written::Report(Report::Losses(to)) => loss_pen(to),
            Written::Report(Report::Show) => Pen::Units(UnitPen::Show(ShowWriter::none())),
            Written::Report(Report::Check) => Pen::Units(UnitPen::Check(CheckWriter::none())),
        }
    }
}
