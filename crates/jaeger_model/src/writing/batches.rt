//! Batches.
ghost use Rattle.std.specs.Prelude.{◌≡◌, ◌++◌, pos, OnOk, OnErr};
ghost use Rattle.span_io.specs.Outside.{GrowsFront};
ghost use Rattle.jaeger_model.specs.Canonical.{process_rows, process_tree, batch_text};
ghost use Rattle.jaeger_model.specs.private.Growing.{WritesField, WritesRows};
ghost use Rattle.jaeger_model.specs.Writable.{IsWritable};

use crate::batch::Batch;
use crate::span::JSpan;
use crate::tag::Tag;
use crate::writing::fields::write_text;
use crate::writing::structures::{Structure, write_filled_list, write_list, write_structure};
use span_io::{Blob, OutOfMemory};
use thrift_core::{Parts, TypeCode};

// Appends the fields of the process.
fn write_process_fields<P: Parts>(out: &mut Blob, batch: &Batch) -> Result<(), OutOfMemory>
    requires { IsWritable batch.now }
    ensures { WritesRows P.keeps P.writes result out.old out.new (pos 0)
        (process_rows batch.now.service batch.now.tags) }
{
    write_text::<P>(out, 0, 1, &batch.service)?;
    write_filled_list::<P, Tag>(out, 1, 2, &batch.tags)
}

// Appends the field of the process.
fn write_process<P: Parts>(out: &mut Blob, batch: &Batch) -> Result<(), OutOfMemory>
    requires { IsWritable batch.now }
    ensures { WritesField P.keeps P.writes result out.old out.new (pos 0) (pos 1)
        (process_tree batch.now.service batch.now.tags) }
{
    P::put_field(out, 0, 1, TypeCode::Struct, None)?;
    write_process_fields::<P>(out, batch)?;
    P::put_stop(out)
}

impl<P: Parts> Structure<P> for Batch {
    ghost use Rattle.jaeger_model.specs.Canonical.{batch_rows};
    ghost use Rattle.jaeger_model.specs.Writable.{IsWritable};

    ghost rows = { batch_rows };

    ghost writable = { IsWritable };

    fn write_fields(&self, out: &mut Blob) -> Result<(), OutOfMemory> {
        write_process::<P>(out, self)?;
        write_list::<P, JSpan>(out, 1, 2, &self.spans)
    }
}

/// Appends the canonical text of a batch (jaeger.thrift `Batch`).
pub fn write_batch<P: Parts>(out: &mut Blob, batch: &Batch) -> Result<(), OutOfMemory>
    requires { IsWritable batch.now }
    ensures ok { OnOk result (out.new ≡ out.old ++ batch_text P.keeps P.writes batch.now) }
    // After want of memory a front of it was appended.
    ensures front { OnErr result
        (GrowsFront out.old out.new (batch_text P.keeps P.writes batch.now)) }
{
    write_structure::<P, Batch>(out, batch)
}
