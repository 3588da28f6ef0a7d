//! The batches of a file of Jaeger.
ghost use Rattle.span_convert.specs.BatchFiles.{words};
ghost use Rattle.span_convert.specs.Units.{batch_form};

use crate::units::UnitReader;
use jaeger_model::read_batch;
use map_jaeger::group_of_batch;
use span_io::{Cause, Halt, Items, Scan, Step};
use std::alloc::Global;
use std::marker::PhantomData;
use thrift_binary::Binary;
use thrift_compact::Compact;
use thrift_core::{Protocol, StructScanner};
use trace_model::{Group, Remark};

/// Batches of jaeger.thrift in a protocol of Thrift.
#[derive(Drop)]
pub(crate) struct Batches<P> {
    protocol: PhantomData<P>,
}

pub(crate) type BinaryBatches = Batches<Binary>;

pub(crate) type CompactBatches = Batches<Compact>;

impl<P> Batches<P> {
    pub(crate) fn new() -> Batches<P> {
        Batches {
            protocol: PhantomData,
        }
    }
}

impl<P: Protocol> UnitReader for Batches<P> {
    ghost form = { batch_form (words P.spells P.reads P.then_varint P.refuses P.keeps P.writes) };

    type Scanner = StructScanner<P>;

    fn held_by_frames() {
        thrift_core::laws::one_step::<P>();
        thrift_core::laws::pieces::<P>();
    }

    fn push(scanner: &mut StructScanner<P>, piece: &[u8]) -> Step {
        scanner.push(piece)
    }

    fn unit_in<'a>(frame: &'a [u8]) -> Option<&'a [u8]> {
        Some(frame)
    }

    fn read(alloc: Global, unit: &[u8]) -> Result<(Group, Items<Remark>), Halt<Cause>> {
        let batch = read_batch::<P>(alloc, unit)?;
        let read = group_of_batch(alloc, batch)?;
        Ok(read)
    }
}
