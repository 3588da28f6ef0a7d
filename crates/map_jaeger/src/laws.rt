//! Laws of the table, as contracts of functions that do nothing.
ghost use Rattle.span_tags.specs.Escapes.{KeysReadBack};
ghost use Rattle.map_jaeger.specs.Columns.{is_reserved};
ghost use Rattle.map_jaeger.specs.Keys.{is_event_reserved};
ghost use Rattle.map_jaeger.specs.StatedLaws.{BatchesReadBack, NormalForms, ReadIsNormal, ReadIsSound, FaultsFound, NoneLost, LossesMean, WrittenIsProper, ReadIsProper};

use crate::columns::{Events, Spans};
use crate::faults::Jaeger;

/// Reading the batch of a group that Jaeger can hold gives its normal form, without a remark.
pub fn batches_read_back()
    ensures { BatchesReadBack }
{
    trace_model::laws::rising_attributes();
}

/// The normal form is its own, Jaeger can hold it, and it has the same batch. Groups have equal
/// batches where they have equal normal forms, and only there.
pub fn normal_forms()
    ensures { NormalForms }
{
    trace_model::laws::texts_of_values();
}

/// What is read of a batch, whose times are whole microseconds in order, is its own normal form.
/// Nothing in it is a fault.
pub fn read_is_normal()
    ensures { ReadIsNormal }
{
    // The clause is the law.
}

/// What is read of a batch is sound.
pub fn read_is_sound()
    ensures { ReadIsSound }
{
    // The clause is the law.
}

/// A sound group has a fault that counts, or none.
pub fn faults_found()
    ensures { FaultsFound }
{
    span_tags::laws::faults_found::<Jaeger>();
}

/// Nothing is lost of a sound group exactly where it is its own normal form.
pub fn none_lost()
    ensures { NoneLost }
{
    // The clause is the law.
}

/// A loss is told of a sound group exactly where the condition of its row holds, at its place, of the
/// group and of its normal form.
pub fn losses_mean()
    ensures { LossesMean }
{
    // The clause is the law.
}

/// The batch of a proper group is proper.
pub fn written_is_proper()
    ensures { WrittenIsProper }
{
    trace_model::laws::texts_of_values();
}

/// The group that is read of a proper batch is proper.
pub fn read_is_proper()
    ensures { ReadIsProper }
{
    // The clause is the law.
}

/// No attribute is written under a reserved key, no two under one, and each key is read back: of a span,
/// and of an event.
pub fn keys_read_back()
    ensures spans { KeysReadBack is_reserved }
    ensures events { KeysReadBack is_event_reserved }
{
    span_tags::laws::keys_read_back::<Spans>();
    span_tags::laws::keys_read_back::<Events>();
}
