//! Laws of the table, as contracts of functions that do nothing.
ghost use Rattle.span_tags.specs.Escapes.{KeysReadBack};
ghost use Rattle.map_zipkin.specs.Keys.{is_zipkin_reserved};
ghost use Rattle.map_zipkin.specs.StatedLaws.{GroupsNoted, NothingLost, LossesMean, Regroupings, SpansReadBack, WrittenIsWritable, ReadIsHeld, ReadIsZipkinNormal, ZipkinNormalForms, ZipkinFaultsFound};

use crate::faults::Zipkin;
use crate::keys::Spans;

/// Spans that are regrouped are the same spans, in order, in plain groups; and they are regrouped as
/// before.
pub fn regroupings()
    ensures { Regroupings }
{
    // The clause is the law.
}

/// The groups of spans with the remarks on them are the groups of spans. There is no remark exactly
/// where no tag is left out.
pub fn groups_noted()
    ensures { GroupsNoted }
{
    // The clause is the law.
}

/// Reading the spans of a group that Zipkin can hold gives those of its normal form, and no tag is
/// left out.
pub fn spans_read_back()
    ensures { SpansReadBack }
{
    trace_model::laws::event_texts_exact();
    trace_model::laws::event_texts_read_back();
}

/// The spans of a group that Zipkin can hold are proper and timely, so that they can be written.
pub fn written_is_proper()
    ensures { WrittenIsWritable }
{
    trace_model::laws::texts_of_values();
    trace_model::laws::event_texts_are_utf8();
}

/// What is read of proper spans is sound and proper.
pub fn read_is_held()
    ensures { ReadIsHeld }
{
    trace_model::laws::event_texts_exact();
    trace_model::laws::event_texts_once();
    trace_model::laws::event_texts_proper();
}

/// What is read of proper spans, whose times are whole microseconds in order, is its own normal form.
/// Nothing in it is a fault.
pub fn read_is_zipkin_normal()
    ensures { ReadIsZipkinNormal }
{
    trace_model::laws::event_texts_exact();
    trace_model::laws::event_texts_once();
}

/// The normal form is its own, Zipkin can hold it, and it has the same spans, which are read as the
/// normal form without remarks. Traces have equal spans where they have equal normal forms, and only
/// there.
pub fn zipkin_normal_forms()
    ensures { ZipkinNormalForms }
{
    trace_model::laws::texts_of_values();
    trace_model::laws::event_texts_exact();
    trace_model::laws::event_texts_once();
    trace_model::laws::texts_for_bytes();
    spans_read_back();
    written_is_proper();
}

/// A sound group has a fault that counts, or none. No memory is wanted for it.
pub fn zipkin_faults_found()
    ensures { ZipkinFaultsFound }
{
    trace_model::laws::event_texts_exact();
    span_tags::laws::faults_found::<Zipkin>();
}

/// Nothing is lost of sound groups exactly where they are their own normal form.
pub fn nothing_lost()
    ensures { NothingLost }
{
    trace_model::laws::texts_for_bytes();
}

/// A loss is told of a sound group, behind others, exactly where the condition of its row holds, at its
/// place, of the group and of the normal form of the whole trace.
pub fn losses_mean()
    ensures { LossesMean }
{
    trace_model::laws::texts_for_bytes();
}

/// No attribute of a span is written under a reserved key, no two under one, and each key is read back.
pub fn keys_read_back()
    ensures { KeysReadBack is_zipkin_reserved }
{
    span_tags::laws::keys_read_back::<Spans>();
}
