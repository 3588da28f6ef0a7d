//! How many bytes the gauge has in each form.
ghost use Rattle.std.specs.Prelude.{◌≡◌, ◌≤◌, ◌<◌, ◌+◌, length, IfOk, OnOk};
ghost use Rattle.span_io.specs.Outside.{last_count};
ghost use Rattle.span_convert.specs.Converters.{work_of};
ghost use Rattle.span_convert.specs.Units.{canonical_text};
ghost use Rattle.span_convert.specs.declared.stop.Stop.TheVariants as stops;
ghost use Rattle.span_vectors.specs.private.Feeds.{FeedsGroups};
ghost use Rattle.span_vectors.specs.Gauge.{gauge, group_count};

use crate::group::{groups_of, write_gauge_group};
use crate::laws::gauge_is_converted;
use span_convert::laws::{one_verdict, outlook_lasts};
use span_convert::{Form, Limits, Stop, Walker, Written};
use span_io::laws::gains_then;
use span_io::{Blob, CountSink, OutOfMemory};
use std::alloc::Global;

// What stopped a converter that can stop for want of memory alone.
fn only_memory(stop: Stop) -> OutOfMemory
    requires { stop ≡ stops.OutOfMemory }
{
    match stop {
        Stop::OutOfMemory => OutOfMemory,
        Stop::Refused | Stop::Faulted | Stop::Write => unreachable!(),
    }
}

// Feeds the next group, behind so many.
fn feed_group(
    alloc: Global,
    spans: u32,
    before: u32,
    walker: &mut Walker,
    sink: &mut CountSink,
) -> Result<(), OutOfMemory>
    requires most { spans ≤ 1000000 }
    requires group { before < group_count spans }
    requires feeds { FeedsGroups walker.old spans before sink.old }
    ensures feeds { OnOk result (FeedsGroups walker.new spans (before + 1) sink.new) }
    ensures same { work_of walker.new ≡ work_of walker.old }
{
    gains_then();
    one_verdict();
    outlook_lasts();
    gauge_is_converted();
    let mut text = Blob::new(alloc);
    write_gauge_group(alloc, &mut text, spans, before + 1)?;
    match walker.feed(text.as_slice(), sink) {
        Ok(()) => Ok(()),
        Err(stop) => Err(only_memory(stop)),
    }
}

// A converter that was fed the whole request of a gauge.
fn feed_groups(
    alloc: Global,
    spans: u32,
    to: Form,
    sink: &mut CountSink,
) -> Result<Walker, OutOfMemory>
    requires most { spans ≤ 1000000 }
    requires fresh { sink.old ≡ 0 }
    ensures feeds { IfOk result (λ walker. FeedsGroups walker spans (group_count spans) sink.new) }
    ensures what { IfOk result (λ walker. (work_of walker).what ≡ Written.Form to) }
{
    gains_then();
    let what = Written::Form(to);
    let mut walker = Walker::new(alloc, Form::OtlpProto, what, &Limits::shipped());
    'groups: for before in 0..groups_of(spans) {
        feed_group(alloc, spans, before, &mut walker, sink)?;
    }
    Ok(walker)
}

// The count of a sink, unless it stands still.
fn count_of(sink: &CountSink) -> Result<u64, OutOfMemory>
    ensures { IfOk result (λ size. (size ≡ sink.now) × (size < last_count)) }
{
    let size = sink.count();
    if size == u64::MAX {
        return Err(OutOfMemory);
    }
    Ok(size)
}

/// How many bytes the gauge of so many spans has as a text of the form. All groups are fed through a
/// converter, which writes each as it comes. A count of 2^64 - 1, where counts stand still, is answered
/// as want of memory.
pub fn gauge_size(alloc: Global, spans: u32, to: Form) -> Result<u64, OutOfMemory>
    requires some { 1 ≤ spans }
    requires most { spans ≤ 1000000 }
    ensures { IfOk result (λ size. size ≡ length (canonical_text to (gauge spans))) }
{
    gains_then();
    gauge_is_converted();
    let mut sink = CountSink::new();
    let mut walker = feed_groups(alloc, spans, to, &mut sink)?;
    match walker.finish(&mut sink) {
        Ok(_) => count_of(&sink),
        Err(stop) => Err(only_memory(stop)),
    }
}
