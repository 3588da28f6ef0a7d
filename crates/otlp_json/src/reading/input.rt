//! Groups of a value and of a text of JSON.
ghost use Rattle.std.specs.Prelude.{◌≡◌, ◌<◌, ◌^◌, List, All, length, Err, IfOk, IsUtf8};
ghost use Rattle.serde_json.specs.View.{view};
ghost use Rattle.span_io.specs.Offences.{OnlyReads};
ghost use Rattle.span_io.specs.Paths.{JudgesInput};
ghost use Rattle.span_io.specs.declared.halt.Halt.TheVariants as halts;
ghost use Rattle.json_members.specs.Counted.{IsCountedValue};
ghost use Rattle.trace_model.specs.Soundness.{IsSoundGroup};
ghost use Rattle.otlp_json.specs.Group.{RemarkedGroup, AreJsonGroups, json_groups_offend};
ghost use Rattle.otlp_json.specs.Held.{IsHeldByJson};
ghost use Rattle.otlp_json.specs.Texts.{AreGroupsText, groups_document_offends};

use crate::laws::{one_json_groups, reads_held_groups};
use crate::reading::groups::read_root;
use json::Scratch;
use json_members::unread;
use json_nodes::{Lent, bytes_nodes, value_nodes};
use serde_json::Value;
use span_io::{Halt, Items, Refusal};
use std::alloc::Global;
use trace_model::{Group, Remark};

/// Reads the groups of a JSON value in OTLP/JSON, with the remarks on each, or refuses it by its
/// least offence.
pub fn read_groups(alloc: Global, v: &Value) -> Result<Items<(Group, Items<Remark>)>, Halt<Refusal>>
    requires counted { IsCountedValue (view v.now) }
    ensures value { IfOk result (λ groups. AreJsonGroups groups (view v.now)) }
    ensures sound { IfOk result (All (λ g. IsSoundGroup g.0)) }
    ensures judged { JudgesInput result (json_groups_offend (view v.now)) }
    // Whatever groups the value stands for are the answer.
    ensures only { (groups : List RemarkedGroup) → AreJsonGroups groups (view v.now)
        → OnlyReads result groups }
{
    one_json_groups();
    trace_model::laws::members_of_values();
    match value_nodes(alloc, v) {
        Ok(nodes) => read_root(alloc, &Lent::of(nodes.as_slice())),
        Err(_) => Err(Halt::OutOfMemory),
    }
}

/// Reads the groups of a text in OTLP/JSON. One that is no JSON value is `BadJson`.
pub fn read_text(
    alloc: Global,
    bytes: &[u8],
) -> Result<Items<(Group, Items<Remark>)>, Halt<Refusal>>
    requires counted { length bytes.now < 2 ^ 32 }
    ensures value { IfOk result (λ groups. AreGroupsText groups bytes.now) }
    // They can be written.
    ensures held { IfOk result (All (λ g. IsHeldByJson g.0)) }
    ensures judged { JudgesInput result (groups_document_offends bytes.now) }
    // No memory is wanted for bytes that are no text.
    ensures wants { result ≡ Err halts.OutOfMemory → IsUtf8 bytes.now }
    // Whatever groups the bytes are a text of are the answer.
    ensures only { (groups : List RemarkedGroup) → AreGroupsText groups bytes.now
        → OnlyReads result groups }
{
    one_json_groups();
    reads_held_groups();
    let mut scratch = Scratch::new(alloc);
    match bytes_nodes(alloc, bytes, &mut scratch) {
        Ok(nodes) => read_root(alloc, &Lent::of(nodes.as_slice())),
        Err(why) => Err(unread(why)),
    }
}
