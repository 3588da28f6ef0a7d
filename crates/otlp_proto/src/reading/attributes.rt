//! Attributes of a message, as its reader gathers them.
ghost use Rattle.std.specs.Prelude.{[], ℕ, List, IfOk, OnOk};
ghost use Rattle.span_io.specs.Offences.{Offence, Judges};
ghost use Rattle.proto_wire.specs.Messages.{messages};
ghost use Rattle.trace_model.specs.Values.{AreSound};
ghost use Rattle.otlp_proto.specs.Attributes.{attribute_rules, AttributesOf};
ghost use Rattle.otlp_proto.specs.private.AttributesSoFar.{GatheredAttributes};
ghost use Rattle.span_io.specs.private.RowSteps.{Adds};

use crate::laws::reading_laws;
use crate::reading::plain::plain_pair;
use crate::reading::value::walk_key_value;
use crate::reading::value_rows::{note_all, push_key_value};
use span_io::{Cause, Halt, Items, OutOfMemory, Text};
use std::alloc::Global;
use trace_model::laws::members_of_values;
use trace_model::{Attrs, MOST_LEVELS, Value, attrs_of, keys_in_order};

/// The pairs that were read of a message, and the keys that are noted inside their values.
#[derive(Drop)]
pub struct AttributeRows {
    pairs: Items<(Text, Value)>,
    noted: Items<Text>,
}

impl AttributeRows {
    /// Nothing was read.
    pub fn none(alloc: Global) -> AttributeRows
        ensures { GatheredAttributes [] result }
    {
        AttributeRows {
            pairs: Items::new(alloc),
            noted: Items::new(alloc),
        }
    }

    /// Reads one more `KeyValue` message.
    pub fn add(&mut self, alloc: Global, held: &[u8]) -> Result<(), Halt<Cause>>
        ensures ok { OnOk result (Adds GatheredAttributes held.now self.old self.new) }
        ensures judged { Judges result (Offence messages attribute_rules held.now) }
    {
        reading_laws();
        if let Some(plain) = plain_pair(held) {
            self.pairs.push(plain.owned(alloc)?)?;
            return Ok(());
        }
        let pair = walk_key_value(alloc, MOST_LEVELS - 1, held)?;
        push_key_value(&mut self.pairs, &mut self.noted, pair)?;
        Ok(())
    }

    /// The attributes, and the keys of which the message has a remark, each once.
    pub fn finish(self, alloc: Global) -> Result<(Attrs, Items<Text>), OutOfMemory>
        ensures attributes { (texts : List (List ℕ)) → GatheredAttributes texts self
            → IfOk result (λ parts. AttributesOf texts parts.0 parts.1) }
        ensures sound { (texts : List (List ℕ)) → GatheredAttributes texts self
            → IfOk result (λ parts. AreSound parts.0) }
    {
        members_of_values();
        let (attributes, repeated) = attrs_of(alloc, self.pairs)?;
        let mut noted = self.noted;
        note_all(&mut noted, repeated)?;
        let keys = keys_in_order(noted)?;
        Ok((attributes, keys))
    }
}
