//! Laws of what bytes mean, as contracts of functions that do nothing.
ghost use Rattle.std.specs.Prelude.{◌≡◌, ◌<◌, ◌^◌, ℕ, List, [], length, All};
ghost use Rattle.trace_model.specs.Proper.{IsProperGroup};
ghost use Rattle.trace_model.specs.Soundness.{IsSoundGroup};
ghost use Rattle.trace_model.specs.declared.remark.Remark.{Remark};
ghost use Rattle.trace_model.specs.declared.group.Group.{Group};
ghost use Rattle.otlp_proto.specs.Group.{IsGroupText};
ghost use Rattle.otlp_proto.specs.StatedLaws.{ReadingLaws, MessageRules, OneGroup, SomeGroup, FreeRecords, FreeAnywhere};
ghost use Rattle.otlp_proto.specs.Canonical.{bytes_field, list_text, value_text, attributes_text, group_text, group_record};

use trace_model::Value;

/// The text of a list and of a map, by its members.
pub fn values_by_members()
    ensures list { (members : List Value)
        → value_text (Value.List members) ≡ bytes_field 5 (list_text 1 value_text members) }
    ensures map { (pairs : List (List ℕ × Value))
        → value_text (Value.Map pairs) ≡ bytes_field 6 (attributes_text 1 pairs) }
{
    // The clauses are the law.
}

/// The canonical text of a sound group is a text of that group, without remarks.
pub fn written_again()
    ensures { (g : Group) → IsSoundGroup g → IsProperGroup g → length (group_record g) < 2 ^ 63
        → IsGroupText g [] (group_text g) }
{
    proto_wire::laws::shortest_record();
    span_ids::laws::identifiers_read_back();
    trace_model::laws::members_of_values();
    trace_model::laws::members_of_proper_values();
    trace_model::laws::rising_attributes();
}

/// What is read of bytes is proper.
pub fn read_proper()
    ensures { (text : List ℕ) (g : Group) (r : List Remark) → All (λ b. b < 256) text
        → IsGroupText g r text → IsProperGroup g }
{
    trace_model::laws::members_of_proper_values();
}

/// What is known of records, attributes and identifiers, on which the other laws rest.
pub fn reading_laws()
    ensures { ReadingLaws }
{
    proto_wire::laws::message_cuts();
    proto_wire::laws::one_reading();
    proto_wire::laws::open_fronts();
    span_ids::laws::identifiers_read_back();
    trace_model::laws::attributes_once();
    trace_model::laws::attributes_exist();
}

/// What the search for the offence that counts asks of each message: what stands inside a record
/// offends within its bytes, and at their end with no number above that of the message around it.
pub fn message_rules()
    ensures { MessageRules }
{
    reading_laws();
}

/// Bytes are a text of one group at most, with one list of remarks; nothing offends in such a text,
/// and the group is sound.
pub fn one_group()
    ensures { OneGroup }
{
    reading_laws();
    trace_model::laws::members_of_values();
}

/// Any bytes are a text of a group, or an offence in them counts, and it has a cause.
pub fn some_group()
    ensures { SomeGroup }
{
    reading_laws();
}

/// Records of numbers or wire types outside the table of their message change no reading.
pub fn free_records()
    ensures { FreeRecords }
{
    proto_wire::laws::message_cuts();
    proto_wire::laws::one_reading();
    span_ids::laws::identifiers_read_back();
}

/// Free records added anywhere, at any depth, change neither what a text means nor the number of
/// the offence that counts in it.
pub fn free_anywhere()
    ensures { FreeAnywhere }
{
    reading_laws();
}
