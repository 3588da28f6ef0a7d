//! Laws of what JSON values mean as groups, as contracts of functions that do nothing.
ghost use Rattle.otlp_json.specs.StatedLaws.{EqualGroupsTexts, FreeGroupMembers, GroupsWrittenAgain, OneJsonGroups, ReadsHeldGroups, SomeJsonGroups};

/// A value stands for one list of groups at most, and nothing offends in one that stands for a list.
pub fn one_json_groups()
    ensures { OneJsonGroups }
{
    trace_model::laws::attributes_once();
    trace_model::laws::attributes_exist();
}

/// A value stands for a list of groups, or an offence in it counts, and it has a cause.
pub fn some_json_groups()
    ensures { SomeJsonGroups }
{
    trace_model::laws::attributes_once();
    trace_model::laws::attributes_exist();
}

/// What is read of a text can be written: it is sound and proper, and no double stands in it.
pub fn reads_held_groups()
    ensures { ReadsHeldGroups }
{
    trace_model::laws::members_of_values();
    trace_model::laws::members_of_proper_values();
    trace_model::laws::texts_of_values();
}

/// What is written of groups that JSON can hold means these groups, without remarks.
pub fn groups_written_again()
    ensures { GroupsWrittenAgain }
{
    span_ids::laws::identifiers_read_back();
    trace_model::laws::members_of_values();
    trace_model::laws::members_of_proper_values();
    trace_model::laws::rising_attributes();
    trace_model::laws::texts_of_values();
}

/// Two lists of groups that JSON can hold have one text just where they are the same.
pub fn equal_groups_texts()
    ensures { EqualGroupsTexts }
{
    one_json_groups();
    groups_written_again();
}

/// Unknown members change neither what a value stands for nor what offends in it.
pub fn free_members()
    ensures { FreeGroupMembers }
{
    // The clause is the law.
}
