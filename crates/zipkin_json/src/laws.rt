//! Laws of what JSON values mean, as contracts of functions that do nothing.
ghost use Rattle.zipkin_json.specs.StatedLaws.{OneList, SomeList, SpansWrittenAgain, EqualSpansTexts, ReadsWritable, FreeMembers};

/// A value has one list of spans at most, and nothing offends in one that has a list.
pub fn one_list()
    ensures { OneList }
{
    // The clause is the law.
}

/// A value has a list of spans, or an offence in it counts, and it has a cause.
pub fn some_list()
    ensures { SomeList }
{
    // The clause is the law.
}

/// What is written of writable spans means these spans.
pub fn written_again()
    ensures { SpansWrittenAgain }
{
    span_ids::laws::identifiers_read_back();
}

/// Two lists of writable spans have one text just where they are the same.
pub fn equal_texts()
    ensures { EqualSpansTexts }
{
    one_list();
    written_again();
}

/// What is read of a text can be written: it is proper and timely, and the keys of its tags rise.
pub fn reads_proper()
    ensures { ReadsWritable }
{
    // The clause is the law.
}

/// Unknown members change neither what a value means nor what offends in it.
pub fn free_members()
    ensures { FreeMembers }
{
    // The clause is the law.
}
