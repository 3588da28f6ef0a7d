//! Laws of attributes and values, as contracts of functions that do nothing.
ghost use Rattle.trace_model.specs.EventExact.{EventTextsExact, EventTextsAreUtf8, EventTextsProper};
ghost use Rattle.trace_model.specs.LeastOf.{LeastOfEither};
ghost use Rattle.trace_model.specs.StatedLaws.{AttributesOnce, AttributesExist, MembersOfValues, MembersOfProperValues, RisingAttributes, TextsOfValues, EventTextsOnce, EventTextsOrNone, EventTextsReadBack, TextsForBytes};

/// A list of pairs makes one list of attributes at most, and one list of repeated keys.
pub fn attributes_once()
    ensures { AttributesOnce }
{
    // The clause is the law.
}

/// Each list of pairs makes a list of attributes and one of repeated keys, and each list of keys can
/// be put in order. No memory is wanted for it.
pub fn attributes_exist()
    ensures { AttributesExist }
{
    // The clause is the law.
}

/// How deep a list or map is, and where the maps in it rise, by its members.
pub fn members_of_values()
    ensures { MembersOfValues }
{
    // The clause is the law.
}

/// A list or map is proper where its members are.
pub fn members_of_proper_values()
    ensures { MembersOfProperValues }
{
    // The clause is the law.
}

/// Pairs whose keys rise are their own attributes, and none of their keys is repeated.
pub fn rising_attributes()
    ensures { RisingAttributes }
{
    // The clause is the law.
}

/// Where doubles stand in a list or map, by its members; the text of a proper value is UTF-8, and
/// the JSON of a proper one that is shallow is read as that JSON (RFC 8259).
pub fn texts_of_values()
    ensures { TextsOfValues }
{
    // The clause is the law.
}

/// A text is that of one event at most, in which stand neither bytes nor doubles.
pub fn event_texts_once()
    ensures { EventTextsOnce }
{
    // The clause is the law.
}

/// Each text is that of an event, or of none. No memory is wanted for it.
pub fn event_texts_or_none()
    ensures { EventTextsOrNone }
{
    // The clause is the law.
}

/// The text of an event with attributes is read back as that event, with base64 texts for bytes.
pub fn event_texts_read_back()
    ensures { EventTextsReadBack }
{
    // The clause is the law.
}

/// Reading event text as a computation finds the event that it is, and no other.
pub fn event_texts_exact()
    ensures { EventTextsExact }
{
    // The clause is the law.
}

/// The text of a proper event is UTF-8.
pub fn event_texts_are_utf8()
    ensures { EventTextsAreUtf8 }
{
    // The clause is the law.
}

/// The event of a text in UTF-8 is proper.
pub fn event_texts_proper()
    ensures { EventTextsProper }
{
    // The clause is the law.
}

/// Base64 texts in the place of bytes stay, and change nothing else of attributes. A value without
/// bytes stays, and no other.
pub fn texts_for_bytes()
    ensures { TextsForBytes }
{
    // The clause is the law.
}

/// Of two kinds of things, of which the first comes before the second, the least is the least of the
/// first kind where there is one.
pub fn least_of_either<T>()
    ensures { LeastOfEither T }
{
    // The clause is the law.
}
