//! Members of an object, and the texts and truth values that they hold.
ghost use Rattle.std.specs.Prelude.{◌≡◌, [], true, map, Err, IfOk, is_some, option_map, option_and_then};
ghost use Rattle.std.specs.List.{AllZip};
ghost use Rattle.serde_json.specs.Find.{as_str};
ghost use Rattle.json_nodes.specs.Lents.{lent_view as view};
ghost use Rattle.span_io.specs.declared.halt.Halt.TheVariants as halts;
ghost use Rattle.span_io.specs.Paths.{optional, JudgesValue, JudgesByCause, Given};
ghost use Rattle.json_members.specs.Members.{unless_null, member, IsText, text_offends, IsTruth, truth_offends};

use json_nodes::Lent;
use span_io::{Cause, Halt, Text};
use std::alloc::Global;

// A value that was found, unless it is null.
#[inline(always)]
#[tactic(auto, using(crate::proofs::MemberLaws::nulls))]
fn other_than_null<'v, 'a>(found: Option<Lent<'v, 'a>>) -> Option<Lent<'v, 'a>>
    ensures { option_map view result ≡ unless_null (option_map view found.entry) }
{
    let Some(value) = found else {
        return None;
    };
    if value.is_null() {
        return None;
    }
    Some(value)
}

/// A member of an object, where it is there and not null.
pub fn member_of<'v, 'a>(v: &Lent<'v, 'a>, name: &str) -> Option<Lent<'v, 'a>>
    ensures { option_map view result ≡ member name.now (view v.now) }
{
    other_than_null(v.get(name))
}

/// The members of these names, each put at the place of its name, by one walk over all of them.
pub fn members_of<'v, 'a>(v: &Lent<'v, 'a>, names: &[&str], found: &mut [Option<Lent<'v, 'a>>])
    requires { found.old ≡ map (λ name. None) names.now }
    ensures { AllZip
        (λ name o. option_map view o ≡ member name.now (view v.now)) names.now found.new }
{
    v.get_each(names, found);
    'places: for place in found.iter_mut() {
        *place = other_than_null(*place);
    }
}

/// A copy of the text that the value is.
pub fn text_of(alloc: Global, v: &Lent<'_, '_>) -> Result<Text, Halt<Cause>>
    ensures value { IfOk result (λ text. IsText text (view v.now)) }
    ensures judged { JudgesValue result (text_offends (view v.now)) }
    // Memory is wanted only where it is one.
    ensures wants { result ≡ Err halts.OutOfMemory → is_some (as_str (view v.now)) ≡ true }
{
    let Some(given) = v.as_str() else {
        return Err(Halt::Why(Cause::BadShape));
    };
    Ok(Text::of(alloc, given)?)
}

/// The text of a member that was found, or the empty one without it.
pub fn text_found(alloc: Global, found: Option<Lent<'_, '_>>) -> Result<Text, Halt<Cause>>
    ensures value { IfOk result
        (λ text. Given IsText (λ t. t ≡ []) text (option_map view found.entry)) }
    ensures judged { JudgesValue result (optional text_offends (option_map view found.entry)) }
    ensures wants { result ≡ Err halts.OutOfMemory
        → is_some (option_and_then as_str (option_map view found.entry)) ≡ true }
{
    match found {
        None => Ok(Text::new(alloc)),
        Some(found) => text_of(alloc, &found),
    }
}

/// A text that may be absent, which is empty then.
pub fn text(alloc: Global, v: &Lent<'_, '_>, name: &str) -> Result<Text, Halt<Cause>>
    ensures value { IfOk result (λ text. Given IsText (λ t. t ≡ []) text
        (member name.now (view v.now))) }
    ensures judged { JudgesValue result (optional text_offends (member name.now (view v.now))) }
    ensures wants { result ≡ Err halts.OutOfMemory
        → is_some (option_and_then as_str (member name.now (view v.now))) ≡ true }
{
    text_found(alloc, member_of(v, name))
}

/// The truth value that the value is.
pub fn truth_of(v: &Lent<'_, '_>) -> Result<bool, Cause>
    ensures value { IfOk result (λ truth. IsTruth truth (view v.now)) }
    ensures judged { JudgesByCause result (truth_offends (view v.now)) }
{
    match v.as_bool() {
        Some(truth) => Ok(truth),
        None => Err(Cause::BadShape),
    }
}
