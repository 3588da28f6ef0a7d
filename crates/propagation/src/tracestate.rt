//! The value of `tracestate`.
ghost use Rattle.std.specs.Prelude.{◌≡◌, ◌≢◌, [], ◌<◌, ◌↔◌, ◌++◌, ◌∷◌, ℕ, List, All, Any, IsTrue, Some, IfOk, IfSome, IsSomeAnd, OnOk, OnErr};
ghost use Rattle.std.specs.Option.{option_to_list};
ghost use Rattle.propagation.specs.Tracestate.{member_comma, StateMember, IsStateMember, state_member_text};
ghost use Rattle.propagation.specs.Tracestate.{StateEntry, IsStateEntry, state_entry_text, AreStateMembers, ListsMembers, tracestate_text, ReadsTracestate};

use crate::members::{read_member, trimmed};
use arrayvec::ArrayVec;
use span_io::{OutOfMemory, Text};
use std::alloc::Global;
use std::marker::Model;

/// The most members that a `tracestate` may have.
const MOST: usize = 32;

// A member, which contracts see as the standard tells it: a key and a value.
#[derive(Drop)]
struct Member<'a> {
    key: &'a [u8],
    value: &'a [u8],
}

impl<'a> Model for Member<'a> {
    ghost use Rattle.propagation.specs.Tracestate.{StateMember};

    ghost Value = { StateMember };

    ghost view = { λ m. record { key = m.key.now; value = m.value.now } };
}

impl<'a> Default for Member<'a> {
    fn default() -> Self {
        Member {
            key: &[],
            value: &[],
        }
    }
}

/// Reads the value of `tracestate` (W3C Trace Context Level 1, section 3.3): its members joined by
/// commas, without the blanks between them. None is a value that isn't of the form. It takes no
/// memory, nor does a value without members.
pub fn read_tracestate(alloc: Global, value: &[u8]) -> Result<Option<Text>, OutOfMemory>
    ensures value { IfOk result (λ read. IfSome read (λ state. ReadsTracestate value.now state)) }
    // Whatever the value tells is the answer.
    ensures only { (state : List ℕ) → ReadsTracestate value.now state
        → IfOk result (λ read. read ≡ Some state) }
    // Memory is wanted for a text alone.
    ensures wants { OnErr result
        ((state : List ℕ) × ReadsTracestate value.now state × (state ≢ [])) }
{
    let Some(members) = read_members(value) else {
        return Ok(None);
    };
    let state = joined(alloc, members.as_slice())?;
    Ok(Some(state))
}

// The members that a value lists, if they are few enough and their keys are distinct.
fn read_members(value: &[u8]) -> Option<ArrayVec<Member<'_>, MOST>>
    ensures listed { IfSome result (λ read. ListsMembers value.now read.items) }
    ensures formed { IfSome result (λ read. AreStateMembers read.items) }
    ensures only { (members : List StateMember) → ListsMembers value.now members
        → AreStateMembers members
        → IsSomeAnd result (λ read. read.items ≡ members) }
{
    let mut members = ArrayVec::new();
    'pieces: for piece in value.split(|&c| c == b',') {
        if !add_piece(&mut members, piece) {
            return None;
        }
    }
    Some(members)
}

// Adds the member that stands between two commas, if there is one, where it makes a list of members
// with the others.
fn add_piece<'a>(members: &mut ArrayVec<Member<'a>, MOST>, piece: &'a [u8]) -> bool
    requires { AreStateMembers members.old.items }
    ensures added { IsTrue result
        → (entry : StateEntry) × IsStateEntry entry × (piece.now ≡ state_entry_text entry)
        × (members.new.items ≡ members.old.items ++ option_to_list entry.member) }
    ensures formed { IsTrue result → AreStateMembers members.new.items }
    ensures only { (entry : StateEntry) → IsStateEntry entry → piece.now ≡ state_entry_text entry
        → AreStateMembers (members.old.items ++ option_to_list entry.member) → IsTrue result }
{
    let text = trimmed(piece);
    if text.is_empty() {
        return true;
    }
    match read_member(text) {
        None => false,
        Some((key, value)) => add(members, Member { key, value }),
    }
}

// Adds a member where there is room for it and its key is a new one.
fn add<'a>(members: &mut ArrayVec<Member<'a>, MOST>, member: Member<'a>) -> bool
    requires { AreStateMembers members.old.items }
    ensures added { IsTrue result → members.new.items ≡ members.old.items ++ member.entry ∷ [] }
    ensures formed { IsTrue result ↔ AreStateMembers (members.old.items ++ member.entry ∷ []) }
{
    if members.is_full() || has_key(members.as_slice(), member.key) {
        return false;
    }
    members.push(member);
    true
}

fn has_key(members: &[Member<'_>], key: &[u8]) -> bool
    ensures { IsTrue result ↔ Any (λ m. m.key ≡ key.now) members.now }
{
    members.iter().any(|m| m.key == key)
}

// The members, joined by commas.
fn joined(alloc: Global, members: &[Member<'_>]) -> Result<Text, OutOfMemory>
    requires { All IsStateMember members.now }
    ensures value { IfOk result (λ state. state ≡ tracestate_text members.now) }
    ensures wants { OnErr result (members.now ≢ []) }
{
    let mut state = Text::new(alloc);
    'members: for member in members {
        append_comma(&mut state)?;
        append_member(&mut state, member)?;
    }
    Ok(state)
}

// The comma behind members that are there.
fn append_comma(state: &mut Text) -> Result<(), OutOfMemory>
    ensures first { state.old ≡ [] → OnOk result (state.new ≡ []) }
    ensures more { state.old ≢ [] → OnOk result (state.new ≡ state.old ++ member_comma ∷ []) }
{
    if state.len() == 0 {
        return Ok(());
    }
    state.append(",")
}

fn append_member(state: &mut Text, member: &Member<'_>) -> Result<(), OutOfMemory>
    requires { IsStateMember member.now }
    ensures { OnOk result (state.new ≡ state.old ++ state_member_text member.now) }
{
    state.append(ascii(member.key))?;
    state.append("=")?;
    state.append(ascii(member.value))
}

fn ascii(text: &[u8]) -> &str
    requires { All (λ c. c < 128) text.now }
    ensures { result.now ≡ text.now }
{
    std::str::from_utf8(text).unwrap()
}
