//! Attributes, with their keys in order.
ghost use Rattle.std.specs.Prelude.{◌≡◌, All, IfOk, OnOk, IsSortedBy, IsTrue};
ghost use Rattle.std.specs.List.Sorted.{IsStableBy};
ghost use Rattle.span_io.specs.Sizes.{IsShort};
ghost use Rattle.trace_model.specs.Attributes.{AreAttributes, AreKeysInOrder, AreRepeated, Rise, attrs, keys};
ghost use Rattle.trace_model.specs.private.Gathering.{key_above, ends_with, kept_with, repeated_with};
ghost use Rattle.trace_model.specs.Values.{IsSound, AreSound};

use crate::laws::rising_attributes;
use crate::value::{Attrs, Value};
use span_io::{Items, OutOfMemory, Text};
use std::alloc::Global;
use std::cmp::Ordering;

/// The attributes of a list of pairs: each key with its last value, in the order of the keys' bytes.
/// The second part is the keys that stand more than once, in the same order. A list whose keys rise
/// stays as it is.
pub fn attrs_of(
    alloc: Global,
    list: Items<(Text, Value)>,
) -> Result<(Attrs, Items<Text>), OutOfMemory>
    ensures attributes { IfOk result (λ parts. AreAttributes parts.0 list) }
    ensures same { IfOk result (λ parts. parts.0 ≡ attrs list) }
    ensures repeated { IfOk result (λ parts. AreRepeated parts.1 list) }
    ensures sound { All (λ pair. IsSound pair.1) list → IfOk result (λ parts. AreSound parts.0) }
{
    rising_attributes();
    if keys_rise(list.as_slice()) {
        return Ok((list, Items::new(alloc)));
    }
    gathered(alloc, list)
}

/// Whether each key is below the next.
fn keys_rise(pairs: &[(Text, Value)]) -> bool
    ensures { IsTrue result → Rise (keys pairs.now) }
{
    let Some((first, others)) = pairs.split_first() else {
        return true;
    };
    let mut last = first;
    'others: for pair in others {
        match last.0.as_str().cmp(pair.0.as_str()) {
            Ordering::Less => last = pair,
            Ordering::Equal | Ordering::Greater => return false,
        }
    }
    true
}

/// The same of pairs in any order.
fn gathered(alloc: Global, list: Items<(Text, Value)>) -> Result<(Attrs, Items<Text>), OutOfMemory>
    ensures attributes { IfOk result (λ parts. AreAttributes parts.0 list) }
    ensures repeated { IfOk result (λ parts. AreRepeated parts.1 list) }
{
    let mut pairs = falling(list)?;
    pairs.reverse();
    if keys_rise(pairs.as_slice()) {
        return Ok((Items::from_vec(pairs), Items::new(alloc)));
    }
    pairs.reverse();
    let mut kept = Items::with_room(alloc, pairs.len())?;
    let mut repeated = Items::new(alloc);
    'pairs: while let Some(pair) = pairs.pop() {
        gather(&mut kept, &mut repeated, pair)?;
    }
    Ok((kept, repeated))
}

/// The pairs by falling key; those of one key keep their order.
fn falling(list: Items<(Text, Value)>) -> Result<Vec<(Text, Value)>, OutOfMemory>
    ensures short { IfOk result (λ pairs. IsShort pairs.items) }
    ensures sorted { IfOk result (λ pairs. IsSortedBy key_above pairs.items) }
    ensures stable { IfOk result (λ pairs. IsStableBy key_above list pairs.items) }
{
    let mut pairs = list.into_vec();
    pairs.sort_by(|a, b| b.0.as_str().cmp(a.0.as_str()))?;
    Ok(pairs)
}

/// Keeps a pair, or notes its key where that is the last one which was kept.
fn gather(
    kept: &mut Attrs,
    repeated: &mut Items<Text>,
    pair: (Text, Value),
) -> Result<(), OutOfMemory>
    ensures kept { OnOk result (kept.new ≡ kept_with kept.old pair) }
    ensures repeated { OnOk result (repeated.new ≡ repeated_with kept.old repeated.old pair) }
{
    if !last_key_is(kept.as_slice(), &pair.0) {
        return kept.push(pair);
    }
    if last_is(repeated.as_slice(), &pair.0) {
        return Ok(());
    }
    repeated.push(pair.0)
}

/// The keys in the order of their bytes, each once.
pub fn keys_in_order(keys: Items<Text>) -> Result<Items<Text>, OutOfMemory>
    ensures { IfOk result (λ list. AreKeysInOrder list keys) }
{
    let mut sorted = keys.into_vec();
    sorted.sort_by(|a, b| a.as_str().cmp(b.as_str()))?;
    sorted.dedup_by(|a, b| a.as_str() == b.as_str());
    Ok(Items::from_vec(sorted))
}

fn last_key_is(pairs: &[(Text, Value)], key: &Text) -> bool
    ensures { result ≡ ends_with (keys pairs.now) key.now }
{
    match pairs.last() {
        Some(pair) => pair.0.as_str() == key.as_str(),
        None => false,
    }
}

fn last_is(names: &[Text], key: &Text) -> bool
    ensures { result ≡ ends_with names.now key.now }
{
    match names.last() {
        Some(name) => name.as_str() == key.as_str(),
        None => false,
    }
}
