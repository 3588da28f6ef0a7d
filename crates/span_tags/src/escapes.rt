//! Attributes under the keys by which a target can tell them from its own tags.
ghost use Rattle.std.specs.Prelude.{◌≡◌, ◌++◌, ℕ, Bool, true, false, List, Some, None, drop, if◌then◌else◌, option_map, IfOk, OnErr};
ghost use Rattle.std.specs.List.{list_any};
ghost use Rattle.trace_model.specs.Attributes.{Rise, keys};
ghost use Rattle.span_tags.specs.Escapes as told;

use span_io::{Items, OutOfMemory, Text};
use std::alloc::Global;
use trace_model::{Attrs, attrs_of};

/// The keys that a target reserves in one place, such as a span.
pub trait Reserves {
    ghost reserved: { List ℕ → Bool };

    /// Whether the key is reserved.
    fn is_reserved(key: &str) -> bool
        ensures { result ≡ reserved key.now };
}

// ---- one key

// Whether a key may begin with the front: it has the front's first byte, as few do.
fn may_have_front(key: &str) -> bool
    ensures { result ≡ false → told.has_front key.now ≡ false }
{
    matches!(key.as_bytes(), [b'o', ..])
}

// What stands behind the front of a key that begins with it.
fn behind_front(key: &str) -> Option<&str>
    ensures { option_map (λ rest. rest.now) result
        ≡ (if told.has_front key.now then Some (drop 10 key.now) else None) }
{
    if may_have_front(key) {
        return key.strip_prefix("otel.attr.");
    }
    None
}

fn base(key: &str) -> &str
    ensures { result.now ≡ told.base key.now }
{
    let mut rest = key;
    'copies: while let Some(behind) = behind_front(rest) {
        rest = behind;
    }
    rest
}

fn is_touched<R: Reserves>(key: &str) -> bool
    ensures { result ≡ told.is_touched R.reserved key.now }
{
    R::is_reserved(base(key))
}

fn is_escaped<R: Reserves>(key: &str) -> bool
    ensures { result ≡ told.is_escaped R.reserved key.now }
{
    behind_front(key).is_some() && is_touched::<R>(key)
}

fn with_front(alloc: Global, key: &str) -> Result<Text, OutOfMemory>
    ensures { IfOk result (λ text. text ≡ told.front ++ key.now) }
{
    let mut text = Text::of(alloc, "otel.attr.")?;
    text.append(key)?;
    Ok(text)
}

// The key under which an attribute of this one is written.
fn escaped_key<R: Reserves>(alloc: Global, key: Text) -> Result<Text, OutOfMemory>
    ensures { IfOk result (λ text. text ≡ told.esc R.reserved key) }
{
    if !is_touched::<R>(key.as_str()) {
        return Ok(key);
    }
    with_front(alloc, key.as_str())
}

// The key of the attribute that a tag of this one is.
fn unescaped_key<R: Reserves>(alloc: Global, key: Text) -> Result<Text, OutOfMemory>
    ensures { IfOk result (λ text. text ≡ told.unesc R.reserved key) }
{
    if !is_escaped::<R>(key.as_str()) {
        return Ok(key);
    }
    match behind_front(key.as_str()) {
        Some(rest) => Text::of(alloc, rest),
        None => Ok(key),
    }
}

// ---- all keys

fn has_touched<R: Reserves>(attributes: &Attrs) -> bool
    ensures { result ≡ list_any (λ pair. told.is_touched R.reserved pair.0) attributes.now }
{
    'attributes: for pair in attributes.as_slice() {
        if is_touched::<R>(pair.0.as_str()) {
            return true;
        }
    }
    false
}

fn has_escaped<R: Reserves>(tags: &Attrs) -> bool
    ensures { result ≡ list_any (λ pair. told.is_escaped R.reserved pair.0) tags.now }
{
    'tags: for pair in tags.as_slice() {
        if is_escaped::<R>(pair.0.as_str()) {
            return true;
        }
    }
    false
}

fn escaped_pairs<R: Reserves>(alloc: Global, attributes: Attrs) -> Result<Attrs, OutOfMemory>
    ensures { IfOk result (λ pairs. pairs ≡ told.rekeyed (told.esc R.reserved) attributes) }
{
    let mut pairs = Vec::with_capacity(alloc, attributes.len())?;
    'attributes: for pair in attributes.into_vec() {
        pairs.push((escaped_key::<R>(alloc, pair.0)?, pair.1))?;
    }
    Ok(Items::from_vec(pairs))
}

fn unescaped_pairs<R: Reserves>(alloc: Global, tags: Attrs) -> Result<Attrs, OutOfMemory>
    ensures { IfOk result (λ pairs. pairs ≡ told.rekeyed (told.unesc R.reserved) tags) }
{
    let mut pairs = Vec::with_capacity(alloc, tags.len())?;
    'tags: for pair in tags.into_vec() {
        pairs.push((unescaped_key::<R>(alloc, pair.0)?, pair.1))?;
    }
    Ok(Items::from_vec(pairs))
}

/// The attributes under the keys by which they are written. Where no key is touched, they stay as they
/// are, without memory.
pub fn escaped<R: Reserves>(alloc: Global, attributes: Attrs) -> Result<Attrs, OutOfMemory>
    requires rising { Rise (keys attributes) }
    ensures value { IfOk result (λ written. written ≡ told.escaped R.reserved attributes) }
    ensures wants { OnErr result
        (list_any (λ pair. told.is_touched R.reserved pair.0) attributes ≡ true) }
{
    if !has_touched::<R>(&attributes) {
        return Ok(attributes);
    }
    let pairs = escaped_pairs::<R>(alloc, attributes)?;
    let (written, _) = attrs_of(alloc, pairs)?;
    Ok(written)
}

/// The attributes that tags are, under their own keys. Where no key was escaped, they stay as they are,
/// without memory.
pub fn unescaped<R: Reserves>(alloc: Global, tags: Attrs) -> Result<Attrs, OutOfMemory>
    requires rising { Rise (keys tags) }
    ensures value { IfOk result (λ attributes. attributes ≡ told.unescaped R.reserved tags) }
    ensures wants { OnErr result
        (list_any (λ pair. told.is_escaped R.reserved pair.0) tags ≡ true) }
{
    if !has_escaped::<R>(&tags) {
        return Ok(tags);
    }
    let pairs = unescaped_pairs::<R>(alloc, tags)?;
    let (attributes, _) = attrs_of(alloc, pairs)?;
    Ok(attributes)
}
