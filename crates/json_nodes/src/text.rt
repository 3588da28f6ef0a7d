//! From a text to nodes, in one pass over its tokens.
ghost use Rattle.std.specs.Prelude.{◌≡◌, ◌≢◌, ◌<◌, [], length, Some, None, Err, IfOk, OnOk, OnErr, IsUtf8};
ghost use Rattle.json.specs.Json.{value, items, members, parse_map};
ghost use Rattle.serde_json.specs.Data.{array, object, no_members};
ghost use Rattle.serde_json.specs.Read.{of_json, of_items, of_members, converted, read as read_text};
ghost use Rattle.json_nodes.specs.Nodes.{value_at};
ghost use Rattle.json_nodes.specs.private.Building.{AddsValue, AddsItems, AddsMembers};

use crate::building::{close_array, close_object, push};
use crate::node::Node;
use crate::number::Number;
use crate::unread::Unread;
use json::{Invalid, Reader, Scratch, Token};
use std::alloc::Global;

const MAX_DEPTH: usize = 127;

/// The nodes of bytes that are a value of JSON, as `serde_json` reads it. Texts with escapes stand in `scratch`, the
/// others in the bytes.
pub fn bytes_nodes<'a>(
    alloc: Global,
    bytes: &'a [u8],
    scratch: &'a mut Scratch,
) -> Result<Vec<Node<'a>>, Unread>
    ensures ok { IfOk result
        (λ nodes. IsUtf8 bytes.now × (read_text bytes.now ≡ Some (value_at nodes.items))) }
    ensures bad { result ≡ Err Unread.BadJson → IsUtf8 bytes.now → read_text bytes.now ≡ None }
    // No memory is wanted for bytes that are no text.
    ensures wants { result ≡ Err Unread.OutOfMemory → IsUtf8 bytes.now }
{
    match simdutf8::basic::from_utf8(bytes) {
        Ok(text) => text_nodes(alloc, text, scratch),
        Err(_) => Err(Unread::BadJson),
    }
}

/// The nodes of a text that is a value of JSON.
pub fn text_nodes<'a>(
    alloc: Global,
    text: &'a str,
    scratch: &'a mut Scratch,
) -> Result<Vec<Node<'a>>, Unread>
    ensures ok { IfOk result (λ nodes. read_text text.now ≡ Some (value_at nodes.items)) }
    ensures bad { result ≡ Err Unread.BadJson → read_text text.now ≡ None }
{
    let mut reader = Reader::new(text, scratch)?;
    let mut nodes = Vec::with_capacity(alloc, text.len() / 8)?;
    read(&mut reader, &mut nodes, MAX_DEPTH)?;
    at_end(&mut reader)?;
    Ok(nodes)
}

// That no token is left.
fn at_end(reader: &mut Reader<'_>) -> Result<(), Invalid>
    ensures ok { OnOk result (reader.old ≡ []) }
    ensures err { OnErr result (reader.old ≢ []) }
{
    if reader.next().is_some() {
        return Err(Invalid);
    }
    Ok(())
}

// Adds the nodes of a value that nests so many levels at most.
#[cycle(read)]
#[inline(always)]
fn read<'a>(reader: &mut Reader<'a>, nodes: &mut Vec<Node<'a>>, depth: usize) -> Result<(), Unread>
    ensures ok { OnOk result (AddsValue nodes.old.items nodes.new.items
        (converted of_json (value depth reader.old)) reader.new) }
    ensures shorter { OnOk result (length reader.new < length reader.old) }
    ensures bad { result ≡ Err Unread.BadJson → converted of_json (value depth reader.old) ≡ None }
{
    let token = reader.next().ok_or(Unread::BadJson)?;
    match token {
        Token::String(text) => Ok(push(nodes, Node::Text(text))?),
        Token::Number(text) => match Number::parse(text) {
            Some(number) => Ok(push(nodes, Node::Number(number))?),
            None => Err(Unread::BadJson),
        },
        Token::Bool(truth) => Ok(push(nodes, Node::Truth(truth))?),
        Token::Null => Ok(push(nodes, Node::Null)?),
        Token::EndObject | Token::EndArray | Token::Key(_) | Token::Bad => Err(Unread::BadJson),
        Token::BeginArray => {
            if depth == 0 {
                return Err(Unread::BadJson);
            }
            Ok(read_array(reader, nodes, depth - 1)?)
        }
        Token::BeginObject => {
            if depth == 0 {
                return Err(Unread::BadJson);
            }
            Ok(read_object(reader, nodes, depth - 1)?)
        }
    }
}

// Behind the bracket.
#[cycle(read)]
#[inline(never)]
fn read_array<'a>(
    reader: &mut Reader<'a>,
    nodes: &mut Vec<Node<'a>>,
    depth: usize,
) -> Result<(), Unread>
    ensures ok { OnOk result (AddsValue nodes.old.items nodes.new.items
        (parse_map array
        (converted of_items (items (value depth) (length reader.old) reader.old))) reader.new) }
    ensures shorter { OnOk result (length reader.new < length reader.old) }
    ensures bad { result ≡ Err Unread.BadJson
        → converted of_items (items (value depth) (length reader.old) reader.old) ≡ None }
{
    let at = nodes.len();
    push(nodes, Node::Array(0))?;
    read_elements(reader, nodes, depth)?;
    close_array(nodes, at);
    Ok(())
}

#[cycle(read)]
#[inline(always)]
fn read_elements<'a>(
    reader: &mut Reader<'a>,
    nodes: &mut Vec<Node<'a>>,
    depth: usize,
) -> Result<(), Unread>
    ensures ok { OnOk result (AddsItems nodes.old.items nodes.new.items
        (converted of_items (items (value depth) (length reader.old) reader.old)) reader.new) }
    ensures shorter { OnOk result (length reader.new < length reader.old) }
    ensures bad { result ≡ Err Unread.BadJson
        → converted of_items (items (value depth) (length reader.old) reader.old) ≡ None }
{
    'elements: while !reader.take_end_array() {
        read(reader, nodes, depth)?;
    }
    Ok(())
}

// Behind the brace.
#[cycle(read)]
#[inline(never)]
fn read_object<'a>(
    reader: &mut Reader<'a>,
    nodes: &mut Vec<Node<'a>>,
    depth: usize,
) -> Result<(), Unread>
    ensures ok { OnOk result (AddsValue nodes.old.items nodes.new.items
        (parse_map object
        (converted (λ ms. of_members ms no_members)
        (members (value depth) (length reader.old) reader.old)))
        reader.new) }
    ensures shorter { OnOk result (length reader.new < length reader.old) }
    ensures bad { result ≡ Err Unread.BadJson
        → converted (λ ms. of_members ms no_members)
        (members (value depth) (length reader.old) reader.old) ≡ None }
{
    let at = nodes.len();
    push(nodes, Node::Object(0))?;
    read_members(reader, nodes, depth)?;
    close_object(nodes, at);
    Ok(())
}

#[cycle(read)]
#[inline(always)]
fn read_members<'a>(
    reader: &mut Reader<'a>,
    nodes: &mut Vec<Node<'a>>,
    depth: usize,
) -> Result<(), Unread>
    ensures ok { OnOk result (AddsMembers nodes.old.items nodes.new.items
        (converted (λ ms. of_members ms no_members)
        (members (value depth) (length reader.old) reader.old)) reader.new) }
    ensures shorter { OnOk result (length reader.new < length reader.old) }
    ensures bad { result ≡ Err Unread.BadJson
        → converted (λ ms. of_members ms no_members)
        (members (value depth) (length reader.old) reader.old) ≡ None }
{
    'members: while let Some(name) = reader.next_key()? {
        push(nodes, Node::Key(name))?;
        read(reader, nodes, depth)?;
    }
    Ok(())
}
