//! From an owned value to nodes.
ghost use Rattle.std.specs.Prelude.{◌≡◌, ◌∷◌, [], map, IfOk, OnOk};
ghost use Rattle.serde_json.specs.Data.{array, object};
ghost use Rattle.serde_json.specs.View.{view, number_view, items_view, members_view};
ghost use Rattle.json_nodes.specs.Nodes.{num_of, value as held, value_at};
ghost use Rattle.json_nodes.specs.private.Building.{Adds, AddsMap};

use crate::building::{close_array, close_object, push};
use crate::node::Node;
use crate::number::Number;
use serde_json::{Map, Value};
use std::alloc::{AllocError, Global};

/// The nodes of a value.
pub fn value_nodes<'v>(alloc: Global, v: &'v Value) -> Result<Vec<Node<'v>>, AllocError>
    ensures { IfOk result (λ nodes. value_at nodes.items ≡ view v.now) }
{
    let mut nodes = Vec::new(alloc);
    add_value(&mut nodes, v)?;
    Ok(nodes)
}

#[tactic(auto, using(crate::proofs::NumberLemmas::told))]
fn number_of(number: &serde_json::Number) -> Number
    ensures { num_of result ≡ number_view number.now }
{
    if let Some(count) = number.as_u64() {
        return Number::Unsigned(count);
    }
    if let Some(below) = number.as_i64() {
        return Number::Negative(below);
    }
    Number::Double(number.as_f64().unwrap_or(0.0))
}

#[cycle(add)]
fn add_value<'v>(nodes: &mut Vec<Node<'v>>, v: &'v Value) -> Result<(), AllocError>
    ensures { OnOk result (Adds nodes.old.items nodes.new.items (held (view v.now) ∷ [])) }
{
    match v {
        Value::Null => Ok(push(nodes, Node::Null)?),
        Value::Bool(truth) => Ok(push(nodes, Node::Truth(*truth))?),
        Value::Number(number) => Ok(push(nodes, Node::Number(number_of(number)))?),
        Value::String(text) => Ok(push(nodes, Node::Text(text.as_str()))?),
        Value::Array(elements) => Ok(add_array(nodes, elements)?),
        Value::Object(members) => Ok(add_object(nodes, members)?),
    }
}

#[cycle(add)]
fn add_array<'v>(nodes: &mut Vec<Node<'v>>, elements: &'v Vec<Value>) -> Result<(), AllocError>
    ensures { OnOk result (Adds nodes.old.items nodes.new.items
        (held (array (items_view elements.now.items)) ∷ [])) }
{
    let at = nodes.len();
    push(nodes, Node::Array(0))?;
    add_elements(nodes, elements)?;
    close_array(nodes, at);
    Ok(())
}

#[cycle(add)]
fn add_object<'v>(
    nodes: &mut Vec<Node<'v>>,
    members: &'v Map<String, Value>,
) -> Result<(), AllocError>
    ensures { OnOk result (Adds nodes.old.items nodes.new.items
        (held (object (members_view members.now.entries)) ∷ [])) }
{
    let at = nodes.len();
    push(nodes, Node::Object(0))?;
    add_members(nodes, members)?;
    close_object(nodes, at);
    Ok(())
}

#[cycle(add)]
fn add_elements<'v>(nodes: &mut Vec<Node<'v>>, elements: &'v Vec<Value>) -> Result<(), AllocError>
    ensures { OnOk result
        (Adds nodes.old.items nodes.new.items (map (λ v. held (view v)) elements.now.items)) }
{
    'elements: for element in elements {
        add_value(nodes, element)?;
    }
    Ok(())
}

#[cycle(add)]
fn add_members<'v>(
    nodes: &mut Vec<Node<'v>>,
    members: &'v Map<String, Value>,
) -> Result<(), AllocError>
    ensures { OnOk result (AddsMap nodes.old.items nodes.new.items members.now.entries) }
{
    'members: for (name, member) in members.iter() {
        push(nodes, Node::Key(name.as_str()))?;
        add_value(nodes, member)?;
    }
    Ok(())
}
