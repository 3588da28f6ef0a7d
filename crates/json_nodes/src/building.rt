//! A list of nodes, as it grows.
ghost use Rattle.std.specs.Prelude.{◌≡◌, ◌+◌, ◌-◌, ◌<◌, ◌++◌, ◌∷◌, [], length, slice_set, OnOk};
ghost use Rattle.json_nodes.specs.declared.node.Node.TheVariants as nodes_of;

use crate::node::Node;
use std::alloc::AllocError;

// Adds a node at the end.
#[inline(always)]
pub(crate) fn push<'a>(nodes: &mut Vec<Node<'a>>, node: Node<'a>) -> Result<(), AllocError>
    ensures { OnOk result (nodes.new.items ≡ nodes.old.items ++ node.entry ∷ []) }
{
    if nodes.len() < nodes.capacity() {
        nodes.push_reserved(node);
        return Ok(());
    }
    nodes.push(node)?;
    Ok(())
}

#[inline(always)]
fn patch<T: Copy>(nodes: &mut Vec<T>, at: usize, node: T)
    requires { at < length nodes.old.items }
    ensures { nodes.new.items ≡ slice_set nodes.old.items at node }
{
    nodes[at] = node;
}

// Tells the array at this place that all nodes behind it are inside.
#[inline(always)]
pub(crate) fn close_array(nodes: &mut Vec<Node<'_>>, at: usize)
    requires { at < length nodes.old.items }
    ensures { nodes.new.items
        ≡ slice_set nodes.old.items at (nodes_of.Array (length nodes.old.items - (at + 1))) }
{
    let count = nodes.len() - (at + 1);
    patch(nodes, at, Node::Array(count));
}

// Tells the object at this place that all nodes behind it are inside.
#[inline(always)]
pub(crate) fn close_object(nodes: &mut Vec<Node<'_>>, at: usize)
    requires { at < length nodes.old.items }
    ensures { nodes.new.items
        ≡ slice_set nodes.old.items at (nodes_of.Object (length nodes.old.items - (at + 1))) }
{
    let count = nodes.len() - (at + 1);
    patch(nodes, at, Node::Object(count));
}
