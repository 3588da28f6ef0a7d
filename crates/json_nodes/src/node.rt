//! Nodes, and lists of them.
ghost use Rattle.std.specs.Prelude.{◌≡◌, take, drop, option_map};
ghost use Rattle.json_nodes.specs.Nodes.{spelled, next_value, value_at};
ghost use Rattle.json_nodes.specs.private.Parts.{is_null_node, truth_in, number_in, text_in, key_in, array_in, object_in, nodes_inside};

use crate::number::Number;

/// A part of a value of JSON, in the order of the text.
#[derive(Clone, Copy)]
pub enum Node<'a> {
    Null,
    Truth(bool),
    Number(Number),
    Text(&'a str),
    /// The name of a member, whose value stands behind it.
    Key(&'a str),
    /// How many of the nodes that follow are inside it.
    Array(usize),
    Object(usize),
}

impl<'a> Node<'a> {
    // Null, or no value.
    #[inline(always)]
    pub(crate) fn is_null(&self) -> bool
        ensures { result ≡ is_null_node self.now }
    {
        matches!(self, Node::Null | Node::Key(_))
    }

    #[inline(always)]
    pub(crate) fn truth(&self) -> Option<bool>
        ensures { result ≡ truth_in self.now }
    {
        if let Node::Truth(truth) = self {
            Some(*truth)
        } else {
            None
        }
    }

    #[inline(always)]
    pub(crate) fn number(&self) -> Option<Number>
        ensures { result ≡ number_in self.now }
    {
        if let Node::Number(number) = self {
            Some(*number)
        } else {
            None
        }
    }

    #[inline(always)]
    pub(crate) fn text(&self) -> Option<&'a str>
        ensures { option_map (λ s. s.now) result ≡ text_in self.now }
    {
        if let Node::Text(text) = self {
            Some(text)
        } else {
            None
        }
    }

    #[inline(always)]
    pub(crate) fn key(&self) -> Option<&'a str>
        ensures { option_map (λ k. k.now) result ≡ key_in self.now }
    {
        if let Node::Key(key) = self {
            Some(key)
        } else {
            None
        }
    }

    // How many nodes are in the array that it begins.
    #[inline(always)]
    pub(crate) fn array(&self) -> Option<usize>
        ensures { result ≡ array_in self.now }
    {
        if let Node::Array(count) = self {
            Some(*count)
        } else {
            None
        }
    }

    #[inline(always)]
    pub(crate) fn object(&self) -> Option<usize>
        ensures { result ≡ object_in self.now }
    {
        if let Node::Object(count) = self {
            Some(*count)
        } else {
            None
        }
    }

    // How many nodes are inside the value that it begins, if it begins one.
    #[inline(always)]
    fn inside(&self) -> Option<usize>
        ensures { result ≡ nodes_inside self.now }
    {
        match self {
            Node::Key(_) => None,
            Node::Array(count) | Node::Object(count) => Some(*count),
            Node::Null | Node::Truth(_) | Node::Number(_) | Node::Text(_) => Some(0),
        }
    }
}

// So many nodes, or all.
#[inline(always)]
pub(crate) fn front<'v, 'a>(nodes: &'v [Node<'a>], count: usize) -> &'v [Node<'a>]
    ensures { result.now ≡ take count nodes.now }
{
    let (front, _) = nodes.split_at(count.min(nodes.len()));
    front
}

#[inline(always)]
fn past<'v, 'a>(nodes: &'v [Node<'a>], count: usize) -> &'v [Node<'a>]
    ensures { result.now ≡ drop count nodes.now }
{
    let (_, rest) = nodes.split_at(count.min(nodes.len()));
    rest
}

// The nodes behind the value that comes first, if one does.
#[inline(always)]
pub(crate) fn behind_value<'v, 'a>(nodes: &'v [Node<'a>]) -> Option<&'v [Node<'a>]>
    ensures { option_map (λ rest. (value_at nodes.now, spelled rest.now)) result
        ≡ next_value (spelled nodes.now) }
{
    let Some((first, rest)) = nodes.split_first() else {
        return None;
    };
    match first.inside() {
        None => None,
        Some(count) => Some(past(rest, count)),
    }
}
