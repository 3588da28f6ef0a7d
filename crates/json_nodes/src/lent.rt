//! Values of JSON over nodes that are lent.
ghost use Rattle.std.specs.Prelude.{◌≡◌, map, is_some, option_map, option_and_then};
ghost use Rattle.std.specs.List.{AllZip};
ghost use Rattle.serde_json.specs.Data.{no_members};
ghost use Rattle.serde_json.specs.Find.{get, as_null, as_bool, as_number, as_str, as_array, as_object, as_i64, as_u64};
ghost use Rattle.serde_json.specs.View.{items_of};

use crate::elements::Elements;
use crate::members::Members;
use crate::node::{Node, front};
use crate::number::Number;

/// A value of JSON, whose nodes are lent.
#[derive(Clone, Copy)]
pub struct Lent<'v, 'a> {
    pub(crate) nodes: &'v [Node<'a>],
}

impl<'v, 'a> Lent<'v, 'a> {
    ghost use Rattle.json_nodes.specs.Nodes.{num_of, put_all, value_at};
    ghost use Rattle.json_nodes.specs.Lents.{lent_view as view, elements_left, members_left};
    ghost use Rattle.json_nodes.specs.private.Parts.{first_or_null};

    /// The value that nodes begin with.
    pub fn of(nodes: &'v [Node<'a>]) -> Lent<'v, 'a>
        ensures { view result ≡ value_at nodes.now }
    {
        Lent { nodes }
    }

    #[inline(always)]
    fn first(&self) -> Node<'a>
        ensures { result ≡ first_or_null self.now.nodes.now }
    {
        match self.nodes.split_first() {
            None => Node::Null,
            Some((first, _)) => *first,
        }
    }

    #[inline(always)]
    pub fn is_null(&self) -> bool
        ensures { result ≡ is_some (as_null (view self.now)) }
    {
        self.first().is_null()
    }

    #[inline(always)]
    pub fn as_bool(&self) -> Option<bool>
        ensures { result ≡ as_bool (view self.now) }
    {
        self.first().truth()
    }

    #[inline(always)]
    pub fn as_str(&self) -> Option<&'a str>
        ensures { option_map (λ s. s.now) result ≡ as_str (view self.now) }
    {
        self.first().text()
    }

    #[inline(always)]
    pub fn as_number(&self) -> Option<Number>
        ensures { option_map num_of result ≡ as_number (view self.now) }
    {
        self.first().number()
    }

    pub fn as_u64(&self) -> Option<u64>
        ensures { result ≡ option_and_then as_u64 (as_number (view self.now)) }
    {
        match self.as_number() {
            Some(number) => number.as_u64(),
            None => None,
        }
    }

    pub fn as_i64(&self) -> Option<i64>
        ensures { result ≡ option_and_then as_i64 (as_number (view self.now)) }
    {
        match self.as_number() {
            Some(number) => number.as_i64(),
            None => None,
        }
    }

    pub fn is_i64(&self) -> bool
        ensures { result ≡ is_some (option_and_then as_i64 (as_number (view self.now))) }
    {
        self.as_i64().is_some()
    }

    #[inline(always)]
    pub fn is_object(&self) -> bool
        ensures { result ≡ is_some (as_object (view self.now)) }
    {
        self.first().object().is_some()
    }

    /// The elements, of an array.
    pub fn elements(&self) -> Option<Elements<'v, 'a>>
        ensures { option_map (λ es. items_of (elements_left es)) result ≡ as_array (view self.now) }
    {
        let Some((first, rest)) = self.nodes.split_first() else {
            return None;
        };
        match first.array() {
            None => None,
            Some(count) => Some(Elements {
                nodes: front(rest, count),
            }),
        }
    }

    /// The members, of an object.
    pub fn members(&self) -> Option<Members<'v, 'a>>
        ensures { option_map (λ ms. put_all (members_left ms) no_members) result
            ≡ as_object (view self.now) }
    {
        let Some((first, rest)) = self.nodes.split_first() else {
            return None;
        };
        match first.object() {
            None => None,
            Some(count) => Some(Members {
                nodes: front(rest, count),
            }),
        }
    }

    /// The member of this name, of which the last counts.
    pub fn get(&self, name: &str) -> Option<Lent<'v, 'a>>
        ensures { option_map view result ≡ get name.now (view self.now) }
    {
        match self.members() {
            None => None,
            Some(members) => members.last_named(name),
        }
    }

    /// The members of these names, each put at the place of its name, by one walk over all of them.
    pub fn get_each(&self, names: &[&str], found: &mut [Option<Lent<'v, 'a>>])
        requires { found.old ≡ map (λ name. None) names.now }
        ensures { AllZip
            (λ name o. option_map view o ≡ get name.now (view self.now)) names.now found.new }
    {
        if let Some(members) = self.members() {
            members.last_of_each(names, found);
        }
    }
}
