//! The members of an object.
ghost use Rattle.std.specs.Prelude.{◌≡◌, ◌≤◌, ◌∷◌, [], length, map, MatchOption, IfOk, option_map};
ghost use Rattle.std.specs.List.{AllZip};
ghost use Rattle.json_nodes.specs.private.Asked.{put_where};
ghost use Rattle.serde_json.specs.Data.{no_members};

use crate::lent::Lent;
use crate::node::{Node, behind_value};
use span_io::OutOfMemory;
use std::alloc::Global;
use std::collections::BTreeMap;

/// The members of an object that are left, in the order of the text. Names may come twice; the last of them counts.
#[derive(Clone, Copy)]
pub struct Members<'v, 'a> {
    pub(crate) nodes: &'v [Node<'a>],
}

// Puts the value at each place whose name this is.
fn put_named<'v, 'a>(
    names: &[&str],
    name: &str,
    value: Lent<'v, 'a>,
    found: &mut [Option<Lent<'v, 'a>>],
)
    requires { length found.old ≡ length names.now }
    ensures { found.new ≡ put_where name.now value.entry names.now found.old }
{
    'names: for (i, asked) in names.iter().enumerate() {
        if name == *asked {
            found[i] = Some(value);
        }
    }
}

impl<'v, 'a> Members<'v, 'a> {
    ghost use Rattle.json_nodes.specs.Lents.{lent_view, members_left, named_members};
    ghost use Rattle.json_nodes.specs.private.Parts.{last_value};
    ghost use Rattle.json_nodes.specs.Nodes.{put_all};

    /// The next of them, by its name.
    #[inline(always)]
    pub fn next(&mut self) -> Option<(&'a str, Lent<'v, 'a>)>
        ensures { MatchOption result (members_left self.old ≡ [])
            (λ m. members_left self.old ≡ (m.0.now, lent_view m.1) ∷ members_left self.new) }
    {
        let Some((first, nodes)) = self.nodes.split_first() else {
            return None;
        };
        let Some(key) = first.key() else {
            return None;
        };
        let Some(rest) = behind_value(nodes) else {
            return None;
        };
        *self = Members { nodes: rest };
        Some((key, Lent { nodes }))
    }

    // The last value of this name.
    pub(crate) fn last_named(self, name: &str) -> Option<Lent<'v, 'a>>
        ensures { option_map lent_view result ≡ last_value name.now (members_left self.entry) }
    {
        let mut left = self;
        let mut found = None;
        'members: while let Some((key, value)) = left.next() {
            if key == name {
                found = Some(value);
            }
        }
        found
    }

    // The last value of each of these names.
    pub(crate) fn last_of_each(self, names: &[&str], found: &mut [Option<Lent<'v, 'a>>])
        requires { found.old ≡ map (λ name. None) names.now }
        ensures { AllZip
            (λ name o. option_map lent_view o
            ≡ last_value name.now (members_left self.entry)) names.now found.new }
    {
        let mut left = self;
        'members: while let Some((name, value)) = left.next() {
            put_named(names, name, value, found);
        }
    }

    /// All of them by their names, each once, in the order of the names' bytes.
    pub fn by_name(self, alloc: Global) -> Result<BTreeMap<&'a str, Lent<'v, 'a>>, OutOfMemory>
        ensures { IfOk result
            (λ named. named_members named.entries ≡ put_all (members_left self.entry) no_members) }
    {
        let mut left = self;
        let mut named = BTreeMap::new(alloc);
        'members: while let Some((name, member)) = left.next() {
            let Ok(_) = named.insert(name, member) else {
                return Err(OutOfMemory);
            };
        }
        Ok(named)
    }
}
