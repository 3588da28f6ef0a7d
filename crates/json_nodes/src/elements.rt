//! The elements of an array.
ghost use Rattle.std.specs.Prelude.{◌≡◌, ◌∷◌, [], MatchOption};

use crate::lent::Lent;
use crate::node::{Node, behind_value};

/// The elements of an array that are left.
#[derive(Clone, Copy)]
pub struct Elements<'v, 'a> {
    pub(crate) nodes: &'v [Node<'a>],
}

impl<'v, 'a> Elements<'v, 'a> {
    ghost use Rattle.json_nodes.specs.Lents.{lent_view, elements_left};

    /// The next of them.
    #[inline(always)]
    pub fn next(&mut self) -> Option<Lent<'v, 'a>>
        ensures { MatchOption result (elements_left self.old ≡ [])
            (λ v. elements_left self.old ≡ lent_view v ∷ elements_left self.new) }
    {
        let nodes = self.nodes;
        let Some(rest) = behind_value(nodes) else {
            return None;
        };
        *self = Elements { nodes: rest };
        Some(Lent { nodes })
    }
}
