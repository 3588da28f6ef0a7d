//! What is open where a walk over a struct stands, as a value: the walk can stop there and go on later.
ghost use Rattle.std.specs.Prelude.{◌≡◌, ◌+◌, ◌<◌, ◌++◌, ◌∷◌, [], length, true};
ghost use Rattle.thrift_core.specs.Places.{most_below, around};
ghost use Rattle.thrift_core.specs.private.StackWalks.{open_of, still_open};
ghost use Rattle.thrift_core.specs.Trees.{outer_levels};
ghost use Rattle.thrift_core.specs.Walks.{outer_struct};

use crate::frame::OUTER_LEVELS;
use crate::type_code::TypeCode;
use arrayvec::ArrayVec;

// The most containers that may stand around another.
const MOST_BELOW: usize = 31;

/// What is still to come of a container.
#[derive(Clone, Copy, PartialEq, Eq)]
pub enum Level {
    /// Fields behind one of this id, up to the stop byte.
    Fields(i16),
    /// The value of a field of this id, which its head may hold already, and then fields.
    Field(i16, TypeCode, Option<bool>),
    /// So many elements.
    Elements(TypeCode, u32),
    /// So many pairs of a key and a value.
    Pairs(TypeCode, TypeCode, u32),
    /// The value of a pair, and then so many pairs.
    PairValue(TypeCode, TypeCode, u32),
}

impl Default for Level {
    fn default() -> Self {
        Level::Fields(0)
    }
}

// What is to come of the innermost container, and of those around it, the outermost first, behind what they hold of it.
#[derive(Drop)]
pub(crate) struct Stack {
    pub(crate) top: Level,
    below: ArrayVec<Level, MOST_BELOW>,
}

impl Stack {
    // The stack before a struct's first byte.
    pub(crate) fn new() -> Stack
        ensures { open_of result ≡ outer_struct ∷ [] }
    {
        Stack {
            top: Level::Fields(0),
            below: ArrayVec::new(),
        }
    }

    // Goes back there.
    pub(crate) fn restart(&mut self)
        ensures { open_of self.new ≡ outer_struct ∷ [] }
    {
        self.top = Level::Fields(0);
        self.below.clear();
    }

    // The levels that are left in the innermost container.
    pub(crate) fn left(&self) -> u8
        ensures { result + length self.now.below.items ≡ outer_levels }
    {
        OUTER_LEVELS - self.below.len() as u8
    }

    // Enters a container, behind which this is to come of the one around it.
    pub(crate) fn enter(&mut self, behind: Level, inner: Level)
        requires room { length self.old.below.items < most_below }
        ensures top { self.new.top ≡ inner }
        ensures below { self.new.below.items ≡ self.old.below.items ++ behind ∷ [] }
    {
        self.below.push(behind);
        self.top = inner;
    }

    // Leaves the innermost container. The answer says whether there is one around it.
    pub(crate) fn leave(&mut self) -> bool
        ensures open { around self.old.below.items ≡ still_open result self.new }
        ensures fewer { result ≡ true
            → length self.new.below.items + 1 ≡ length self.old.below.items }
    {
        match self.below.pop() {
            None => false,
            Some(outer) => {
                self.top = outer;
                true
            }
        }
    }
}
