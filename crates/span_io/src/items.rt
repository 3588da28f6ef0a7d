//! Growing lists.
ghost use Rattle.std.specs.Prelude.{◌≡◌, [], ◌∷◌, ◌++◌, length, IfOk, OnOk, OnErr};
ghost use Rattle.span_io.specs.Clones.{ClonesEqual};
ghost use Rattle.span_io.specs.Sizes.{IsShort};

use crate::halt::OutOfMemory;
use std::alloc::Global;
use std::marker::Model;

/// The most elements of a list, and the most bytes of a text: what 31 bits tell, as the sizes of Thrift
/// do (i32). What grows beyond wants memory.
pub const LONGEST: usize = 2_147_483_647;

/// A growing list, which contracts see as the list of its elements. It has at most `LONGEST`.
#[derive(Debug, Drop)]
pub struct Items<T> {
    items: Vec<T>,
}

impl<T> Model for Items<T> {
    ghost use Rattle.std.specs.Prelude.{List};
    ghost use Rattle.std.specs.Coded.{coded_list};
    ghost use Rattle.span_io.specs.Sizes.{IsShort};

    ghost Value = { List T };

    ghost coded = { coded_list T.code };

    ghost view = { λ i. i.items.items };

    ghost invariant = { λ i. IsShort i.items.items };
}

impl<T> Items<T> {
    pub fn new(alloc: Global) -> Items<T>
        ensures { result ≡ [] }
    {
        Items {
            items: Vec::new(alloc),
        }
    }

    /// An empty list with room for so many elements, which the caller has in hand.
    pub fn with_room(alloc: Global, room: usize) -> Result<Items<T>, OutOfMemory>
        ensures { IfOk result (λ items. items ≡ []) }
    {
        Ok(Items {
            items: Vec::with_capacity(alloc, room)?,
        })
    }

    /// The elements of a vector, with its room.
    pub fn from_vec(items: Vec<T>) -> Items<T>
        requires { IsShort items.items }
        ensures { result ≡ items.items }
    {
        Items { items }
    }

    pub fn len(&self) -> usize
        ensures count { result ≡ length self.now }
        ensures short { IsShort self.now }
    {
        self.items.len()
    }

    pub fn as_slice(&self) -> &[T]
        ensures { result.now ≡ self.now }
    {
        self.items.as_slice()
    }

    /// The elements, in the vector that holds them.
    pub fn into_vec(self) -> Vec<T>
        ensures items { result.items ≡ self }
        ensures short { IsShort self }
    {
        self.items
    }
}

impl<T: Clone> Items<T> {
    /// Another list of the same elements, whose clones equal them.
    pub fn copy(&self) -> Result<Items<T>, OutOfMemory>
        requires { ClonesEqual T.is_clone self.now }
        ensures { IfOk result (λ copy. copy ≡ self.now) }
    {
        let items = Vec::from_clones(*self.items.allocator(), self.items.as_slice())?;
        Ok(Items { items })
    }
}

impl<T: Drop> Items<T> {
    /// Adds an element at the end, at amortised cost. Where memory is wanted the element is gone.
    pub fn push(&mut self, item: T) -> Result<(), OutOfMemory>
        ensures ok { OnOk result (self.new ≡ self.old ++ item ∷ []) }
        ensures err { OnErr result (self.new ≡ self.old) }
    {
        if self.items.len() >= LONGEST {
            return Err(OutOfMemory);
        }
        self.items.push(item)?;
        Ok(())
    }
}
