//! Lists of objects.
ghost use Rattle.std.specs.Prelude.{◌∷◌, ◌++◌, [], List};
ghost use Rattle.json.specs.Token.{begin_object, begin_array, end_array, key};
ghost use Rattle.serde_json.specs.Data.{object};
ghost use Rattle.json_members.specs.Canonical.{MemberRow, members_given};
ghost use Rattle.json_members.specs.Writing.{Appends, given_tokens};
ghost use Rattle.json_members.specs.private.Pieces.{rows_tokens, pieces};
ghost use Rattle.otlp_json.specs.Canonical.{list_data};

use crate::writing::members::open_list;
use json::Writer;
use json_members::close_array;
use span_io::{Items, OutOfMemory};
use std::alloc::Global;

/// An object that stands in a list.
pub trait Element {
    // Its members.
    ghost rows: { Self → List MemberRow };

    /// Appends the object.
    fn write(&self, alloc: Global, out: &mut Writer) -> Result<(), OutOfMemory>
        ensures { Appends result out.old out.new (begin_object ∷ rows_tokens (rows self.now)) };
}

fn write_elements<T: Element>(
    alloc: Global,
    out: &mut Writer,
    items: &[T],
) -> Result<(), OutOfMemory>
    ensures { Appends result out.old out.new
        (pieces (λ x. begin_object ∷ rows_tokens (T.rows x)) items.now) }
{
    'items: for item in items {
        item.write(alloc, out)?;
    }
    Ok(())
}

fn named_list<T: Element>(
    alloc: Global,
    out: &mut Writer,
    name: &str,
    items: &[T],
) -> Result<(), OutOfMemory>
    ensures { Appends result out.old out.new (key name.now ∷ begin_array
        ∷ (pieces (λ x. begin_object ∷ rows_tokens (T.rows x)) items.now ++ end_array ∷ [])) }
{
    open_list(out, name)?;
    write_elements(alloc, out, items)?;
    close_array(out)
}

/// A list of objects, unless there are none.
pub fn list_member<T: Element>(
    alloc: Global,
    out: &mut Writer,
    name: &str,
    items: &Items<T>,
) -> Result<(), OutOfMemory>
    ensures { Appends result out.old out.new
        (given_tokens name.now (list_data (λ x. object (members_given (T.rows x))) items.now)) }
{
    let items = items.as_slice();
    if items.is_empty() {
        return Ok(());
    }
    named_list(alloc, out, name, items)
}
