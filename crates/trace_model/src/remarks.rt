//! Remarks on what was read, at their places in a group.
ghost use Rattle.std.specs.Prelude.{◌≡◌, [], ◌∷◌, ◌++◌, OnOk};
ghost use Rattle.trace_model.specs.Remarks.{equal_keys, link_dropped, tags_dropped};

use crate::place::Place;
use crate::remark::{Remark, RemarkKind};
use span_io::{Items, OutOfMemory, Text};
use std::alloc::Global;

/// Adds remarks at the end.
pub fn remark_all(remarks: &mut Items<Remark>, more: Items<Remark>) -> Result<(), OutOfMemory>
    ensures { OnOk result (remarks.new ≡ remarks.old ++ more) }
{
    'remarks: for remark in more.into_vec() {
        remarks.push(remark)?;
    }
    Ok(())
}

/// Adds at the end that these keys stood more than once.
pub fn remark_keys(
    remarks: &mut Items<Remark>,
    place: Place,
    keys: Items<Text>,
) -> Result<(), OutOfMemory>
    ensures { OnOk result (remarks.new ≡ remarks.old ++ equal_keys place keys) }
{
    'keys: for key in keys.into_vec() {
        remarks.push(Remark {
            place,
            kind: RemarkKind::EqualKey,
            key,
        })?;
    }
    Ok(())
}

/// Adds at the end that a link was left out, if one was.
pub fn remark_dropped(
    alloc: Global,
    remarks: &mut Items<Remark>,
    place: Place,
    dropped: bool,
) -> Result<(), OutOfMemory>
    ensures { OnOk result (remarks.new ≡ remarks.old ++ link_dropped place dropped) }
{
    if !dropped {
        return Ok(());
    }
    remarks.push(Remark {
        place,
        kind: RemarkKind::LinkDropped,
        key: Text::new(alloc),
    })
}

/// Adds at the end that a tag of this key was left out.
pub fn remark_tag(
    alloc: Global,
    remarks: &mut Items<Remark>,
    place: Place,
    key: &str,
) -> Result<(), OutOfMemory>
    ensures { OnOk result (remarks.new ≡ remarks.old ++ tags_dropped place (key.now ∷ [])) }
{
    remarks.push(Remark {
        place,
        kind: RemarkKind::TagDropped,
        key: Text::of(alloc, key)?,
    })
}
