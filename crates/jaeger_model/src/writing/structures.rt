//! Structs, and lists of them.
ghost use Rattle.std.specs.Prelude.{◌<ℤ◌, ℕ, pos, List, All};
ghost use Rattle.thrift_core.specs.Written.{FieldRow, elements_written, struct_trees};
ghost use Rattle.jaeger_model.specs.Canonical.{list_tree, filled_list};
ghost use Rattle.jaeger_model.specs.private.Growing.{GrowsBy, WritesField, WritesRows, WritesStruct};
ghost use Rattle.jaeger_model.specs.Writable.{AreWritable};

use span_io::{Blob, Items, OutOfMemory};
use thrift_core::{Parts, TypeCode};

/// What is written as a struct.
pub(crate) trait Structure<P: Parts> {
    // Its fields.
    ghost rows: { Self → List FieldRow };
    // It may be written.
    ghost writable: { Self → Type 0 };

    /// Appends the fields, without the stop byte.
    fn write_fields(&self, out: &mut Blob) -> Result<(), OutOfMemory>
        requires { writable self.now }
        ensures { WritesRows P.keeps P.writes result out.old out.new (pos 0) (rows self.now) };
}

/// Appends a struct.
pub(crate) fn write_structure<P: Parts, S: Structure<P>>(
    out: &mut Blob,
    item: &S,
) -> Result<(), OutOfMemory>
    requires { S.writable item.now }
    ensures { WritesStruct P.keeps P.writes result out.old out.new (S.rows item.now) }
{
    item.write_fields(out)?;
    P::put_stop(out)
}

// Appends structs, one after the other.
fn write_elements<P: Parts, S: Structure<P>>(out: &mut Blob, items: &[S]) -> Result<(), OutOfMemory>
    requires { All S.writable items.now }
    ensures { (left : ℕ) → GrowsBy result out.old out.new
        (elements_written P.keeps P.writes (struct_trees S.rows items.now) left) }
{
    'elements: for item in items {
        write_structure::<P, S>(out, item)?;
    }
    Ok(())
}

/// Appends a field of a list of structs.
pub(crate) fn write_list<P: Parts, S: Structure<P>>(
    out: &mut Blob,
    last: i16,
    id: i16,
    items: &Items<S>,
) -> Result<(), OutOfMemory>
    requires rises { last <ℤ id }
    requires writable { AreWritable S.writable items.now }
    ensures { WritesField P.keeps P.writes result out.old out.new last id
        (list_tree S.rows items.now) }
{
    P::put_field(out, last, id, TypeCode::List, None)?;
    P::put_list(out, TypeCode::Struct, items.len() as u32)?;
    write_elements::<P, S>(out, items.as_slice())
}

/// Appends a field of a list of structs, unless it is empty.
pub(crate) fn write_filled_list<P: Parts, S: Structure<P>>(
    out: &mut Blob,
    last: i16,
    id: i16,
    items: &Items<S>,
) -> Result<(), OutOfMemory>
    requires rises { last <ℤ id }
    requires writable { AreWritable S.writable items.now }
    ensures { WritesRows P.keeps P.writes result out.old out.new last
        (filled_list id S.rows items.now) }
{
    if items.len() == 0 {
        return Ok(());
    }
    write_list::<P, S>(out, last, id, items)
}
