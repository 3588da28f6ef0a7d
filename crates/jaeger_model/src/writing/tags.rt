//! Tags, and logs, which hold them.
ghost use Rattle.std.specs.Prelude.{◌≡◌, pos};
ghost use Rattle.jaeger_model.specs.Canonical.{enum_tree, value_row};
ghost use Rattle.jaeger_model.specs.private.Growing.{WritesField};
ghost use Rattle.jaeger_model.specs.Tag.{type_of};
ghost use Rattle.jaeger_model.specs.Writable.{IsShortValue};

use crate::span::Log;
use crate::tag::{Tag, TagValue};
use crate::writing::fields::{
    write_binary, write_double, write_int, write_long, write_text, write_time, write_truth,
};
use crate::writing::structures::{Structure, write_list};
use span_io::{Blob, OutOfMemory};
use thrift_core::Parts;

// The number of the value's type.
fn type_number(value: &TagValue) -> i32
    ensures { result ≡ pos (type_of value.now) }
{
    match value {
        TagValue::Text(_) => 0,
        TagValue::Eight(_) => 1,
        TagValue::Truth(_) => 2,
        TagValue::Number(_) => 3,
        TagValue::Bytes(_) => 4,
    }
}

// Appends the field of the value's type.
fn write_type<P: Parts>(out: &mut Blob, value: &TagValue) -> Result<(), OutOfMemory>
    ensures { WritesField P.keeps P.writes result out.old out.new (pos 1) (pos 2)
        (enum_tree (type_of value.now)) }
{
    write_int::<P>(out, 1, 2, type_number(value))
}

// Appends the value's own field, behind the type.
fn write_value<P: Parts>(out: &mut Blob, value: &TagValue) -> Result<(), OutOfMemory>
    requires { IsShortValue value.now }
    ensures { WritesField P.keeps P.writes result out.old out.new (pos 2) (value_row value.now).0
        (value_row value.now).1 }
{
    match value {
        TagValue::Text(text) => write_text::<P>(out, 2, 3, text),
        TagValue::Eight(double) => write_double::<P>(out, 2, 4, *double),
        TagValue::Truth(truth) => write_truth::<P>(out, 2, 5, *truth),
        TagValue::Number(number) => write_long::<P>(out, 2, 6, *number),
        TagValue::Bytes(bytes) => write_binary::<P>(out, 2, 7, bytes.as_slice()),
    }
}

impl<P: Parts> Structure<P> for Tag {
    ghost use Rattle.jaeger_model.specs.Canonical.{tag_rows};
    ghost use Rattle.jaeger_model.specs.Writable.{IsWritableTag};

    ghost rows = { tag_rows };

    ghost writable = { IsWritableTag };

    fn write_fields(&self, out: &mut Blob) -> Result<(), OutOfMemory> {
        write_text::<P>(out, 0, 1, &self.key)?;
        write_type::<P>(out, &self.value)?;
        write_value::<P>(out, &self.value)
    }
}

impl<P: Parts> Structure<P> for Log {
    ghost use Rattle.jaeger_model.specs.Canonical.{log_rows};
    ghost use Rattle.jaeger_model.specs.Writable.{IsWritableLog};

    ghost rows = { log_rows };

    ghost writable = { IsWritableLog };

    fn write_fields(&self, out: &mut Blob) -> Result<(), OutOfMemory> {
        write_time::<P>(out, 0, 1, self.time)?;
        write_list::<P, Tag>(out, 1, 2, &self.fields)
    }
}
