//! Each text and list of a batch in hand has a size that can be written (Thrift: sizes are i32), as
//! its type keeps it. The functions read their argument, and do nothing else.
ghost use Rattle.std.specs.Prelude.{ℕ, All};
ghost use Rattle.jaeger_model.specs.Writable.{IsShortValue, AreWritable, HasSizes};

use crate::batch::Batch;
use crate::span::{JSpan, Log};
use crate::tag::{Tag, TagValue};
use span_io::Items;

// What has parts with sizes.
trait Measured {
    // Each of them can be written.
    ghost sizes: { Self → Type 0 };

    fn proper_parts(&self)
        ensures { sizes self.now };
}

fn proper_each<M: Measured>(items: &[M])
    ensures { All M.sizes items.now }
{
    'items: for item in items {
        item.proper_parts();
    }
}

fn proper_list<M: Measured>(list: &Items<M>)
    ensures { AreWritable M.sizes list.now }
{
    list.len();
    proper_each(list.as_slice());
}

fn proper_value(value: &TagValue)
    ensures { IsShortValue value.now }
{
    match value {
        TagValue::Text(text) => {
            text.len();
        }
        TagValue::Bytes(bytes) => {
            bytes.len();
        }
        TagValue::Eight(_) | TagValue::Truth(_) | TagValue::Number(_) => {}
    }
}

impl Measured for Tag {
    ghost use Rattle.jaeger_model.specs.Writable.{IsWritableTag};

    ghost sizes = { IsWritableTag };

    fn proper_parts(&self) {
        self.key.len();
        proper_value(&self.value);
    }
}

impl Measured for Log {
    ghost use Rattle.jaeger_model.specs.Writable.{HasLogSizes};

    ghost sizes = { HasLogSizes };

    fn proper_parts(&self) {
        proper_list(&self.fields);
    }
}

impl Measured for JSpan {
    ghost use Rattle.jaeger_model.specs.Writable.{HasSpanSizes};

    ghost sizes = { HasSpanSizes };

    fn proper_parts(&self) {
        self.name.len();
        self.references.len();
        proper_list(&self.tags);
        proper_list(&self.logs);
    }
}

/// Each text and list of a batch in hand has a size that can be written. It is read as a whole, and
/// nothing else is done.
pub fn proper_sizes(batch: &Batch)
    ensures { HasSizes batch.now }
{
    batch.service.len();
    proper_list(&batch.tags);
    proper_list(&batch.spans);
}
