//! Traces, as every form of span text is read to them and written from them.
#![tactic(auto)]

mod attributes;
mod event_reading;
mod event_texts;
mod fault;
mod group;
mod json_values;
pub mod laws;
mod lookup;
mod loss;
mod noted;
mod place;
mod proper;
mod remark;
mod remarks;
mod span;
mod texts;
mod tokens;
mod value;

pub use attributes::{attrs_of, keys_in_order};
pub use event_reading::{EventReader, read_event_text};
pub use event_texts::event_text;
pub use fault::Fault;
pub use group::{Group, Scope};
pub use json_values::value_json;
pub use lookup::find;
pub use loss::{Loss, LossRow};
pub use noted::{InstrumentationScope, KeyValue, LinkParts, Noted, Resource};
pub use place::Place;
pub use proper::proper_group;
pub use remark::{Remark, RemarkKind};
pub use remarks::{remark_all, remark_dropped, remark_keys, remark_tag};
pub use span::{Code, Event, Kind, Link, Span, Status};
pub use texts::{has_no_text, value_text};
pub use value::{Attrs, MOST_LEVELS, Value, attrs_copy};
