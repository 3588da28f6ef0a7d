//! What forms of spans as JSON share: members of an object, read from a value and written as tokens.
#![tactic(auto)]

mod members;
mod parts;
mod reading;
mod writing;

pub use members::{member_of, members_of, text, text_found, text_of, truth_of};
pub use parts::{Table, bare_member, member, object};
pub use reading::unread;
pub use writing::{
    close_array, close_object, count_member, given_text_member, id_member, name_of, open_array,
    open_object, own_text_member, parent_member, text_member, trace_member, true_member,
    truth_member, whole_count_member, whole_text_member,
};
