//! A spool: a queue of bodies that a keeper holds until they are acknowledged. What was accepted leaves only by its
//! acknowledgement, in order, each number once.
#![tactic(auto)]

mod driving;
mod keeper;
mod kept;
pub mod laws;
mod mem_keeper;
mod order;
mod row_queue;
mod sql_keeper;
mod statements;

pub use driving::drive;
pub use keeper::{KeepFault, Keeper};
pub use kept::Kept;
pub use mem_keeper::MemKeeper;
pub use order::{Halted, Order, Reply};
pub use sql_keeper::SqlKeeper;
