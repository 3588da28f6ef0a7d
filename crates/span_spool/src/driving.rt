//! Carrying out a list of orders.
ghost use Rattle.std.specs.Prelude.{◌≡◌, ◌≤◌, vec_len, vec_capacity, length, [], IfOk};
ghost use Rattle.span_io.specs.Sizes.{IsShort};
ghost use Rattle.span_spool.specs.Driving.{Drives, Obeys};
ghost use Rattle.span_spool.specs.Spools.{IsEmpty, IsSpool};
ghost use Rattle.span_spool.specs.StatedLaws.{LeavesBy};

use crate::keeper::{KeepFault, Keeper};
use crate::order::{Halted, Order, Reply};
use span_io::{Items, OutOfMemory};
use std::alloc::Global;

/// Carries out orders, one after the other, and gives their replies, for which it takes the room before the first.
pub fn drive<K: Keeper>(
    alloc: Global,
    keeper: &mut K,
    orders: &Items<Order>,
) -> Result<Items<Reply>, Halted>
    ensures drives { Drives orders.now (K.spool keeper.old) (K.spool keeper.new) result }
    ensures sound { IsSpool (K.spool keeper.old) × IsSpool (K.spool keeper.new) }
    ensures leaves { IsEmpty (K.spool keeper.old)
        → LeavesBy orders.now (K.spool keeper.old) (K.spool keeper.new) result }
{
    let _held = keeper.size();
    let _count = orders.len();
    let list = orders.as_slice();
    let Ok(mut replies) = room(alloc, list.len()) else {
        return Err(halted(Vec::new(alloc), false));
    };
    'orders: for order in list {
        match obey(keeper, order) {
            Ok(reply) => match replies.push(reply) {
                Ok(()) => {}
                Err(_) => unreachable!(),
            },
            Err(KeepFault::Failed) => return Err(halted(replies, true)),
            Err(KeepFault::OutOfMemory) => return Err(halted(replies, false)),
            Err(KeepFault::Full | KeepFault::Spent) => unreachable!(),
        }
    }
    Ok(Items::from_vec(replies))
}

// Where a list of orders stopped that has these replies.
fn halted(replies: Vec<Reply>, failed: bool) -> Halted
    requires { IsShort replies.items }
    ensures { result
        ≡ record { done = length replies.items; replies = replies.items; failed = failed } }
{
    Halted {
        done: replies.len() as u64,
        replies: Items::from_vec(replies),
        failed,
    }
}

// Room for so many replies.
fn room(alloc: Global, count: usize) -> Result<Vec<Reply>, OutOfMemory>
    ensures empty { IfOk result (λ replies. replies.items ≡ []) }
    ensures room { IfOk result (λ replies. count ≤ vec_capacity replies) }
{
    Ok(Vec::with_capacity(alloc, count)?)
}

// Carries out one order.
fn obey<K: Keeper>(keeper: &mut K, order: &Order) -> Result<Reply, KeepFault>
    ensures obeys { Obeys order.now (K.spool keeper.old) (K.spool keeper.new) result }
    ensures counted { (K.spool keeper.old).faults ≤ (K.spool keeper.new).faults }
    ensures sound { IsSpool (K.spool keeper.old) × IsSpool (K.spool keeper.new) }
{
    match order {
        Order::Keep(form, body) => match keeper.keep(*form, body.as_slice()) {
            Ok(number) => Ok(Reply::Kept(number)),
            Err(KeepFault::Full) => Ok(Reply::Full),
            Err(KeepFault::Spent) => Ok(Reply::Spent),
            Err(fault) => Err(fault),
        },
        Order::First => match keeper.first() {
            Ok(row) => Ok(Reply::First(row)),
            Err(fault) => Err(fault),
        },
        Order::Drop(number) => match keeper.drop_first(*number) {
            Ok(gone) => Ok(Reply::Dropped(gone)),
            Err(fault) => Err(fault),
        },
    }
}
