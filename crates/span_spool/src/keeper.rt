//! What keeps bodies until they are forwarded, and what its calls promise.
ghost use Rattle.std.specs.Prelude.{◌≡◌, ◌≤◌};
ghost use Rattle.span_spool.specs.Calls.{DropsFirst, GivesFirst, Keeps};
ghost use Rattle.span_spool.specs.Spools.{IsSpool, Spool};

use crate::kept::Kept;
use span_io::Form;

/// The last number, with which no body is kept.
pub(crate) const LAST_NUMBER: u64 = 9_223_372_036_854_775_807;

/// Why a keeper gave no answer. What it holds is as it was.
#[derive(Clone, Copy, PartialEq, Eq)]
pub enum KeepFault {
    /// The outside refused the call.
    Failed,
    /// There is no room for another body.
    Full,
    /// There is no number for another body.
    Spent,
    OutOfMemory,
}

/// What holds bodies until they are acknowledged. Contracts see it as its `spool`: its rows, where they are told, how
/// many it has room for, how many it holds, the number that the next one gets, and a count of its faults, which stays
/// at the end of 64 bits.
pub trait Keeper {
    ghost spool: { Self → Spool };

    /// Keeps a copy of a body behind the others, under the number that it answers.
    fn keep(&mut self, form: Form, body: &[u8]) -> Result<u64, KeepFault>
        ensures keeps { Keeps form body.now (spool self.old) (spool self.new) result }
        ensures counted { (spool self.old).faults ≤ (spool self.new).faults }
        ensures sound { IsSpool (spool self.old) × IsSpool (spool self.new) };

    /// A copy of the first body, if there is one.
    fn first(&mut self) -> Result<Option<Kept>, KeepFault>
        ensures gives { GivesFirst (spool self.old) (spool self.new) result }
        ensures counted { (spool self.old).faults ≤ (spool self.new).faults }
        ensures sound { IsSpool (spool self.old) × IsSpool (spool self.new) };

    /// Drops the first body, if it has this number.
    fn drop_first(&mut self, number: u64) -> Result<bool, KeepFault>
        ensures drops { DropsFirst number (spool self.old) (spool self.new) result }
        ensures counted { (spool self.old).faults ≤ (spool self.new).faults }
        ensures sound { IsSpool (spool self.old) × IsSpool (spool self.new) };

    /// How many bodies it holds.
    fn size(&self) -> u64
        ensures held { result ≡ (spool self.now).held }
        ensures sound { IsSpool (spool self.now) };
}
