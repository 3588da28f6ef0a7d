//! A keeper in which no number is left, and that holds nothing.
ghost use Rattle.std.specs.Prelude.{[], Some};
ghost use Rattle.span_spool.specs.Spools.{last_number};

use span_io::Form;
use span_spool::{KeepFault, Keeper, Kept};

/// Room for one body, and no number for it. No keeper in memory is brought so far by its calls.
#[derive(Drop)]
pub(crate) struct SpentKeeper {}

impl Keeper for SpentKeeper {
    ghost spool = { λ _. record {
      rows = Some [];
      room = 1;
      held = 0;
      next = last_number;
      faults = 0;
    } };

    fn keep(&mut self, _form: Form, _body: &[u8]) -> Result<u64, KeepFault> {
        Err(KeepFault::Spent)
    }

    fn first(&mut self) -> Result<Option<Kept>, KeepFault> {
        Ok(None)
    }

    fn drop_first(&mut self, _number: u64) -> Result<bool, KeepFault> {
        Ok(false)
    }

    fn size(&self) -> u64 {
        0
    }
}
