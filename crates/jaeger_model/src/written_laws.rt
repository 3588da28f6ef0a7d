//! What is written of a batch is read as that batch: laws, as contracts of functions that do nothing.
ghost use Rattle.jaeger_model.specs.WrittenAgain.{WrittenAgain, EqualBatchTexts};

use crate::laws::one_batch;
use thrift_core::Parts;

/// What is written of a batch is a text of it. References to no span aren't written: where some were counted, it is a text
/// of the batch that has none.
pub fn written_again<P: Parts>()
    ensures { WrittenAgain P.spells P.keeps P.writes }
{
    // The clause is the law.
}

/// Equal batches, and only they, have equal texts, where no reference to no span is counted in them.
pub fn equal_texts<P: Parts>()
    ensures { EqualBatchTexts P.keeps P.writes }
{
    one_batch::<P>();
    written_again::<P>();
}
