//! Laws over all runs of orders. The functions do nothing: their contracts are the laws.
ghost use Rattle.span_spool.specs.StatedLaws.{LeftOver};

/// What is left of orders and their replies is what the spool holds, and the numbers that were acknowledged are those
/// from 1 to the one before the first row's.
pub fn left_over()
    ensures { LeftOver }
{
    // The clause is the law.
}
