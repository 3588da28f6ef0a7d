//! Laws of what structs mean, as contracts of functions that do nothing.
ghost use Rattle.jaeger_model.specs.StatedLaws.{OneBatch, SomeBatch, OneTree, FreeFields, ReadsTimes, ReadsProper};
ghost use Rattle.jaeger_model.specs.FreeAtAnyDepth.{FreeAtAnyDepth};

use thrift_core::Parts;

/// A text is that of one batch at most, and nothing offends in one.
pub fn one_batch<P: Parts>()
    ensures { OneBatch P.spells }
{
    // The clause is the law.
}

/// The text of any struct is that of a batch, or an offence in it counts, and it has a cause.
pub fn some_batch<P: Parts>()
    ensures { SomeBatch P.spells }
{
    // The clause is the law.
}

/// Two texts of one tree, each in a protocol of its own, are of the same batch, or what counts in
/// them has the same cause.
pub fn one_tree<P: Parts, Q: Parts>()
    ensures { OneTree P.spells Q.spells }
{
    // The clause is the law.
}

/// Fields whose id and type are of no row of their struct's table change nothing that it means.
pub fn free_fields<P: Parts>()
    ensures { FreeFields P.spells }
{
    // The clause is the law.
}

/// Fields whose id and type are of no row of their struct's table, added or removed anywhere, at
/// any depth, change neither the batch that a text is of nor the cause of the offence that counts
/// in it.
pub fn free_anywhere<P: Parts>()
    ensures { FreeAtAnyDepth P.spells }
{
    // The clause is the law.
}

/// What is read of a text has times of whole microseconds, and no span in it ends before its start.
pub fn reads_times<P: Parts>()
    ensures { ReadsTimes P.spells }
{
    // The clause is the law.
}

/// What is read of bytes is proper, but for the count of references to no span.
pub fn reads_proper<P: Parts>()
    ensures { ReadsProper P.spells }
{
    // The clause is the law.
}
