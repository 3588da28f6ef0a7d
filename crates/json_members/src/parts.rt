//! The members of an object, read one behind the other.
ghost use Rattle.std.specs.Prelude.{◌≡◌, ◌≢◌, suc, List, Ok, Err, IfOk, IfErr};
ghost use Rattle.serde_json.specs.Data.{Data};
ghost use Rattle.json_nodes.specs.Lents.{lent_view as view};
ghost use Rattle.span_io.specs.Causes.{cause_number};
ghost use Rattle.span_io.specs.declared.halt.Halt.TheVariants as halts;
ghost use Rattle.span_io.specs.Paths.{Offences, Counts, Halts, JudgesValue, JudgesByCause};
ghost use Rattle.json_members.specs.Parts.{part, object_offends, IsReading};

use json_nodes::Lent;
use span_io::{Cause, Halt};

/// The members of a kind of objects, in the order in which their offences count.
pub trait Table {
    // How each of them offends.
    ghost parts: { Data → List Offences };
}

/// That the value is an object, of which nothing is read yet.
#[inline(always)]
#[tactic(auto, using(crate::proofs::PartLaws::reading))]
pub fn object<T: Table>(v: &Lent<'_, '_>) -> Result<(), Cause>
    ensures begins { IfOk result (λ x. IsReading T.parts (view v.now) 0) }
    ensures stops { IfErr result
        (λ cause. Counts (object_offends T.parts (view v.now)) (cause_number cause)) }
{
    if v.is_object() {
        Ok(())
    } else {
        Err(Cause::BadShape)
    }
}

/// What was read of the object's member of this number in its table, counted from 0. Those before it
/// were read.
#[inline(always)]
#[tactic(auto, using(crate::proofs::PartLaws::reading))]
pub fn member<T: Table, X>(
    v: &Lent<'_, '_>,
    number: u32,
    read: Result<X, Halt<Cause>>,
) -> Result<X, Halt<Cause>>
    requires reading { IsReading T.parts (view v.now) number }
    requires offends { JudgesValue read (part number (T.parts (view v.now))) }
    ensures same { IfOk result (λ x. read ≡ Ok x) }
    ensures goes_on { IfOk result (λ x. IsReading T.parts (view v.now) (suc number)) }
    ensures stops { IfErr result (λ halt. Halts halt (object_offends T.parts (view v.now))) }
    // Memory is wanted only where it was.
    ensures wants { result ≡ Err halts.OutOfMemory → read ≡ Err halts.OutOfMemory }
{
    read
}

/// The same of a member that takes no memory.
#[inline(always)]
#[tactic(auto, using(crate::proofs::PartLaws::reading))]
pub fn bare_member<T: Table, X>(
    v: &Lent<'_, '_>,
    number: u32,
    read: Result<X, Cause>,
) -> Result<X, Halt<Cause>>
    requires reading { IsReading T.parts (view v.now) number }
    requires offends { JudgesByCause read (part number (T.parts (view v.now))) }
    ensures same { IfOk result (λ x. read ≡ Ok x) }
    ensures goes_on { IfOk result (λ x. IsReading T.parts (view v.now) (suc number)) }
    ensures stops { IfErr result (λ halt. Halts halt (object_offends T.parts (view v.now))) }
    ensures wants { result ≢ Err halts.OutOfMemory }
{
    match read {
        Ok(x) => Ok(x),
        Err(cause) => Err(Halt::Why(cause)),
    }
}
