//! The next struct of an input, whose bytes come in pieces.
ghost use Rattle.std.specs.Prelude.{◌≡◌, ◌≤◌, ℕ, List, None, length};
ghost use Rattle.span_io.specs.declared.cause.Cause.{Cause};
ghost use Rattle.thrift_core.specs.private.Halting.{step_of};
ghost use Rattle.thrift_core.specs.Walks.{outer_struct};
ghost use Rattle.thrift_core.specs.private.Halting.{HaltsAs, cause_of};
ghost use Rattle.thrift_core.specs.Values.{struct_frames, FirstStructIs};

use crate::parts::Parts;
use crate::passing::Halted;
use span_io::Cause;

/// The levels of containers that are left in a struct that no other container holds.
pub const OUTER_LEVELS: u8 = 31;

// Why the struct is refused in whose first `there` bytes the walk halts, if it is: else it needs more.
pub(crate) fn refusal<P: Parts>(halted: Halted, there: usize, limit: usize) -> Option<Cause>
    ensures told { (bytes : List ℕ) → length bytes ≡ there → there ≤ limit
        → HaltsAs P.spells P.reads outer_struct bytes halted
        → FirstStructIs P.spells P.then_varint P.refuses limit bytes (step_of result) }
    // More is needed only where bytes are missing.
    ensures short { result ≡ None → cause_of halted ≡ Cause.Truncated }
{
    match halted {
        Halted::Lacking(many) => {
            if many > limit.saturating_sub(there) {
                return Some(Cause::UnitTooLong);
            }
            None
        }
        Halted::For(cause) => match cause {
            Cause::Truncated => {
                if there >= limit {
                    return Some(Cause::UnitTooLong);
                }
                None
            }
            _ => Some(cause),
        },
    }
}
