//! `Status` (OTLP trace.proto).
ghost use Rattle.std.specs.Prelude.{◌≡◌, IfOk};
ghost use Rattle.json_nodes.specs.Lents.{lent_view as view};
ghost use Rattle.span_io.specs.Paths.{optional, Given, JudgesValue};
ghost use Rattle.json_members.specs.Members.{member};
ghost use Rattle.otlp_json.specs.Span.{IsJsonStatus, status_members, status_offends};
ghost use Rattle.trace_model.specs.OtlpParts.{no_status};

use crate::reading::numbers::code;
use json_members::{Table, bare_member, member, member_of, object, text};
use json_nodes::Lent;
use span_io::{Cause, Halt, Text};
use std::alloc::Global;
use trace_model::{Code, Status};

// The members of a status.
struct StatusTable;

impl Table for StatusTable {
    ghost parts = { status_members };
}

#[tactic(auto, using(json_members::proofs::PartLaws::reading), unfolding(crate::specs::Span::status_members))]
fn read_status(alloc: Global, v: &Lent<'_, '_>) -> Result<Status, Halt<Cause>>
    ensures value { IfOk result (λ s. IsJsonStatus s (view v.now)) }
    ensures judged { JudgesValue result (status_offends (view v.now)) }
{
    object::<StatusTable>(v)?;
    let message = member::<StatusTable, _>(v, 0, text(alloc, v, "message"))?;
    let code = bare_member::<StatusTable, _>(v, 1, code(v, "code"))?;
    Ok(Status { code, message })
}

// What stands for a status that is absent.
fn empty_status(alloc: Global) -> Status
    ensures { result ≡ no_status }
{
    Status {
        code: Code::Unset,
        message: Text::new(alloc),
    }
}

// A status that may be absent.
pub fn status_of(alloc: Global, v: &Lent<'_, '_>, name: &str) -> Result<Status, Halt<Cause>>
    ensures value { IfOk result (λ s. Given IsJsonStatus (λ x. x ≡ no_status) s
        (member name.now (view v.now))) }
    ensures judged { JudgesValue result (optional status_offends (member name.now (view v.now))) }
{
    match member_of(v, name) {
        None => Ok(empty_status(alloc)),
        Some(found) => read_status(alloc, &found),
    }
}
