//! The bytes of a request that posts a body.
ghost use Rattle.std.specs.Prelude.{◌≡◌, ◌++◌, IfOk, OnOk};
ghost use Rattle.http_conn.specs.Posts.{host_line, post_head, post_line};
ghost use Rattle.http_conn.specs.Posts as told;

use crate::media::type_of;
use crate::reply::{write_close, write_length, write_type};
use span_io::{Blob, Form, OutOfMemory};
use std::alloc::Global;

/// Room for a head whose address is as long as names are.
const HEAD_ROOM: usize = 512;

/// Whether an address has no other characters than those of 0x21 to 0x7E.
pub fn is_address(text: &[u8]) -> bool
    ensures { result ≡ told.is_address text.now }
{
    text.iter().all(|byte| byte.is_ascii_graphic())
}

/// The head of a request that posts a body of so many bytes, and a front of the body behind it.
pub(crate) fn first_piece(
    alloc: Global,
    address: &str,
    form: Form,
    count: usize,
    front: &[u8],
) -> Result<Blob, OutOfMemory>
    ensures { IfOk result (λ piece. piece ≡ post_head address.now form count ++ front.now) }
{
    let mut piece = Blob::with_room(alloc, HEAD_ROOM.saturating_add(front.len()))?;
    write_head(&mut piece, address, form, count)?;
    piece.append(front)?;
    Ok(piece)
}

fn write_head(out: &mut Blob, address: &str, form: Form, count: usize) -> Result<(), OutOfMemory>
    ensures { OnOk result (out.new ≡ out.old ++ post_head address.now form count) }
{
    write_line(out, form)?;
    write_host(out, address)?;
    write_type(out, type_of(form).as_bytes())?;
    write_length(out, count)?;
    write_close(out, true)?;
    out.append(b"\r\n")
}

#[tactic(auto, using(crate::proofs::Growth::in_pieces))]
fn write_line(out: &mut Blob, form: Form) -> Result<(), OutOfMemory>
    ensures { OnOk result (out.new ≡ out.old ++ post_line form) }
{
    out.append(b"POST ")?;
    out.append_both(path_for(form), b" HTTP/1.1\r\n")
}

#[tactic(auto, using(crate::proofs::Growth::in_pieces))]
fn write_host(out: &mut Blob, address: &str) -> Result<(), OutOfMemory>
    ensures { OnOk result (out.new ≡ out.old ++ host_line address.now) }
{
    out.append(b"Host: ")?;
    out.append_both(address.as_bytes(), b"\r\n")
}

// Where a body in a form is posted.
fn path_for(form: Form) -> &'static [u8]
    ensures { result.now ≡ told.path_for form }
{
    match form {
        Form::OtlpProto => b"/v1/traces",
        Form::OtlpJson => b"/v1/traces",
        Form::JaegerBinary => b"/api/traces",
        Form::JaegerCompact => b"/api/traces",
        Form::ZipkinJson => b"/api/v2/spans",
    }
}
