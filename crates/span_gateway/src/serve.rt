//! Serving one connection.
ghost use Rattle.span_io.specs.Limits.{AreLimits};
ghost use Rattle.span_gateway.specs.Serving.{KeepsMark, Serves};

use crate::converting::Converting;
use conn_service::{Ended, ServeFault, serve};
use span_io::{Duplex, Form, Limits};
use std::alloc::Global;

/// Serves one connection to its end: each whole request is answered before more is read. The bytes that it gives
/// are read up to the limit of binary input, and count as ended there.
pub fn serve_connection<C: Duplex>(
    alloc: Global,
    conn: &mut C,
    to: Form,
    limits: &Limits,
) -> Result<Ended, ServeFault>
    requires { AreLimits limits.now }
    ensures serves { Serves to limits.now (C.link conn.old) (C.link conn.new) result }

    // Whole requests have their answers before more bytes come.
    ensures mark { KeepsMark to limits.now (C.link conn.old) (C.link conn.new) }
{
    let mut converting = Converting::new(to);
    serve(alloc, conn, &mut converting, limits)
}
