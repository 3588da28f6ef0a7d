//! The service of a gateway.
ghost use Rattle.std.specs.Prelude.{◌≡◌, refl};
ghost use Rattle.std.proofs.Common.{◌∙◌};
ghost use Rattle.span_gateway.specs.Answers.{Converts, Halts, Stays};

use crate::answering::answer_request;
use conn_service::Service;
use http_conn::Request;
use span_io::{Blob, Form, Limits, OutOfMemory};
use std::alloc::Global;
use std::marker::Model;

/// Answers each request with the text of its body in one form, as which contracts see it.
#[derive(Drop)]
pub(crate) struct Converting {
    to: Form,
}

impl Model for Converting {
    ghost use Rattle.span_io.specs.declared.form.Form.{Form};

    ghost Value = { Form };

    ghost view = { λ c. c.to };
}

impl Converting {
    pub(crate) fn new(to: Form) -> Converting
        ensures { result ≡ to }
    {
        Converting { to }
    }
}

impl Service for Converting {
    ghost answers = { Converts };

    ghost halts = { Halts };

    ghost leads = { Stays };

    ghost leads_none = { λ s. refl };

    ghost leads_then = { λ a b c p q. q ∙ p };

    fn answer(
        &mut self,
        alloc: Global,
        out: &mut Blob,
        request: &Request,
        bytes: &[u8],
        limits: &Limits,
    ) -> Result<(), OutOfMemory> {
        answer_request(alloc, out, request, bytes, self.to, limits)
    }
}
