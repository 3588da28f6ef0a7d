//! The length of a request's body (RFC 9112, section 6.3), and what it is.
ghost use Rattle.std.specs.Prelude.{◌≡◌, ◌≤◌, ◌∷◌, [], true, bytes_eq, IfOk};
ghost use Rattle.std.specs.Char.{is_ascii_digit};
ghost use Rattle.std.specs.List.{list_all};
ghost use Rattle.std.specs.Str.Parse.{digits_value};
ghost use Rattle.httparse.specs.Grammar.{RequestHead};
ghost use Rattle.http_conn.specs.Bodies as told;
ghost use Rattle.http_conn.specs.Fields.{lines_of};
ghost use Rattle.http_conn.specs.private.FoundFields.{IsHead};
ghost use Rattle.http_conn.specs.Services.{form_by, judged};

use crate::fields::Once;
use crate::head::Head;
use crate::media::text_before;
use crate::service::Service;
use crate::status;
use span_io::Form;

// The length of the body, of at most so many bytes, or the status of a refusal.
pub(crate) fn body_length(head: &Head<'_>, most: usize) -> Result<usize, u16>
    ensures told { (h : RequestHead) → IsHead head.now h
        → result ≡ told.body_length most h.method (lines_of h) }
    ensures fits { IfOk result (λ length. length ≤ most) }
{
    if head.fields.transfer {
        return Err(status::NOT_IMPLEMENTED);
    }
    match head.fields.length {
        Once::Missing => length_of_none(head.method),
        Once::At(value) => length_in(value, most),
        Once::Twice => Err(status::BAD_REQUEST),
    }
}

// The length of a body that no field tells.
fn length_of_none(method: &[u8]) -> Result<usize, u16>
    ensures told { result ≡ told.length_by 0 method.now [] }
    ensures none { IfOk result (λ length. length ≡ 0) }
{
    if is_post(method) {
        return Err(status::LENGTH_REQUIRED);
    }
    Ok(0)
}

fn is_post(method: &[u8]) -> bool
    ensures { result ≡ bytes_eq method.now told.post }
{
    method == b"POST".as_slice()
}

// The length that a value tells (RFC 9110, section 8.6).
fn length_in(value: &[u8], most: usize) -> Result<usize, u16>
    ensures told { result ≡ told.length_in most value.now }
    ensures fits { IfOk result (λ length. length ≤ most) }
{
    if !is_length(value) {
        return Err(status::BAD_REQUEST);
    }
    let length = number(value);
    if length > most {
        return Err(status::CONTENT_TOO_LARGE);
    }
    Ok(length)
}

// Whether a value is 1 to 18 digits.
fn is_length(value: &[u8]) -> bool
    ensures { result ≡ told.is_length value.now }
{
    match value.len() {
        1..=18 => are_digits(value),
        _ => false,
    }
}

fn are_digits(value: &[u8]) -> bool
    ensures { result ≡ list_all is_ascii_digit value.now }
{
    value.iter().all(|byte| byte.is_ascii_digit())
}

// The number that digits write.
fn number(digits: &[u8]) -> usize
    requires { told.is_length digits.now ≡ true }
    ensures { result ≡ digits_value 10 digits.now }
{
    let mut number = 0;
    'digits: for digit in digits {
        number = number * 10 + usize::from(*digit - b'0');
    }
    number
}

// The form of the body, or the status of the verdict.
pub(crate) fn judge(head: &Head<'_>) -> Result<Form, u16>
    ensures { (h : RequestHead) → IsHead head.now h
        → result ≡ judged h.method h.target (lines_of h) }
{
    let Some(service) = Service::at(text_before(head.target, b'?')) else {
        return Err(status::NOT_FOUND);
    };
    if !is_post(head.method) {
        return Err(status::METHOD_NOT_ALLOWED);
    }
    if head.fields.encoded {
        return Err(status::UNSUPPORTED_MEDIA_TYPE);
    }
    match head.fields.media {
        Once::At(value) => form_of(service, value),
        Once::Missing => Err(status::UNSUPPORTED_MEDIA_TYPE),
        Once::Twice => Err(status::UNSUPPORTED_MEDIA_TYPE),
    }
}

// The form of a body of this media type.
fn form_of(service: Service, value: &[u8]) -> Result<Form, u16>
    ensures { result ≡ form_by service (value.now ∷ []) }
{
    service.form_of(value).ok_or(status::UNSUPPORTED_MEDIA_TYPE)
}
