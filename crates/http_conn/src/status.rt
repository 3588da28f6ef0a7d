//! The statuses by which a request is refused (RFC 9110, section 15; of 431 RFC 6585, section 5).

pub(crate) const BAD_REQUEST: u16 = 400;

pub(crate) const NOT_FOUND: u16 = 404;

pub(crate) const METHOD_NOT_ALLOWED: u16 = 405;

pub(crate) const LENGTH_REQUIRED: u16 = 411;

pub(crate) const CONTENT_TOO_LARGE: u16 = 413;

pub(crate) const UNSUPPORTED_MEDIA_TYPE: u16 = 415;

pub(crate) const FIELDS_TOO_LARGE: u16 = 431;

pub(crate) const NOT_IMPLEMENTED: u16 = 501;
