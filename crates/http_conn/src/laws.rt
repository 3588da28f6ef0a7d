//! Laws over all bytes of a connection. The functions do nothing: their contracts are the laws.
ghost use Rattle.http_conn.specs.StatedLaws.{KnownStays, OneNextRequest, WholeRequests};

/// Bytes have one answer, and one that isn't in want of more bytes stays, whatever bytes come.
pub fn one_next_request()
    ensures { OneNextRequest }
{
    // The clause is the law.
}

/// What is known of the bytes of a connection stays known, whatever bytes come.
pub fn known_stays()
    ensures { KnownStays }
{
    // The clause is the law.
}

/// A whole request lies in its bytes, and what is answered whatever its body holds is a status that `answer`
/// writes. Nothing is the front of a request.
pub fn whole_requests()
    ensures { WholeRequests }
{
    // The clause is the law.
}
