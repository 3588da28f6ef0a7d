//! Blocks of header lines that are refused, or that a form can't tell.

/// Lines that are no header, and blocks that tell nothing.
pub const LINES: &str = r#"
no colon
run headers --to b3
input-lines traceparent\n
stops 3 cause 30 HeaderLine

no colon at the end
run headers --to b3
input-lines traceparent
stops 3 cause 30 HeaderLine

a name without characters
run headers --to b3
input-lines : 1\n
stops 3 cause 30 HeaderLine

a blank behind a name
run headers --to b3
input-lines b3 : 1\n
stops 3 cause 30 HeaderLine

a blank before a name
run headers --to b3
input-lines  b3: 1\n
stops 3 cause 30 HeaderLine

a line that goes on
run headers --to b3
input-lines traceparent: 00-0af7651916cd43dd8448eb211c80319c-b7ad6b7169203331-01\ntracestate: a=1,\n b=2\n
stops 3 cause 30 HeaderLine

a line of spaces
run headers --to b3
input-lines traceparent: 00-0af7651916cd43dd8448eb211c80319c-b7ad6b7169203331-01\n  \n
stops 3 cause 30 HeaderLine

a tab alone
run headers --to b3
input-lines \t\ntraceparent: 00-0af7651916cd43dd8448eb211c80319c-b7ad6b7169203331-01\n
stops 3 cause 30 HeaderLine

spaces at the end
run headers --to b3
input-lines traceparent: 00-0af7651916cd43dd8448eb211c80319c-b7ad6b7169203331-01\n\x20
stops 3 cause 30 HeaderLine

a dot in a name
run headers --to b3
input-lines b.3: 1\n
stops 3 cause 30 HeaderLine

a plus in a name
run headers --to b3
input-lines traceparent: 00-0af7651916cd43dd8448eb211c80319c-b7ad6b7169203331-01\nx+y: 1\n
stops 3 cause 30 HeaderLine

a letter that isn't ASCII in a name
run headers --to b3
input-lines traceparent: 00-0af7651916cd43dd8448eb211c80319c-b7ad6b7169203331-01\nbÃ©: 1\n
stops 3 cause 30 HeaderLine

the byte 00 in a value
run headers --to b3
input-lines b3: 1\0\n
stops 3 cause 30 HeaderLine

the byte 1f in a value
run headers --to b3
input-lines traceparent: 00-0af7651916cd43dd8448eb211c80319c-b7ad6b7169203331-01\nx: \x1f\n
stops 3 cause 30 HeaderLine

the byte 7f in a value
run headers --to b3
input-lines traceparent: 00-0af7651916cd43dd8448eb211c80319c-b7ad6b7169203331-01\nx: a\x7f\n
stops 3 cause 30 HeaderLine

the byte 80 in a value
run headers --to b3
input-lines traceparent: 00-0af7651916cd43dd8448eb211c80319c-b7ad6b7169203331-01\nx: \xc2\x80\n
stops 3 cause 30 HeaderLine

the byte ff in a value
run headers --to b3
input-lines x: ÿ\ntraceparent: 00-0af7651916cd43dd8448eb211c80319c-b7ad6b7169203331-01\n
stops 3 cause 30 HeaderLine

a CR in a value
run headers --to b3
input-lines b3: 1\r1\n
stops 3 cause 30 HeaderLine

two CRs before LF
run headers --to b3
input-lines b3: 1\r\r\n
stops 3 cause 30 HeaderLine

a CR before the value
run headers --to b3
input-lines b3:\r1\n
stops 3 cause 30 HeaderLine

a CR at the end
run headers --to b3
input-lines b3: 1\r
stops 3 cause 30 HeaderLine

a CR alone at the end
run headers --to b3
input-lines traceparent: 00-0af7651916cd43dd8448eb211c80319c-b7ad6b7169203331-01\n\r
stops 3 cause 30 HeaderLine

a CR in the place of LF
run headers --to b3
input-lines traceparent: 00-0af7651916cd43dd8448eb211c80319c-b7ad6b7169203331-01\rb3: 1\n
stops 3 cause 30 HeaderLine

a bad line behind good ones
run headers --to b3
input-lines traceparent: 00-0af7651916cd43dd8448eb211c80319c-b7ad6b7169203331-01\n
 b3: 0af7651916cd43dd8448eb211c80319c-b7ad6b7169203331-1\n
 uber-trace-id: 0af7651916cd43dd8448eb211c80319c:b7ad6b7169203331:0:1\nand so on\n
stops 3 cause 30 HeaderLine

a bad line before good ones
run headers --to b3
input-lines GET / HTTP/1.1\ntraceparent: 00-0af7651916cd43dd8448eb211c80319c-b7ad6b7169203331-01\n
stops 3 cause 30 HeaderLine

a bad line behind a bad form
run headers --to b3
input-lines traceparent: x\nno header\n
stops 3 cause 30 HeaderLine

a bad line where there is no form
run headers --to w3c
input-lines Host: shop.example\nno header\n
stops 3 cause 30 HeaderLine

no byte
run headers --to b3
stops 3 cause 31 NoContext

no byte
run headers --to w3c
stops 3 cause 31 NoContext

an empty line
run headers --to b3
input-lines \n
stops 3 cause 31 NoContext

empty lines
run headers --to uber
input-lines \r\n\n\r\n
stops 3 cause 31 NoContext

other headers
run headers --to b3
input-lines Host: shop.example\nbaggage: a=1\n
stops 3 cause 31 NoContext

a tracestate alone
run headers --to w3c
input-lines tracestate: a=1\n
stops 3 cause 31 NoContext

names that go on
run headers --to b3-multi
input-lines traceparent-2: 00-0af7651916cd43dd8448eb211c80319c-b7ad6b7169203331-01\nb33: 1\nX-B3-Other: 1\n
 uber-trace-id_: 1:2:0:1\nuberctx-a: 1\n
stops 3 cause 31 NoContext

names that end before
run headers --to uber
input-lines traceparen: 1\nb: 1\nX-B3-: 1\nuber-trace: 1\n
stops 3 cause 31 NoContext

names with underscores
run headers --to uber
input-lines uber_trace_id: 1:2:0:1\nx_b3_sampled: 1\n
stops 3 cause 31 NoContext

0 alone in w3c
run headers --to w3c
input-lines b3: 0\n
stops 4 fault 36 NoIds

1 alone in uber
run headers --to uber
input-lines b3: 1\n
stops 4 fault 36 NoIds

d alone in w3c
run headers --to w3c
input-lines b3: d\n
stops 4 fault 36 NoIds

sampled alone in w3c
run headers --to w3c
input-lines X-B3-Sampled: 1\ntracestate: a=1\n
stops 4 fault 36 NoIds

sampled alone in uber
run headers --to uber
input-lines X-B3-Sampled: false\n
stops 4 fault 36 NoIds

flags alone in uber
run headers --to uber
input-lines X-B3-Flags: 1\n
stops 4 fault 36 NoIds
"#;

/// A `traceparent` that isn't of its form.
pub const TRACEPARENTS: &str = r#"
twice
run headers --to b3
input-lines traceparent: 00-0af7651916cd43dd8448eb211c80319c-b7ad6b7169203331-01\n
 traceparent: 00-0af7651916cd43dd8448eb211c80319c-b7ad6b7169203331-01\n
stops 3 cause 32 BadTraceparent

twice with names in two cases
run headers --to w3c
input-lines traceparent: 00-0af7651916cd43dd8448eb211c80319c-b7ad6b7169203331-01\n
 Traceparent: 00-0af7651916cd43dd8448eb211c80319c-b7ad6b7169203331-01\n
stops 3 cause 32 BadTraceparent

a bad one behind a good one
run headers --to b3
input-lines traceparent: 00-0af7651916cd43dd8448eb211c80319c-b7ad6b7169203331-01\ntraceparent: 1\n
stops 3 cause 32 BadTraceparent

no value
run headers --to b3
input-lines traceparent:\n
stops 3 cause 32 BadTraceparent

bad though b3 is good
run headers --to b3
input-lines traceparent: 1\nb3: 0af7651916cd43dd8448eb211c80319c-b7ad6b7169203331-1\n
stops 3 cause 32 BadTraceparent

upper case in the trace
run headers --to b3
input-lines traceparent: 00-0AF7651916CD43DD8448EB211C80319C-b7ad6b7169203331-01\n
stops 3 cause 32 BadTraceparent

upper case in the span
run headers --to b3
input-lines traceparent: 00-0af7651916cd43dd8448eb211c80319c-B7AD6B7169203331-01\n
stops 3 cause 32 BadTraceparent

upper case in the flags
run headers --to b3
input-lines traceparent: 00-0af7651916cd43dd8448eb211c80319c-b7ad6b7169203331-0A\n
stops 3 cause 32 BadTraceparent

upper case in the version
run headers --to b3
input-lines traceparent: 0A-0af7651916cd43dd8448eb211c80319c-b7ad6b7169203331-01\n
stops 3 cause 32 BadTraceparent

a trace of zeros
run headers --to b3
input-lines traceparent: 00-00000000000000000000000000000000-b7ad6b7169203331-01\n
stops 3 cause 32 BadTraceparent

a span of zeros
run headers --to b3
input-lines traceparent: 00-0af7651916cd43dd8448eb211c80319c-0000000000000000-01\n
stops 3 cause 32 BadTraceparent

a trace of zeros in version 01
run headers --to b3
input-lines traceparent: 01-00000000000000000000000000000000-b7ad6b7169203331-01-x\n
stops 3 cause 32 BadTraceparent

version ff
run headers --to b3
input-lines traceparent: ff-0af7651916cd43dd8448eb211c80319c-b7ad6b7169203331-01\n
stops 3 cause 32 BadTraceparent

version ff with more
run headers --to b3
input-lines traceparent: ff-0af7651916cd43dd8448eb211c80319c-b7ad6b7169203331-01-00\n
stops 3 cause 32 BadTraceparent

version 00 with more
run headers --to b3
input-lines traceparent: 00-0af7651916cd43dd8448eb211c80319c-b7ad6b7169203331-01-00\n
stops 3 cause 32 BadTraceparent

version 00 with a dash behind
run headers --to b3
input-lines traceparent: 00-0af7651916cd43dd8448eb211c80319c-b7ad6b7169203331-01-\n
stops 3 cause 32 BadTraceparent

version 01 with a character that is no dash
run headers --to b3
input-lines traceparent: 01-0af7651916cd43dd8448eb211c80319c-b7ad6b7169203331-01.00\n
stops 3 cause 32 BadTraceparent

version 01 with a digit more
run headers --to b3
input-lines traceparent: 01-0af7651916cd43dd8448eb211c80319c-b7ad6b7169203331-010\n
stops 3 cause 32 BadTraceparent

version 01 that is short
run headers --to b3
input-lines traceparent: 01-0af7651916cd43dd8448eb211c80319c-b7ad6b7169203331\n
stops 3 cause 32 BadTraceparent

a version of one digit
run headers --to b3
input-lines traceparent: 0-0af7651916cd43dd8448eb211c80319c-b7ad6b7169203331-01\n
stops 3 cause 32 BadTraceparent

a version that is no number
run headers --to b3
input-lines traceparent: 0g-0af7651916cd43dd8448eb211c80319c-b7ad6b7169203331-01\n
stops 3 cause 32 BadTraceparent

a trace of 31 digits
run headers --to b3
input-lines traceparent: 00-0af7651916cd43dd8448eb211c80319-b7ad6b7169203331-01\n
stops 3 cause 32 BadTraceparent

a trace of 33 digits
run headers --to b3
input-lines traceparent: 00-00af7651916cd43dd8448eb211c80319c-b7ad6b7169203331-01\n
stops 3 cause 32 BadTraceparent

a trace with another character
run headers --to b3
input-lines traceparent: 00-gaf7651916cd43dd8448eb211c80319c-b7ad6b7169203331-01\n
stops 3 cause 32 BadTraceparent

a span of 15 digits
run headers --to b3
input-lines traceparent: 00-0af7651916cd43dd8448eb211c80319c-b7ad6b716920333-01\n
stops 3 cause 32 BadTraceparent

a span with another character
run headers --to b3
input-lines traceparent: 00-0af7651916cd43dd8448eb211c80319c-b7ad6b716920333 -01\n
stops 3 cause 32 BadTraceparent

flags of one digit
run headers --to b3
input-lines traceparent: 00-0af7651916cd43dd8448eb211c80319c-b7ad6b7169203331-1\n
stops 3 cause 32 BadTraceparent

flags that are no number
run headers --to b3
input-lines traceparent: 00-0af7651916cd43dd8448eb211c80319c-b7ad6b7169203331-0x\n
stops 3 cause 32 BadTraceparent

no flags
run headers --to b3
input-lines traceparent: 00-0af7651916cd43dd8448eb211c80319c-b7ad6b7169203331\n
stops 3 cause 32 BadTraceparent

underscores for dashes
run headers --to b3
input-lines traceparent: 00_0af7651916cd43dd8448eb211c80319c_b7ad6b7169203331_01\n
stops 3 cause 32 BadTraceparent

dashes in other places
run headers --to b3
input-lines traceparent: 000af7651916cd43dd8448eb211c80319c--b7ad6b7169203331-01\n
stops 3 cause 32 BadTraceparent
"#;

/// A `uber-trace-id` that isn't of its form.
pub const UBER: &str = r#"
twice
run headers --to b3
input-lines uber-trace-id: 0af7651916cd43dd8448eb211c80319c:b7ad6b7169203331:0:1\n
 uber-trace-id: 0af7651916cd43dd8448eb211c80319c:b7ad6b7169203331:0:1\n
stops 3 cause 35 BadUber

no value
run headers --to b3
input-lines uber-trace-id:\n
stops 3 cause 35 BadUber

three parts
run headers --to b3
input-lines uber-trace-id: 0af7651916cd43dd8448eb211c80319c:b7ad6b7169203331:0\n
stops 3 cause 35 BadUber

five parts
run headers --to b3
input-lines uber-trace-id: 0af7651916cd43dd8448eb211c80319c:b7ad6b7169203331:0:1:\n
stops 3 cause 35 BadUber

a trace of zeros
run headers --to uber
input-lines uber-trace-id: 0:2:0:1\n
stops 3 cause 35 BadUber

a span of zeros
run headers --to uber
input-lines uber-trace-id: 1:0000000000000000:0:1\n
stops 3 cause 35 BadUber

no trace
run headers --to b3
input-lines uber-trace-id: :2:0:1\n
stops 3 cause 35 BadUber

no span
run headers --to b3
input-lines uber-trace-id: 1::0:1\n
stops 3 cause 35 BadUber

no parent
run headers --to b3
input-lines uber-trace-id: 1:2::1\n
stops 3 cause 35 BadUber

no flags
run headers --to b3
input-lines uber-trace-id: 1:2:0:\n
stops 3 cause 35 BadUber

a trace of 33 digits
run headers --to b3
input-lines uber-trace-id: 00af7651916cd43dd8448eb211c80319c:2:0:1\n
stops 3 cause 35 BadUber

a span of 17 digits
run headers --to b3
input-lines uber-trace-id: 1:0b7ad6b7169203331:0:1\n
stops 3 cause 35 BadUber

a parent of 17 digits
run headers --to b3
input-lines uber-trace-id: 1:2:000f067aa0ba902b7:1\n
stops 3 cause 35 BadUber

a parent of 17 zeros
run headers --to b3
input-lines uber-trace-id: 1:2:00000000000000000:1\n
stops 3 cause 35 BadUber

flags of three digits
run headers --to b3
input-lines uber-trace-id: 1:2:0:001\n
stops 3 cause 35 BadUber

flags that are no number
run headers --to b3
input-lines uber-trace-id: 1:2:0:g\n
stops 3 cause 35 BadUber

a trace that is no number
run headers --to b3
input-lines uber-trace-id: x1:2:0:1\n
stops 3 cause 35 BadUber

a sign
run headers --to b3-multi
input-lines uber-trace-id: 1:2:-1:1\n
stops 3 cause 35 BadUber

a space
run headers --to b3
input-lines uber-trace-id: 1: 2:0:1\n
stops 3 cause 35 BadUber

another escape
run headers --to b3
input-lines uber-trace-id: 1%3B2%3B0%3B1\n
stops 3 cause 35 BadUber

an escape that is cut
run headers --to b3
input-lines uber-trace-id: 1%32%30%31\n
stops 3 cause 35 BadUber

an escape of an escape
run headers --to b3
input-lines uber-trace-id: 1%253A2%253A0%253A1\n
stops 3 cause 35 BadUber
"#;
