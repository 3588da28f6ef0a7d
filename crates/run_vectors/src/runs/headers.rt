//! Blocks of header lines, and what is written of their contexts.

/// What `traceparent` tells.
pub const TRACEPARENTS: &str = r#"
a traceparent and a tracestate
run headers --to w3c
input-lines traceparent: 00-0af7651916cd43dd8448eb211c80319c-b7ad6b7169203331-01\ntracestate: a=1, b=2\n
output-lines traceparent: 00-0af7651916cd43dd8448eb211c80319c-b7ad6b7169203331-01\ntracestate: a=1,b=2\n

a traceparent and a tracestate
run headers --to b3
input-lines traceparent: 00-0af7651916cd43dd8448eb211c80319c-b7ad6b7169203331-01\ntracestate: a=1, b=2\n
output-lines b3: 0af7651916cd43dd8448eb211c80319c-b7ad6b7169203331-1\n

a traceparent and a tracestate
run headers --to b3-multi
input-lines traceparent: 00-0af7651916cd43dd8448eb211c80319c-b7ad6b7169203331-01\ntracestate: a=1, b=2\n
output-lines X-B3-TraceId: 0af7651916cd43dd8448eb211c80319c\nX-B3-SpanId: b7ad6b7169203331\nX-B3-Sampled: 1\n

a traceparent and a tracestate
run headers --to uber
input-lines traceparent: 00-0af7651916cd43dd8448eb211c80319c-b7ad6b7169203331-01\ntracestate: a=1, b=2\n
output-lines uber-trace-id: 0af7651916cd43dd8448eb211c80319c:b7ad6b7169203331:0:1\n

flags of 00
run headers --to b3
input-lines traceparent: 00-0af7651916cd43dd8448eb211c80319c-b7ad6b7169203331-00\n
output-lines b3: 0af7651916cd43dd8448eb211c80319c-b7ad6b7169203331-0\n

flags of 00
run headers --to w3c
input-lines traceparent: 00-0af7651916cd43dd8448eb211c80319c-b7ad6b7169203331-00\n
output-lines traceparent: 00-0af7651916cd43dd8448eb211c80319c-b7ad6b7169203331-00\n

flags of 02
run headers --to b3
input-lines traceparent: 00-0af7651916cd43dd8448eb211c80319c-b7ad6b7169203331-02\n
output-lines b3: 0af7651916cd43dd8448eb211c80319c-b7ad6b7169203331-0\n

flags of ff
run headers --to b3
input-lines traceparent: 00-0af7651916cd43dd8448eb211c80319c-b7ad6b7169203331-ff\n
output-lines b3: 0af7651916cd43dd8448eb211c80319c-b7ad6b7169203331-1\n

flags of ff
run headers --to w3c
input-lines traceparent: 00-0af7651916cd43dd8448eb211c80319c-b7ad6b7169203331-ff\n
output-lines traceparent: 00-0af7651916cd43dd8448eb211c80319c-b7ad6b7169203331-01\n

version 01
run headers --to w3c
input-lines traceparent: 01-0af7651916cd43dd8448eb211c80319c-b7ad6b7169203331-01\n
output-lines traceparent: 00-0af7651916cd43dd8448eb211c80319c-b7ad6b7169203331-01\n

version 01 with more behind a dash
run headers --to w3c
input-lines traceparent: 01-0af7651916cd43dd8448eb211c80319c-b7ad6b7169203331-00-what: comes, later\n
output-lines traceparent: 00-0af7651916cd43dd8448eb211c80319c-b7ad6b7169203331-00\n

version 01 with a dash behind
run headers --to b3
input-lines traceparent: 01-0af7651916cd43dd8448eb211c80319c-b7ad6b7169203331-01-\n
output-lines b3: 0af7651916cd43dd8448eb211c80319c-b7ad6b7169203331-1\n

version fe
run headers --to b3
input-lines traceparent: fe-0af7651916cd43dd8448eb211c80319c-b7ad6b7169203331-01-00\n
output-lines b3: 0af7651916cd43dd8448eb211c80319c-b7ad6b7169203331-1\n

the least identifiers
run headers --to uber
input-lines traceparent: 00-00000000000000000000000000000001-0000000000000001-01\n
output-lines uber-trace-id: 00000000000000000000000000000001:0000000000000001:0:1\n

the greatest identifiers
run headers --to b3-multi
input-lines traceparent: 00-ffffffffffffffffffffffffffffffff-ffffffffffffffff-01\n
output-lines X-B3-TraceId: ffffffffffffffffffffffffffffffff\nX-B3-SpanId: ffffffffffffffff\nX-B3-Sampled: 1\n
"#;

/// What the one header `b3` tells.
pub const B3: &str = r#"
32 digits
run headers --to b3-multi
input-lines b3: 0af7651916cd43dd8448eb211c80319c-b7ad6b7169203331\n
output-lines X-B3-TraceId: 0af7651916cd43dd8448eb211c80319c\nX-B3-SpanId: b7ad6b7169203331\n

32 digits
run headers --to b3
input-lines b3: 0af7651916cd43dd8448eb211c80319c-b7ad6b7169203331\n
output-lines b3: 0af7651916cd43dd8448eb211c80319c-b7ad6b7169203331\n

no state is not sampled
run headers --to w3c
input-lines b3: 0af7651916cd43dd8448eb211c80319c-b7ad6b7169203331\n
output-lines traceparent: 00-0af7651916cd43dd8448eb211c80319c-b7ad6b7169203331-00\n

no state is not sampled
run headers --to uber
input-lines b3: 0af7651916cd43dd8448eb211c80319c-b7ad6b7169203331\n
output-lines uber-trace-id: 0af7651916cd43dd8448eb211c80319c:b7ad6b7169203331:0:0\n

16 digits
run headers --to b3
input-lines b3: 8448eb211c80319c-b7ad6b7169203331-1\n
output-lines b3: 00000000000000008448eb211c80319c-b7ad6b7169203331-1\n

16 digits without a state
run headers --to b3
input-lines b3: 8448eb211c80319c-b7ad6b7169203331\n
output-lines b3: 00000000000000008448eb211c80319c-b7ad6b7169203331\n

not sampled
run headers --to b3-multi
input-lines b3: 0af7651916cd43dd8448eb211c80319c-b7ad6b7169203331-0\n
output-lines X-B3-TraceId: 0af7651916cd43dd8448eb211c80319c\nX-B3-SpanId: b7ad6b7169203331\nX-B3-Sampled: 0\n

sampled
run headers --to b3-multi
input-lines b3: 0af7651916cd43dd8448eb211c80319c-b7ad6b7169203331-1\n
output-lines X-B3-TraceId: 0af7651916cd43dd8448eb211c80319c\nX-B3-SpanId: b7ad6b7169203331\nX-B3-Sampled: 1\n

debug
run headers --to b3-multi
input-lines b3: 0af7651916cd43dd8448eb211c80319c-b7ad6b7169203331-d\n
output-lines X-B3-TraceId: 0af7651916cd43dd8448eb211c80319c\nX-B3-SpanId: b7ad6b7169203331\nX-B3-Flags: 1\n

debug
run headers --to b3
input-lines b3: 0af7651916cd43dd8448eb211c80319c-b7ad6b7169203331-d\n
output-lines b3: 0af7651916cd43dd8448eb211c80319c-b7ad6b7169203331-d\n

debug is sampled
run headers --to w3c
input-lines b3: 0af7651916cd43dd8448eb211c80319c-b7ad6b7169203331-d\n
output-lines traceparent: 00-0af7651916cd43dd8448eb211c80319c-b7ad6b7169203331-01\n

debug
run headers --to uber
input-lines b3: 0af7651916cd43dd8448eb211c80319c-b7ad6b7169203331-d\n
output-lines uber-trace-id: 0af7651916cd43dd8448eb211c80319c:b7ad6b7169203331:0:3\n

a state and a parent
run headers --to b3-multi
input-lines b3: 0af7651916cd43dd8448eb211c80319c-b7ad6b7169203331-1-00f067aa0ba902b7\n
output-lines X-B3-TraceId: 0af7651916cd43dd8448eb211c80319c\nX-B3-SpanId: b7ad6b7169203331\n
 X-B3-ParentSpanId: 00f067aa0ba902b7\nX-B3-Sampled: 1\n

a state and a parent
run headers --to b3
input-lines b3: 0af7651916cd43dd8448eb211c80319c-b7ad6b7169203331-1-00f067aa0ba902b7\n
output-lines b3: 0af7651916cd43dd8448eb211c80319c-b7ad6b7169203331-1-00f067aa0ba902b7\n

a parent goes
run headers --to w3c
input-lines b3: 0af7651916cd43dd8448eb211c80319c-b7ad6b7169203331-1-00f067aa0ba902b7\n
output-lines traceparent: 00-0af7651916cd43dd8448eb211c80319c-b7ad6b7169203331-01\n

a state and a parent
run headers --to uber
input-lines b3: 0af7651916cd43dd8448eb211c80319c-b7ad6b7169203331-0-00f067aa0ba902b7\n
output-lines uber-trace-id: 0af7651916cd43dd8448eb211c80319c:b7ad6b7169203331:00f067aa0ba902b7:0\n

debug and a parent
run headers --to uber
input-lines b3: 0af7651916cd43dd8448eb211c80319c-b7ad6b7169203331-d-00f067aa0ba902b7\n
output-lines uber-trace-id: 0af7651916cd43dd8448eb211c80319c:b7ad6b7169203331:00f067aa0ba902b7:3\n

0 alone
run headers --to b3
input-lines b3: 0\n
output-lines b3: 0\n

0 alone
run headers --to b3-multi
input-lines b3: 0\n
output-lines X-B3-Sampled: 0\n

1 alone
run headers --to b3-multi
input-lines b3: 1\n
output-lines X-B3-Sampled: 1\n

d alone
run headers --to b3
input-lines b3: d\n
output-lines b3: d\n

d alone
run headers --to b3-multi
input-lines b3: d\n
output-lines X-B3-Flags: 1\n

digits of upper case
run headers --to b3
input-lines b3: 0AF7651916CD43DD8448EB211C80319C-B7AD6B7169203331-1-00F067AA0BA902B7\n
output-lines b3: 0af7651916cd43dd8448eb211c80319c-b7ad6b7169203331-1-00f067aa0ba902b7\n

digits of both cases
run headers --to w3c
input-lines b3: 0AF7651916CD43DD8448eb211c80319c-B7AD6B7169203331-1\n
output-lines traceparent: 00-0af7651916cd43dd8448eb211c80319c-b7ad6b7169203331-01\n
"#;

/// What `uber-trace-id` tells.
pub const UBER: &str = r#"
short identifiers, debug
run headers --to b3
input-lines uber-trace-id: 1:2:0:3\n
output-lines b3: 00000000000000000000000000000001-0000000000000002-d\n

short identifiers, debug
run headers --to w3c
input-lines uber-trace-id: 1:2:0:3\n
output-lines traceparent: 00-00000000000000000000000000000001-0000000000000002-01\n

short identifiers, debug
run headers --to uber
input-lines uber-trace-id: 1:2:0:3\n
output-lines uber-trace-id: 00000000000000000000000000000001:0000000000000002:0:3\n

all digits and a parent
run headers --to b3-multi
input-lines uber-trace-id: 0af7651916cd43dd8448eb211c80319c:b7ad6b7169203331:00f067aa0ba902b7:1\n
output-lines X-B3-TraceId: 0af7651916cd43dd8448eb211c80319c\nX-B3-SpanId: b7ad6b7169203331\n
 X-B3-ParentSpanId: 00f067aa0ba902b7\nX-B3-Sampled: 1\n

all digits and a parent
run headers --to uber
input-lines uber-trace-id: 0af7651916cd43dd8448eb211c80319c:b7ad6b7169203331:00f067aa0ba902b7:1\n
output-lines uber-trace-id: 0af7651916cd43dd8448eb211c80319c:b7ad6b7169203331:00f067aa0ba902b7:1\n

a parent goes
run headers --to w3c
input-lines uber-trace-id: 0af7651916cd43dd8448eb211c80319c:b7ad6b7169203331:00f067aa0ba902b7:1\n
output-lines traceparent: 00-0af7651916cd43dd8448eb211c80319c-b7ad6b7169203331-01\n

a parent of one digit
run headers --to b3-multi
input-lines uber-trace-id: 0af7651916cd43dd8448eb211c80319c:b7ad6b7169203331:a:0\n
output-lines X-B3-TraceId: 0af7651916cd43dd8448eb211c80319c\nX-B3-SpanId: b7ad6b7169203331\n
 X-B3-ParentSpanId: 000000000000000a\nX-B3-Sampled: 0\n

a parent of zeros
run headers --to b3-multi
input-lines uber-trace-id: 0af7651916cd43dd8448eb211c80319c:b7ad6b7169203331:0000000000000000:1\n
output-lines X-B3-TraceId: 0af7651916cd43dd8448eb211c80319c\nX-B3-SpanId: b7ad6b7169203331\nX-B3-Sampled: 1\n

a parent of two zeros
run headers --to uber
input-lines uber-trace-id: 0af7651916cd43dd8448eb211c80319c:b7ad6b7169203331:00:1\n
output-lines uber-trace-id: 0af7651916cd43dd8448eb211c80319c:b7ad6b7169203331:0:1\n

flags 0
run headers --to b3
input-lines uber-trace-id: 0af7651916cd43dd8448eb211c80319c:b7ad6b7169203331:0:0\n
output-lines b3: 0af7651916cd43dd8448eb211c80319c-b7ad6b7169203331-0\n

flags 2
run headers --to b3
input-lines uber-trace-id: 0af7651916cd43dd8448eb211c80319c:b7ad6b7169203331:0:2\n
output-lines b3: 0af7651916cd43dd8448eb211c80319c-b7ad6b7169203331-d\n

flags 4
run headers --to b3
input-lines uber-trace-id: 0af7651916cd43dd8448eb211c80319c:b7ad6b7169203331:0:4\n
output-lines b3: 0af7651916cd43dd8448eb211c80319c-b7ad6b7169203331-0\n

flags 5
run headers --to b3
input-lines uber-trace-id: 0af7651916cd43dd8448eb211c80319c:b7ad6b7169203331:0:5\n
output-lines b3: 0af7651916cd43dd8448eb211c80319c-b7ad6b7169203331-1\n

flags 00
run headers --to b3
input-lines uber-trace-id: 0af7651916cd43dd8448eb211c80319c:b7ad6b7169203331:0:00\n
output-lines b3: 0af7651916cd43dd8448eb211c80319c-b7ad6b7169203331-0\n

flags 01
run headers --to b3
input-lines uber-trace-id: 0af7651916cd43dd8448eb211c80319c:b7ad6b7169203331:0:01\n
output-lines b3: 0af7651916cd43dd8448eb211c80319c-b7ad6b7169203331-1\n

flags 03
run headers --to uber
input-lines uber-trace-id: 0af7651916cd43dd8448eb211c80319c:b7ad6b7169203331:0:03\n
output-lines uber-trace-id: 0af7651916cd43dd8448eb211c80319c:b7ad6b7169203331:0:3\n

flags 0A
run headers --to b3
input-lines uber-trace-id: 0af7651916cd43dd8448eb211c80319c:b7ad6b7169203331:0:0A\n
output-lines b3: 0af7651916cd43dd8448eb211c80319c-b7ad6b7169203331-d\n

flags f1
run headers --to b3
input-lines uber-trace-id: 0af7651916cd43dd8448eb211c80319c:b7ad6b7169203331:0:f1\n
output-lines b3: 0af7651916cd43dd8448eb211c80319c-b7ad6b7169203331-1\n

colons as %3A
run headers --to uber
input-lines uber-trace-id: 0af7651916cd43dd8448eb211c80319c%3Ab7ad6b7169203331%3A00f067aa0ba902b7%3A1\n
output-lines uber-trace-id: 0af7651916cd43dd8448eb211c80319c:b7ad6b7169203331:00f067aa0ba902b7:1\n

colons as %3a
run headers --to b3-multi
input-lines uber-trace-id: 1%3a2%3a3%3a0\n
output-lines X-B3-TraceId: 00000000000000000000000000000001\nX-B3-SpanId: 0000000000000002\n
 X-B3-ParentSpanId: 0000000000000003\nX-B3-Sampled: 0\n

colons of each kind
run headers --to uber
input-lines uber-trace-id: 0af7651916cd43dd8448eb211c80319c%3Ab7ad6b7169203331:0%3a1\n
output-lines uber-trace-id: 0af7651916cd43dd8448eb211c80319c:b7ad6b7169203331:0:1\n

digits of upper case
run headers --to uber
input-lines uber-trace-id: 0AF7651916CD43DD8448EB211C80319C:B7AD6B7169203331:00F067AA0BA902B7:1\n
output-lines uber-trace-id: 0af7651916cd43dd8448eb211c80319c:b7ad6b7169203331:00f067aa0ba902b7:1\n

zeros in front
run headers --to b3
input-lines uber-trace-id: 00000000000000000000ab:0000000000c:0:1\n
output-lines b3: 000000000000000000000000000000ab-000000000000000c-1\n
"#;

/// Lines, and headers of other forms.
pub const LINES: &str = r#"
names in any case
run headers --to w3c
input-lines TraceParent: 00-0af7651916cd43dd8448eb211c80319c-b7ad6b7169203331-01\nTRACESTATE: a=1\n
output-lines traceparent: 00-0af7651916cd43dd8448eb211c80319c-b7ad6b7169203331-01\ntracestate: a=1\n

names in any case
run headers --to b3-multi
input-lines B3: 0af7651916cd43dd8448eb211c80319c-b7ad6b7169203331-1\n
output-lines X-B3-TraceId: 0af7651916cd43dd8448eb211c80319c\nX-B3-SpanId: b7ad6b7169203331\nX-B3-Sampled: 1\n

names in any case
run headers --to b3
input-lines Uber-Trace-ID: 0af7651916cd43dd8448eb211c80319c:b7ad6b7169203331:0:1\n
output-lines b3: 0af7651916cd43dd8448eb211c80319c-b7ad6b7169203331-1\n

lines that end in CR LF
run headers --to w3c
input-lines traceparent: 00-0af7651916cd43dd8448eb211c80319c-b7ad6b7169203331-01\r\ntracestate: a=1, b=2\r\n
output-lines traceparent: 00-0af7651916cd43dd8448eb211c80319c-b7ad6b7169203331-01\ntracestate: a=1,b=2\n

lines that end in LF and in CR LF
run headers --to b3-multi
input-lines X-B3-TraceId: 0af7651916cd43dd8448eb211c80319c\r\nX-B3-SpanId: b7ad6b7169203331\nX-B3-Sampled: 1\r\n
output-lines X-B3-TraceId: 0af7651916cd43dd8448eb211c80319c\nX-B3-SpanId: b7ad6b7169203331\nX-B3-Sampled: 1\n

a last line without its end
run headers --to b3
input-lines traceparent: 00-0af7651916cd43dd8448eb211c80319c-b7ad6b7169203331-01
output-lines b3: 0af7651916cd43dd8448eb211c80319c-b7ad6b7169203331-1\n

a last line without its end behind CR LF
run headers --to w3c
input-lines traceparent: 00-0af7651916cd43dd8448eb211c80319c-b7ad6b7169203331-01\r\ntracestate: a=1
output-lines traceparent: 00-0af7651916cd43dd8448eb211c80319c-b7ad6b7169203331-01\ntracestate: a=1\n

empty lines
run headers --to b3
input-lines \n\r\ntraceparent: 00-0af7651916cd43dd8448eb211c80319c-b7ad6b7169203331-01\n\n\r\n\n
output-lines b3: 0af7651916cd43dd8448eb211c80319c-b7ad6b7169203331-1\n

other headers
run headers --to b3
input-lines Host: shop.example:8080\nX-Empty:\nx_1-2: a\tb\n
 traceparent: 00-0af7651916cd43dd8448eb211c80319c-b7ad6b7169203331-01\nbaggage: user=1\nuberctx-user: 1\n
output-lines b3: 0af7651916cd43dd8448eb211c80319c-b7ad6b7169203331-1\n

no blank behind the colon
run headers --to b3
input-lines traceparent:00-0af7651916cd43dd8448eb211c80319c-b7ad6b7169203331-01\n
output-lines b3: 0af7651916cd43dd8448eb211c80319c-b7ad6b7169203331-1\n

blanks round the value
run headers --to b3
input-lines traceparent:\t  00-0af7651916cd43dd8448eb211c80319c-b7ad6b7169203331-01 \t \n
output-lines b3: 0af7651916cd43dd8448eb211c80319c-b7ad6b7169203331-1\n

blanks before CR LF
run headers --to b3-multi
input-lines b3: 0af7651916cd43dd8448eb211c80319c-b7ad6b7169203331-1 \t\r\n
output-lines X-B3-TraceId: 0af7651916cd43dd8448eb211c80319c\nX-B3-SpanId: b7ad6b7169203331\nX-B3-Sampled: 1\n

traceparent goes before b3 that stands before it
run headers --to uber
input-lines b3: 8448eb211c80319c-00f067aa0ba902b7-0\ntraceparent: 00-0af7651916cd43dd8448eb211c80319c-b7ad6b7169203331-01\n
output-lines uber-trace-id: 0af7651916cd43dd8448eb211c80319c:b7ad6b7169203331:0:1\n

traceparent goes before bad headers of the others
run headers --to b3
input-lines b3: x\nX-B3-Sampled: x\nuber-trace-id: x\ntraceparent: 00-0af7651916cd43dd8448eb211c80319c-b7ad6b7169203331-01\n
output-lines b3: 0af7651916cd43dd8448eb211c80319c-b7ad6b7169203331-1\n

a header of another form twice
run headers --to b3
input-lines b3: 0\nb3: 1\ntraceparent: 00-0af7651916cd43dd8448eb211c80319c-b7ad6b7169203331-01\n
output-lines b3: 0af7651916cd43dd8448eb211c80319c-b7ad6b7169203331-1\n

b3 goes before X-B3
run headers --to b3-multi
input-lines X-B3-TraceId: 0af7651916cd43dd8448eb211c80319c\nX-B3-SpanId: b7ad6b7169203331\nX-B3-Sampled: 0\nb3: 1\n
output-lines X-B3-Sampled: 1\n

X-B3 goes before uber
run headers --to b3
input-lines uber-trace-id: 0af7651916cd43dd8448eb211c80319c:b7ad6b7169203331:0:1\nX-B3-Sampled: 0\n
output-lines b3: 0\n

a tracestate beside b3 isn't read
run headers --to w3c
input-lines tracestate: a=1\nb3: 0af7651916cd43dd8448eb211c80319c-b7ad6b7169203331-1\n
output-lines traceparent: 00-0af7651916cd43dd8448eb211c80319c-b7ad6b7169203331-01\n

a bad tracestate beside uber isn't read
run headers --to w3c
input-lines uber-trace-id: 0af7651916cd43dd8448eb211c80319c:b7ad6b7169203331:0:1\ntracestate: =\n
output-lines traceparent: 00-0af7651916cd43dd8448eb211c80319c-b7ad6b7169203331-01\n
"#;
