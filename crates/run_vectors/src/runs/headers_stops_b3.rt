//! Blocks of header lines of B3 that are refused.

/// A `b3` that isn't of its form.
pub const B3: &str = r#"
twice
run headers --to b3
input-lines b3: 1\nb3: 1\n
stops 3 cause 34 BadB3

twice with names in two cases
run headers --to b3
input-lines b3: 0af7651916cd43dd8448eb211c80319c-b7ad6b7169203331-1\nB3: 0\n
stops 3 cause 34 BadB3

no value
run headers --to b3
input-lines b3:\n
stops 3 cause 34 BadB3

bad though X-B3 and uber are good
run headers --to uber
input-lines b3: x\nX-B3-TraceId: 0af7651916cd43dd8448eb211c80319c\nX-B3-SpanId: b7ad6b7169203331\n
 uber-trace-id: 0af7651916cd43dd8448eb211c80319c:b7ad6b7169203331:0:1\n
stops 3 cause 34 BadB3

a trace alone
run headers --to b3
input-lines b3: 0af7651916cd43dd8448eb211c80319c\n
stops 3 cause 34 BadB3

a trace and a dash
run headers --to b3
input-lines b3: 0af7651916cd43dd8448eb211c80319c-\n
stops 3 cause 34 BadB3

15 digits
run headers --to b3
input-lines b3: 448eb211c80319c-b7ad6b7169203331-1\n
stops 3 cause 34 BadB3

17 digits
run headers --to b3
input-lines b3: 08448eb211c80319c-b7ad6b7169203331-1\n
stops 3 cause 34 BadB3

31 digits
run headers --to b3
input-lines b3: af7651916cd43dd8448eb211c80319c-b7ad6b7169203331-1\n
stops 3 cause 34 BadB3

33 digits
run headers --to b3
input-lines b3: 00af7651916cd43dd8448eb211c80319c-b7ad6b7169203331-1\n
stops 3 cause 34 BadB3

a span of 15 digits
run headers --to b3
input-lines b3: 0af7651916cd43dd8448eb211c80319c-7ad6b7169203331-1\n
stops 3 cause 34 BadB3

a span of 17 digits
run headers --to b3
input-lines b3: 0af7651916cd43dd8448eb211c80319c-0b7ad6b7169203331-1\n
stops 3 cause 34 BadB3

a trace of 32 zeros
run headers --to b3
input-lines b3: 00000000000000000000000000000000-b7ad6b7169203331-1\n
stops 3 cause 34 BadB3

a trace of 16 zeros
run headers --to b3
input-lines b3: 0000000000000000-b7ad6b7169203331-1\n
stops 3 cause 34 BadB3

a span of zeros
run headers --to b3
input-lines b3: 0af7651916cd43dd8448eb211c80319c-0000000000000000-1\n
stops 3 cause 34 BadB3

a parent of zeros
run headers --to b3
input-lines b3: 0af7651916cd43dd8448eb211c80319c-b7ad6b7169203331-1-0000000000000000\n
stops 3 cause 34 BadB3

a parent of 15 digits
run headers --to b3
input-lines b3: 0af7651916cd43dd8448eb211c80319c-b7ad6b7169203331-1-0f067aa0ba902b7\n
stops 3 cause 34 BadB3

a parent of 32 digits
run headers --to b3
input-lines b3: 0af7651916cd43dd8448eb211c80319c-b7ad6b7169203331-1-0af7651916cd43dd8448eb211c80319c\n
stops 3 cause 34 BadB3

a parent without a state
run headers --to b3
input-lines b3: 0af7651916cd43dd8448eb211c80319c-b7ad6b7169203331-00f067aa0ba902b7\n
stops 3 cause 34 BadB3

a parent behind an empty state
run headers --to b3
input-lines b3: 0af7651916cd43dd8448eb211c80319c-b7ad6b7169203331--00f067aa0ba902b7\n
stops 3 cause 34 BadB3

a dash behind the span
run headers --to b3
input-lines b3: 0af7651916cd43dd8448eb211c80319c-b7ad6b7169203331-\n
stops 3 cause 34 BadB3

a dash behind the state
run headers --to b3
input-lines b3: 0af7651916cd43dd8448eb211c80319c-b7ad6b7169203331-1-\n
stops 3 cause 34 BadB3

more behind the parent
run headers --to b3
input-lines b3: 0af7651916cd43dd8448eb211c80319c-b7ad6b7169203331-1-00f067aa0ba902b7-1\n
stops 3 cause 34 BadB3

another letter as state
run headers --to b3
input-lines b3: 0af7651916cd43dd8448eb211c80319c-b7ad6b7169203331-x\n
stops 3 cause 34 BadB3

a capital as state
run headers --to b3
input-lines b3: 0af7651916cd43dd8448eb211c80319c-b7ad6b7169203331-D\n
stops 3 cause 34 BadB3

2 as state
run headers --to b3
input-lines b3: 0af7651916cd43dd8448eb211c80319c-b7ad6b7169203331-2\n
stops 3 cause 34 BadB3

true as state
run headers --to b3
input-lines b3: 0af7651916cd43dd8448eb211c80319c-b7ad6b7169203331-true\n
stops 3 cause 34 BadB3

another letter alone
run headers --to b3
input-lines b3: x\n
stops 3 cause 34 BadB3

a capital alone
run headers --to b3
input-lines b3: D\n
stops 3 cause 34 BadB3

two states alone
run headers --to b3
input-lines b3: 01\n
stops 3 cause 34 BadB3

a letter that is no digit
run headers --to b3
input-lines b3: 0af7651916cd43dd8448eb211c80319g-b7ad6b7169203331-1\n
stops 3 cause 34 BadB3

a space
run headers --to b3
input-lines b3: 0af7651916cd43dd8448eb211c80319c-b7ad6b7169203331 -1\n
stops 3 cause 34 BadB3
"#;

/// Headers with names in `X-B3-` that tell nothing together.
pub const MULTI: &str = r#"
a trace without a span
run headers --to b3
input-lines X-B3-TraceId: 0af7651916cd43dd8448eb211c80319c\nX-B3-Sampled: 1\n
stops 3 cause 34 BadB3

a span without a trace
run headers --to b3
input-lines X-B3-SpanId: b7ad6b7169203331\nX-B3-Sampled: 1\n
stops 3 cause 34 BadB3

a parent alone
run headers --to b3
input-lines X-B3-ParentSpanId: 00f067aa0ba902b7\n
stops 3 cause 34 BadB3

a parent beside sampled
run headers --to b3
input-lines X-B3-ParentSpanId: 00f067aa0ba902b7\nX-B3-Sampled: 1\n
stops 3 cause 34 BadB3

a parent without a trace
run headers --to b3
input-lines X-B3-SpanId: b7ad6b7169203331\nX-B3-ParentSpanId: 00f067aa0ba902b7\nX-B3-Sampled: 1\n
stops 3 cause 34 BadB3

a parent without a span
run headers --to b3
input-lines X-B3-TraceId: 0af7651916cd43dd8448eb211c80319c\nX-B3-ParentSpanId: 00f067aa0ba902b7\nX-B3-Flags: 1\n
stops 3 cause 34 BadB3

sampled of another word
run headers --to b3
input-lines X-B3-TraceId: 0af7651916cd43dd8448eb211c80319c\nX-B3-SpanId: b7ad6b7169203331\nX-B3-Sampled: yes\n
stops 3 cause 34 BadB3

sampled in capitals
run headers --to b3
input-lines X-B3-TraceId: 0af7651916cd43dd8448eb211c80319c\nX-B3-SpanId: b7ad6b7169203331\nX-B3-Sampled: TRUE\n
stops 3 cause 34 BadB3

sampled d
run headers --to b3
input-lines X-B3-Sampled: d\n
stops 3 cause 34 BadB3

sampled 2 beside flags 0
run headers --to b3
input-lines X-B3-TraceId: 0af7651916cd43dd8448eb211c80319c\nX-B3-SpanId: b7ad6b7169203331\nX-B3-Sampled: 2\nX-B3-Flags: 0\n
stops 3 cause 34 BadB3

sampled without a value
run headers --to b3
input-lines X-B3-TraceId: 0af7651916cd43dd8448eb211c80319c\nX-B3-SpanId: b7ad6b7169203331\nX-B3-Sampled:\n
stops 3 cause 34 BadB3

flags 0 alone
run headers --to b3
input-lines X-B3-Flags: 0\n
stops 3 cause 34 BadB3

flags of another value alone
run headers --to b3
input-lines X-B3-Flags: true\n
stops 3 cause 34 BadB3

a trace of zeros
run headers --to b3
input-lines X-B3-TraceId: 00000000000000000000000000000000\nX-B3-SpanId: b7ad6b7169203331\n
stops 3 cause 34 BadB3

a trace of 31 digits
run headers --to b3
input-lines X-B3-TraceId: af7651916cd43dd8448eb211c80319c\nX-B3-SpanId: b7ad6b7169203331\n
stops 3 cause 34 BadB3

a trace without a value
run headers --to b3
input-lines X-B3-TraceId:\nX-B3-SpanId: b7ad6b7169203331\n
stops 3 cause 34 BadB3

a span of zeros
run headers --to b3
input-lines X-B3-TraceId: 0af7651916cd43dd8448eb211c80319c\nX-B3-SpanId: 0000000000000000\n
stops 3 cause 34 BadB3

a span of 32 digits
run headers --to b3
input-lines X-B3-TraceId: 0af7651916cd43dd8448eb211c80319c\nX-B3-SpanId: 0af7651916cd43dd8448eb211c80319c\n
stops 3 cause 34 BadB3

a parent of zeros
run headers --to b3
input-lines X-B3-TraceId: 0af7651916cd43dd8448eb211c80319c\nX-B3-SpanId: b7ad6b7169203331\n
 X-B3-ParentSpanId: 0000000000000000\nX-B3-Sampled: 1\n
stops 3 cause 34 BadB3

a parent of one digit
run headers --to b3
input-lines X-B3-TraceId: 0af7651916cd43dd8448eb211c80319c\nX-B3-SpanId: b7ad6b7169203331\nX-B3-ParentSpanId: 1\n
 X-B3-Sampled: 1\n
stops 3 cause 34 BadB3

a parent of another letter
run headers --to b3
input-lines X-B3-TraceId: 0af7651916cd43dd8448eb211c80319c\nX-B3-SpanId: b7ad6b7169203331\n
 X-B3-ParentSpanId: 0f067aa0ba902b7x\nX-B3-Sampled: 1\n
stops 3 cause 34 BadB3

a trace twice
run headers --to b3
input-lines X-B3-TraceId: 0af7651916cd43dd8448eb211c80319c\nX-B3-TraceId: 0af7651916cd43dd8448eb211c80319c\n
 X-B3-SpanId: b7ad6b7169203331\n
stops 3 cause 34 BadB3

a span twice
run headers --to b3
input-lines X-B3-TraceId: 0af7651916cd43dd8448eb211c80319c\nX-B3-SpanId: b7ad6b7169203331\nX-B3-SpanId: b7ad6b7169203331\n
stops 3 cause 34 BadB3

a parent twice
run headers --to b3
input-lines X-B3-TraceId: 0af7651916cd43dd8448eb211c80319c\nX-B3-SpanId: b7ad6b7169203331\n
 X-B3-ParentSpanId: 00f067aa0ba902b7\nX-B3-ParentSpanId: 00f067aa0ba902b7\n
stops 3 cause 34 BadB3

sampled twice
run headers --to b3
input-lines X-B3-Sampled: 1\nX-B3-Sampled: 1\n
stops 3 cause 34 BadB3

sampled twice beside flags 1
run headers --to b3
input-lines X-B3-Sampled: 0\nX-B3-Sampled: 0\nX-B3-Flags: 1\n
stops 3 cause 34 BadB3

flags twice
run headers --to b3
input-lines X-B3-TraceId: 0af7651916cd43dd8448eb211c80319c\nX-B3-SpanId: b7ad6b7169203331\nX-B3-Flags: 1\nX-B3-Flags: 1\n
stops 3 cause 34 BadB3

flags 0 twice beside sampled 1
run headers --to b3
input-lines X-B3-TraceId: 0af7651916cd43dd8448eb211c80319c\nX-B3-SpanId: b7ad6b7169203331\nX-B3-Flags: 0\nX-B3-Flags: 0\n
 X-B3-Sampled: 1\n
stops 3 cause 34 BadB3

bad though uber is good
run headers --to uber
input-lines X-B3-Flags: 0\nuber-trace-id: 0af7651916cd43dd8448eb211c80319c:b7ad6b7169203331:0:1\n
stops 3 cause 34 BadB3
"#;
