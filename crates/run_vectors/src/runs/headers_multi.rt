//! Blocks of header lines with names in `X-B3-`, and what is written of their contexts.

/// What the headers with names in `X-B3-` tell.
pub const MULTI: &str = r#"
two identifiers
run headers --to b3
input-lines X-B3-TraceId: 0af7651916cd43dd8448eb211c80319c\nX-B3-SpanId: b7ad6b7169203331\n
output-lines b3: 0af7651916cd43dd8448eb211c80319c-b7ad6b7169203331\n

two identifiers
run headers --to b3-multi
input-lines X-B3-TraceId: 0af7651916cd43dd8448eb211c80319c\nX-B3-SpanId: b7ad6b7169203331\n
output-lines X-B3-TraceId: 0af7651916cd43dd8448eb211c80319c\nX-B3-SpanId: b7ad6b7169203331\n

sampled 0
run headers --to b3
input-lines X-B3-TraceId: 0af7651916cd43dd8448eb211c80319c\nX-B3-SpanId: b7ad6b7169203331\nX-B3-Sampled: 0\n
output-lines b3: 0af7651916cd43dd8448eb211c80319c-b7ad6b7169203331-0\n

sampled 1
run headers --to b3
input-lines X-B3-TraceId: 0af7651916cd43dd8448eb211c80319c\nX-B3-SpanId: b7ad6b7169203331\nX-B3-Sampled: 1\n
output-lines b3: 0af7651916cd43dd8448eb211c80319c-b7ad6b7169203331-1\n

sampled false
run headers --to b3
input-lines X-B3-TraceId: 0af7651916cd43dd8448eb211c80319c\nX-B3-SpanId: b7ad6b7169203331\nX-B3-Sampled: false\n
output-lines b3: 0af7651916cd43dd8448eb211c80319c-b7ad6b7169203331-0\n

sampled true
run headers --to b3-multi
input-lines X-B3-TraceId: 0af7651916cd43dd8448eb211c80319c\nX-B3-SpanId: b7ad6b7169203331\nX-B3-Sampled: true\n
output-lines X-B3-TraceId: 0af7651916cd43dd8448eb211c80319c\nX-B3-SpanId: b7ad6b7169203331\nX-B3-Sampled: 1\n

a parent
run headers --to b3
input-lines X-B3-TraceId: 0af7651916cd43dd8448eb211c80319c\nX-B3-SpanId: b7ad6b7169203331\n
 X-B3-ParentSpanId: 00f067aa0ba902b7\nX-B3-Sampled: 1\n
output-lines b3: 0af7651916cd43dd8448eb211c80319c-b7ad6b7169203331-1-00f067aa0ba902b7\n

a parent
run headers --to b3-multi
input-lines X-B3-TraceId: 0af7651916cd43dd8448eb211c80319c\nX-B3-SpanId: b7ad6b7169203331\n
 X-B3-ParentSpanId: 00f067aa0ba902b7\nX-B3-Sampled: 0\n
output-lines X-B3-TraceId: 0af7651916cd43dd8448eb211c80319c\nX-B3-SpanId: b7ad6b7169203331\n
 X-B3-ParentSpanId: 00f067aa0ba902b7\nX-B3-Sampled: 0\n

a parent without a sampling
run headers --to b3-multi
input-lines X-B3-TraceId: 0af7651916cd43dd8448eb211c80319c\nX-B3-SpanId: b7ad6b7169203331\n
 X-B3-ParentSpanId: 00f067aa0ba902b7\n
output-lines X-B3-TraceId: 0af7651916cd43dd8448eb211c80319c\nX-B3-SpanId: b7ad6b7169203331\n
 X-B3-ParentSpanId: 00f067aa0ba902b7\n

a parent without a sampling goes
run headers --to b3
input-lines X-B3-TraceId: 0af7651916cd43dd8448eb211c80319c\nX-B3-SpanId: b7ad6b7169203331\n
 X-B3-ParentSpanId: 00f067aa0ba902b7\n
output-lines b3: 0af7651916cd43dd8448eb211c80319c-b7ad6b7169203331\n

a parent without a sampling
run headers --to uber
input-lines X-B3-TraceId: 0af7651916cd43dd8448eb211c80319c\nX-B3-SpanId: b7ad6b7169203331\n
 X-B3-ParentSpanId: 00f067aa0ba902b7\n
output-lines uber-trace-id: 0af7651916cd43dd8448eb211c80319c:b7ad6b7169203331:00f067aa0ba902b7:0\n

a parent without a sampling
run headers --to w3c
input-lines X-B3-TraceId: 0af7651916cd43dd8448eb211c80319c\nX-B3-SpanId: b7ad6b7169203331\n
 X-B3-ParentSpanId: 00f067aa0ba902b7\n
output-lines traceparent: 00-0af7651916cd43dd8448eb211c80319c-b7ad6b7169203331-00\n

flags 1
run headers --to b3
input-lines X-B3-TraceId: 0af7651916cd43dd8448eb211c80319c\nX-B3-SpanId: b7ad6b7169203331\nX-B3-Flags: 1\n
output-lines b3: 0af7651916cd43dd8448eb211c80319c-b7ad6b7169203331-d\n

flags 1
run headers --to b3-multi
input-lines X-B3-TraceId: 0af7651916cd43dd8448eb211c80319c\nX-B3-SpanId: b7ad6b7169203331\nX-B3-Flags: 1\n
output-lines X-B3-TraceId: 0af7651916cd43dd8448eb211c80319c\nX-B3-SpanId: b7ad6b7169203331\nX-B3-Flags: 1\n

flags 1 beside sampled 0
run headers --to b3
input-lines X-B3-TraceId: 0af7651916cd43dd8448eb211c80319c\nX-B3-SpanId: b7ad6b7169203331\nX-B3-Sampled: 0\nX-B3-Flags: 1\n
output-lines b3: 0af7651916cd43dd8448eb211c80319c-b7ad6b7169203331-d\n

flags 1 beside sampled 1
run headers --to uber
input-lines X-B3-TraceId: 0af7651916cd43dd8448eb211c80319c\nX-B3-SpanId: b7ad6b7169203331\nX-B3-Sampled: 1\nX-B3-Flags: 1\n
output-lines uber-trace-id: 0af7651916cd43dd8448eb211c80319c:b7ad6b7169203331:0:3\n

flags 1 beside a sampled that is no word
run headers --to b3
input-lines X-B3-TraceId: 0af7651916cd43dd8448eb211c80319c\nX-B3-SpanId: b7ad6b7169203331\nX-B3-Sampled: maybe\n
 X-B3-Flags: 1\n
output-lines b3: 0af7651916cd43dd8448eb211c80319c-b7ad6b7169203331-d\n

flags 1 and a parent
run headers --to b3-multi
input-lines X-B3-TraceId: 0af7651916cd43dd8448eb211c80319c\nX-B3-SpanId: b7ad6b7169203331\n
 X-B3-ParentSpanId: 00f067aa0ba902b7\nX-B3-Flags: 1\n
output-lines X-B3-TraceId: 0af7651916cd43dd8448eb211c80319c\nX-B3-SpanId: b7ad6b7169203331\n
 X-B3-ParentSpanId: 00f067aa0ba902b7\nX-B3-Flags: 1\n

flags 0
run headers --to b3
input-lines X-B3-TraceId: 0af7651916cd43dd8448eb211c80319c\nX-B3-SpanId: b7ad6b7169203331\nX-B3-Flags: 0\n
output-lines b3: 0af7651916cd43dd8448eb211c80319c-b7ad6b7169203331\n

flags 0 beside sampled 1
run headers --to b3
input-lines X-B3-TraceId: 0af7651916cd43dd8448eb211c80319c\nX-B3-SpanId: b7ad6b7169203331\nX-B3-Flags: 0\nX-B3-Sampled: 1\n
output-lines b3: 0af7651916cd43dd8448eb211c80319c-b7ad6b7169203331-1\n

flags of another value beside sampled 0
run headers --to b3
input-lines X-B3-TraceId: 0af7651916cd43dd8448eb211c80319c\nX-B3-SpanId: b7ad6b7169203331\nX-B3-Flags: true\n
 X-B3-Sampled: 0\n
output-lines b3: 0af7651916cd43dd8448eb211c80319c-b7ad6b7169203331-0\n

flags without a value
run headers --to b3-multi
input-lines X-B3-TraceId: 0af7651916cd43dd8448eb211c80319c\nX-B3-SpanId: b7ad6b7169203331\nX-B3-Flags:\n
output-lines X-B3-TraceId: 0af7651916cd43dd8448eb211c80319c\nX-B3-SpanId: b7ad6b7169203331\n

sampled 0 alone
run headers --to b3
input-lines X-B3-Sampled: 0\n
output-lines b3: 0\n

sampled true alone
run headers --to b3-multi
input-lines X-B3-Sampled: true\n
output-lines X-B3-Sampled: 1\n

flags 1 alone
run headers --to b3
input-lines X-B3-Flags: 1\n
output-lines b3: d\n

flags 1 alone beside sampled 0
run headers --to b3-multi
input-lines X-B3-Sampled: 0\nX-B3-Flags: 1\n
output-lines X-B3-Flags: 1\n

a trace of 16 digits
run headers --to b3-multi
input-lines X-B3-TraceId: 8448eb211c80319c\nX-B3-SpanId: b7ad6b7169203331\n
output-lines X-B3-TraceId: 00000000000000008448eb211c80319c\nX-B3-SpanId: b7ad6b7169203331\n

digits of upper case
run headers --to b3
input-lines X-B3-TraceId: 0AF7651916CD43DD8448EB211C80319C\nX-B3-SpanId: B7AD6B7169203331\n
 X-B3-ParentSpanId: 00F067AA0BA902B7\nX-B3-Sampled: 1\n
output-lines b3: 0af7651916cd43dd8448eb211c80319c-b7ad6b7169203331-1-00f067aa0ba902b7\n

lines in another order
run headers --to b3-multi
input-lines X-B3-Sampled: 1\nX-B3-ParentSpanId: 00f067aa0ba902b7\nX-B3-SpanId: b7ad6b7169203331\n
 X-B3-TraceId: 0af7651916cd43dd8448eb211c80319c\n
output-lines X-B3-TraceId: 0af7651916cd43dd8448eb211c80319c\nX-B3-SpanId: b7ad6b7169203331\n
 X-B3-ParentSpanId: 00f067aa0ba902b7\nX-B3-Sampled: 1\n

names in small letters
run headers --to b3
input-lines x-b3-traceid: 0af7651916cd43dd8448eb211c80319c\nx-b3-spanid: b7ad6b7169203331\n
 x-b3-parentspanid: 00f067aa0ba902b7\nx-b3-sampled: 1\n
output-lines b3: 0af7651916cd43dd8448eb211c80319c-b7ad6b7169203331-1-00f067aa0ba902b7\n
"#;
