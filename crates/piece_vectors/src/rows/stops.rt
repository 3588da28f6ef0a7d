//! Inputs that stop: the text of the units before stands, and the stop is answered as soon as the bytes are there that decide it.

/// Requests that stop behind whole units.
pub const REQUESTS: &str = r#"
two groups without the last byte
forms otlp-proto otlp-proto
frame 37 @ONE_SPAN
frame 37 @CUT_SPAN
output @ONE_SPAN
stop end refused 2 Truncated
status 3
note unit 2: cause 1 Truncated\n

a group with two resources
forms otlp-proto otlp-proto
frame 37 @ONE_SPAN
frame 39 0a00
frame 39 0a040a000a00
output @ONE_SPAN 0a00
stop 45 refused 3 FieldTwice
status 3
note unit 3: cause 7 FieldTwice\n

a wire type of no kind
forms otlp-proto otlp-proto
frame 37 @ONE_SPAN
frame 39 0a00
frame 39 0b00
output @ONE_SPAN 0a00
stop 40 refused 3 BadWire

a key above 64 bits
forms otlp-proto otlp-proto
frame 37 @ONE_SPAN
frame 39 0a00
frame 39 ffffffffffffffffff02
output @ONE_SPAN 0a00
stop 49 refused 3 BadVarint

a length above 64 bits
forms otlp-proto otlp-proto
frame 37 @ONE_SPAN
frame 39 0a00
frame 39 0affffffffffffffffff02
output @ONE_SPAN 0a00
stop 50 refused 3 BadVarint

a group in which a resource is cut
forms otlp-proto otlp-proto
frame 37 @ONE_SPAN
frame 39 0a00
frame 39 0a030a7f00
output @ONE_SPAN 0a00
stop 44 refused 3 Truncated

a group that is cut where it isn't UTF-8
forms otlp-proto otlp-proto
frame 37 @ONE_SPAN
frame 39 0a00
frame 39 0a041a01ff
output @ONE_SPAN 0a00
stop end refused 3 Truncated

a group without its last byte
forms otlp-proto otlp-proto
frame 37 @ONE_SPAN
frame 39 0a00
frame 39 @CUT_SPAN
output @ONE_SPAN 0a00
stop end refused 3 Truncated

a part of a key
forms otlp-proto zipkin-json
frame 1 0a00
frame 1 0a00
frame 1 8a80
output [
stop end refused 3 Truncated

a double to spans of Zipkin, and a wire type of no kind behind it
forms otlp-proto zipkin-json
frame 1 0a00
frame 1 0a00
frame 1 0a120a100a0e0a0164120921000000000000f03f
frame 1 0b
output [
stop 24 fault 3 25

a double to groups in JSON
forms otlp-proto otlp-json
frame 20 0a00
frame 23 0a00
frame 23 0a120a100a0e0a0164120921000000000000f03f
output {"resourceSpans":[{},{}
stop 24 fault 3 25
"#;

/// Batches that do.
pub const BATCHES: &str = r"
a batch of no fields
forms jaeger-binary jaeger-binary
frame 103 @SPAN_BATCH
frame 206 @SPAN_BATCH
frame 206 0000
output @SPAN_BATCH @SPAN_BATCH
stop 207 refused 3 Missing

a length below zero
forms jaeger-binary zipkin-json
frame 118 @SPAN_BATCH
frame 236 @SPAN_BATCH
frame 236 0b0001ffffffff
output [
output @SERVICE_ZIPKIN_SPAN , @SERVICE_ZIPKIN_SPAN
stop 210 refused 3 BadSize

a type of no kind
forms jaeger-binary jaeger-binary
frame 103 @SPAN_BATCH
frame 206 @SPAN_BATCH
frame 206 10
output @SPAN_BATCH @SPAN_BATCH
stop 207 refused 3 BadWire

a part of the head of a field
forms jaeger-binary jaeger-binary
frame 103 @SPAN_BATCH
frame 206 @SPAN_BATCH
frame 206 0c00010b
output @SPAN_BATCH @SPAN_BATCH
stop end refused 3 Truncated

a double
forms jaeger-binary zipkin-json
frame 118 @SPAN_BATCH
frame 236 @SPAN_BATCH
frame 236 @DOUBLE_BATCH
output [
output @SERVICE_ZIPKIN_SPAN , @SERVICE_ZIPKIN_SPAN
stop 344 fault 3 25

a batch of no fields in the compact protocol
forms jaeger-compact jaeger-compact
frame 26 @SPAN_COMPACT
frame 69 @DOUBLE_COMPACT
frame 69 0000
output @SPAN_COMPACT @DOUBLE_COMPACT
stop 70 refused 3 Missing

a type of no kind in the compact protocol
forms jaeger-compact jaeger-compact
frame 26 @SPAN_COMPACT
frame 69 @DOUBLE_COMPACT
frame 69 1d
output @SPAN_COMPACT @DOUBLE_COMPACT
stop 70 refused 3 BadWire

lists that are too deep
forms jaeger-compact jaeger-compact
frame 26 @SPAN_COMPACT
frame 69 @DOUBLE_COMPACT
frame 69 191919191919191919191919191919191919191919191919191919191919191919
output @SPAN_COMPACT @DOUBLE_COMPACT
stop 101 refused 3 TooDeep

a length above the greatest
forms jaeger-compact jaeger-compact
frame 26 @SPAN_COMPACT
frame 69 @DOUBLE_COMPACT
frame 69 18ffffffff0f
output @SPAN_COMPACT @DOUBLE_COMPACT
stop 75 refused 3 BadSize

a list of numbers in place of spans
forms jaeger-compact jaeger-compact
frame 26 @SPAN_COMPACT
frame 69 @DOUBLE_COMPACT
frame 69 1c1801730019150000
output @SPAN_COMPACT @DOUBLE_COMPACT
stop 78 refused 3 BadElement

a batch that is cut in a text
forms jaeger-compact jaeger-compact
frame 26 @SPAN_COMPACT
frame 69 @DOUBLE_COMPACT
frame 69 1c1801
output @SPAN_COMPACT @DOUBLE_COMPACT
stop end refused 3 Truncated

a double of the compact protocol
forms jaeger-compact zipkin-json
frame 118 @SPAN_COMPACT
frame 236 @SPAN_COMPACT
frame 236 @DOUBLE_COMPACT
output [
output @SERVICE_ZIPKIN_SPAN , @SERVICE_ZIPKIN_SPAN
stop 95 fault 3 25
";
