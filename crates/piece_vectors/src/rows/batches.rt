//! Batches of Jaeger, in both protocols of Thrift.

/// Batches, and what stands of their texts as each ends. Zipkin can't hold the double of a tag.
pub const BATCHES: &str = r"
a batch of a client to spans of Zipkin
forms jaeger-compact zipkin-json
frame 325 @CLIENT_COMPACT
output @SPANS_OF_CLIENT
whole 1 1
status 0

two batches to the compact protocol
forms jaeger-binary jaeger-compact
frame 26 @SPAN_BATCH
frame 69 @DOUBLE_BATCH
output @SPAN_COMPACT @DOUBLE_COMPACT
whole 2 2
status 0

two batches to the binary protocol
forms jaeger-compact jaeger-binary
frame 103 @SPAN_COMPACT
frame 241 @DOUBLE_COMPACT
output @SPAN_BATCH @DOUBLE_BATCH
whole 2 2
status 0
cuts 2

two batches to spans of Zipkin, the second with a double
forms jaeger-binary zipkin-json
frame 118 @SPAN_BATCH
frame 118 @DOUBLE_BATCH
output [
output @SERVICE_ZIPKIN_SPAN
stop 241 fault 2 25
status 4
note unit 2: fault 25 DoubleInText\n

two batches of the compact protocol again
forms jaeger-compact jaeger-compact
frame 26 @SPAN_COMPACT
frame 69 @DOUBLE_COMPACT
output @SPAN_COMPACT @DOUBLE_COMPACT
whole 2 2

two batches of the compact protocol to spans of Zipkin, the second with a double
forms jaeger-compact zipkin-json
frame 118 @SPAN_COMPACT
frame 118 @DOUBLE_COMPACT
output [
output @SERVICE_ZIPKIN_SPAN
stop 69 fault 2 25
cuts 2

a batch of a client again
forms jaeger-compact jaeger-compact
frame 118 @CLIENT_COMPACT
output @CLIENT_COMPACT
whole 1 1

two batches of the binary protocol again
forms jaeger-binary jaeger-binary
frame 103 @SPAN_BATCH
frame 241 @DOUBLE_BATCH
output @SPAN_BATCH @DOUBLE_BATCH
whole 2 2

two batches to two spans of Zipkin
forms jaeger-binary zipkin-json
frame 118 @SPAN_BATCH
frame 236 @SPAN_BATCH
output [
output @SERVICE_ZIPKIN_SPAN , @SERVICE_ZIPKIN_SPAN ]
whole 2 2

references to the own trace
forms jaeger-compact jaeger-compact
frame 37 @ROOT_COMPACT
output @PARENT_COMPACT
whole 1 1

no batch
forms jaeger-binary jaeger-compact
whole 0 0
";

/// The same of the batch of an SDK.
pub const SDK: &str = r"
the batch of an SDK again
forms jaeger-binary jaeger-binary
frame 378 @SDK_BATCH
output @SDK_BATCH
whole 1 1

the batch of an SDK to a request
forms jaeger-binary otlp-proto
frame 195 @SDK_BATCH
output @MICROS_REQUEST
whole 1 1

the batch of an SDK to spans of Zipkin
forms jaeger-binary zipkin-json
frame 345 @SDK_BATCH
output @SDK_SPANS
whole 1 1

the batch of an SDK in the compact protocol again
forms jaeger-compact jaeger-compact
frame 231 @SDK_COMPACT
output @SDK_COMPACT
whole 1 1

the batch of an SDK in the compact protocol to a request
forms jaeger-compact otlp-proto
frame 195 @SDK_COMPACT
output @MICROS_REQUEST
whole 1 1

the batch of an SDK in the compact protocol to spans of Zipkin
forms jaeger-compact zipkin-json
frame 345 @SDK_COMPACT
output @SDK_SPANS
whole 1 1
";
