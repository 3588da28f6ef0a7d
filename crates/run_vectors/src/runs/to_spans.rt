//! What is converted to spans of Zipkin.

/// What is converted to spans of Zipkin.
pub const WRITTEN: &str = r#"
a batch of a client
run convert --from jaeger-compact --to zipkin-json
input-hex @CLIENT_COMPACT
output @SPANS_OF_CLIENT

no group
run convert --from otlp-proto --to zipkin-json
output []

two groups without spans
run convert --from otlp-proto --to zipkin-json
input-hex 0a000a00
output []

a request as an SDK writes it
run convert --from otlp-proto --to zipkin-json
input-hex @SDK_REQUEST
output @SDK_SPANS

the same span as a batch
run convert --from jaeger-binary --to zipkin-json
input-hex @SDK_BATCH
output @SDK_SPANS

times below the microsecond
run convert --from otlp-proto --to zipkin-json
input-hex 0a35123312310a1000000000000000000000000000000001120800000000000000022a016139cf0700000000000041d007000000000000
output @MICRO_SPANS

no duration
run convert --from otlp-proto --to zipkin-json
input-hex 0a35123312310a1000000000000000000000000000000001120800000000000000022a0161398813000000000000418813000000000000
output @NO_DURATION

a truth value
run convert --from otlp-proto --to zipkin-json
input-hex 0a2d122b12290a1000000000000000000000000000000001120800000000000000022a01614a080a026f6b12021001
output @TRUTH_SPANS

an event with an attribute
run convert --from otlp-proto --to zipkin-json
input-hex @EVENT_REQUEST
output @EVENT_SPANS

a link
run convert --from otlp-proto --to zipkin-json
input-hex 0a65126312610a1000000000000000000000000000000001120800000000000000022a01616a400a1000000000000000000000000000000001
 1208000000000000000122220a146f70656e74726163696e672e7265665f74797065120a0a086368696c645f6f66
output @ONE_ZIPKIN_SPAN

flags of a batch
run convert --from jaeger-compact --to zipkin-json
input-hex @FLAGS_COMPACT
output @FLAGS_SPANS

a repeated tag, and `error` as a text
run convert --from jaeger-compact --to zipkin-json
input-hex @EQUAL_TAGS
output [{"id":"0000000000000002","localEndpoint":{"serviceName":"s"},"name":"a","tags":{"error":"","k":"2",
 "otel.status_code":"ERROR"},"traceId":"00000000000000000000000000000001"}]

an attribute and an event of plain text
run convert --from otlp-proto --to zipkin-json
input-hex 0a55125312510a100000000000000000000000000000000112080000000000000002300139e80300000000000041e8030000000000004a0e0a
 05636f6c6f7212050a037265645a0f09e803000000000000120473656e74
output [{"annotations":[{"timestamp":1,"value":"sent"}],"id":"0000000000000002","tags":{"color":"red"},"timestamp":1,
 "traceId":"00000000000000000000000000000001"}]
"#;
