//! Texts in JSON, of which nothing is written before they end.

/// Texts of groups and of spans. Of a text that stops in its second group the text of the first stands.
pub const DOCUMENTS: &str = r#"
groups to a request
forms otlp-json otlp-proto
frame 0 @SDK_GROUPS
output @SDK_REQUEST
whole 1 1

groups to spans of Zipkin
forms otlp-json zipkin-json
frame 0 @ONE_GROUP
output @ONE_ZIPKIN_SPAN
whole 1 1
status 0

groups, and spaces behind them
forms otlp-json otlp-proto
frame 0 @ONE_GROUP
frame 0 \x20\n
output @ONE_SPAN
whole 1 1

spans of a client
forms zipkin-json zipkin-json
frame 0 @CLIENT_SPANS
output @CLIENT_SPANS_WRITTEN
whole 1 1

two spans that share an identifier
forms zipkin-json zipkin-json
frame 0 @SHARED_SPANS
output @SHARED_SPANS
whole 1 2

an empty list of spans
forms zipkin-json zipkin-json
frame 0 []
output []
whole 0 0

an empty object
forms otlp-json zipkin-json
frame 0 {}
output []
whole 0 0

no text
forms zipkin-json zipkin-json
stop end refused 0 BadJson

groups without their last bracket
forms otlp-json otlp-proto
frame 0 {"resourceSpans":[{}]
stop end refused 0 BadJson

a bracket behind groups
forms otlp-json otlp-proto
frame 0 {"resourceSpans":[{}]}{
stop end refused 0 BadJson

an object in place of spans
forms zipkin-json otlp-json
frame 0 {}
stop end refused 0 BadShape

a number in the second group
forms otlp-json otlp-proto
frame 0 {"resourceSpans":[{},{"schemaUrl":1}]}
stop end refused 2 BadShape

a span in the second group that ends before it starts
forms otlp-json zipkin-json
frame 0 {"resourceSpans":[{},{"scopeSpans":[{"spans":[{"spanId":"0000000000000002","startTimeUnixNano":"1",
 "traceId":"00000000000000000000000000000001"}]}]}]}
output [
stop end fault 2 20
status 4
note unit 2: fault 20 EndBeforeStart\n

the same to a batch in the compact protocol
forms otlp-json jaeger-compact
frame 0 {"resourceSpans":[{},{"scopeSpans":[{"spans":[{"spanId":"0000000000000002","startTimeUnixNano":"1",
 "traceId":"00000000000000000000000000000001"}]}]}]}
output 1c180000190c00
stop end fault 2 20
"#;
