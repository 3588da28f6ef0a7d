//! Requests of OTLP.

/// Requests, and what stands of their texts as each frame ends.
pub const REQUESTS: &str = r#"
a request as an SDK writes it
forms otlp-proto otlp-proto
frame 195 @SDK_REQUEST
output @SDK_REQUEST
whole 1 1

the same to groups in JSON
forms otlp-proto otlp-json
frame 551 @SDK_REQUEST
output @SDK_GROUPS
whole 1 1

the same to a batch
forms otlp-proto jaeger-binary
frame 378 @SDK_REQUEST
output @SDK_BATCH
whole 1 1

the same to a batch in the compact protocol
forms otlp-proto jaeger-compact
frame 231 @SDK_REQUEST
output @SDK_COMPACT
whole 1 1

the same to spans of Zipkin
forms otlp-proto zipkin-json
frame 345 @SDK_REQUEST
output @SDK_SPANS
whole 1 1

each field
forms otlp-proto otlp-proto
frame 253 @FULL_REQUEST
output @FULL_REQUEST
whole 1 1

each field to groups in JSON
forms otlp-proto otlp-json
frame 1036 @FULL_REQUEST
output @FULL_GROUP
whole 1 1

fields that no span has
forms otlp-proto otlp-proto
frame 37 @UNKNOWN_FIELDS
output @ONE_SPAN
whole 1 1

fields that no span has, to spans of Zipkin
forms otlp-proto zipkin-json
frame 82 @UNKNOWN_FIELDS
output @ONE_ZIPKIN_SPAN
whole 1 1

two groups
forms otlp-proto otlp-proto
frame 37 @ONE_SPAN
frame 74 @ONE_SPAN
output @ONE_SPAN @ONE_SPAN
whole 2 2
status 0

records between groups that are none
forms otlp-proto otlp-proto
frame 37 @ONE_SPAN
frame 37 1200
frame 37 0801
frame 74 @ONE_SPAN
output @ONE_SPAN @ONE_SPAN
whole 2 2

empty groups
forms otlp-proto otlp-proto
frame 2 0a00
frame 39 @ONE_SPAN
frame 41 0a00
output 0a00
output @ONE_SPAN 0a00
whole 3 1

empty groups to spans of Zipkin
forms otlp-proto zipkin-json
frame 1 0a00
frame 82 @ONE_SPAN
frame 82 0a00
output @ONE_ZIPKIN_SPAN
whole 3 1

empty groups to groups in JSON
forms otlp-proto otlp-json
frame 20 0a00
frame 23 0a00
output {"resourceSpans":[{},{}]}
whole 2 0

a record alone that is no group
forms otlp-proto zipkin-json
frame 0 1200
output []
whole 0 0

nothing
forms otlp-proto zipkin-json
output []
whole 0 0

nothing to groups in JSON
forms otlp-proto otlp-json
output {"resourceSpans":[]}
whole 0 0
"#;
