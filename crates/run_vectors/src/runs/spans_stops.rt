//! What stops a conversion to Zipkin's spans, or of them: faults and causes.

/// What Zipkin, or a target of it, can't hold.
pub const FAULTS: &str = r#"
a fault of the second group
run convert --from zipkin-json --to jaeger-binary
input [{"id":"0000000000000002","localEndpoint":{"serviceName":"s"},"name":"a","traceId":"00000000000000000000000000000001"},
 {"id":"0000000000000002","localEndpoint":{"serviceName":"s"},"name":"a","traceId":"00000000000000000000000000000001"},
 {"traceId":"1","id":"2","localEndpoint":{"serviceName":"t"},"tags":{"jaeger.flags":"x"}}]
output-hex @BATCH_OF_TWO
stops 4 unit 2: fault 22 OwnKey "jaeger.flags"

ends before it starts
run convert --from otlp-proto --to zipkin-json
input-hex @ENDS_BEFORE_START_REQUEST
stops 4 unit 1: fault 20 EndBeforeStart

own key
run convert --from otlp-proto --to zipkin-json
input-hex 0a37123512330a1000000000000000000000000000000001120800000000000000022a01614a120a0c7a69706b696e2e646562756712021001
stops 4 unit 1: fault 22 OwnKey "zipkin.debug"

a name that reads as event text
run convert --from otlp-proto --to zipkin-json
input-hex 0a3d123b12390a1000000000000000000000000000000001120800000000000000022a01615a1809e803000000000000120d2261223a7b2262
 223a2263227d
stops 4 unit 1: fault 23 EventText

a double of a resource
run convert --from otlp-proto --to zipkin-json
input-hex 0a120a100a0e0a0164120921000000000000f03f
stops 4 unit 1: fault 25 DoubleInText

a double of an event
run convert --from otlp-proto --to zipkin-json
input-hex 0a35123312310a1000000000000000000000000000000001120800000000000000022a01615a101a0e0a0164120921000000000000f03f
stops 4 unit 1: fault 25 DoubleInText

behind two groups without spans
run convert --from otlp-proto --to zipkin-json
input-hex 0a000a0212000a35123312310a1000000000000000000000000000000001120800000000000000022a016139d10700000000000041d0070000
 00000000
output [
stops 4 unit 3: fault 20 EndBeforeStart

an end before the start, an own key and event text
run convert --from otlp-proto --to zipkin-json
input-hex 0a68126612640a100000000000000000000000000000000112080000000000000002300139e80300000000000041e7030000000000004a160a0c7a69
 706b696e2e646562756712060a046c6174655a1a09e803000000000000120f227265747279223a7b226e223a317d
stops 4 unit 1: fault 20 EndBeforeStart

a key for resources, which is no fault, beside event text
run convert --from otlp-proto --to zipkin-json
input-hex 0a6c126a12680a100000000000000000000000000000000112080000000000000002300139e80300000000000041e8030000000000004a1a0a126f74
 656c2e7265736f757263652e686f737412040a026e315a1a09e803000000000000120f227265747279223a7b226e223a317d
stops 4 unit 1: fault 23 EventText

an own key, spelled otherwise, beside event text
run convert --from otlp-proto --to zipkin-json
input-hex 0a6c126a12680a100000000000000000000000000000000112080000000000000002300139e80300000000000041e8030000000000004a1a0a
 117a69706b696e2e6c6f63616c2e706f727412050a033038305a1a09e803000000000000120f227265747279223a7b226e223a317d
stops 4 unit 1: fault 22 OwnKey "zipkin.local.port"

the least of two own keys
run convert --from otlp-proto --to zipkin-json
input-hex 0a521250124e0a10000000000000000000000000000000011208000000000000000230014a120a0c7a69706b696e2e6465627567120210014a1a0a11
 7a69706b696e2e6c6f63616c2e706f727412050a03303830
stops 4 unit 1: fault 22 OwnKey "zipkin.debug"

event text beside a double
run convert --from otlp-proto --to zipkin-json
input-hex 0a60125e125c0a100000000000000000000000000000000112080000000000000002300139e80300000000000041e8030000000000004a0e0a
 0161120921000000000000f03f5a1a09e803000000000000120f227265747279223a7b226e223a317d
stops 4 unit 1: fault 23 EventText

a double beside an event
run convert --from otlp-proto --to zipkin-json
input-hex 0a55125312510a100000000000000000000000000000000112080000000000000002300139e80300000000000041e8030000000000004a0e0a
 0161120921000000000000f03f5a0f09e803000000000000120473656e74
stops 4 unit 1: fault 25 DoubleInText
"#;

/// What stops the reading of spans.
pub const CAUSES: &str = r#"
no JSON
run convert --from zipkin-json --to zipkin-json
stops 3 unit 0: cause 10 BadJson

nested 128 deep
run convert --from zipkin-json --to zipkin-json
input [{"traceId":"1","id":"2","x":[[[[[[[[[[[[[[[[[[[[[[[[[[[[[[[[[[[[[[[[[[[[[[[[[[[[[[[[[[[[[[[[[[[[[[[[[[[[[[[[[[[[[[[[[
 [[[[[[[[[[[[[[[[[[[[[[[[[[[[[[[[[[[[[]]]]]]]]]]]]]]]]]]]]]]]]]]]]]]]]]]]]]]]]]]]]]]]]]]]]]]]]]]]]]]]]]]]]]]]]]]]]]]]]]]]]]]
 ]]]]]]]]]]]]]]]]]]]]]]]]]]]]]]]]]]]]]]]]}]
stops 3 unit 0: cause 10 BadJson

the first half of a surrogate pair alone
run convert --from zipkin-json --to zipkin-json
input [{"traceId":"1","id":"2","name":"\ud83d"}]
stops 3 unit 0: cause 10 BadJson

the second half of a surrogate pair alone
run convert --from zipkin-json --to zipkin-json
input [{"traceId":"1","id":"2","x":"\ude00"}]
stops 3 unit 0: cause 10 BadJson

half of a surrogate pair in a tag
run convert --from zipkin-json --to zipkin-json
input [{"traceId":"1","id":"2","tags":{"k":"\ud83d"}}]
stops 3 unit 0: cause 10 BadJson

behind a good span
run convert --from zipkin-json --to zipkin-json
input [{"traceId":"1","id":"2"},{"traceId":"1","id":"2","kind":"client"}]
stops 3 unit 2: cause 13 BadEnum

behind a good group
run convert --from zipkin-json --to jaeger-binary
input [{"id":"0000000000000002","localEndpoint":{"serviceName":"s"},"name":"a",
 "traceId":"00000000000000000000000000000001"},{"traceId":"1","localEndpoint":{"serviceName":"t"}}]
stops 3 unit 2: cause 8 Missing

a cause behind a fault
run convert --from zipkin-json --to jaeger-binary
input [{"traceId":"1","id":"2","tags":{"jaeger.flags":"x"}},{"traceId":"1","id":"2","duration":-1}]
stops 3 unit 2: cause 16 BadTime
"#;
