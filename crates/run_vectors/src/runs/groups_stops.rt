//! What stops a conversion to OTLP/JSON, or of it: faults and causes.

/// What a target can't hold.
pub const FAULTS: &str = r#"
ends before it starts, to batches
run convert --from otlp-json --to jaeger-binary
input @ENDS_BEFORE_START
stops 4 unit 1: fault 20 EndBeforeStart

ends before it starts, to Zipkin
run convert --from otlp-json --to zipkin-json
input @ENDS_BEFORE_START
stops 4 unit 1: fault 20 EndBeforeStart

own key, to batches
run convert --from otlp-json --to jaeger-compact
input @MEMBERS
input "attributes":[{"key":"jaeger.flags","value":{"boolValue":true}}]}]}]}]}
stops 4 unit 1: fault 22 OwnKey "jaeger.flags"

a name that reads as event text
run convert --from otlp-json --to zipkin-json
input {"resourceSpans":[{"scopeSpans":[{"spans":[{"traceId":"00000000000000000000000000000001","spanId":"0000000000000002",
 "name":"a","events":[{"timeUnixNano":"1000","name":"\"a\":{\"b\":\"c\"}"}]}]}]}]}
stops 4 unit 1: fault 23 EventText

a name that reads as event text with a value 17 deep
run convert --from otlp-json --to zipkin-json
input {"resourceSpans":[{"scopeSpans":[{"spans":[{"events":[{"name":"\"e\":{\"k\":[[[[[[[[[[[[[[[[[]]]]]]]]]]]]]]]]]}",
 "timeUnixNano":"1000"}],"name":"a","spanId":"0000000000000002","traceId":"00000000000000000000000000000001"}]}]}]}
stops 4 unit 1: fault 23 EventText

a name that reads as event text with a value 24 deep
run convert --from otlp-json --to zipkin-json
input {"resourceSpans":[{"scopeSpans":[{"spans":[{"events":[{
 "name":"\"e\":{\"k\":[[[[[[[[[[[[[[[[[[[[[[[[]]]]]]]]]]]]]]]]]]]]]]]]}","timeUnixNano":"1000"}],"name":"a",
 "spanId":"0000000000000002","traceId":"00000000000000000000000000000001"}]}]}]}
stops 4 unit 1: fault 23 EventText

own key
run convert --from otlp-json --to zipkin-json
input {"resourceSpans":[{"scopeSpans":[{"spans":[{"traceId":"00000000000000000000000000000001","spanId":"0000000000000002",
 "name":"a","attributes":[{"key":"zipkin.debug","value":{"boolValue":true}}]}]}]}]}
stops 4 unit 1: fault 22 OwnKey "zipkin.debug"

a link that would be the parent
run convert --from otlp-json --to jaeger-binary
input @LINK_OF_TRACE
stops 4 unit 1: fault 24 ChildOfLink

a cause behind a fault
run convert --from otlp-json --to zipkin-json
input {"resourceSpans":[{"scopeSpans":[{"spans":[{"traceId":"00000000000000000000000000000001","spanId":"0000000000000002",
 "name":"a","startTimeUnixNano":"2001","endTimeUnixNano":"2000"}]}]},{"schemaUrl":1}]}
stops 3 unit 2: cause 11 BadShape

in a resource
run convert --from otlp-proto --to otlp-json
input-hex 0a120a100a0e0a0164120921000000000000f83f
stops 4 unit 1: fault 25 DoubleInText

in a scope
run convert --from otlp-proto --to otlp-json
input-hex 0a1412120a101a0e0a0164120921000000000000f83f
stops 4 unit 1: fault 25 DoubleInText

in a span
run convert --from otlp-proto --to otlp-json
input-hex @DOUBLE_REQUEST
stops 4 unit 1: fault 25 DoubleInText

in an event
run convert --from otlp-proto --to otlp-json
input-hex 0a37123512330a1000000000000000000000000000000001120800000000000000022a01615a005a101a0e0a0164120921000000000000f83f
stops 4 unit 1: fault 25 DoubleInText

in a link
run convert --from otlp-proto --to otlp-json
input-hex 0a51124f124d0a1000000000000000000000000000000001120800000000000000022a01616a2c0a1000000000000000000000000000000001
 12080000000000000001220e0a0164120921000000000000f83f
stops 4 unit 1: fault 25 DoubleInText

in a list
run convert --from otlp-proto --to otlp-json
input-hex 0a3b123912370a1000000000000000000000000000000001120800000000000000022a01614a160a016112112a0f0a0218010a092100000000
 0000f83f
stops 4 unit 1: fault 25 DoubleInText

in a map
run convert --from otlp-proto --to otlp-json
input-hex 0a49124712450a1000000000000000000000000000000001120800000000000000022a01614a240a0161121f321d0a1b0a016212162a140a12
 32100a0e0a0164120921000000000000f83f
stops 4 unit 1: fault 25 DoubleInText

in a batch
run convert --from jaeger-compact --to otlp-json
input-hex @DOUBLE_COMPACT
stops 4 unit 1: fault 25 DoubleInText

behind a group without spans
run convert --from otlp-proto --to otlp-json
input-hex 0a000a331231122f0a1000000000000000000000000000000001120800000000000000022a01614a0e0a0164120921000000000000f83f
output {"resourceSpans":[{}
stops 4 unit 2: fault 25 DoubleInText

a fault of the second group
run convert --from otlp-json --to jaeger-binary
input {"resourceSpans":[{"scopeSpans":[{"spans":[{"traceId":"00000000000000000000000000000001","spanId":"0000000000000002",
 "name":"a"}]}]},{"scopeSpans":[{"spans":[{"traceId":"00000000000000000000000000000001","spanId":"0000000000000002",
 "name":"a","startTimeUnixNano":"2001","endTimeUnixNano":"2000"}]}]}]}
output-hex @PLAIN_BATCH
stops 4 unit 2: fault 20 EndBeforeStart
"#;

/// What stops the reading of groups.
pub const CAUSES: &str = r#"
no JSON
run convert --from otlp-json --to otlp-json
stops 3 unit 0: cause 10 BadJson

an array
run convert --from otlp-json --to otlp-json
input []
stops 3 unit 0: cause 11 BadShape

groups that are no array
run convert --from otlp-json --to otlp-json
input {"resourceSpans":{}}
stops 3 unit 0: cause 11 BadShape

a group that is null
run convert --from otlp-json --to otlp-json
input {"resourceSpans":[null]}
stops 3 unit 1: cause 11 BadShape

half of a surrogate pair
run convert --from otlp-json --to otlp-json
input {"x":"\ud83d"}
stops 3 unit 0: cause 10 BadJson

cut
run convert --from otlp-json --to otlp-json
input {"resourceSpans":[{"resource":{"attributes":[{"key":"host.name","value":{"stringValue":"n1"}},{"key":"service.name",
 "value":{"stringValue":"shop"}}]},"scopeSpans":[{"scope":{"name":"lib","version":"1.0"},
 "spans":[{"attributes":[{"key":"http.request.method","value":{"stringValue":"GET"}},{"key":"http.response.status_code",
 "value":{"intValue":"200"}}],"endTimeUnixNano":"1700000000223456789","flags":257,"kind":3,"name":"GET /cart",
 "spanId":"b7ad6b7169203331","startTimeUnixNano":"1700000000123456789","traceId":"0af7651916cd43dd8448eb211c80319c"}]}]}]
stops 3 unit 0: cause 10 BadJson

nested 128 deep
run convert --from otlp-json --to otlp-json
input {"x":[[[[[[[[[[[[[[[[[[[[[[[[[[[[[[[[[[[[[[[[[[[[[[[[[[[[[[[[[[[[[[[[[[[[[[[[[[[[[[[[[[[[[[[[[[[[[[[[[[[[[[[[[[[[[[[[[
 [[[[[[[[[[[[[[]]]]]]]]]]]]]]]]]]]]]]]]]]]]]]]]]]]]]]]]]]]]]]]]]]]]]]]]]]]]]]]]]]]]]]]]]]]]]]]]]]]]]]]]]]]]]]]]]]]]]]]]]]]]]
 ]]]]]]]]]]]]]]]]]]}
stops 3 unit 0: cause 10 BadJson

scopes that are no array
run convert --from otlp-json --to otlp-json
input {"resourceSpans":[{},{"scopeSpans":{}}]}
stops 3 unit 2: cause 11 BadShape

a resource that is a text
run convert --from otlp-json --to otlp-json
input {"resourceSpans":[{"resource":"x"}]}
stops 3 unit 1: cause 11 BadShape

spans of a text each
run convert --from otlp-json --to otlp-json
input {"resourceSpans":[{"scopeSpans":[{"spans":["x"]}]}]}
stops 3 unit 1: cause 11 BadShape

a cause of a group before the last
run convert --from otlp-json --to otlp-json
input {"resourceSpans":[{},{"schemaUrl":1},{"resource":1}]}
stops 3 unit 2: cause 11 BadShape

identifiers as stock JSON printers write them
run convert --from otlp-json --to otlp-json
input {"resourceSpans":[{"scopeSpans":[{"spans":[{"traceId":"CvdlGRbNQ92ESOshHIAxnA==","spanId":"t61rcWkgMzE=",
 "kind":"SPAN_KIND_CLIENT"}]}]}]}
stops 3 unit 1: cause 12 BadId

a cause of the second group
run convert --from otlp-json --to otlp-proto
input {"resourceSpans":[{"scopeSpans":[{"spans":[{"traceId":"00000000000000000000000000000001","spanId":"0000000000000002",
 "name":"a"}]}]},{"scopeSpans":[{"spans":[{"traceId":"00000000000000000000000000000001","spanId":"0000000000000002",
 "name":"a","kind":6}]}]}]}
stops 3 unit 2: cause 13 BadEnum

25 lists, one in the other, in a resource
run convert --from otlp-json --to otlp-json
input {"resourceSpans":[{"resource":{"attributes":[{"key":"k","value":{"arrayValue":{"values":[
input @LISTS_24
input ]}}}]}}]}
stops 3 unit 1: cause 5 TooDeep

25 lists, one in the other, in a scope
run convert --from otlp-json --to otlp-json
input {"resourceSpans":[{"scopeSpans":[{"scope":{"attributes":[{"key":"k","value":{"arrayValue":{"values":[
input @LISTS_24
input ]}}}]}}]}]}
stops 3 unit 1: cause 5 TooDeep

25 lists, one in the other, in a span
run convert --from otlp-json --to otlp-json
input {"resourceSpans":[{"scopeSpans":[{"spans":[{"attributes":[{"key":"k","value":{"arrayValue":{"values":[
input @LISTS_24
input ]}}}],"name":"a","spanId":"0000000000000002","traceId":"00000000000000000000000000000001"}]}]}]}
stops 3 unit 1: cause 5 TooDeep

25 lists, one in the other, in an event
run convert --from otlp-json --to otlp-json
input {"resourceSpans":[{"scopeSpans":[{"spans":[{"events":[{"attributes":[{"key":"k","value":{"arrayValue":{"values":[
input @LISTS_24
input ]}}}]}],"name":"a","spanId":"0000000000000002","traceId":"00000000000000000000000000000001"}]}]}]}
stops 3 unit 1: cause 5 TooDeep

25 lists, one in the other, in a link
run convert --from otlp-json --to otlp-json
input {"resourceSpans":[{"scopeSpans":[{"spans":[{"links":[{"attributes":[{"key":"k","value":{"arrayValue":{"values":[
input @LISTS_24
input ]}}}],"spanId":"0000000000000001","traceId":"00000000000000000000000000000001"}],"name":"a",
 "spanId":"0000000000000002","traceId":"00000000000000000000000000000001"}]}]}]}
stops 3 unit 1: cause 5 TooDeep

lists and maps in turn, 25 deep
run convert --from otlp-json --to otlp-json
input {"resourceSpans":[{"scopeSpans":[{"spans":[{"attributes":[{"key":"k","value":{"arrayValue":{"values":[{"kvlistValue":{
 "values":[{"key":"k","value":
input @TURNS_23
input }]}}]}}}],"name":"a","spanId":"0000000000000002","traceId":"00000000000000000000000000000001"}]}]}]}
stops 3 unit 1: cause 5 TooDeep

maps and lists in turn, 25 deep
run convert --from otlp-json --to otlp-json
input {"resourceSpans":[{"scopeSpans":[{"spans":[{"attributes":[{"key":"k","value":{"kvlistValue":{"values":[{"key":"k",
 "value":
input @TURNS_24
input }]}}}],"name":"a","spanId":"0000000000000002","traceId":"00000000000000000000000000000001"}]}]}]}
stops 3 unit 1: cause 5 TooDeep
"#;
