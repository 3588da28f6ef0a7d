//! Groups in OTLP/JSON: what they are converted to.

/// What OTLP/JSON is converted to.
pub const WRITTEN: &str = r#"
the same back
run convert --from otlp-json --to otlp-proto
input @SDK_GROUPS
output-hex @SDK_REQUEST

no group
run convert --from otlp-json --to otlp-proto
input {"resourceSpans":[]}

no member
run convert --from otlp-json --to zipkin-json
input {}
output []

no group, written again
run convert --from otlp-json --to otlp-json
input-lines  { "resourceSpans" : [ ] }\n
output {"resourceSpans":[]}

the span of an SDK, to a batch
run convert --from otlp-json --to jaeger-binary
input @SDK_GROUPS
output-hex @SDK_BATCH

the same, to a batch in the compact protocol
run convert --from otlp-json --to jaeger-compact
input @SDK_GROUPS
output-hex @SDK_COMPACT

the same, to Zipkin
run convert --from otlp-json --to zipkin-json
input @SDK_GROUPS
output @SDK_SPANS

a root with a link to a parent
run convert --from otlp-json --to jaeger-compact
input @LINKED
output-hex @PARENT_COMPACT

times below the microsecond
run convert --from otlp-json --to zipkin-json
input {"resourceSpans":[{"scopeSpans":[{"spans":[{"traceId":"00000000000000000000000000000001","spanId":"0000000000000002",
 "name":"a","startTimeUnixNano":"1999","endTimeUnixNano":"2000"}]}]}]}
output @MICRO_SPANS

no duration, to Zipkin
run convert --from otlp-json --to zipkin-json
input {"resourceSpans":[{"scopeSpans":[{"spans":[{"traceId":"00000000000000000000000000000001","spanId":"0000000000000002",
 "name":"a","startTimeUnixNano":"5000","endTimeUnixNano":"5000"}]}]}]}
output @NO_DURATION

a truth value
run convert --from otlp-json --to zipkin-json
input {"resourceSpans":[{"scopeSpans":[{"spans":[{"traceId":"00000000000000000000000000000001","spanId":"0000000000000002",
 "name":"a","attributes":[{"key":"ok","value":{"boolValue":true}}]}]}]}]}
output @TRUTH_SPANS

an event with an attribute
run convert --from otlp-json --to zipkin-json
input @EVENT_GROUP
output @EVENT_SPANS

a link of the own trace, to Zipkin
run convert --from otlp-json --to zipkin-json
input @LINK_OF_TRACE
output @ONE_ZIPKIN_SPAN

no group, written again
run convert --from otlp-json --to otlp-json
input {"resourceSpans":[]}
output {"resourceSpans":[]}

a span, of JSON
run convert --from otlp-json --to otlp-proto
input @ONE_GROUP
output-hex @ONE_SPAN

a span, written again
run convert --from otlp-json --to otlp-json
input @ONE_GROUP
output @ONE_GROUP

a span twice, written again
run convert --from otlp-json --to otlp-json
input @TWO_GROUPS
output @TWO_GROUPS

a root with a link to a parent, written again
run convert --from otlp-json --to otlp-json
input @LINKED
output @LINKED

24 lists, one in the other, in a resource
run convert --from otlp-json --to otlp-proto
input {"resourceSpans":[{"resource":{"attributes":[{"key":"k","value":
input @LISTS_24
input }]}}]}
output-hex 0a670a650a630a016b125e
output-hex @LISTS_24_MESSAGE

24 lists, one in the other, in a scope
run convert --from otlp-json --to otlp-proto
input {"resourceSpans":[{"scopeSpans":[{"scope":{"attributes":[{"key":"k","value":
input @LISTS_24
input }]}}]}]}
output-hex 0a6912670a651a630a016b125e
output-hex @LISTS_24_MESSAGE

24 lists, one in the other, in a span
run convert --from otlp-json --to otlp-proto
input {"resourceSpans":[{"scopeSpans":[{"spans":[{"attributes":[{"key":"k","value":
input @LISTS_24
input }],"name":"a","spanId":"0000000000000002","traceId":"00000000000000000000000000000001"}]}]}]}
output-hex 0a8a011287011284010a1000000000000000000000000000000001120800000000000000022a01614a630a016b125e
output-hex @LISTS_24_MESSAGE

24 lists, one in the other, in an event
run convert --from otlp-json --to otlp-proto
input {"resourceSpans":[{"scopeSpans":[{"spans":[{"events":[{"attributes":[{"key":"k","value":
input @LISTS_24
input }]}],"name":"a","spanId":"0000000000000002","traceId":"00000000000000000000000000000001"}]}]}]}
output-hex 0a8c011289011286010a1000000000000000000000000000000001120800000000000000022a01615a651a630a016b125e
output-hex @LISTS_24_MESSAGE

24 lists, one in the other, in a link
run convert --from otlp-json --to otlp-proto
input {"resourceSpans":[{"scopeSpans":[{"spans":[{"links":[{"attributes":[{"key":"k","value":
input @LISTS_24
input }],"spanId":"0000000000000001","traceId":"00000000000000000000000000000001"}],"name":"a","spanId":"0000000000000002",
 "traceId":"00000000000000000000000000000001"}]}]}]}
output-hex 0aa90112a60112a3010a1000000000000000000000000000000001120800000000000000022a01616a81010a100000000000000000000000
 00000000011208000000000000000122630a016b125e
output-hex @LISTS_24_MESSAGE

lists and maps in turn, 24 deep
run convert --from otlp-json --to otlp-proto
input {"resourceSpans":[{"scopeSpans":[{"spans":[{"attributes":[{"key":"k","value":
input @TURNS_24
input }],"name":"a","spanId":"0000000000000002","traceId":"00000000000000000000000000000001"}]}]}]}
output-hex 0acc0112c90112c6010a1000000000000000000000000000000001120800000000000000022a01614aa4010a016b129e01
output-hex @TURNS_24_MESSAGE

maps and lists in turn, 24 deep
run convert --from otlp-json --to otlp-proto
input {"resourceSpans":[{"scopeSpans":[{"spans":[{"attributes":[{"key":"k","value":{"kvlistValue":{"values":[{"key":"k",
 "value":
input @TURNS_23
input }]}}}],"name":"a","spanId":"0000000000000002","traceId":"00000000000000000000000000000001"}]}]}]}
output-hex 0ad20112cf0112cc010a1000000000000000000000000000000001120800000000000000022a01614aaa010a016b12a40132a1010a9e010a
 016b129801
output-hex @TURNS_23_MESSAGE

an event with an attribute 24 deep, to Zipkin
run convert --from otlp-json --to zipkin-json
input {"resourceSpans":[{"scopeSpans":[{"spans":[{"events":[{"attributes":[{"key":"k","value":
input @LISTS_24
input }],"name":"e","timeUnixNano":"1000"}],"name":"a","spanId":"0000000000000002",
 "traceId":"00000000000000000000000000000001"}]}]}]}
output [{"annotations":[{"timestamp":1,"value":"\"e\":{\"k\":[[[[[[[[[[[[[[[[[[[[[[[[]]]]]]]]]]]]]]]]]]]]]]]]}"}],
 "id":"0000000000000002","name":"a","traceId":"00000000000000000000000000000001"}]

a name with a value 25 deep, which is no event text, to Zipkin
run convert --from otlp-json --to zipkin-json
input {"resourceSpans":[{"scopeSpans":[{"spans":[{"events":[{
 "name":"\"e\":{\"k\":[[[[[[[[[[[[[[[[[[[[[[[[[]]]]]]]]]]]]]]]]]]]]]]]]]}","timeUnixNano":"1000"}],"name":"a",
 "spanId":"0000000000000002","traceId":"00000000000000000000000000000001"}]}]}]}
output [{"annotations":[{"timestamp":1,"value":"\"e\":{\"k\":[[[[[[[[[[[[[[[[[[[[[[[[[]]]]]]]]]]]]]]]]]]]]]]]]]}"}],
 "id":"0000000000000002","name":"a","traceId":"00000000000000000000000000000001"}]
"#;
