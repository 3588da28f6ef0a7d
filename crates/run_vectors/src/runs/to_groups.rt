//! What is converted to OTLP/JSON.

/// What is converted to OTLP/JSON.
pub const WRITTEN: &str = r#"
a request as an SDK writes it
run convert --from otlp-proto --to otlp-json
input-hex @SDK_REQUEST
output @SDK_GROUPS

a batch of a client
run convert --from jaeger-compact --to otlp-json
input-hex @CLIENT_COMPACT
output {"resourceSpans":[{"resource":{"attributes":[{"key":"hostname","value":{"stringValue":"h1"}},{"key":"ip",
 "value":{"stringValue":"10.0.0.1"}},{"key":"service.name","value":{"stringValue":"api"}}]},
 "scopeSpans":[{"spans":[{"endTimeUnixNano":"1000250000","events":[{"name":"done","timeUnixNano":"1000100000"}],"flags":1,
 "kind":2,"name":"get","parentSpanId":"0000000000000005","spanId":"0000000000000007","startTimeUnixNano":"1000000000",
 "traceId":"00000000000000000000000000000005"}]}]}]}

no group
run convert --from otlp-proto --to otlp-json
output {"resourceSpans":[]}

no batch
run convert --from jaeger-binary --to otlp-json
output {"resourceSpans":[]}

no span
run convert --from zipkin-json --to otlp-json
input []
output {"resourceSpans":[]}

two groups without spans
run convert --from otlp-proto --to otlp-json
input-hex 0a000a00
output {"resourceSpans":[{},{}]}

the span of an SDK as a batch
run convert --from jaeger-binary --to otlp-json
input-hex @SDK_BATCH
output @MICROS_GROUPS

the same in the compact protocol
run convert --from jaeger-compact --to otlp-json
input-hex @SDK_COMPACT
output @MICROS_GROUPS

the same as a span of Zipkin
run convert --from zipkin-json --to otlp-json
input @SDK_SPANS
output {"resourceSpans":[{"resource":{"attributes":[{"key":"host.name","value":{"stringValue":"n1"}},{"key":"service.name",
 "value":{"stringValue":"shop"}}]},"scopeSpans":[{"scope":{"name":"lib","version":"1.0"},
 "spans":[{"attributes":[{"key":"http.request.method","value":{"stringValue":"GET"}},{"key":"http.response.status_code",
 "value":{"stringValue":"200"}}],"endTimeUnixNano":"1700000000223456000","kind":3,"name":"GET /cart",
 "spanId":"b7ad6b7169203331","startTimeUnixNano":"1700000000123456000","traceId":"0af7651916cd43dd8448eb211c80319c"}]}]}]}

a root with two references to parents
run convert --from jaeger-compact --to otlp-json
input-hex @ROOT_COMPACT
output @LINKED

no duration
run convert --from zipkin-json --to otlp-json
input @NO_DURATION
output {"resourceSpans":[{"scopeSpans":[{"spans":[{"endTimeUnixNano":"5000","kind":1,"name":"a","spanId":"0000000000000002",
 "startTimeUnixNano":"5000","traceId":"00000000000000000000000000000001"}]}]}]}

each member
run convert --from otlp-proto --to otlp-json
input-hex @EVERY_FIELD
output @EVERY_MEMBER

control characters
run convert --from otlp-proto --to otlp-json
input-hex 0a141a12000108090a0b0c0d1f7f3c3e26272fe280a8
output-lines {"resourceSpans":[{"schemaUrl":"\\u0000\\u0001\\b\\t\\n\\u000b\\f\\r\\u001f\x7f<>&'/\xe2\x80\xa8"}]}

a span, to JSON
run convert --from otlp-proto --to otlp-json
input-hex @ONE_SPAN
output @ONE_GROUP

every field
run convert --from otlp-proto --to otlp-json
input-hex @FULL_REQUEST
output @FULL_GROUP

defaults are left out
run convert --from otlp-proto --to otlp-json
input-hex @BARE_REQUEST
output @BARE_GROUP

each value, a default too
run convert --from otlp-proto --to otlp-json
input-hex 0a8a010a87010a000a0a0a047465787412020a000a0b0a0566616c7365120210000a0a0a047a65726f120218000a120a036c6f77120b188080
 80808080808080010a0b0a05627974657312023a000a0a0a046c69737412022a000a090a036d6170120232000a260a066e6573746564121c2a1a0a000a
 062a040a0210010a0e320c0a030a016b0a05120318ac02
output @VALUES_GROUP

24 lists, one in the other, in a resource
run convert --from otlp-proto --to otlp-json
input-hex 0a670a650a630a016b125e
input-hex @LISTS_24_MESSAGE
output {"resourceSpans":[{"resource":{"attributes":[{"key":"k","value":
output @LISTS_24
output }]}}]}

24 lists, one in the other, in a scope
run convert --from otlp-proto --to otlp-json
input-hex 0a6912670a651a630a016b125e
input-hex @LISTS_24_MESSAGE
output {"resourceSpans":[{"scopeSpans":[{"scope":{"attributes":[{"key":"k","value":
output @LISTS_24
output }]}}]}]}

24 lists, one in the other, in a span
run convert --from otlp-proto --to otlp-json
input-hex 0a8a011287011284010a1000000000000000000000000000000001120800000000000000022a01614a630a016b125e
input-hex @LISTS_24_MESSAGE
output {"resourceSpans":[{"scopeSpans":[{"spans":[{"attributes":[{"key":"k","value":
output @LISTS_24
output }],"name":"a","spanId":"0000000000000002","traceId":"00000000000000000000000000000001"}]}]}]}

24 lists, one in the other, in an event
run convert --from otlp-proto --to otlp-json
input-hex 0a8c011289011286010a1000000000000000000000000000000001120800000000000000022a01615a651a630a016b125e
input-hex @LISTS_24_MESSAGE
output {"resourceSpans":[{"scopeSpans":[{"spans":[{"events":[{"attributes":[{"key":"k","value":
output @LISTS_24
output }]}],"name":"a","spanId":"0000000000000002","traceId":"00000000000000000000000000000001"}]}]}]}

24 lists, one in the other, in a link
run convert --from otlp-proto --to otlp-json
input-hex 0aa90112a60112a3010a1000000000000000000000000000000001120800000000000000022a01616a81010a10000000000000000000000000
 000000011208000000000000000122630a016b125e
input-hex @LISTS_24_MESSAGE
output {"resourceSpans":[{"scopeSpans":[{"spans":[{"links":[{"attributes":[{"key":"k","value":
output @LISTS_24
output }],"spanId":"0000000000000001","traceId":"00000000000000000000000000000001"}],"name":"a","spanId":"0000000000000002",
 "traceId":"00000000000000000000000000000001"}]}]}]}

lists and maps in turn, 24 deep
run convert --from otlp-proto --to otlp-json
input-hex 0acc0112c90112c6010a1000000000000000000000000000000001120800000000000000022a01614aa4010a016b129e01
input-hex @TURNS_24_MESSAGE
output {"resourceSpans":[{"scopeSpans":[{"spans":[{"attributes":[{"key":"k","value":
output @TURNS_24
output }],"name":"a","spanId":"0000000000000002","traceId":"00000000000000000000000000000001"}]}]}]}

maps and lists in turn, 24 deep
run convert --from otlp-proto --to otlp-json
input-hex 0ad20112cf0112cc010a1000000000000000000000000000000001120800000000000000022a01614aaa010a016b12a40132a1010a9e010a01
 6b129801
input-hex @TURNS_23_MESSAGE
output {"resourceSpans":[{"scopeSpans":[{"spans":[{"attributes":[{"key":"k","value":{"kvlistValue":{"values":[{"key":"k",
 "value":
output @TURNS_23
output }]}}}],"name":"a","spanId":"0000000000000002","traceId":"00000000000000000000000000000001"}]}]}]}
"#;
