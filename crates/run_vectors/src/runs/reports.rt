//! Reports of inputs: the lines of `show` and `check`.

/// What `show` says of inputs.
pub const SHOWN: &str = r#"
a span of a client
run show --from zipkin-json
input @CLIENT_SPANS
output-lines 0000000000000000463ac35c9f6413ad 463ac35c9f6413ad - CLIENT 1472470996199000000 1472470996406000000 ERROR "get"\n

no unit of a request
run show --from otlp-proto

no unit of a document
run show --from otlp-json
input {"resourceSpans":[]}

a name with a quote, a tab and an escape character, and a parent
run show --from otlp-json
input {"resourceSpans":[{"scopeSpans":[{"spans":[{"traceId":"00000000000000000000000000000001","spanId":"0000000000000002",
 "parentSpanId":"0000000000000003","name":"\"\t\u001b","kind":2,"status":{"code":1}}]}]}]}
output-lines 00000000000000000000000000000001 0000000000000002 0000000000000003 SERVER 0 0 OK "\\"\\t\\u001b"\n

the least and the greatest time
run show --from otlp-json
input {"resourceSpans":[{"scopeSpans":[{"spans":[{"traceId":"00000000000000000000000000000001","spanId":"0000000000000002",
 "name":"a","startTimeUnixNano":"0","endTimeUnixNano":"18446744073709551615"}]}]}]}
output-lines 00000000000000000000000000000001 0000000000000002 - UNSPECIFIED 0 18446744073709551615 UNSET "a"\n

spans of two scopes and of two units, and a unit without spans
run show --from otlp-json
input {"resourceSpans":[{"scopeSpans":[{"spans":[{"traceId":"00000000000000000000000000000001","spanId":"0000000000000002",
 "name":"a","kind":4},{"traceId":"00000000000000000000000000000001","spanId":"0000000000000003","name":"b","kind":5}]},
 {"spans":[{"traceId":"00000000000000000000000000000001","spanId":"0000000000000004","name":"c","kind":1}]}]},{},
 {"scopeSpans":[{"spans":[{"traceId":"00000000000000000000000000000002","spanId":"0000000000000005","name":"","kind":3}]}]}]}
output-lines 00000000000000000000000000000001 0000000000000002 - PRODUCER 0 0 UNSET "a"\n
 00000000000000000000000000000001 0000000000000003 - CONSUMER 0 0 UNSET "b"\n
 00000000000000000000000000000001 0000000000000004 - INTERNAL 0 0 UNSET "c"\n
 00000000000000000000000000000002 0000000000000005 - CLIENT 0 0 UNSET ""\n

a span whose kind is in capitals
run show --from jaeger-binary
input-hex @CAPITALS
output-lines 00000000000000000000000000000001 0000000000000002 - INTERNAL 0 0 UNSET "a"\n

a double, which some forms can't hold
run show --from jaeger-compact
input-hex @DOUBLE_COMPACT
output-lines 00000000000000000000000000000001 0000000000000002 - INTERNAL 0 0 UNSET "a"\n

no document
run show --from zipkin-json
input [
stops 3 unit 0: cause 10 BadJson
"#;

/// What `check` says of inputs.
pub const CHECKED: &str = r#"
a span of a client
run check --from zipkin-json
input @CLIENT_SPANS
output-lines units 1, spans 1, remarks 0\n

no unit of a request
run check --from otlp-proto
output-lines units 0, spans 0, remarks 0\n

no unit of a document
run check --from otlp-json
input {"resourceSpans":[]}
output-lines units 0, spans 0, remarks 0\n

no span of a document
run check --from zipkin-json
input []
output-lines units 0, spans 0, remarks 0\n

a unit of a request
run check --from otlp-proto
input-hex @ONE_SPAN
output-lines units 1, spans 1, remarks 0\n

an equal key and a dropped link
run check --from otlp-json
input @TWICE_AND_NOWHERE
output-lines unit 1 span 1: equal key "k"\nunit 1 span 1: link dropped\nunits 1, spans 1, remarks 2\n

a key three times, one with a quote twice, and two dropped links
run check --from otlp-json
input {"resourceSpans":[{"scopeSpans":[{"spans":[{"traceId":"00000000000000000000000000000001","spanId":"0000000000000002",
 "name":"a","attributes":[{"key":"k","value":{"intValue":"1"}},{"key":"\"","value":{"intValue":"1"}},{"key":"k",
 "value":{"intValue":2}},{"key":"\"","value":{"intValue":"1"}},{"key":"k","value":{"intValue":3}}],"links":[{"traceId":"",
 "spanId":""},{"traceId":"","spanId":""}]}]}]}]}
output-lines unit 1 span 1: equal key "\\""\nunit 1 span 1: equal key "k"\nunit 1 span 1: link dropped\n
 units 1, spans 1, remarks 3\n

an equal key at each place
run check --from otlp-json
input {"resourceSpans":[{"resource":{"attributes":[{"key":"r","value":{}},{"key":"r","value":{}}]},
 "scopeSpans":[{"scope":{"attributes":[{"key":"c","value":{}},{"key":"c","value":{}}]},
 "spans":[{"traceId":"00000000000000000000000000000001","spanId":"0000000000000002","name":"a","attributes":[{"key":"s",
 "value":{}},{"key":"s","value":{}}],"events":[{"name":"e","attributes":[{"key":"e","value":{}},{"key":"e","value":{}}]}],
 "links":[{"traceId":"00000000000000000000000000000001","spanId":"0000000000000002","attributes":[{"key":"l","value":{}},
 {"key":"l","value":{}}]}]}]}]}]}
output-lines unit 1 resource: equal key "r"\nunit 1 scope 1: equal key "c"\nunit 1 span 1: equal key "s"\n
 unit 1 span 1 event 1: equal key "e"\nunit 1 span 1 link 1: equal key "l"\nunits 1, spans 1, remarks 5\n

spans counted through scopes, and a unit without spans between two
run check --from otlp-json
input {"resourceSpans":[{"scopeSpans":[{"spans":[{"traceId":"00000000000000000000000000000001","spanId":"0000000000000002",
 "name":"a"}]},{"spans":[{"traceId":"00000000000000000000000000000001","spanId":"0000000000000003","name":"b",
 "attributes":[{"key":"k","value":{}},{"key":"k","value":{}}]}]}]},{},
 {"scopeSpans":[{"spans":[{"traceId":"00000000000000000000000000000001","spanId":"0000000000000004","name":"c",
 "attributes":[{"key":"k","value":{}},{"key":"k","value":{}}]}]}]}]}
output-lines unit 1 span 2: equal key "k"\nunit 3 span 1: equal key "k"\nunits 3, spans 3, remarks 2\n

a tag of a batch that is given twice
run check --from jaeger-compact
input-hex @EQUAL_TAGS
output-lines unit 1 span 1: equal key "k"\nunits 1, spans 1, remarks 1\n

a kind in capitals
run check --from jaeger-binary
input-hex @CAPITALS
output-lines unit 1 span 1: tag dropped "span.kind"\nunits 1, spans 1, remarks 1\n

a status that isn't in capitals
run check --from zipkin-json
input [{"id":"0000000000000002","tags":{"otel.status_code":"Ok"},"traceId":"00000000000000000000000000000001"}]
output-lines unit 1 span 1: tag dropped "otel.status_code"\nunits 1, spans 1, remarks 1\n

no document
run check --from otlp-json
stops 3 unit 0: cause 10 BadJson
"#;
