//! How much may be spelled in OTLP/JSON, and what is written of it: members and values.

/// How much may be spelled: members.
pub const MEMBERS: &str = r#"
as it is written
run convert --from otlp-json --to otlp-json
input @SDK_GROUPS
output @SDK_GROUPS

each member
run convert --from otlp-json --to otlp-json
input @EVERY_MEMBER
output @EVERY_MEMBER

each member, to a request
run convert --from otlp-json --to otlp-proto
input @EVERY_MEMBER
output-hex @EVERY_FIELD

ends before it starts
run convert --from otlp-json --to otlp-json
input @ENDS_BEFORE_START
output {"resourceSpans":[{"scopeSpans":[{"spans":[{"endTimeUnixNano":"2000","name":"a","spanId":"0000000000000002",
 "startTimeUnixNano":"2001","traceId":"00000000000000000000000000000001"}]}]}]}

a key that stands twice, and a link to nowhere
run convert --from otlp-json --to otlp-json
input @TWICE_AND_NOWHERE
output {"resourceSpans":[{"scopeSpans":[{"spans":[{"attributes":[{"key":"k","value":{"intValue":"2"}}],"name":"a",
 "spanId":"0000000000000002","traceId":"00000000000000000000000000000001"}]}]}]}

a key that stands twice, and a link without identifiers
run convert --from otlp-json --to jaeger-binary
input {"resourceSpans":[{"scopeSpans":[{"spans":[{"traceId":"00000000000000000000000000000001","spanId":"0000000000000002",
 "name":"a","attributes":[{"key":"k","value":{"intValue":"1"}},{"key":"k","value":{"intValue":2}}],"links":[{}]}]}]}]}
output-hex 0c00010b000100000000000f00020c000000010a000100000000000000010a000200000000000000000a000300000000000000020a000400
 000000000000000b00050000000161080007000000000a000800000000000000000a000900000000000000000f000a0c000000010b0001000000016b08
 0002000000030a00060000000000000002000000

a key that stands twice in a map
run convert --from otlp-json --to otlp-json
input {"resourceSpans":[{"scopeSpans":[{"spans":[{"traceId":"00000000000000000000000000000001","spanId":"0000000000000002",
 "name":"a","attributes":[{"key":"k","value":{"kvlistValue":{"values":[{"key":"b","value":{"boolValue":true}},{"key":"a"},
 {"key":"b"}]}}}]}]}]}]}
output {"resourceSpans":[{"scopeSpans":[{"spans":[{"attributes":[{"key":"k","value":{"kvlistValue":{"values":[{"key":"a"},
 {"key":"b"}]}}}],"name":"a","spanId":"0000000000000002","traceId":"00000000000000000000000000000001"}]}]}]}

links to nowhere
run convert --from otlp-json --to otlp-json
input {"resourceSpans":[{"scopeSpans":[{"spans":[{"traceId":"00000000000000000000000000000001","spanId":"0000000000000002",
 "name":"a","links":[{"traceId":"00000000000000000000000000000000","spanId":"0000000000000002"},
 {"traceId":"00000000000000000000000000000001"},{"traceId":"00000000000000000000000000000001","spanId":"0000000000000000",
 "flags":7},{},{"traceId":"00000000000000000000000000000001","spanId":"0000000000000001"}]}]}]}]}
output {"resourceSpans":[{"scopeSpans":[{"spans":[{"links":[{"spanId":"0000000000000001",
 "traceId":"00000000000000000000000000000001"}],"name":"a","spanId":"0000000000000002",
 "traceId":"00000000000000000000000000000001"}]}]}]}

identifiers of either case
run convert --from otlp-json --to otlp-json
input {"resourceSpans":[{"scopeSpans":[{"spans":[{"traceId":"0AF7651916cd43dd8448EB211C80319c","spanId":"B7ad6b7169203331",
 "parentSpanId":"00F067AA0ba902b7"}]}]}]}
output {"resourceSpans":[{"scopeSpans":[{"spans":[{"parentSpanId":"00f067aa0ba902b7","spanId":"b7ad6b7169203331",
 "traceId":"0af7651916cd43dd8448eb211c80319c"}]}]}]}

defaults written out
run convert --from otlp-json --to otlp-json
input {"resourceSpans":[{"scopeSpans":[{"spans":[{"traceId":"00000000000000000000000000000001","spanId":"0000000000000002",
 "name":"a","traceState":"","parentSpanId":"","kind":0,"startTimeUnixNano":"0","endTimeUnixNano":0,"attributes":[],
 "droppedAttributesCount":0,"events":[],"links":[],"status":{"code":0,"message":""},"flags":"0"}]}]}]}
output @ONE_GROUP

null members
run convert --from otlp-json --to otlp-json
input {"resourceSpans":[{"resource":null,"schemaUrl":null,"scopeSpans":[{"scope":null,
 "spans":[{"traceId":"00000000000000000000000000000001","spanId":"0000000000000002","name":null,"kind":null,
 "parentSpanId":null,"startTimeUnixNano":null,"attributes":[{"key":null,"value":null}],"events":null,"links":null,
 "status":null,"flags":null}]}]}]}
output {"resourceSpans":[{"scopeSpans":[{"spans":[{"attributes":[{}],"spanId":"0000000000000002",
 "traceId":"00000000000000000000000000000001"}]}]}]}

unknown members, and protobuf's own names
run convert --from otlp-json --to otlp-json
input {"resource_spans":[7],"resourceSpans":[{"entityRefs":1,"scopeSpans":[{"spans":[{"trace_id":5,
 "traceId":"00000000000000000000000000000001","spanId":"0000000000000002","start_time_unix_nano":"x",
 "attributes":[{"key":"k","value":{"string_value":"x","valueKind":[]}}]}]}],"x":{"spans":[{}]}}]}
output {"resourceSpans":[{"scopeSpans":[{"spans":[{"attributes":[{"key":"k"}],"spanId":"0000000000000002",
 "traceId":"00000000000000000000000000000001"}]}]}]}

the last of equal members
run convert --from otlp-json --to otlp-json
input {"resourceSpans":[{"scopeSpans":[{"spans":[{"traceId":7,"traceId":"00000000000000000000000000000001","spanId":"",
 "name":"x","spanId":"0000000000000002","name":null,"flags":-1,"flags":2}]}]}]}
output {"resourceSpans":[{"scopeSpans":[{"spans":[{"flags":2,"spanId":"0000000000000002",
 "traceId":"00000000000000000000000000000001"}]}]}]}
"#;

/// Values of attributes.
pub const VALUES: &str = r#"
a text
run convert --from otlp-json --to otlp-json
input {"resourceSpans":[{"scopeSpans":[{"spans":[{"traceId":"00000000000000000000000000000001","spanId":"0000000000000002",
 "name":"a","attributes":[{"key":"k","value":{"stringValue":"\u00e9\ud83d\ude00\/"}}]}]}]}]}
output {"resourceSpans":[{"scopeSpans":[{"spans":[{"attributes":[{"key":"k","value":{"stringValue":"é😀/"}}],"name":"a",
 "spanId":"0000000000000002","traceId":"00000000000000000000000000000001"}]}]}]}

an empty text
run convert --from otlp-json --to otlp-json
input {"resourceSpans":[{"scopeSpans":[{"spans":[{"traceId":"00000000000000000000000000000001","spanId":"0000000000000002",
 "name":"a","attributes":[{"key":"k","value":{"stringValue":""}}]}]}]}]}
output {"resourceSpans":[{"scopeSpans":[{"spans":[{"attributes":[{"key":"k","value":{"stringValue":""}}],"name":"a",
 "spanId":"0000000000000002","traceId":"00000000000000000000000000000001"}]}]}]}

false
run convert --from otlp-json --to otlp-json
input {"resourceSpans":[{"scopeSpans":[{"spans":[{"traceId":"00000000000000000000000000000001","spanId":"0000000000000002",
 "name":"a","attributes":[{"key":"k","value":{"boolValue":false}}]}]}]}]}
output {"resourceSpans":[{"scopeSpans":[{"spans":[{"attributes":[{"key":"k","value":{"boolValue":false}}],"name":"a",
 "spanId":"0000000000000002","traceId":"00000000000000000000000000000001"}]}]}]}

base64
run convert --from otlp-json --to otlp-json
input {"resourceSpans":[{"scopeSpans":[{"spans":[{"traceId":"00000000000000000000000000000001","spanId":"0000000000000002",
 "name":"a","attributes":[{"key":"k","value":{"bytesValue":"/+8="}}]}]}]}]}
output {"resourceSpans":[{"scopeSpans":[{"spans":[{"attributes":[{"key":"k","value":{"bytesValue":"/+8="}}],"name":"a",
 "spanId":"0000000000000002","traceId":"00000000000000000000000000000001"}]}]}]}

no bytes
run convert --from otlp-json --to otlp-json
input {"resourceSpans":[{"scopeSpans":[{"spans":[{"traceId":"00000000000000000000000000000001","spanId":"0000000000000002",
 "name":"a","attributes":[{"key":"k","value":{"bytesValue":""}}]}]}]}]}
output {"resourceSpans":[{"scopeSpans":[{"spans":[{"attributes":[{"key":"k","value":{"bytesValue":""}}],"name":"a",
 "spanId":"0000000000000002","traceId":"00000000000000000000000000000001"}]}]}]}

no value, and nulls
run convert --from otlp-json --to otlp-json
input {"resourceSpans":[{"scopeSpans":[{"spans":[{"traceId":"00000000000000000000000000000001","spanId":"0000000000000002",
 "name":"a","attributes":[{"key":"k","value":{"stringValue":null,"doubleValue":null}}]}]}]}]}
output {"resourceSpans":[{"scopeSpans":[{"spans":[{"attributes":[{"key":"k"}],"name":"a","spanId":"0000000000000002",
 "traceId":"00000000000000000000000000000001"}]}]}]}

one member beside nulls
run convert --from otlp-json --to otlp-json
input {"resourceSpans":[{"scopeSpans":[{"spans":[{"traceId":"00000000000000000000000000000001","spanId":"0000000000000002",
 "name":"a","attributes":[{"key":"k","value":{"boolValue":null,"intValue":"-7","doubleValue":null,"arrayValue":null}}]}]}]}]}
output {"resourceSpans":[{"scopeSpans":[{"spans":[{"attributes":[{"key":"k","value":{"intValue":"-7"}}],"name":"a",
 "spanId":"0000000000000002","traceId":"00000000000000000000000000000001"}]}]}]}

an empty list
run convert --from otlp-json --to otlp-json
input {"resourceSpans":[{"scopeSpans":[{"spans":[{"traceId":"00000000000000000000000000000001","spanId":"0000000000000002",
 "name":"a","attributes":[{"key":"k","value":{"arrayValue":{"values":[]}}}]}]}]}]}
output {"resourceSpans":[{"scopeSpans":[{"spans":[{"attributes":[{"key":"k","value":{"arrayValue":{}}}],"name":"a",
 "spanId":"0000000000000002","traceId":"00000000000000000000000000000001"}]}]}]}

an empty map
run convert --from otlp-json --to otlp-json
input {"resourceSpans":[{"scopeSpans":[{"spans":[{"traceId":"00000000000000000000000000000001","spanId":"0000000000000002",
 "name":"a","attributes":[{"key":"k","value":{"kvlistValue":{"values":null}}}]}]}]}]}
output {"resourceSpans":[{"scopeSpans":[{"spans":[{"attributes":[{"key":"k","value":{"kvlistValue":{}}}],"name":"a",
 "spanId":"0000000000000002","traceId":"00000000000000000000000000000001"}]}]}]}

a list of empty values
run convert --from otlp-json --to otlp-json
input {"resourceSpans":[{"scopeSpans":[{"spans":[{"traceId":"00000000000000000000000000000001","spanId":"0000000000000002",
 "name":"a","attributes":[{"key":"k","value":{"arrayValue":{"values":[{},{"arrayValue":{}},{"stringValue":""}]}}}]}]}]}]}
output {"resourceSpans":[{"scopeSpans":[{"spans":[{"attributes":[{"key":"k","value":{"arrayValue":{"values":[{},
 {"arrayValue":{}},{"stringValue":""}]}}}],"name":"a","spanId":"0000000000000002",
 "traceId":"00000000000000000000000000000001"}]}]}]}

a list 16 deep
run convert --from otlp-json --to otlp-json
input {"resourceSpans":[{"scopeSpans":[{"spans":[{"traceId":"00000000000000000000000000000001","spanId":"0000000000000002",
 "name":"a","attributes":[{"key":"k","value":{"arrayValue":{"values":[{"arrayValue":{"values":[{"arrayValue":{"values":[{
 "arrayValue":{"values":[{"arrayValue":{"values":[{"arrayValue":{"values":[{"arrayValue":{"values":[{"arrayValue":{"values":
 [{"arrayValue":{"values":[{"arrayValue":{"values":[{"arrayValue":{"values":[{"arrayValue":{"values":[{"arrayValue":{
 "values":[{"arrayValue":{"values":[{"arrayValue":{"values":[{"arrayValue":
 {}}]}}]}}]}}]}}]}}]}}]}}]}}]}}]}}]}}]}}]}}]}}]}}}]}]}]}]}
output {"resourceSpans":[{"scopeSpans":[{"spans":[{"attributes":[{"key":"k",
 "value":{"arrayValue":{"values":[{"arrayValue":{"values":[{"arrayValue":{"values":[{"arrayValue":{"values":[{"arrayValue":{
 "values":[{"arrayValue":{"values":[{"arrayValue":{"values":[{"arrayValue":{"values":[{"arrayValue":{"values":[{
 "arrayValue":{"values":[{"arrayValue":{"values":[{"arrayValue":{"values":[{"arrayValue":{"values":[{"arrayValue":{"values":
 [{"arrayValue":{"values":[{"arrayValue":{}}]}}]}}]}}]}}]}}]}}]}}]}}]}}]}}]}}]}}]}}]}}]}}}],"name":"a",
 "spanId":"0000000000000002","traceId":"00000000000000000000000000000001"}]}]}]}

a map 16 deep, without values
run convert --from otlp-json --to otlp-json
input {"resourceSpans":[{"scopeSpans":[{"spans":[{"traceId":"00000000000000000000000000000001","spanId":"0000000000000002",
 "name":"a","attributes":[{"key":"k","value":{"kvlistValue":{"values":[{"value":{"kvlistValue":{"values":[{"value":{
 "kvlistValue":{"values":[{"value":{"kvlistValue":{"values":[{"value":{"kvlistValue":{"values":[{"value":{"kvlistValue":{
 "values":[{"value":{"kvlistValue":{"values":[{"value":{"kvlistValue":{"values":[{"value":{"kvlistValue":{"values":[{
 "value":{"kvlistValue":{"values":[{"value":{"kvlistValue":{"values":[{"value":{"kvlistValue":{"values":[{"value":{
 "kvlistValue":{"values":[{"value":{"kvlistValue":{"values":[{"value":{"kvlistValue":{"values":[{"value":{"kvlistValue":{
 "values":[]}}}]}}}]}}}]}}}]}}}]}}}]}}}]}}}]}}}]}}}]}}}]}}}]}}}]}}}]}}}]}}}]}]}]}]}
output {"resourceSpans":[{"scopeSpans":[{"spans":[{"attributes":[{"key":"k",
 "value":{"kvlistValue":{"values":[{"value":{"kvlistValue":{"values":[{"value":{"kvlistValue":{"values":[{"value":{
 "kvlistValue":{"values":[{"value":{"kvlistValue":{"values":[{"value":{"kvlistValue":{"values":[{"value":{"kvlistValue":{
 "values":[{"value":{"kvlistValue":{"values":[{"value":{"kvlistValue":{"values":[{"value":{"kvlistValue":{"values":[{
 "value":{"kvlistValue":{"values":[{"value":{"kvlistValue":{"values":[{"value":{"kvlistValue":{"values":[{"value":{
 "kvlistValue":{"values":[{"value":{"kvlistValue":{"values":[{"value":{"kvlistValue":
 {}}}]}}}]}}}]}}}]}}}]}}}]}}}]}}}]}}}]}}}]}}}]}}}]}}}]}}}]}}}]}}}],"name":"a","spanId":"0000000000000002",
 "traceId":"00000000000000000000000000000001"}]}]}]}

a list 24 deep
run convert --from otlp-json --to otlp-json
input {"resourceSpans":[{"scopeSpans":[{"spans":[{"traceId":"00000000000000000000000000000001","spanId":"0000000000000002",
 "name":"a","attributes":[{"key":"k","value":
input @LISTS_24
input }]}]}]}]}
output {"resourceSpans":[{"scopeSpans":[{"spans":[{"attributes":[{"key":"k","value":
output @LISTS_24
output }],"name":"a","spanId":"0000000000000002","traceId":"00000000000000000000000000000001"}]}]}]}

a map 24 deep, without values
run convert --from otlp-json --to otlp-json
input {"resourceSpans":[{"scopeSpans":[{"spans":[{"traceId":"00000000000000000000000000000001","spanId":"0000000000000002",
 "name":"a","attributes":[{"key":"k","value":{"kvlistValue":{"values":[{"value":{"kvlistValue":{"values":[{"value":{
 "kvlistValue":{"values":[{"value":{"kvlistValue":{"values":[{"value":{"kvlistValue":{"values":[{"value":{"kvlistValue":{
 "values":[{"value":{"kvlistValue":{"values":[{"value":{"kvlistValue":{"values":[{"value":{"kvlistValue":{"values":[{
 "value":{"kvlistValue":{"values":[{"value":{"kvlistValue":{"values":[{"value":{"kvlistValue":{"values":[{"value":{
 "kvlistValue":{"values":[{"value":{"kvlistValue":{"values":[{"value":{"kvlistValue":{"values":[{"value":{"kvlistValue":{
 "values":[{"value":{"kvlistValue":{"values":[{"value":{"kvlistValue":{"values":[{"value":{"kvlistValue":{"values":[{
 "value":{"kvlistValue":{"values":[{"value":{"kvlistValue":{"values":[{"value":{"kvlistValue":{"values":[{"value":{
 "kvlistValue":{"values":[{"value":{"kvlistValue":{"values":
 []}}}]}}}]}}}]}}}]}}}]}}}]}}}]}}}]}}}]}}}]}}}]}}}]}}}]}}}]}}}]}}}]}}}]}}}]}}}]}}}]}}}]}}}]}}}]}}}]}]}]}]}
output {"resourceSpans":[{"scopeSpans":[{"spans":[{"attributes":[{"key":"k","value":{"kvlistValue":{"values":[{"value":{
 "kvlistValue":{"values":[{"value":{"kvlistValue":{"values":[{"value":{"kvlistValue":{"values":[{"value":{"kvlistValue":{
 "values":[{"value":{"kvlistValue":{"values":[{"value":{"kvlistValue":{"values":[{"value":{"kvlistValue":{"values":[{
 "value":{"kvlistValue":{"values":[{"value":{"kvlistValue":{"values":[{"value":{"kvlistValue":{"values":[{"value":{
 "kvlistValue":{"values":[{"value":{"kvlistValue":{"values":[{"value":{"kvlistValue":{"values":[{"value":{"kvlistValue":{
 "values":[{"value":{"kvlistValue":{"values":[{"value":{"kvlistValue":{"values":[{"value":{"kvlistValue":{"values":[{
 "value":{"kvlistValue":{"values":[{"value":{"kvlistValue":{"values":[{"value":{"kvlistValue":{"values":[{"value":{
 "kvlistValue":{"values":[{"value":{"kvlistValue":{"values":[{"value":{"kvlistValue":
 {}}}]}}}]}}}]}}}]}}}]}}}]}}}]}}}]}}}]}}}]}}}]}}}]}}}]}}}]}}}]}}}]}}}]}}}]}}}]}}}]}}}]}}}]}}}]}}}],"name":"a",
 "spanId":"0000000000000002","traceId":"00000000000000000000000000000001"}]}]}]}
"#;
