//! Spans of Zipkin: what they are converted to.

/// What spans of Zipkin are converted to.
pub const WRITTEN: &str = r#"
a span of a client
run convert --from zipkin-json --to zipkin-json
input @CLIENT_SPANS
output @CLIENT_SPANS_WRITTEN

no span
run convert --from zipkin-json --to otlp-proto
input []

the span of an SDK, to a request
run convert --from zipkin-json --to otlp-proto
input @SDK_SPANS
output-hex 0abb010a2b0a110a09686f73742e6e616d6512040a026e310a160a0c736572766963652e6e616d6512060a0473686f70128b010a0a0a036c
 69621203312e30127d0a100af7651916cd43dd8448eb211c80319c1208b7ad6b71692033312a09474554202f6361727430033900ca853dfe9c97174100
 ab7b43fe9c97174a1c0a13687474702e726571756573742e6d6574686f6412050a034745544a220a19687474702e726573706f6e73652e737461747573
 5f636f646512050a03323030

the same, to a batch
run convert --from zipkin-json --to jaeger-binary
input @SDK_SPANS
output-hex 0c00010b00010000000473686f700f00020c000000010b000100000009686f73742e6e616d65080002000000000b0003000000026e310000
 0f00020c000000010a00018448eb211c80319c0a00020af7651916cd43dd0a0003b7ad6b71692033310a000400000000000000000b0005000000094745
 54202f63617274080007000000000a000800060a24182022400a000900000000000186a00f000a0c000000050b000100000013687474702e7265717565
 73742e6d6574686f64080002000000000b000300000003474554000b000100000019687474702e726573706f6e73652e7374617475735f636f64650800
 02000000000b000300000003323030000b00010000000f6f74656c2e73636f70652e6e616d65080002000000000b0003000000036c6962000b00010000
 00126f74656c2e73636f70652e76657273696f6e080002000000000b000300000003312e30000b0001000000097370616e2e6b696e6408000200000000
 0b000300000006636c69656e74000000

the same, to a batch in the compact protocol
run convert --from zipkin-json --to jaeger-compact
input @SDK_SPANS
output-hex 1c180473686f70191c1809686f73742e6e616d65150018026e310000191c16c7b9feb7dcb78ab7f70116ba8feaeca2c6b2f715169db3feed
 d2a3cad2900116001809474554202f63617274250016808981828389850616c09a0c195c1813687474702e726571756573742e6d6574686f6415001803
 474554001819687474702e726573706f6e73652e7374617475735f636f64651500180332303000180f6f74656c2e73636f70652e6e616d65150018036c
 69620018126f74656c2e73636f70652e76657273696f6e15001803312e300018097370616e2e6b696e6415001806636c69656e74000000

no duration, to a request
run convert --from zipkin-json --to otlp-proto
input @NO_DURATION
output-hex 0a37123512330a1000000000000000000000000000000001120800000000000000022a016130013988130000000000004188130000000000
 00

flags of a batch, back
run convert --from zipkin-json --to jaeger-compact
input @FLAGS_SPANS
output-hex 1c18017300191c16021600160416001801612504160016000000

a span of a client, to a request
run convert --from zipkin-json --to otlp-proto
input @CLIENT_SPANS
output-hex 0afe010a1c0a1a0a0c736572766963652e6e616d65120a0a0866726f6e74656e6412dd0112da010a100000000000000000463ac35c9f6413
 ad1208463ac35c9f6413ad2a03676574300339c0c781ce91446f14418059d8da91446f144a130a09687474702e7061746812060a042f6170694a190a0c
 706565722e7365727669636512090a076261636b656e644a200a117a69706b696e2e6c6f63616c2e69707634120b0a093132372e302e302e314a260a12
 7a69706b696e2e72656d6f74652e6970763412100a0e3139322e3136382e39392e3130314a1c0a127a69706b696e2e72656d6f74652e706f727412060a
 04393030307a0b1207726566757365641802

scopes that change and change back
run convert --from zipkin-json --to otlp-proto
input [{"traceId":"1","id":"2","name":"a","tags":{"otel.scope.name":"a"}},{"traceId":"1","id":"2","name":"a",
 "tags":{"otel.scope.name":"a","otel.scope.version":"1"}},{"traceId":"1","id":"2","name":"a","tags":{"otel.scope.name":"a"}}]
output-hex 0a810112280a030a016112210a1000000000000000000000000000000001120800000000000000022a01613001122b0a060a016112013112
 210a1000000000000000000000000000000001120800000000000000022a0161300112280a030a016112210a1000000000000000000000000000000001
 120800000000000000022a01613001

two spans that share an identifier
run convert --from zipkin-json --to zipkin-json
input [{"traceId":"463ac35c9f6413ad","id":"a2fb4a1d1a96d312","kind":"CLIENT"},{"traceId":"463ac35c9f6413ad",
 "id":"a2fb4a1d1a96d312","kind":"SERVER","shared":true}]
output @SHARED_SPANS

nested 127 deep
run convert --from zipkin-json --to zipkin-json
input [{"traceId":"1","id":"2","x":[[[[[[[[[[[[[[[[[[[[[[[[[[[[[[[[[[[[[[[[[[[[[[[[[[[[[[[[[[[[[[[[[[[[[[[[[[[[[[[[[[[[[[[[[
 [[[[[[[[[[[[[[[[[[[[[[[[[[[[[[[[[[[[]]]]]]]]]]]]]]]]]]]]]]]]]]]]]]]]]]]]]]]]]]]]]]]]]]]]]]]]]]]]]]]]]]]]]]]]]]]]]]]]]]]]]]]
 ]]]]]]]]]]]]]]]]]]]]]]]]]]]]]]]]]]]]]]}]
output [{"id":"0000000000000002","traceId":"00000000000000000000000000000001"}]

each control character
run convert --from zipkin-json --to zipkin-json
input [{"traceId":"1","id":"2","tags":{"t":
 "\u0000\u0001\u0002\u0003\u0004\u0005\u0006\u0007\u0008\u0009\u000a\u000b\u000c\u000d\u000e\u000f\u0010\u0011\u0012\u0013\u
 0014\u0015\u0016\u0017\u0018\u0019\u001a\u001b\u001c\u001d\u001e\u001f\b\f\n\r\t\u007F\"\\\/\u003c<\u2028\ud83d\uDE00é"}}]
output-lines [{"id":"0000000000000002","tags":{"t":"\\u0000\\u0001\\u0002\\u0003\\u0004\\u0005\\u0006\\u0007\\b\\t\\n
 \\u000b\\f\\r\\u000e\\u000f\\u0010\\u0011\\u0012\\u0013\\u0014\\u0015\\u0016\\u0017\\u0018\\u0019\\u001a\\u001b\\u001c\\u00
 1d\\u001e\\u001f\\b\\f\\n\\r\\t\x7f\\"\\\\/<<\xe2\x80\xa8😀é"},"traceId":"00000000000000000000000000000001"}]

tags and endpoints of each kind
run convert --from zipkin-json --to otlp-json
input @MARKED_SPANS
output {"resourceSpans":[{"resource":{"attributes":[{"key":"host","value":{"stringValue":"n1"}},{"key":"service.name",
 "value":{"stringValue":"shop"}}]},"scopeSpans":[{"scope":{"name":"lib","version":"2"},"spans":[{"attributes":[{"key":"a",
 "value":{"stringValue":"1"}},{"key":"peer.service","value":{"stringValue":"bank"}},{"key":"zipkin.debug",
 "value":{"stringValue":"true"}},{"key":"zipkin.local.ipv4","value":{"stringValue":"10.0.0.1"}},{"key":"zipkin.local.port",
 "value":{"stringValue":"80"}},{"key":"zipkin.remote.port","value":{"stringValue":"5432"}}],"endTimeUnixNano":"3000",
 "events":[{"attributes":[{"key":"n","value":{"intValue":"1"}}],"name":"retry","timeUnixNano":"2000"}],"kind":3,
 "spanId":"0000000000000002","startTimeUnixNano":"1000","status":{"code":2,"message":"late"},
 "traceId":"00000000000000000000000000000001","traceState":"k=v"}]}]}]}

two services
run convert --from zipkin-json --to otlp-json
input [{"annotations":[{"timestamp":2,"value":"\"retry\":{\"n\":1}"}],"debug":true,"duration":2,"id":"2","kind":"CLIENT",
 "localEndpoint":{"ipv4":"10.0.0.1","port":80,"serviceName":"shop"},"remoteEndpoint":{"port":5432,"serviceName":"bank"},
 "tags":{"a":"1","error":"late","otel.resource.host":"n1","otel.scope.name":"lib","otel.scope.version":"2",
 "otel.status_code":"ERROR","w3c.tracestate":"k=v","zipkin.shared":"true"},"timestamp":1,"traceId":"1"},
 {"annotations":[{"timestamp":2,"value":"\"retry\":{\"n\":1}"}],"debug":true,"duration":2,"id":"2","kind":"CLIENT",
 "localEndpoint":{"ipv4":"10.0.0.1","port":80,"serviceName":"shop"},"remoteEndpoint":{"port":5432,"serviceName":"bank"},
 "tags":{"a":"1","error":"late","otel.resource.host":"n1","otel.scope.name":"lib","otel.scope.version":"2",
 "otel.status_code":"ERROR","w3c.tracestate":"k=v","zipkin.shared":"true"},"timestamp":1,"traceId":"1"},
 {"annotations":[{"timestamp":2,"value":"\"retry\":{\"n\":1}"}],"debug":true,"duration":2,"id":"2","kind":"CLIENT",
 "localEndpoint":{"ipv4":"10.0.0.1","port":80,"serviceName":"cart"},"remoteEndpoint":{"port":5432,"serviceName":"bank"},
 "tags":{"a":"1","error":"late","otel.resource.host":"n1","otel.scope.name":"lib","otel.scope.version":"2",
 "otel.status_code":"ERROR","w3c.tracestate":"k=v","zipkin.shared":"true"},"timestamp":1,"traceId":"1"}]
output {"resourceSpans":[{"resource":{"attributes":[{"key":"host","value":{"stringValue":"n1"}},{"key":"service.name",
 "value":{"stringValue":"shop"}}]},"scopeSpans":[{"scope":{"name":"lib","version":"2"},"spans":[{"attributes":[{"key":"a",
 "value":{"stringValue":"1"}},{"key":"peer.service","value":{"stringValue":"bank"}},{"key":"zipkin.debug",
 "value":{"stringValue":"true"}},{"key":"zipkin.local.ipv4","value":{"stringValue":"10.0.0.1"}},{"key":"zipkin.local.port",
 "value":{"stringValue":"80"}},{"key":"zipkin.remote.port","value":{"stringValue":"5432"}}],"endTimeUnixNano":"3000",
 "events":[{"attributes":[{"key":"n","value":{"intValue":"1"}}],"name":"retry","timeUnixNano":"2000"}],"kind":3,
 "spanId":"0000000000000002","startTimeUnixNano":"1000","status":{"code":2,"message":"late"},
 "traceId":"00000000000000000000000000000001","traceState":"k=v"},{"attributes":[{"key":"a","value":{"stringValue":"1"}},
 {"key":"peer.service","value":{"stringValue":"bank"}},{"key":"zipkin.debug","value":{"stringValue":"true"}},
 {"key":"zipkin.local.ipv4","value":{"stringValue":"10.0.0.1"}},{"key":"zipkin.local.port","value":{"stringValue":"80"}},
 {"key":"zipkin.remote.port","value":{"stringValue":"5432"}}],"endTimeUnixNano":"3000","events":[{"attributes":[{"key":"n",
 "value":{"intValue":"1"}}],"name":"retry","timeUnixNano":"2000"}],"kind":3,"spanId":"0000000000000002",
 "startTimeUnixNano":"1000","status":{"code":2,"message":"late"},"traceId":"00000000000000000000000000000001",
 "traceState":"k=v"}]}]},{"resource":{"attributes":[{"key":"host","value":{"stringValue":"n1"}},{"key":"service.name",
 "value":{"stringValue":"cart"}}]},"scopeSpans":[{"scope":{"name":"lib","version":"2"},"spans":[{"attributes":[{"key":"a",
 "value":{"stringValue":"1"}},{"key":"peer.service","value":{"stringValue":"bank"}},{"key":"zipkin.debug",
 "value":{"stringValue":"true"}},{"key":"zipkin.local.ipv4","value":{"stringValue":"10.0.0.1"}},{"key":"zipkin.local.port",
 "value":{"stringValue":"80"}},{"key":"zipkin.remote.port","value":{"stringValue":"5432"}}],"endTimeUnixNano":"3000",
 "events":[{"attributes":[{"key":"n","value":{"intValue":"1"}}],"name":"retry","timeUnixNano":"2000"}],"kind":3,
 "spanId":"0000000000000002","startTimeUnixNano":"1000","status":{"code":2,"message":"late"},
 "traceId":"00000000000000000000000000000001","traceState":"k=v"}]}]}]}

an event text with a value 17 deep, to a group
run convert --from zipkin-json --to otlp-json
input [{"annotations":[{"timestamp":1,"value":"\"e\":{\"k\":[[[[[[[[[[[[[[[[[]]]]]]]]]]]]]]]]]}"}],"id":"0000000000000002",
 "name":"a","traceId":"00000000000000000000000000000001"}]
output {"resourceSpans":[{"scopeSpans":[{"spans":[{"events":[{"attributes":[{"key":"k","value":{"arrayValue":{"values":[{
 "arrayValue":{"values":[{"arrayValue":{"values":[{"arrayValue":{"values":[{"arrayValue":{"values":[{"arrayValue":{"values":
 [{"arrayValue":{"values":[{"arrayValue":{"values":[{"arrayValue":{"values":[{"arrayValue":{"values":[{"arrayValue":{
 "values":[{"arrayValue":{"values":[{"arrayValue":{"values":[{"arrayValue":{"values":[{"arrayValue":{"values":[{
 "arrayValue":{"values":[{"arrayValue":{}}]}}]}}]}}]}}]}}]}}]}}]}}]}}]}}]}}]}}]}}]}}]}}]}}}],"name":"e",
 "timeUnixNano":"1000"}],"kind":1,"name":"a","spanId":"0000000000000002","traceId":"00000000000000000000000000000001"}]}]}]}

an event text with a value 24 deep, to a group
run convert --from zipkin-json --to otlp-json
input [{"annotations":[{"timestamp":1,"value":"\"e\":{\"k\":[[[[[[[[[[[[[[[[[[[[[[[[]]]]]]]]]]]]]]]]]]]]]]]]}"}],
 "id":"0000000000000002","name":"a","traceId":"00000000000000000000000000000001"}]
output {"resourceSpans":[{"scopeSpans":[{"spans":[{"events":[{"attributes":[{"key":"k","value":
output @LISTS_24
output }],"name":"e","timeUnixNano":"1000"}],"kind":1,"name":"a","spanId":"0000000000000002",
 "traceId":"00000000000000000000000000000001"}]}]}]}

an event text with a value 24 deep, written again
run convert --from zipkin-json --to zipkin-json
input [{"annotations":[{"timestamp":1,"value":"\"e\":{\"k\":[[[[[[[[[[[[[[[[[[[[[[[[]]]]]]]]]]]]]]]]]]]]]]]]}"}],
 "id":"0000000000000002","name":"a","traceId":"00000000000000000000000000000001"}]
output [{"annotations":[{"timestamp":1,"value":"\"e\":{\"k\":[[[[[[[[[[[[[[[[[[[[[[[[]]]]]]]]]]]]]]]]]]]]]]]]}"}],
 "id":"0000000000000002","name":"a","traceId":"00000000000000000000000000000001"}]

a text with a value 25 deep, which is a name, to a group
run convert --from zipkin-json --to otlp-json
input [{"annotations":[{"timestamp":1,"value":"\"e\":{\"k\":[[[[[[[[[[[[[[[[[[[[[[[[[]]]]]]]]]]]]]]]]]]]]]]]]]}"}],
 "id":"0000000000000002","name":"a","traceId":"00000000000000000000000000000001"}]
output {"resourceSpans":[{"scopeSpans":[{"spans":[{"events":[{
 "name":"\"e\":{\"k\":[[[[[[[[[[[[[[[[[[[[[[[[[]]]]]]]]]]]]]]]]]]]]]]]]]}","timeUnixNano":"1000"}],"kind":1,"name":"a",
 "spanId":"0000000000000002","traceId":"00000000000000000000000000000001"}]}]}]}

a text with a value 25 deep, written again
run convert --from zipkin-json --to zipkin-json
input [{"annotations":[{"timestamp":1,"value":"\"e\":{\"k\":[[[[[[[[[[[[[[[[[[[[[[[[[]]]]]]]]]]]]]]]]]]]]]]]]]}"}],
 "id":"0000000000000002","name":"a","traceId":"00000000000000000000000000000001"}]
output [{"annotations":[{"timestamp":1,"value":"\"e\":{\"k\":[[[[[[[[[[[[[[[[[[[[[[[[[]]]]]]]]]]]]]]]]]]]]]]]]]}"}],
 "id":"0000000000000002","name":"a","traceId":"00000000000000000000000000000001"}]
"#;

/// What tags of Zipkin say.
pub const TAGS: &str = r#"
the span of an SDK, written again
run convert --from zipkin-json --to zipkin-json
input @SDK_SPANS
output @SDK_SPANS

a code ERROR without `error`
run convert --from zipkin-json --to otlp-proto
input [{"traceId":"1","id":"2","tags":{"otel.status_code":"ERROR"}}]
output-hex 0a26122412220a10000000000000000000000000000000011208000000000000000230017a021802

a code ERROR without `error`, written again
run convert --from zipkin-json --to zipkin-json
input [{"traceId":"1","id":"2","tags":{"otel.status_code":"ERROR"}}]
output [{"id":"0000000000000002","tags":{"error":"","otel.status_code":"ERROR"},"traceId":"00000000000000000000000000000001"}]

a code OK beside `error`
run convert --from zipkin-json --to otlp-proto
input @OK_AND_ERROR
output-hex 0a26122412220a10000000000000000000000000000000011208000000000000000230017a021801

a code OK beside `error`, written again
run convert --from zipkin-json --to zipkin-json
input @OK_AND_ERROR
output [{"id":"0000000000000002","tags":{"otel.status_code":"OK"},"traceId":"00000000000000000000000000000001"}]

`peer.service` beside another remote name
run convert --from zipkin-json --to otlp-proto
input @REMOTE_NAMES
output-hex 0a37123512330a10000000000000000000000000000000011208000000000000000230014a130a0c706565722e7365727669636512030a01
 72

`peer.service` beside another remote name, written again
run convert --from zipkin-json --to zipkin-json
input @REMOTE_NAMES
output [{"id":"0000000000000002","remoteEndpoint":{"serviceName":"r"},"traceId":"00000000000000000000000000000001"}]

`peer.service` alone
run convert --from zipkin-json --to otlp-proto
input [{"traceId":"1","id":"2","tags":{"peer.service":"p"}}]
output-hex 0a37123512330a10000000000000000000000000000000011208000000000000000230014a130a0c706565722e7365727669636512030a01
 70

`peer.service` alone, written again
run convert --from zipkin-json --to zipkin-json
input [{"traceId":"1","id":"2","tags":{"peer.service":"p"}}]
output [{"id":"0000000000000002","remoteEndpoint":{"serviceName":"p"},"traceId":"00000000000000000000000000000001"}]

the last of equal tags
run convert --from zipkin-json --to zipkin-json
input [{"traceId":"1","id":"2","tags":{"k":"1","k":"2"}}]
output [{"id":"0000000000000002","tags":{"k":"2"},"traceId":"00000000000000000000000000000001"}]
"#;
