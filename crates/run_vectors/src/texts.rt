//! Texts that stand in several rows, in each form. What is no JSON is in hexadecimal.

/// A row a text: its name, what it is, and the text.
pub const TEXTS: &str = r#"
EARLY_SPAN
what A request of one span that ends before it starts.
text 0a2c122a12280a1000000000000000000000000000000001120800000000000000022a0161390100000000000000

OPEN_GROUP
what The group of `ONE_SPAN` in JSON, in a text that has no end.
text {"resourceSpans":[{"scopeSpans":[{"spans":[{"name":"a","spanId":"0000000000000002",
 "traceId":"00000000000000000000000000000001"}]}]}

START_BELOW
what Spans whose starts are below microseconds, and others.
text {"resourceSpans":[{"scopeSpans":[{"spans":[{"traceId":"00000000000000000000000000000001","spanId":"0000000000000002",
 "name":"a","kind":1,"startTimeUnixNano":"1000","endTimeUnixNano":"2000"},{"traceId":"00000000000000000000000000000001",
 "spanId":"0000000000000002","name":"a","kind":1,"startTimeUnixNano":"1999","endTimeUnixNano":"2000"}]}]}]}

END_BELOW
what The same of their ends.
text {"resourceSpans":[{"scopeSpans":[{"spans":[{"traceId":"00000000000000000000000000000001","spanId":"0000000000000002",
 "name":"a","kind":1,"startTimeUnixNano":"1000","endTimeUnixNano":"1001"},{"traceId":"00000000000000000000000000000001",
 "spanId":"0000000000000002","name":"a","kind":1,"startTimeUnixNano":"1000","endTimeUnixNano":"1000"}]}]}]}

EVENT_BELOW
what The same of an event.
text {"resourceSpans":[{"scopeSpans":[{"spans":[{"traceId":"00000000000000000000000000000001","spanId":"0000000000000002",
 "name":"a","kind":1,"events":[{"timeUnixNano":"1000"},{"timeUnixNano":"999"}]}]}]}]}

KINDS
what A span without a kind, and one of each kind.
text {"resourceSpans":[{"scopeSpans":[{"spans":[{"traceId":"00000000000000000000000000000001","spanId":"0000000000000002",
 "name":"a","kind":1},{"traceId":"00000000000000000000000000000001","spanId":"0000000000000002","name":"a","kind":2},
 {"traceId":"00000000000000000000000000000001","spanId":"0000000000000002","name":"a","kind":3},
 {"traceId":"00000000000000000000000000000001","spanId":"0000000000000002","name":"a","kind":4},
 {"traceId":"00000000000000000000000000000001","spanId":"0000000000000002","name":"a","kind":5},
 {"traceId":"00000000000000000000000000000001","spanId":"0000000000000002","name":"a"}]}]}]}

EMPTY_SCOPE
what A scope without spans before one with a span.
text {"resourceSpans":[{"scopeSpans":[{"scope":{"name":"lib"}},{"spans":[{"traceId":"00000000000000000000000000000001",
 "spanId":"0000000000000002","name":"a","kind":1}]}]}]}

SCOPES
what Scopes that join the one before, and others.
text {"resourceSpans":[{"scopeSpans":[{"scope":{"name":"lib","version":"1"},
 "spans":[{"traceId":"00000000000000000000000000000001","spanId":"0000000000000002","name":"a","kind":1}]},
 {"scope":{"name":"lib","version":"1"},"spans":[{"traceId":"00000000000000000000000000000001","spanId":"0000000000000002",
 "name":"a","kind":1}]},{"scope":{"name":"lib","version":"2"},"spans":[{"traceId":"00000000000000000000000000000001",
 "spanId":"0000000000000002","name":"a","kind":1}]},{"scope":{"name":"lib","version":"1"}},{"scope":{"name":"lib",
 "version":"2"},"spans":[{"traceId":"00000000000000000000000000000001","spanId":"0000000000000002","name":"a","kind":1}]}]}]}

ACROSS_UNITS
what A scope that joins across two units.
text {"resourceSpans":[{"resource":{"attributes":[{"key":"service.name","value":{"stringValue":"s"}}]},
 "scopeSpans":[{"scope":{"name":"lib"},"spans":[{"traceId":"00000000000000000000000000000001","spanId":"0000000000000002",
 "name":"a","kind":1}]}]},{"resource":{"attributes":[{"key":"service.name","value":{"stringValue":"s"}}]},
 "scopeSpans":[{"scope":{"name":"lib"},"spans":[{"traceId":"00000000000000000000000000000001","spanId":"0000000000000002",
 "name":"a","kind":1}]}]}]}

EMPTY_BETWEEN
what A unit without spans between two of one resource.
text {"resourceSpans":[{"resource":{"attributes":[{"key":"service.name","value":{"stringValue":"s"}}]},
 "scopeSpans":[{"scope":{"name":"lib"},"spans":[{"traceId":"00000000000000000000000000000001","spanId":"0000000000000002",
 "name":"a","kind":1}]}]},{},{"resource":{"attributes":[{"key":"service.name","value":{"stringValue":"s"}}]},
 "scopeSpans":[{"scope":{"name":"lib"},"spans":[{"traceId":"00000000000000000000000000000001","spanId":"0000000000000002",
 "name":"a","kind":1}]}]}]}

CAPITALS
what A batch of one span whose tag `span.kind` is SERVER.
text 0c00010b00010000000173000f00020c000000010a000100000000000000010a000200000000000000000a000300000000000000020a0004000000
 00000000000b00050000000161080007000000000a000800000000000000000a000900000000000000000f000a0c000000010b0001000000097370616e
 2e6b696e64080002000000000b000300000006534552564552000000

OK_AND_ERROR
what A span with the code OK beside `error`.
text [{"traceId":"1","id":"2","tags":{"otel.status_code":"OK","error":"x"}}]

REMOTE_NAMES
what A span with `peer.service` beside another remote name.
text [{"traceId":"1","id":"2","remoteEndpoint":{"serviceName":"r"},"tags":{"peer.service":"p"}}]

MICROS_GROUPS
what The same as a group in JSON.
text {"resourceSpans":[{"resource":{"attributes":[{"key":"host.name","value":{"stringValue":"n1"}},{"key":"service.name",
 "value":{"stringValue":"shop"}}]},"scopeSpans":[{"scope":{"name":"lib","version":"1.0"},
 "spans":[{"attributes":[{"key":"http.request.method","value":{"stringValue":"GET"}},{"key":"http.response.status_code",
 "value":{"intValue":"200"}}],"endTimeUnixNano":"1700000000223456000","flags":1,"kind":3,"name":"GET /cart",
 "spanId":"b7ad6b7169203331","startTimeUnixNano":"1700000000123456000","traceId":"0af7651916cd43dd8448eb211c80319c"}]}]}]}

EVERY_MEMBER
what A group with each member, in JSON.
text {"resourceSpans":[{"resource":{"attributes":[{"key":"service.name","value":{"stringValue":"é"}}],
 "droppedAttributesCount":5},"schemaUrl":"r","scopeSpans":[{"schemaUrl":"s","scope":{"attributes":[{"key":"k",
 "value":{"boolValue":false}}],"droppedAttributesCount":6,"name":"lib","version":"1"},"spans":[{"attributes":[{},{"key":"b",
 "value":{"bytesValue":"/+8="}},{"key":"l","value":{"arrayValue":{"values":[{},{"stringValue":""},{"arrayValue":{}},
 {"kvlistValue":{}}]}}},{"key":"m","value":{"kvlistValue":{"values":[{"value":{"intValue":"0"}},{"key":"x"}]}}},{"key":"n",
 "value":{"intValue":"-9223372036854775808"}}],"droppedAttributesCount":1,"droppedEventsCount":3,"droppedLinksCount":5,
 "endTimeUnixNano":"18446744073709551615","events":[{},{"attributes":[{"key":"k",
 "value":{"intValue":"9223372036854775807"}}],"droppedAttributesCount":2,"name":"e","timeUnixNano":"7"}],"flags":257,
 "kind":5,"links":[{"attributes":[{"key":"k","value":{"boolValue":true}}],"droppedAttributesCount":4,"flags":4294967295,
 "spanId":"0000000000000002","traceId":"00000000000000000000000000000001","traceState":"c=d"}],"name":"😀\"\\/\n",
 "parentSpanId":"8000000000000000","spanId":"ffffffffffffffff","startTimeUnixNano":"1","status":{"code":2,"message":"boom"},
 "traceId":"ffffffffffffffffffffffffffffffff","traceState":"a=b"}]}]},{}]}

EVERY_FIELD
what The same in protobuf.
text 0aba020a180a140a0c736572766963652e6e616d6512040a02c3a91005129a020a130a036c69621201311a070a016b12021000200612ff010a10ff
 ffffffffffffffffffffffffffffff1208ffffffffffffffff1a03613d62220880000000000000002a08f09f9880225c2f0a3005390100000000000000
 41ffffffffffffffff4a004a090a016212043a02ffef4a150a016c12102a0e0a000a020a000a022a000a0232004a120a016d120d320b0a04120218000a
 030a01784a100a016e120b188080808080808080800150015a005a1f0907000000000000001201651a0f0a016b120a18ffffffffffffffff7f20026003
 6a310a1000000000000000000000000000000001120800000000000000021a03633d6422070a016b12021001280435ffffffff70057a081204626f6f6d
 18028501010100001a01731a01720a00

BATCH_OF_TWO
what One batch of two spans.
text 0c00010b00010000000173000f00020c000000020a000100000000000000010a000200000000000000000a000300000000000000020a0004000000
 00000000000b00050000000161080007000000000a000800000000000000000a00090000000000000000000a000100000000000000010a000200000000
 000000000a000300000000000000020a000400000000000000000b00050000000161080007000000000a000800000000000000000a0009000000000000
 00000000

PLAIN_BATCH
what A batch of one span of no service.
text 0c00010b000100000000000f00020c000000010a000100000000000000010a000200000000000000000a000300000000000000020a000400000000
 000000000b00050000000161080007000000000a000800000000000000000a000900000000000000000000

TAGGED_BATCH
what A batch of one span with a tag.
text 0c00010b00010000000473686f70000f00020c000000010a000100000000000000010a000200000000000000000a000300000000000000020a0004
 00000000000000000b000500000003706179080007000000010a000800000000000000010a000900000000000000020f000a0c000000010b0001000000
 0161080002000000000b00030000000131000000

TRUTH_COMPACT
what A truth value in a tag, in the compact protocol.
text 1c180000191c1602160016041600180161250016001600191c180f6f74656c2e617474722e6572726f72150431000000

STOCK
what A request of four spans that a stock protobuf library wrote.
text 0a9401129101123e0a105b8efff798038103d269b633813fc60c1208eee19b7ec3c1b1742a0e504f5354202f636865636b6f757439004859e3faeb
 6f15410012f41efbeb6f15124f0a105b8efff798038103d269b633813fc60c120800f067aa0ba902b72208eee19b7ec3c1b1742a15576172656e6b6f72
 62207072c3bc66656e20e282ac3990185de3faeb6f1541805f0d10fbeb6f150a6b1200126712470a105b8efff798038103d269b633813fc60c1208b7ad
 6b7169203331220800f067aa0ba902b72a0d53454c454354206f726465727339e0db5de3faeb6f1541e1db5de3faeb6f15121c0a100af7651916cd43dd
 8448eb211c80319c120800000000000000010a00

TWO_GROUPS
what The same twice.
text {"resourceSpans":[{"scopeSpans":[{"spans":[{"name":"a","spanId":"0000000000000002",
 "traceId":"00000000000000000000000000000001"}]}]},{"scopeSpans":[{"spans":[{"name":"a","spanId":"0000000000000002",
 "traceId":"00000000000000000000000000000001"}]}]}]}

LINK_OF_TRACE
what A span with a link of its own trace, in JSON.
text {"resourceSpans":[{"scopeSpans":[{"spans":[{"traceId":"00000000000000000000000000000001","spanId":"0000000000000002",
 "name":"a","links":[{"traceId":"00000000000000000000000000000001","spanId":"0000000000000001",
 "attributes":[{"key":"opentracing.ref_type","value":{"stringValue":"child_of"}}]}]}]}]}]}

ENDS_BEFORE_START
what A span that ends before it starts, in JSON.
text {"resourceSpans":[{"scopeSpans":[{"spans":[{"traceId":"00000000000000000000000000000001","spanId":"0000000000000002",
 "name":"a","startTimeUnixNano":"2001","endTimeUnixNano":"2000"}]}]}]}

ENDS_BEFORE_START_REQUEST
what The same as a request.
text 0a35123312310a1000000000000000000000000000000001120800000000000000022a016139d10700000000000041d007000000000000

EVENT_GROUP
what A span with an event that has an attribute, in JSON.
text {"resourceSpans":[{"scopeSpans":[{"spans":[{"traceId":"00000000000000000000000000000001","spanId":"0000000000000002",
 "name":"a","events":[{"timeUnixNano":"1000","name":"e","attributes":[{"key":"event","value":{"stringValue":"x"}}]}]}]}]}]}

EVENT_REQUEST
what The same as a request.
text 0a3f123d123b0a1000000000000000000000000000000001120800000000000000022a01615a1a09e8030000000000001201651a0c0a056576656e
 7412030a0178

EVENT_SPANS
what The same as a span of Zipkin.
text [{"annotations":[{"timestamp":1,"value":"\"e\":{\"event\":\"x\"}"}],"id":"0000000000000002","name":"a",
 "traceId":"00000000000000000000000000000001"}]

GREATEST_COUNTS
what Four counts that are the greatest, in JSON.
text {"resourceSpans":[{"scopeSpans":[{"spans":[{"droppedAttributesCount":4294967295,"droppedEventsCount":4294967295,
 "droppedLinksCount":4294967295,"flags":4294967295,"name":"a","spanId":"0000000000000002",
 "traceId":"00000000000000000000000000000001"}]}]}]}

BITS_63
what The greatest number of 63 bits as a time, and one more, in JSON.
text {"resourceSpans":[{"scopeSpans":[{"spans":[{"endTimeUnixNano":"9223372036854775808","name":"a",
 "spanId":"0000000000000002","startTimeUnixNano":"9223372036854775807","traceId":"00000000000000000000000000000001"}]}]}]}

NO_DURATION
what A span of Zipkin without a duration.
text [{"id":"0000000000000002","name":"a","timestamp":5,"traceId":"00000000000000000000000000000001"}]

FLAGS_SPANS
what A span of Zipkin with the flags of Jaeger.
text [{"id":"0000000000000002","localEndpoint":{"serviceName":"s"},"name":"a","tags":{"jaeger.flags":"2"},
 "traceId":"00000000000000000000000000000001"}]

SERVICE_SPAN
what The request of the span of `SPAN_BATCH`.
text 0a3c0a150a130a0c736572766963652e6e616d6512030a0173122312210a1000000000000000000000000000000001120800000000000000022a01
 613001

ERROR_REQUEST
what A request of one span with the attribute `error`, a truth value.
text 0a30122e122c0a1000000000000000000000000000000001120800000000000000022a01614a0b0a056572726f7212021001

EQUAL_TAGS
what A batch of one span with a key twice, and `error` as a text, in the compact protocol.
text 1c18017300191c1602160016041600180161250016001600193c18016b15001801310018016b15001801320018056572726f721500180474727565
 000000

MICRO_SPANS
what A span of Zipkin that takes a microsecond.
text [{"duration":1,"id":"0000000000000002","name":"a","timestamp":1,"traceId":"00000000000000000000000000000001"}]

TRUTH_SPANS
what A span of Zipkin with a truth value.
text [{"id":"0000000000000002","name":"a","tags":{"ok":"true"},"traceId":"00000000000000000000000000000001"}]

TWICE_AND_NOWHERE
what A span with a key that stands twice, and a link to nowhere, in JSON.
text {"resourceSpans":[{"scopeSpans":[{"spans":[{"traceId":"00000000000000000000000000000001","spanId":"0000000000000002",
 "name":"a","attributes":[{"key":"k","value":{"intValue":"1"}},{"key":"k","value":{"intValue":2}}],"links":[{"traceId":"",
 "spanId":""}]}]}]}]}

DOUBLE_REQUEST
what A request of one span with a double.
text 0a331231122f0a1000000000000000000000000000000001120800000000000000022a01614a0e0a0164120921000000000000f83f

MEMBERS
what The front of a document of one span, behind which members of it stand.
text {"resourceSpans":[{"scopeSpans":[{"spans":[{"traceId":"00000000000000000000000000000001","spanId":"0000000000000002",
 "name":"a",

VALUE
what The front of a document of one span with one attribute, behind which its value stands.
text {"resourceSpans":[{"scopeSpans":[{"spans":[{"traceId":"00000000000000000000000000000001","spanId":"0000000000000002",
 "name":"a","attributes":[{"key":"k","value":

LISTS_24
what A value of 24 lists, one in the other, in JSON.
text {"arrayValue":{"values":[{"arrayValue":{"values":[{"arrayValue":{"values":[{"arrayValue":{"values":[{"arrayValue":{
 "values":[{"arrayValue":{"values":[{"arrayValue":{"values":[{"arrayValue":{"values":[{"arrayValue":{"values":[{
 "arrayValue":{"values":[{"arrayValue":{"values":[{"arrayValue":{"values":[{"arrayValue":{"values":[{"arrayValue":{"values":
 [{"arrayValue":{"values":[{"arrayValue":{"values":[{"arrayValue":{"values":[{"arrayValue":{"values":[{"arrayValue":{
 "values":[{"arrayValue":{"values":[{"arrayValue":{"values":[{"arrayValue":{"values":[{"arrayValue":{"values":[{
 "arrayValue":{}}]}}]}}]}}]}}]}}]}}]}}]}}]}}]}}]}}]}}]}}]}}]}}]}}]}}]}}]}}]}}]}}]}}]}}

LISTS_24_MESSAGE
what The same in protobuf.
text 2a5c0a5a2a580a562a540a522a500a4e2a4c0a4a2a480a462a440a422a400a3e2a3c0a3a2a380a362a340a322a300a2e2a2c0a2a2a280a262a
 240a222a200a1e2a1c0a1a2a180a162a140a122a100a0e2a0c0a0a2a080a062a040a022a00

TURNS_23
what A value of 23 lists and maps in turn, a list first, in JSON.
text {"arrayValue":{"values":[{"kvlistValue":{"values":[{"key":"k","value":{"arrayValue":{"values":[{"kvlistValue":{
 "values":[{"key":"k","value":{"arrayValue":{"values":[{"kvlistValue":{"values":[{"key":"k","value":{"arrayValue":{"values":
 [{"kvlistValue":{"values":[{"key":"k","value":{"arrayValue":{"values":[{"kvlistValue":{"values":[{"key":"k","value":{
 "arrayValue":{"values":[{"kvlistValue":{"values":[{"key":"k","value":{"arrayValue":{"values":[{"kvlistValue":{"values":[{
 "key":"k","value":{"arrayValue":{"values":[{"kvlistValue":{"values":[{"key":"k","value":{"arrayValue":{"values":[{
 "kvlistValue":{"values":[{"key":"k","value":{"arrayValue":{"values":[{"kvlistValue":{"values":[{"key":"k","value":{
 "arrayValue":{"values":[{"kvlistValue":{"values":[{"key":"k","value":{"arrayValue":
 {}}}]}}]}}}]}}]}}}]}}]}}}]}}]}}}]}}]}}}]}}]}}}]}}]}}}]}}]}}}]}}]}}}]}}]}}}]}}]}}

TURNS_23_MESSAGE
what The same in protobuf.
text 2a95010a9201328f010a8c010a016b1286012a83010a8001327e0a7c0a016b12772a750a7332710a6f0a016b126a2a680a6632640a620a016b
 125d2a5b0a5932570a550a016b12502a4e0a4c324a0a480a016b12432a410a3f323d0a3b0a016b12362a340a3232300a2e0a016b12292a270a2532230a
 210a016b121c2a1a0a1832160a140a016b120f2a0d0a0b32090a070a016b12022a00

TURNS_24
what One of 24.
text {"arrayValue":{"values":[{"kvlistValue":{"values":[{"key":"k","value":{"arrayValue":{"values":[{"kvlistValue":{
 "values":[{"key":"k","value":{"arrayValue":{"values":[{"kvlistValue":{"values":[{"key":"k","value":{"arrayValue":{"values":
 [{"kvlistValue":{"values":[{"key":"k","value":{"arrayValue":{"values":[{"kvlistValue":{"values":[{"key":"k","value":{
 "arrayValue":{"values":[{"kvlistValue":{"values":[{"key":"k","value":{"arrayValue":{"values":[{"kvlistValue":{"values":[{
 "key":"k","value":{"arrayValue":{"values":[{"kvlistValue":{"values":[{"key":"k","value":{"arrayValue":{"values":[{
 "kvlistValue":{"values":[{"key":"k","value":{"arrayValue":{"values":[{"kvlistValue":{"values":[{"key":"k","value":{
 "arrayValue":{"values":[{"kvlistValue":{"values":[{"key":"k","value":{"arrayValue":{"values":[{"kvlistValue":
 {}}]}}}]}}]}}}]}}]}}}]}}]}}}]}}]}}}]}}]}}}]}}]}}}]}}]}}}]}}]}}}]}}]}}}]}}]}}}]}}]}}

TURNS_24_MESSAGE
what The same in protobuf.
text 2a9b010a98013295010a92010a016b128c012a89010a86013283010a80010a016b127b2a790a7732750a730a016b126e2a6c0a6a32680a660a
 016b12612a5f0a5d325b0a590a016b12542a520a50324e0a4c0a016b12472a450a4332410a3f0a016b123a2a380a3632340a320a016b122d2a2b0a2932
 270a250a016b12202a1e0a1c321a0a180a016b12132a110a0f320d0a0b0a016b12062a040a023200
"#;
