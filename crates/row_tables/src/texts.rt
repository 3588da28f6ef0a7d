//! Texts of spans, each of which stands here alone: what converts spans is held against them. What is no JSON is in
//! hexadecimal.

/// The request of one span, as an SDK writes it.
pub const SDK_REQUEST: &str =
    "0ac0010a2b0a110a09686f73742e6e616d6512040a026e310a160a0c736572766963652e6e616d6512060a04\
    73686f701290010a0a0a036c69621203312e301281010a100af7651916cd43dd8448eb211c80319c1208b7ad\
    6b71692033312a09474554202f6361727430033915cd853dfe9c97174115ae7b43fe9c97174a1c0a13687474\
    702e726571756573742e6d6574686f6412050a034745544a200a19687474702e726573706f6e73652e737461\
    7475735f636f6465120318c801850101010000";

/// The same in whole microseconds and with the first of its flags alone, which is all that Jaeger keeps of them.
pub const MICROS_REQUEST: &str =
    "0ac0010a2b0a110a09686f73742e6e616d6512040a026e310a160a0c736572766963652e6e616d6512060a04\
    73686f701290010a0a0a036c69621203312e301281010a100af7651916cd43dd8448eb211c80319c1208b7ad\
    6b71692033312a09474554202f6361727430033900ca853dfe9c97174100ab7b43fe9c97174a1c0a13687474\
    702e726571756573742e6d6574686f6412050a034745544a200a19687474702e726573706f6e73652e737461\
    7475735f636f6465120318c801850101000000";

/// `SDK_REQUEST` as a group in JSON.
pub const SDK_GROUPS: &str =
    r#"{"resourceSpans":[{"resource":{"attributes":[{"key":"host.name","value":{"stringValue":"n1"}},{"key":"service.name","value":{"stringValue":"shop"}}]},"scopeSpans":[{"scope":{"name":"lib","version":"1.0"},"spans":[{"attributes":[{"key":"http.request.method","value":{"stringValue":"GET"}},{"key":"http.response.status_code","value":{"intValue":"200"}}],"endTimeUnixNano":"1700000000223456789","flags":257,"kind":3,"name":"GET /cart","spanId":"b7ad6b7169203331","startTimeUnixNano":"1700000000123456789","traceId":"0af7651916cd43dd8448eb211c80319c"}]}]}]}"#;

/// The same span as a batch of Jaeger in the binary protocol.
pub const SDK_BATCH: &str =
    "0c00010b00010000000473686f700f00020c000000010b000100000009686f73742e6e616d65080002000000\
    000b0003000000026e3100000f00020c000000010a00018448eb211c80319c0a00020af7651916cd43dd0a00\
    03b7ad6b71692033310a000400000000000000000b000500000009474554202f63617274080007000000010a\
    000800060a24182022400a000900000000000186a00f000a0c000000050b000100000013687474702e726571\
    756573742e6d6574686f64080002000000000b000300000003474554000b000100000019687474702e726573\
    706f6e73652e7374617475735f636f6465080002000000030a000600000000000000c8000b00010000000f6f\
    74656c2e73636f70652e6e616d65080002000000000b0003000000036c6962000b0001000000126f74656c2e\
    73636f70652e76657273696f6e080002000000000b000300000003312e30000b0001000000097370616e2e6b\
    696e64080002000000000b000300000006636c69656e74000000";

/// That batch in the compact protocol.
pub const SDK_COMPACT: &str =
    "1c180473686f70191c1809686f73742e6e616d65150018026e310000191c16c7b9feb7dcb78ab7f70116ba8f\
    eaeca2c6b2f715169db3feedd2a3cad2900116001809474554202f63617274250216808981828389850616c0\
    9a0c195c1813687474702e726571756573742e6d6574686f6415001803474554001819687474702e72657370\
    6f6e73652e7374617475735f636f6465150646900300180f6f74656c2e73636f70652e6e616d65150018036c\
    69620018126f74656c2e73636f70652e76657273696f6e15001803312e300018097370616e2e6b696e641500\
    1806636c69656e74000000";

/// The same span as one of Zipkin.
pub const SDK_SPANS: &str =
    r#"[{"duration":100000,"id":"b7ad6b7169203331","kind":"CLIENT","localEndpoint":{"serviceName":"shop"},"name":"GET /cart","tags":{"http.request.method":"GET","http.response.status_code":"200","otel.resource.host.name":"n1","otel.scope.name":"lib","otel.scope.version":"1.0"},"timestamp":1700000000123456,"traceId":"0af7651916cd43dd8448eb211c80319c"}]"#;

/// A batch as a client of Jaeger writes it, in the compact protocol: a child with a log.
pub const CLIENT_COMPACT: &str =
    "1c1803617069192c1808686f73746e616d6515001802683100180269701500180831302e302e302e31000019\
    1c160a1600160e160a180367657425021680897a16f403191c18097370616e2e6b696e641500180673657276\
    657200191c16c88a7a191c18056576656e7415001804646f6e6500000000";

/// The same as a span of Zipkin.
pub const SPANS_OF_CLIENT: &str =
    r#"[{"annotations":[{"timestamp":1000100,"value":"done"}],"duration":250,"id":"0000000000000007","kind":"SERVER","localEndpoint":{"serviceName":"api"},"name":"get","parentId":"0000000000000005","tags":{"otel.resource.hostname":"h1","otel.resource.ip":"10.0.0.1"},"timestamp":1000000,"traceId":"00000000000000000000000000000005"}]"#;

/// A root with two references to its own trace, in the compact protocol.
pub const ROOT_COMPACT: &str =
    "1c18017300191c1602160016041600180161192c150016021600160600150016021600160800150016001600\
    0000";

/// Its canonical batch, in which the first reference is the parent.
pub const PARENT_COMPACT: &str =
    "1c18017300191c1602160016041606180161191c1500160216001608001500160016000000";

/// The same as a group in JSON: the second reference is a link.
pub const LINKED: &str =
    r#"{"resourceSpans":[{"resource":{"attributes":[{"key":"service.name","value":{"stringValue":"s"}}]},"scopeSpans":[{"spans":[{"kind":1,"links":[{"attributes":[{"key":"opentracing.ref_type","value":{"stringValue":"child_of"}}],"spanId":"0000000000000004","traceId":"00000000000000000000000000000001"}],"name":"a","parentSpanId":"0000000000000003","spanId":"0000000000000002","traceId":"00000000000000000000000000000001"}]}]}]}"#;

/// A batch of one span with the flags 3, in the compact protocol.
pub const FLAGS_COMPACT: &str = "1c18017300191c16021600160416001801612506160016000000";

/// A batch of one span of the service `s`, in the binary protocol.
pub const SPAN_BATCH: &str =
    "0c00010b00010000000173000f00020c000000010a000100000000000000010a000200000000000000000a00\
    0300000000000000020a000400000000000000000b00050000000161080007000000000a0008000000000000\
    00000a000900000000000000000000";

/// The same in the compact protocol.
pub const SPAN_COMPACT: &str = "1c18017300191c16021600160416001801612500160016000000";

/// That span as one of Zipkin, without the brackets of its list.
pub const SERVICE_ZIPKIN_SPAN: &str =
    r#"{"id":"0000000000000002","localEndpoint":{"serviceName":"s"},"name":"a","traceId":"00000000000000000000000000000001"}"#;

/// The batch of that span with a double in a tag, in the binary protocol.
pub const DOUBLE_BATCH: &str =
    "0c00010b00010000000173000f00020c000000010a000100000000000000010a000200000000000000000a00\
    0300000000000000020a000400000000000000000b00050000000161080007000000000a0008000000000000\
    00000a000900000000000000000f000a0c000000010b00010000000164080002000000010400043ff0000000\
    000000000000";

/// The same in the compact protocol.
pub const DOUBLE_COMPACT: &str =
    "1c18017300191c1602160016041600180161250016001600191c180164150227000000000000f03f000000";

/// A span of Zipkin as a client writes it, with a parent that is null.
pub const CLIENT_SPANS: &str =
    r#"[{"traceId":"463ac35c9f6413ad","parentId":null,"id":"463ac35c9f6413ad","kind":"CLIENT","name":"get","timestamp":1472470996199000,"duration":207000,"localEndpoint":{"serviceName":"frontend","ipv4":"127.0.0.1"},"remoteEndpoint":{"serviceName":"backend","ipv4":"192.168.99.101","port":9000},"tags":{"error":"refused","http.path":"/api"}}]"#;

/// Its canonical text.
pub const CLIENT_SPANS_WRITTEN: &str =
    r#"[{"duration":207000,"id":"463ac35c9f6413ad","kind":"CLIENT","localEndpoint":{"ipv4":"127.0.0.1","serviceName":"frontend"},"name":"get","remoteEndpoint":{"ipv4":"192.168.99.101","port":9000,"serviceName":"backend"},"tags":{"error":"refused","http.path":"/api","otel.status_code":"ERROR"},"timestamp":1472470996199000,"traceId":"0000000000000000463ac35c9f6413ad"}]"#;

/// The request of one span: identifiers 1 and 2, name `a`.
pub const ONE_SPAN: &str =
    "0a231221121f0a1000000000000000000000000000000001120800000000000000022a0161";

/// The same without its last byte.
pub const CUT_SPAN: &str =
    "0a231221121f0a1000000000000000000000000000000001120800000000000000022a01";

/// The same span, with its fields in another order, and others that no span has, of each wire type.
pub const UNKNOWN_FIELDS: &str =
    "0a3c12381236a006052a0161120800000000000000020a1000000000000000000000000000000001a9060000\
    000000000000b20601ffbd06000000000a00";

/// The same span as a group in JSON.
pub const ONE_GROUP: &str =
    r#"{"resourceSpans":[{"scopeSpans":[{"spans":[{"name":"a","spanId":"0000000000000002","traceId":"00000000000000000000000000000001"}]}]}]}"#;

/// The same as a span of Zipkin.
pub const ONE_ZIPKIN_SPAN: &str =
    r#"[{"id":"0000000000000002","name":"a","traceId":"00000000000000000000000000000001"}]"#;

/// The request of a span whose name has 28 letters: 64 bytes.
pub const LONG_NAME: &str =
    "0a3e123c123a0a1000000000000000000000000000000001120800000000000000022a1c6161616161616161\
    6161616161616161616161616161616161616161";

/// The same with 29 letters.
pub const LONGER_NAME: &str =
    "0a3f123d123b0a1000000000000000000000000000000001120800000000000000022a1d6161616161616161\
    616161616161616161616161616161616161616161";

/// A request with each field but doubles, as `protoc --encode` writes it.
pub const FULL_REQUEST: &str =
    "0afa010a1a0a160a0c736572766963652e6e616d6512060a0473686f70100112d6010a160a036c6962120331\
    2e301a070a01611202100120ac0212b8010a1001010101010101010101010101010102120802020202020202\
    031a03743d31220803030303030303042a03627579300239004859e3faeb6f15410012f41efbeb6f154a100a\
    016b120b18fbffffffffffffffff0150045a170907000000000000001201651a070a016b1202180120055a00\
    60066a310a1004040404040404040404040404040405120805050505050505061a03753d3222070a016c1202\
    18022807350103000070087a0612026e6f18028501010100001a017312001a0172";

/// The same as a group in JSON.
pub const FULL_GROUP: &str =
    r#"{"resourceSpans":[{"resource":{"attributes":[{"key":"service.name","value":{"stringValue":"shop"}}],"droppedAttributesCount":1},"schemaUrl":"r","scopeSpans":[{"schemaUrl":"s","scope":{"attributes":[{"key":"a","value":{"boolValue":true}}],"droppedAttributesCount":300,"name":"lib","version":"1.0"},"spans":[{"attributes":[{"key":"k","value":{"intValue":"-5"}}],"droppedAttributesCount":4,"droppedEventsCount":6,"droppedLinksCount":8,"endTimeUnixNano":"1544712661000000000","events":[{"attributes":[{"key":"k","value":{"intValue":"1"}}],"droppedAttributesCount":5,"name":"e","timeUnixNano":"7"},{}],"flags":257,"kind":2,"links":[{"attributes":[{"key":"l","value":{"intValue":"2"}}],"droppedAttributesCount":7,"flags":769,"spanId":"0505050505050506","traceId":"04040404040404040404040404040405","traceState":"u=2"}],"name":"buy","parentSpanId":"0303030303030304","spanId":"0202020202020203","startTimeUnixNano":"1544712660000000000","status":{"code":2,"message":"no"},"traceId":"01010101010101010101010101010102","traceState":"t=1"}]},{}]}]}"#;

/// A request of a span that has its identifiers alone, as `protoc --encode` writes it.
pub const BARE_REQUEST: &str =
    "0a20121e121c0a100101010101010101010101010101010212080202020202020203";

/// The same as a group in JSON.
pub const BARE_GROUP: &str =
    r#"{"resourceSpans":[{"scopeSpans":[{"spans":[{"spanId":"0202020202020203","traceId":"01010101010101010101010101010102"}]}]}]}"#;

/// A group with a value of each kind but doubles, as its canonical text.
pub const VALUES_GROUP: &str =
    r#"{"resourceSpans":[{"resource":{"attributes":[{},{"key":"bytes","value":{"bytesValue":""}},{"key":"false","value":{"boolValue":false}},{"key":"list","value":{"arrayValue":{}}},{"key":"low","value":{"intValue":"-9223372036854775808"}},{"key":"map","value":{"kvlistValue":{}}},{"key":"nested","value":{"arrayValue":{"values":[{},{"arrayValue":{"values":[{"boolValue":true}]}},{"kvlistValue":{"values":[{"value":{"intValue":"300"}},{"key":"k"}]}}]}}},{"key":"text","value":{"stringValue":""}},{"key":"zero","value":{"intValue":"0"}}]}}]}"#;

/// Two spans of Zipkin that share an identifier, as their canonical text.
pub const SHARED_SPANS: &str =
    r#"[{"id":"a2fb4a1d1a96d312","kind":"CLIENT","traceId":"0000000000000000463ac35c9f6413ad"},{"id":"a2fb4a1d1a96d312","kind":"SERVER","shared":true,"traceId":"0000000000000000463ac35c9f6413ad"}]"#;

/// A span of Zipkin that calls `bank`, with a mark, an event and tags of each kind, the last of which says nothing.
pub const MARKED_SPANS: &str =
    r#"[{"annotations":[{"timestamp":2,"value":"\"retry\":{\"n\":1}"}],"debug":true,"duration":2,"id":"2","kind":"CLIENT","localEndpoint":{"ipv4":"10.0.0.1","port":80,"serviceName":"shop"},"remoteEndpoint":{"port":5432,"serviceName":"bank"},"tags":{"a":"1","error":"late","otel.resource.host":"n1","otel.scope.name":"lib","otel.scope.version":"2","otel.status_code":"ERROR","w3c.tracestate":"k=v","zipkin.shared":"true"},"timestamp":1,"traceId":"1"}]"#;

/// A post of no spans of Zipkin: a body of two bytes behind a head of 91.
pub const POSTED: &str =
    "POST /api/v2/spans HTTP/1.1\r\nHost: x\r\nContent-Type: application/json\r\nContent-Length: 2\r\n\r\n[]";

/// The answer to it, where spans of Zipkin are what is answered.
pub const ANSWERED: &str =
    "HTTP/1.1 200 OK\r\nContent-Type: application/json\r\nContent-Length: 2\r\n\r\n[]";

/// A post of an object, which is no list of spans.
pub const POSTED_OBJECT: &str =
    "POST /api/v2/spans HTTP/1.1\r\nHost: x\r\nContent-Type: application/json\r\nContent-Length: 2\r\n\r\n{}";

/// The answer to it.
pub const REFUSED_OBJECT: &str =
    "HTTP/1.1 400 Bad Request\r\nContent-Type: text/plain\r\nContent-Length: 26\r\n\r\nunit 0: cause 11 BadShape\n";
