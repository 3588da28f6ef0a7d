//! Losses of inputs, by target: the lines of `losses`.

/// What Jaeger loses of a document.
pub const TO_JAEGER: &str = r#"
a list, a map and no value become texts, and other values stay
run losses --from otlp-json --to jaeger-binary
input {"resourceSpans":[{"scopeSpans":[{"spans":[{"traceId":"00000000000000000000000000000001","spanId":"0000000000000002",
 "name":"a","kind":1,"attributes":[{"key":"b","value":{"bytesValue":"/+8="}},{"key":"l","value":{"arrayValue":{}}},
 {"key":"m","value":{"kvlistValue":{"values":[{"key":"x"}]}}},{"key":"n","value":{"intValue":"7"}},{"key":"t",
 "value":{"stringValue":""}},{"key":"v","value":{"boolValue":true}},{"key":"z","value":{}}]}]}]}]}
output-lines unit 1 span 1: value "l"\nunit 1 span 1: value "m"\nunit 1 span 1: value "z"\nlosses 3\n

the name of a service becomes a text, and another number stays
run losses --from otlp-json --to jaeger-compact
input {"resourceSpans":[{"resource":{"attributes":[{"key":"n","value":{"intValue":"7"}},{"key":"service.name",
 "value":{"intValue":"7"}}]},"scopeSpans":[{"spans":[{"traceId":"00000000000000000000000000000001",
 "spanId":"0000000000000002","name":"a","kind":1}]}]}]}
output-lines unit 1 resource: value "service.name"\nlosses 1\n

a list of an event becomes a text
run losses --from otlp-json --to jaeger-binary
input {"resourceSpans":[{"scopeSpans":[{"spans":[{"traceId":"00000000000000000000000000000001","spanId":"0000000000000002",
 "name":"a","kind":1,"events":[{"attributes":[{"key":"n","value":{"intValue":"7"}}]},{"attributes":[{"key":"l",
 "value":{"arrayValue":{}}},{"key":"n","value":{"bytesValue":"/+8="}}]}]}]}]}]}
output-lines unit 1 span 1 event 2: value "l"\nlosses 1\n

counts go but those of a span
run losses --from otlp-json --to jaeger-compact
input {"resourceSpans":[{"resource":{"droppedAttributesCount":5},"scopeSpans":[{"scope":{"droppedAttributesCount":6},
 "spans":[{"traceId":"00000000000000000000000000000001","spanId":"0000000000000002","name":"a","kind":1,
 "droppedAttributesCount":1,"droppedEventsCount":2,"droppedLinksCount":3,"events":[{},{"droppedAttributesCount":4}],
 "links":[{"traceId":"00000000000000000000000000000009","spanId":"0000000000000003"},
 {"traceId":"00000000000000000000000000000009","spanId":"0000000000000003","droppedAttributesCount":4294967295}]}]}]}]}
output-lines unit 1 resource: dropped-count\nunit 1 scope 1: dropped-count\nunit 1 span 1 event 2: dropped-count\n
 unit 1 span 1 link 2: dropped-count\nlosses 4\n

schema URLs of a resource and of a scope
run losses --from otlp-json --to jaeger-binary
input {"resourceSpans":[{"scopeSpans":[{"scope":{"name":"lib","version":"1"},
 "spans":[{"traceId":"00000000000000000000000000000001","spanId":"0000000000000002","name":"a","kind":1}]},
 {"scope":{"name":"lib","version":"2"},"spans":[{"traceId":"00000000000000000000000000000001","spanId":"0000000000000002",
 "name":"a","kind":1}],"schemaUrl":"s"}],"schemaUrl":"r"},
 {"scopeSpans":[{"spans":[{"traceId":"00000000000000000000000000000001","spanId":"0000000000000002","name":"a","kind":1}]}],
 "schemaUrl":""}]}
output-lines unit 1 resource: schema-url\nunit 1 scope 2: schema-url\nlosses 2\n

an empty name of a service, and others that are empty
run losses --from otlp-json --to jaeger-compact
input {"resourceSpans":[{"resource":{"attributes":[{"key":"k","value":{"stringValue":""}},{"key":"service.name",
 "value":{"stringValue":""}}]},"scopeSpans":[{"spans":[{"traceId":"00000000000000000000000000000001",
 "spanId":"0000000000000002","name":"a","kind":1,"attributes":[{"key":"peer.service","value":{"stringValue":""}},
 {"key":"service.name","value":{"stringValue":""}}]}]}]},{"resource":{"attributes":[{"key":"service.name","value":{}}]},
 "scopeSpans":[{"spans":[{"traceId":"00000000000000000000000000000001","spanId":"0000000000000002","name":"a","kind":1}]}]}]}
output-lines unit 1 resource: empty "service.name"\nunit 2 resource: empty "service.name"\nlosses 2\n

attributes of a scope, and of links without the mark of a child alone
run losses --from otlp-json --to jaeger-binary
input {"resourceSpans":[{"scopeSpans":[{"scope":{"attributes":[{"key":"k","value":{"stringValue":"v"}}]},
 "spans":[{"traceId":"00000000000000000000000000000001","spanId":"0000000000000002","name":"a","kind":1,
 "links":[{"traceId":"00000000000000000000000000000009","spanId":"0000000000000003",
 "attributes":[{"key":"opentracing.ref_type","value":{"stringValue":"child_of"}}]},
 {"traceId":"00000000000000000000000000000009","spanId":"0000000000000003"},{"traceId":"00000000000000000000000000000009",
 "spanId":"0000000000000003","attributes":[{"key":"opentracing.ref_type","value":{"stringValue":"follows_from"}}]},
 {"traceId":"00000000000000000000000000000009","spanId":"0000000000000003","attributes":[{"key":"k",
 "value":{"stringValue":""}},{"key":"opentracing.ref_type","value":{"stringValue":"child_of"}}]}]}]},
 {"scope":{"name":"lib"},"spans":[{"traceId":"00000000000000000000000000000001","spanId":"0000000000000002","name":"a",
 "kind":1}]}]}]}
output-lines unit 1 scope 1: attributes\nunit 1 span 1 link 3: attributes\nunit 1 span 1 link 4: attributes\nlosses 3\n

a start below microseconds
run losses --from otlp-json --to jaeger-compact
input @START_BELOW
output-lines unit 1 span 2: start\nlosses 1\n

an end below microseconds
run losses --from otlp-json --to jaeger-binary
input @END_BELOW
output-lines unit 1 span 1: end\nlosses 1\n

a time of an event below microseconds
run losses --from otlp-json --to jaeger-compact
input @EVENT_BELOW
output-lines unit 1 span 1 event 2: time\nlosses 1\n

no kind, and each other one
run losses --from otlp-json --to jaeger-binary
input @KINDS
output-lines unit 1 span 6: kind\nlosses 1\n

a message without a code, and with one
run losses --from otlp-json --to jaeger-compact
input {"resourceSpans":[{"scopeSpans":[{"spans":[{"traceId":"00000000000000000000000000000001","spanId":"0000000000000002",
 "name":"a","kind":1,"status":{"code":1,"message":"m"}},{"traceId":"00000000000000000000000000000001",
 "spanId":"0000000000000002","name":"a","kind":1,"status":{"code":2,"message":"m"}},
 {"traceId":"00000000000000000000000000000001","spanId":"0000000000000002","name":"a","kind":1,"status":{"message":"m"}},
 {"traceId":"00000000000000000000000000000001","spanId":"0000000000000002","name":"a","kind":1,"status":{"code":2}}]}]}]}
output-lines unit 1 span 3: message\nlosses 1\n

flags above the first bit, and of a link each
run losses --from otlp-json --to jaeger-binary
input {"resourceSpans":[{"scopeSpans":[{"spans":[{"traceId":"00000000000000000000000000000001","spanId":"0000000000000002",
 "name":"a","kind":1,"flags":1},{"traceId":"00000000000000000000000000000001","spanId":"0000000000000002","name":"a",
 "kind":1,"flags":257,"links":[{"traceId":"00000000000000000000000000000009","spanId":"0000000000000003"},
 {"traceId":"00000000000000000000000000000009","spanId":"0000000000000003","flags":1}]}]}]}]}
output-lines unit 1 span 2: flags\nunit 1 span 2 link 2: flags\nlosses 2\n

the state of a link, and that of a span
run losses --from otlp-json --to jaeger-compact
input {"resourceSpans":[{"scopeSpans":[{"spans":[{"traceId":"00000000000000000000000000000001","spanId":"0000000000000002",
 "name":"a","kind":1,"traceState":"a=b","links":[{"traceId":"00000000000000000000000000000009","spanId":"0000000000000003",
 "traceState":"a=b"},{"traceId":"00000000000000000000000000000009","spanId":"0000000000000003"}]}]}]}]}
output-lines unit 1 span 1 link 1: state\nlosses 1\n

a scope without spans
run losses --from otlp-json --to jaeger-binary
input @EMPTY_SCOPE
output-lines unit 1 scope 1: scope-empty\nlosses 1\n

scopes that join the one before, and others
run losses --from otlp-json --to jaeger-compact
input @SCOPES
output-lines unit 1 scope 2: scope-joined\nunit 1 scope 4: scope-empty\nunit 1 scope 5: scope-joined\nlosses 3\n

each loss at once
run losses --from otlp-json --to jaeger-binary
input {"resourceSpans":[{"resource":{"attributes":[{"key":"service.name","value":{"stringValue":""}},{"key":"m",
 "value":{"kvlistValue":{"values":[{"key":"x"}]}}}],"droppedAttributesCount":5},"scopeSpans":[{"scope":{"name":"lib",
 "attributes":[{"key":"k","value":{"stringValue":"v"}}],"droppedAttributesCount":1},"schemaUrl":"s"},
 {"scope":{"name":"lib"},"spans":[{"traceId":"00000000000000000000000000000001","spanId":"0000000000000002","name":"a",
 "startTimeUnixNano":"1","endTimeUnixNano":"1001","flags":2,"status":{"message":"m"},"attributes":[{"key":"z","value":{}},
 {"key":"l","value":{"arrayValue":{}}}],"events":[{"attributes":[{"key":"l","value":{"arrayValue":{}}}],
 "droppedAttributesCount":1,"timeUnixNano":"1"}],"links":[{"traceId":"00000000000000000000000000000009",
 "spanId":"0000000000000003","attributes":[{"key":"k","value":{"stringValue":"v"}}],"droppedAttributesCount":1,"flags":1,
 "traceState":"a=b"}]}]},{"scope":{"name":"lib"},"spans":[{"traceId":"00000000000000000000000000000001",
 "spanId":"0000000000000002","name":"a","kind":1}]}],"schemaUrl":"r"}]}
output-lines unit 1 resource: value "m"\nunit 1 resource: dropped-count\nunit 1 resource: schema-url\n
 unit 1 resource: empty "service.name"\nunit 1 scope 1: dropped-count\nunit 1 scope 1: schema-url\n
 unit 1 scope 1: attributes\nunit 1 scope 1: scope-empty\nunit 1 span 1: value "l"\nunit 1 span 1: value "z"\n
 unit 1 span 1: start\nunit 1 span 1: end\nunit 1 span 1: kind\nunit 1 span 1: message\nunit 1 span 1: flags\n
 unit 1 span 1 event 1: value "l"\nunit 1 span 1 event 1: dropped-count\nunit 1 span 1 event 1: time\n
 unit 1 span 1 link 1: dropped-count\nunit 1 span 1 link 1: attributes\nunit 1 span 1 link 1: flags\n
 unit 1 span 1 link 1: state\nunit 1 scope 3: scope-joined\nlosses 23\n
"#;

/// What Zipkin loses of a document.
pub const TO_ZIPKIN: &str = r#"
all but texts become texts, and in events bytes alone
run losses --from otlp-json --to zipkin-json
input {"resourceSpans":[{"resource":{"attributes":[{"key":"l","value":{"arrayValue":{}}},{"key":"n",
 "value":{"intValue":"7"}},{"key":"t","value":{"stringValue":"7"}}]},
 "scopeSpans":[{"spans":[{"traceId":"00000000000000000000000000000001","spanId":"0000000000000002","name":"a","kind":1,
 "attributes":[{"key":"b","value":{"boolValue":true}},{"key":"t","value":{"stringValue":""}},{"key":"z","value":{}}],
 "events":[{"attributes":[{"key":"l","value":{"arrayValue":{"values":[{}]}}},{"key":"n","value":{"intValue":"1"}},
 {"key":"z","value":{}}]},{"attributes":[{"key":"l","value":{"arrayValue":{"values":[{"bytesValue":"/+8="}]}}},{"key":"n",
 "value":{"intValue":"1"}}]}]}]}]}]}
output-lines unit 1 resource: value "l"\nunit 1 resource: value "n"\nunit 1 span 1: value "b"\nunit 1 span 1: value "z"\n
 unit 1 span 1 event 2: value "l"\nlosses 5\n

the names of services become texts
run losses --from otlp-json --to zipkin-json
input {"resourceSpans":[{"resource":{"attributes":[{"key":"service.name","value":{"intValue":"7"}}]},
 "scopeSpans":[{"spans":[{"traceId":"00000000000000000000000000000001","spanId":"0000000000000002","name":"a","kind":1,
 "attributes":[{"key":"peer.service","value":{"intValue":"7"}}]}]}]}]}
output-lines unit 1 resource: value "service.name"\nunit 1 span 1: value "peer.service"\nlosses 2\n

counts go but those of a span
run losses --from otlp-json --to zipkin-json
input {"resourceSpans":[{"resource":{"droppedAttributesCount":5},"scopeSpans":[{"scope":{"droppedAttributesCount":6},
 "spans":[{"traceId":"00000000000000000000000000000001","spanId":"0000000000000002","name":"a","kind":1,
 "droppedAttributesCount":1,"droppedEventsCount":2,"droppedLinksCount":3,"events":[{},{"droppedAttributesCount":4}]}]}]}]}
output-lines unit 1 resource: dropped-count\nunit 1 scope 1: dropped-count\nunit 1 span 1 event 2: dropped-count\nlosses 3\n

schema URLs of a resource and of a scope
run losses --from otlp-json --to zipkin-json
input {"resourceSpans":[{"scopeSpans":[{"scope":{"name":"lib","version":"1"},
 "spans":[{"traceId":"00000000000000000000000000000001","spanId":"0000000000000002","name":"a","kind":1}]},
 {"scope":{"name":"lib","version":"2"},"spans":[{"traceId":"00000000000000000000000000000001","spanId":"0000000000000002",
 "name":"a","kind":1}],"schemaUrl":"s"}],"schemaUrl":"r"},{"resource":{"attributes":[{"key":"service.name",
 "value":{"stringValue":"other"}}]},"scopeSpans":[{"spans":[{"traceId":"00000000000000000000000000000001",
 "spanId":"0000000000000002","name":"a","kind":1}]}],"schemaUrl":""}]}
output-lines unit 1 resource: schema-url\nunit 1 scope 2: schema-url\nlosses 2\n

empty names of services, and others that are empty
run losses --from otlp-json --to zipkin-json
input {"resourceSpans":[{"resource":{"attributes":[{"key":"peer.service","value":{"stringValue":""}},{"key":"service.name",
 "value":{"stringValue":""}}]},"scopeSpans":[{"spans":[{"traceId":"00000000000000000000000000000001",
 "spanId":"0000000000000002","name":"a","kind":1,"attributes":[{"key":"k","value":{"stringValue":""}},{"key":"peer.service",
 "value":{"stringValue":""}}]},{"traceId":"00000000000000000000000000000001","spanId":"0000000000000002","name":"a",
 "kind":1,"attributes":[{"key":"peer.service","value":{"stringValue":"db"}},{"key":"service.name",
 "value":{"stringValue":""}}]},{"traceId":"00000000000000000000000000000001","spanId":"0000000000000002","name":"a",
 "kind":1,"attributes":[{"key":"peer.service","value":{}}]}]}]}]}
output-lines unit 1 resource: empty "service.name"\nunit 1 span 1: empty "peer.service"\n
 unit 1 span 3: empty "peer.service"\nlosses 3\n

attributes of a scope
run losses --from otlp-json --to zipkin-json
input {"resourceSpans":[{"scopeSpans":[{"scope":{"name":"lib"},"spans":[{"traceId":"00000000000000000000000000000001",
 "spanId":"0000000000000002","name":"a","kind":1}]},{"scope":{"attributes":[{"key":"k","value":{"stringValue":"v"}}]},
 "spans":[{"traceId":"00000000000000000000000000000001","spanId":"0000000000000002","name":"a","kind":1}]}]}]}
output-lines unit 1 scope 2: attributes\nlosses 1\n

a start below microseconds
run losses --from otlp-json --to zipkin-json
input @START_BELOW
output-lines unit 1 span 2: start\nlosses 1\n

an end below microseconds
run losses --from otlp-json --to zipkin-json
input @END_BELOW
output-lines unit 1 span 1: end\nlosses 1\n

a time of an event below microseconds
run losses --from otlp-json --to zipkin-json
input @EVENT_BELOW
output-lines unit 1 span 1 event 2: time\nlosses 1\n

no kind, and each other one
run losses --from otlp-json --to zipkin-json
input @KINDS
output-lines unit 1 span 6: kind\nlosses 1\n

a message without a code and one beside OK, and another
run losses --from otlp-json --to zipkin-json
input {"resourceSpans":[{"scopeSpans":[{"spans":[{"traceId":"00000000000000000000000000000001","spanId":"0000000000000002",
 "name":"a","kind":1,"status":{"code":1,"message":"m"}},{"traceId":"00000000000000000000000000000001",
 "spanId":"0000000000000002","name":"a","kind":1,"status":{"code":2,"message":"m"}},
 {"traceId":"00000000000000000000000000000001","spanId":"0000000000000002","name":"a","kind":1,"status":{"message":"m"}},
 {"traceId":"00000000000000000000000000000001","spanId":"0000000000000002","name":"a","kind":1,"status":{"code":1}}]}]}]}
output-lines unit 1 span 1: message\nunit 1 span 3: message\nlosses 2\n

flags, and those of Jaeger in an attribute
run losses --from otlp-json --to zipkin-json
input {"resourceSpans":[{"scopeSpans":[{"spans":[{"traceId":"00000000000000000000000000000001","spanId":"0000000000000002",
 "name":"a","kind":1,"attributes":[{"key":"jaeger.flags","value":{"stringValue":"2"}}]},
 {"traceId":"00000000000000000000000000000001","spanId":"0000000000000002","name":"a","kind":1,"flags":1}]}]}]}
output-lines unit 1 span 2: flags\nlosses 1\n

links, of which nothing else is told
run losses --from otlp-json --to zipkin-json
input {"resourceSpans":[{"scopeSpans":[{"spans":[{"traceId":"00000000000000000000000000000001","spanId":"0000000000000002",
 "name":"a","kind":1,"links":[{"traceId":"00000000000000000000000000000009","spanId":"0000000000000003"},
 {"traceId":"00000000000000000000000000000009","spanId":"0000000000000003","attributes":[{"key":"l",
 "value":{"arrayValue":{}}}],"droppedAttributesCount":1,"flags":1,"traceState":"a=b"}]},
 {"traceId":"00000000000000000000000000000001","spanId":"0000000000000002","name":"a","kind":1,"traceState":"a=b"}]}]}]}
output-lines unit 1 span 1 link 1: link\nunit 1 span 1 link 2: link\nlosses 2\n

a scope without spans
run losses --from otlp-json --to zipkin-json
input @EMPTY_SCOPE
output-lines unit 1 scope 1: scope-empty\nlosses 1\n

scopes that join the one before, and others
run losses --from otlp-json --to zipkin-json
input @SCOPES
output-lines unit 1 scope 2: scope-joined\nunit 1 scope 4: scope-empty\nunit 1 scope 5: scope-joined\nlosses 3\n

units without spans
run losses --from otlp-json --to zipkin-json
input {"resourceSpans":[{},{"scopeSpans":[{"spans":[{"traceId":"00000000000000000000000000000001",
 "spanId":"0000000000000002","name":"a","kind":1}]}]},{"resource":{"attributes":[{"key":"n","value":{"intValue":"7"}}]},
 "scopeSpans":[{"scope":{"name":"lib"}}]}]}
output-lines unit 1: unit-empty\nunit 3: unit-empty\nunit 3 resource: value "n"\nunit 3 scope 1: scope-empty\nlosses 4\n

a unit that joins the one before, and one of another resource
run losses --from otlp-json --to zipkin-json
input {"resourceSpans":[{"resource":{"attributes":[{"key":"service.name","value":{"stringValue":"s"}}]},
 "scopeSpans":[{"spans":[{"traceId":"00000000000000000000000000000001","spanId":"0000000000000002","name":"a","kind":1}]}]},
 {"resource":{"attributes":[{"key":"service.name","value":{"stringValue":"s"}}]},"scopeSpans":[{"scope":{"name":"lib"},
 "spans":[{"traceId":"00000000000000000000000000000001","spanId":"0000000000000002","name":"a","kind":1}]}]},
 {"resource":{"attributes":[{"key":"service.name","value":{"stringValue":"t"}}]},"scopeSpans":[{"scope":{"name":"lib"},
 "spans":[{"traceId":"00000000000000000000000000000001","spanId":"0000000000000002","name":"a","kind":1}]}]}]}
output-lines unit 2: unit-joined\nlosses 1\n

each loss at once
run losses --from otlp-json --to zipkin-json
input {"resourceSpans":[{"resource":{"attributes":[{"key":"n","value":{"stringValue":"7"}}]},
 "scopeSpans":[{"scope":{"name":"lib"},"spans":[{"traceId":"00000000000000000000000000000001","spanId":"0000000000000002",
 "name":"a","kind":1}]}]},{},{"resource":{"attributes":[{"key":"service.name","value":{"stringValue":""}},{"key":"n",
 "value":{"intValue":"7"}}],"droppedAttributesCount":5},"scopeSpans":[{"scope":{"name":"lib","attributes":[{"key":"k",
 "value":{"stringValue":"v"}}],"droppedAttributesCount":1},"schemaUrl":"s"},{"scope":{"name":"lib"},
 "spans":[{"traceId":"00000000000000000000000000000001","spanId":"0000000000000002","name":"a","startTimeUnixNano":"1",
 "endTimeUnixNano":"1001","flags":1,"status":{"code":1,"message":"m"},"attributes":[{"key":"z","value":{}},{"key":"b",
 "value":{"boolValue":true}},{"key":"peer.service","value":{"stringValue":""}}],"events":[{"attributes":[{"key":"b",
 "value":{"bytesValue":"/+8="}}],"droppedAttributesCount":1,"timeUnixNano":"1"}],
 "links":[{"traceId":"00000000000000000000000000000009","spanId":"0000000000000003"}]}]}],"schemaUrl":"r"}]}
output-lines unit 2: unit-empty\nunit 3: unit-joined\nunit 3 resource: value "n"\nunit 3 resource: dropped-count\n
 unit 3 resource: schema-url\nunit 3 resource: empty "service.name"\nunit 3 scope 1: dropped-count\n
 unit 3 scope 1: schema-url\nunit 3 scope 1: attributes\nunit 3 scope 1: scope-empty\nunit 3 scope 2: scope-joined\n
 unit 3 span 1: value "b"\nunit 3 span 1: value "z"\nunit 3 span 1: empty "peer.service"\nunit 3 span 1: start\n
 unit 3 span 1: end\nunit 3 span 1: kind\nunit 3 span 1: message\nunit 3 span 1: flags\nunit 3 span 1 event 1: value "b"\n
 unit 3 span 1 event 1: dropped-count\nunit 3 span 1 event 1: time\nunit 3 span 1 link 1: link\nlosses 23\n
"#;

/// Losses of units one after the other, and their places.
pub const JOINED: &str = r#"
a scope that joins across two units
run losses --from otlp-json --to zipkin-json
input @ACROSS_UNITS
output-lines unit 2: unit-joined\nunit 2 scope 1: scope-joined\nlosses 2\n

the same of Jaeger, whose units stay
run losses --from otlp-json --to jaeger-compact
input @ACROSS_UNITS
output-lines losses 0\n

a unit without spans between two of one resource
run losses --from otlp-json --to zipkin-json
input @EMPTY_BETWEEN
output-lines unit 2: unit-empty\nunit 3: unit-joined\nunit 3 scope 1: scope-joined\nlosses 3\n

the same of Jaeger
run losses --from otlp-json --to jaeger-binary
input @EMPTY_BETWEEN
output-lines losses 0\n

a unit of another resource between
run losses --from otlp-json --to zipkin-json
input {"resourceSpans":[{"resource":{"attributes":[{"key":"service.name","value":{"stringValue":"s"}}]},
 "scopeSpans":[{"scope":{"name":"lib"},"spans":[{"traceId":"00000000000000000000000000000001","spanId":"0000000000000002",
 "name":"a","kind":1}]}]},{"resource":{"attributes":[{"key":"service.name","value":{"stringValue":"t"}}]},
 "scopeSpans":[{"scope":{"name":"lib"},"spans":[{"traceId":"00000000000000000000000000000001","spanId":"0000000000000002",
 "name":"a","kind":1}]}]},{"resource":{"attributes":[{"key":"service.name","value":{"stringValue":"s"}}]},
 "scopeSpans":[{"scope":{"name":"lib"},"spans":[{"traceId":"00000000000000000000000000000001","spanId":"0000000000000002",
 "name":"a","kind":1}]}]}]}
output-lines losses 0\n

resources that are equal as texts
run losses --from otlp-json --to zipkin-json
input {"resourceSpans":[{"resource":{"attributes":[{"key":"n","value":{"intValue":"1"}}]},
 "scopeSpans":[{"scope":{"name":"lib","version":"1"},"spans":[{"traceId":"00000000000000000000000000000001",
 "spanId":"0000000000000002","name":"a","kind":1}]}]},{"resource":{"attributes":[{"key":"n","value":{"stringValue":"1"}}]},
 "scopeSpans":[{"scope":{"name":"lib","version":"2"},"spans":[{"traceId":"00000000000000000000000000000001",
 "spanId":"0000000000000002","name":"a","kind":1}]}]}]}
output-lines unit 1 resource: value "n"\nunit 2: unit-joined\nlosses 2\n

resources that are equal without an empty name
run losses --from otlp-json --to zipkin-json
input {"resourceSpans":[{"scopeSpans":[{"scope":{"name":"lib","version":"1"},
 "spans":[{"traceId":"00000000000000000000000000000001","spanId":"0000000000000002","name":"a","kind":1}]}]},
 {"resource":{"attributes":[{"key":"service.name","value":{"stringValue":""}}]},"scopeSpans":[{"scope":{"name":"lib",
 "version":"2"},"spans":[{"traceId":"00000000000000000000000000000001","spanId":"0000000000000002","name":"a","kind":1}]}]}]}
output-lines unit 2: unit-joined\nunit 2 resource: empty "service.name"\nlosses 2\n

a first scope of another name, and a second that joins it
run losses --from otlp-json --to zipkin-json
input {"resourceSpans":[{"resource":{"attributes":[{"key":"service.name","value":{"stringValue":"s"}}]},
 "scopeSpans":[{"scope":{"name":"lib","version":"1"},"spans":[{"traceId":"00000000000000000000000000000001",
 "spanId":"0000000000000002","name":"a","kind":1}]},{"scope":{"name":"lib","version":"2"},
 "spans":[{"traceId":"00000000000000000000000000000001","spanId":"0000000000000002","name":"a","kind":1}]}]},
 {"resource":{"attributes":[{"key":"service.name","value":{"stringValue":"s"}}]},"scopeSpans":[{"scope":{"name":"lib",
 "version":"1"},"spans":[{"traceId":"00000000000000000000000000000001","spanId":"0000000000000002","name":"a","kind":1}]},
 {"scope":{"name":"lib"}},{"scope":{"name":"lib","version":"1"},"spans":[{"traceId":"00000000000000000000000000000001",
 "spanId":"0000000000000002","name":"a","kind":1}]}]}]}
output-lines unit 2: unit-joined\nunit 2 scope 2: scope-empty\nunit 2 scope 3: scope-joined\nlosses 3\n

a loss of the third unit
run losses --from otlp-json --to jaeger-compact
input {"resourceSpans":[{"scopeSpans":[{"scope":{"name":"lib"},"spans":[{"traceId":"00000000000000000000000000000001",
 "spanId":"0000000000000002","name":"a","kind":1}]},{"spans":[{"traceId":"00000000000000000000000000000001",
 "spanId":"0000000000000002","name":"a","kind":1}]}]},{},{"scopeSpans":[{"scope":{"name":"lib"},
 "spans":[{"traceId":"00000000000000000000000000000001","spanId":"0000000000000002","name":"a","kind":1}]},
 {"spans":[{"traceId":"00000000000000000000000000000001","spanId":"0000000000000002","name":"a","kind":1},
 {"traceId":"00000000000000000000000000000001","spanId":"0000000000000002","name":"a","kind":1,"startTimeUnixNano":"1",
 "endTimeUnixNano":"1000"}]}]}]}
output-lines unit 3 span 3: start\nlosses 1\n

spans counted through scopes, and scopes through their unit
run losses --from otlp-json --to jaeger-binary
input {"resourceSpans":[{"scopeSpans":[{"scope":{"name":"lib","version":"1"},
 "spans":[{"traceId":"00000000000000000000000000000001","spanId":"0000000000000002","name":"a","kind":1},
 {"traceId":"00000000000000000000000000000001","spanId":"0000000000000002","name":"a","kind":1}]},{"scope":{"name":"lib",
 "version":"2"},"spans":[{"traceId":"00000000000000000000000000000001","spanId":"0000000000000002","name":"a"}]},
 {"scope":{"name":"lib","version":"2"},"spans":[{"traceId":"00000000000000000000000000000001","spanId":"0000000000000002",
 "name":"a","kind":1},{"traceId":"00000000000000000000000000000001","spanId":"0000000000000002","name":"a","kind":1,
 "flags":2}]}]}]}
output-lines unit 1 span 3: kind\nunit 1 scope 3: scope-joined\nunit 1 span 5: flags\nlosses 3\n

runs of spans are the units of Zipkin
run losses --from zipkin-json --to jaeger-binary
input [{"id":"0000000000000002","localEndpoint":{"serviceName":"s"},"traceId":"00000000000000000000000000000001"},
 {"id":"0000000000000002","traceId":"00000000000000000000000000000001"},{"annotations":[{"timestamp":1,
 "value":"\"e\":{\"k\":[1]}"}],"id":"0000000000000002","traceId":"00000000000000000000000000000001"}]
output-lines unit 2 span 2 event 1: value "k"\nlosses 1\n

keys in the order of their bytes, as JSON strings
run losses --from otlp-json --to zipkin-json
input {"resourceSpans":[{"scopeSpans":[{"spans":[{"traceId":"00000000000000000000000000000001","spanId":"0000000000000002",
 "name":"a","kind":1,"attributes":[{"key":"é","value":{"boolValue":true}},{"key":"b","value":{"boolValue":true}},
 {"key":"a\"\n","value":{"boolValue":true}},{"key":"","value":{"boolValue":true}}]}]}]}]}
output-lines unit 1 span 1: value ""\nunit 1 span 1: value "a\\"\\n"\nunit 1 span 1: value "b"\nunit 1 span 1: value "é"\n
 losses 4\n
"#;

/// Losses of other inputs, and runs that stop.
pub const TOLD: &str = r#"
a span of an SDK to Zipkin
run losses --from otlp-proto --to zipkin-json
input-hex @SDK_REQUEST
output-lines unit 1 span 1: value "http.response.status_code"\nunit 1 span 1: start\nunit 1 span 1: end\n
 unit 1 span 1: flags\nlosses 4\n

a span of an SDK to Jaeger
run losses --from otlp-proto --to jaeger-compact
input-hex @SDK_REQUEST
output-lines unit 1 span 1: start\nunit 1 span 1: end\nunit 1 span 1: flags\nlosses 3\n

flags of a batch
run losses --from jaeger-compact --to zipkin-json
input-hex @FLAGS_COMPACT
output-lines unit 1 span 1: flags\nlosses 1\n

a batch to the other protocol
run losses --from jaeger-compact --to jaeger-binary
input-hex @FLAGS_COMPACT
output-lines losses 0\n

a span of Zipkin to Zipkin
run losses --from zipkin-json --to zipkin-json
input @CLIENT_SPANS
output-lines losses 0\n

all that OTLP can say to a request
run losses --from otlp-json --to otlp-proto
input @EVERY_MEMBER
output-lines losses 0\n

all that OTLP can say to a document
run losses --from otlp-proto --to otlp-json
input-hex @EVERY_FIELD
output-lines losses 0\n

a double to a request
run losses --from jaeger-compact --to otlp-proto
input-hex @DOUBLE_COMPACT
output-lines losses 0\n

no unit of a request
run losses --from otlp-proto --to jaeger-compact
output-lines losses 0\n

no unit of a document
run losses --from otlp-json --to zipkin-json
input {"resourceSpans":[]}
output-lines losses 0\n

no span of a document
run losses --from zipkin-json --to otlp-json
input []
output-lines losses 0\n

a fault of the second unit of a document
run losses --from otlp-json --to jaeger-compact
input {"resourceSpans":[{"scopeSpans":[{"spans":[{"traceId":"00000000000000000000000000000001","spanId":"0000000000000002",
 "name":"a"}]}]},{"scopeSpans":[{"spans":[{"traceId":"00000000000000000000000000000001","spanId":"0000000000000002","name":"a",
 "attributes":[{"key":"jaeger.flags","value":{"boolValue":true}}]}]}]}]}
output-lines unit 1 span 1: kind\n
stops 4 unit 2: fault 22 OwnKey "jaeger.flags"

a cause of the second unit of a document
run losses --from otlp-json --to jaeger-compact
input {"resourceSpans":[{"scopeSpans":[{"spans":[{"traceId":"00000000000000000000000000000001","spanId":"0000000000000002",
 "name":"a"}]}]},{"scopeSpans":1}]}
stops 3 unit 2: cause 11 BadShape

a double to a document
run losses --from jaeger-compact --to otlp-json
input-hex @DOUBLE_COMPACT
stops 4 unit 1: fault 25 DoubleInText

no document
run losses --from zipkin-json --to otlp-proto
input [
stops 3 unit 0: cause 10 BadJson
"#;
