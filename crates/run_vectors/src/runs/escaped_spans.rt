//! Attributes whose keys a span of Zipkin has for something else: each is written behind `otel.attr.`, and read as it was.

/// Each key that Zipkin reserves.
pub const TO_SPANS: &str = r#"
error
run convert --from otlp-json --to zipkin-json
input @MEMBERS
input "attributes":[{"key":"error","value":{"stringValue":"x"}}]}]}]}]}
output [{"id":"0000000000000002","name":"a","tags":{"otel.attr.error":"x"},"traceId":"00000000000000000000000000000001"}]

otel.dropped_attributes_count
run convert --from otlp-json --to zipkin-json
input @MEMBERS
input "attributes":[{"key":"otel.dropped_attributes_count","value":{"stringValue":"x"}}]}]}]}]}
output [{"id":"0000000000000002","name":"a","tags":{"otel.attr.otel.dropped_attributes_count":"x"},
 "traceId":"00000000000000000000000000000001"}]

otel.dropped_events_count
run convert --from otlp-json --to zipkin-json
input @MEMBERS
input "attributes":[{"key":"otel.dropped_events_count","value":{"stringValue":"x"}}]}]}]}]}
output [{"id":"0000000000000002","name":"a","tags":{"otel.attr.otel.dropped_events_count":"x"},
 "traceId":"00000000000000000000000000000001"}]

otel.dropped_links_count
run convert --from otlp-json --to zipkin-json
input @MEMBERS
input "attributes":[{"key":"otel.dropped_links_count","value":{"stringValue":"x"}}]}]}]}]}
output [{"id":"0000000000000002","name":"a","tags":{"otel.attr.otel.dropped_links_count":"x"},
 "traceId":"00000000000000000000000000000001"}]

otel.library.name
run convert --from otlp-json --to zipkin-json
input @MEMBERS
input "attributes":[{"key":"otel.library.name","value":{"stringValue":"x"}}]}]}]}]}
output [{"id":"0000000000000002","name":"a","tags":{"otel.attr.otel.library.name":"x"},
 "traceId":"00000000000000000000000000000001"}]

otel.library.version
run convert --from otlp-json --to zipkin-json
input @MEMBERS
input "attributes":[{"key":"otel.library.version","value":{"stringValue":"x"}}]}]}]}]}
output [{"id":"0000000000000002","name":"a","tags":{"otel.attr.otel.library.version":"x"},
 "traceId":"00000000000000000000000000000001"}]

otel.resource.
run convert --from otlp-json --to zipkin-json
input @MEMBERS
input "attributes":[{"key":"otel.resource.","value":{"stringValue":"x"}}]}]}]}]}
output [{"id":"0000000000000002","name":"a","tags":{"otel.attr.otel.resource.":"x"},"traceId":"00000000000000000000000000000001"}]

otel.resource.a
run convert --from otlp-json --to zipkin-json
input @MEMBERS
input "attributes":[{"key":"otel.resource.a","value":{"stringValue":"x"}}]}]}]}]}
output [{"id":"0000000000000002","name":"a","tags":{"otel.attr.otel.resource.a":"x"},
 "traceId":"00000000000000000000000000000001"}]

otel.resource.service.name
run convert --from otlp-json --to zipkin-json
input @MEMBERS
input "attributes":[{"key":"otel.resource.service.name","value":{"stringValue":"x"}}]}]}]}]}
output [{"id":"0000000000000002","name":"a","tags":{"otel.attr.otel.resource.service.name":"x"},
 "traceId":"00000000000000000000000000000001"}]

otel.scope.name
run convert --from otlp-json --to zipkin-json
input @MEMBERS
input "attributes":[{"key":"otel.scope.name","value":{"stringValue":"x"}}]}]}]}]}
output [{"id":"0000000000000002","name":"a","tags":{"otel.attr.otel.scope.name":"x"},
 "traceId":"00000000000000000000000000000001"}]

otel.scope.version
run convert --from otlp-json --to zipkin-json
input @MEMBERS
input "attributes":[{"key":"otel.scope.version","value":{"stringValue":"x"}}]}]}]}]}
output [{"id":"0000000000000002","name":"a","tags":{"otel.attr.otel.scope.version":"x"},
 "traceId":"00000000000000000000000000000001"}]

otel.status_code
run convert --from otlp-json --to zipkin-json
input @MEMBERS
input "attributes":[{"key":"otel.status_code","value":{"stringValue":"x"}}]}]}]}]}
output [{"id":"0000000000000002","name":"a","tags":{"otel.attr.otel.status_code":"x"},
 "traceId":"00000000000000000000000000000001"}]

w3c.tracestate
run convert --from otlp-json --to zipkin-json
input @MEMBERS
input "attributes":[{"key":"w3c.tracestate","value":{"stringValue":"x"}}]}]}]}]}
output [{"id":"0000000000000002","name":"a","tags":{"otel.attr.w3c.tracestate":"x"},"traceId":"00000000000000000000000000000001"}]

all of them
run convert --from otlp-json --to zipkin-json
input @MEMBERS
input "attributes":[{"key":"error","value":{"stringValue":"1"}},{"key":"otel.dropped_attributes_count",
 "value":{"stringValue":"2"}},{"key":"otel.dropped_events_count","value":{"stringValue":"3"}},{"key":"otel.dropped_links_count",
 "value":{"stringValue":"4"}},{"key":"otel.library.name","value":{"stringValue":"5"}},{"key":"otel.library.version",
 "value":{"stringValue":"6"}},{"key":"otel.resource.","value":{"stringValue":"7"}},{"key":"otel.resource.a",
 "value":{"stringValue":"8"}},{"key":"otel.resource.service.name","value":{"stringValue":"9"}},{"key":"otel.scope.name",
 "value":{"stringValue":"10"}},{"key":"otel.scope.version","value":{"stringValue":"11"}},{"key":"otel.status_code",
 "value":{"stringValue":"12"}},{"key":"w3c.tracestate","value":{"stringValue":"13"}}]}]}]}]}
output [{"id":"0000000000000002","name":"a","tags":{"otel.attr.error":"1","otel.attr.otel.dropped_attributes_count":"2",
 "otel.attr.otel.dropped_events_count":"3","otel.attr.otel.dropped_links_count":"4","otel.attr.otel.library.name":"5",
 "otel.attr.otel.library.version":"6","otel.attr.otel.resource.":"7","otel.attr.otel.resource.a":"8",
 "otel.attr.otel.resource.service.name":"9","otel.attr.otel.scope.name":"10","otel.attr.otel.scope.version":"11",
 "otel.attr.otel.status_code":"12","otel.attr.w3c.tracestate":"13"},"traceId":"00000000000000000000000000000001"}]
"#;

/// The same back.
pub const OF_SPANS: &str = r#"
error
run convert --from zipkin-json --to otlp-json
input [{"id":"0000000000000002","name":"a","tags":{"otel.attr.error":"x"},"traceId":"00000000000000000000000000000001"}]
output {"resourceSpans":[{"scopeSpans":[{"spans":[{"attributes":[{"key":"error","value":{"stringValue":"x"}}],"kind":1,"name":"a",
 "spanId":"0000000000000002","traceId":"00000000000000000000000000000001"}]}]}]}

otel.dropped_attributes_count
run convert --from zipkin-json --to otlp-json
input [{"id":"0000000000000002","name":"a","tags":{"otel.attr.otel.dropped_attributes_count":"x"},
 "traceId":"00000000000000000000000000000001"}]
output {"resourceSpans":[{"scopeSpans":[{"spans":[{"attributes":[{"key":"otel.dropped_attributes_count",
 "value":{"stringValue":"x"}}],"kind":1,"name":"a","spanId":"0000000000000002","traceId":"00000000000000000000000000000001"}]}]}]}

otel.dropped_events_count
run convert --from zipkin-json --to otlp-json
input [{"id":"0000000000000002","name":"a","tags":{"otel.attr.otel.dropped_events_count":"x"},
 "traceId":"00000000000000000000000000000001"}]
output {"resourceSpans":[{"scopeSpans":[{"spans":[{"attributes":[{"key":"otel.dropped_events_count","value":{"stringValue":"x"}}],
 "kind":1,"name":"a","spanId":"0000000000000002","traceId":"00000000000000000000000000000001"}]}]}]}

otel.dropped_links_count
run convert --from zipkin-json --to otlp-json
input [{"id":"0000000000000002","name":"a","tags":{"otel.attr.otel.dropped_links_count":"x"},
 "traceId":"00000000000000000000000000000001"}]
output {"resourceSpans":[{"scopeSpans":[{"spans":[{"attributes":[{"key":"otel.dropped_links_count","value":{"stringValue":"x"}}],
 "kind":1,"name":"a","spanId":"0000000000000002","traceId":"00000000000000000000000000000001"}]}]}]}

otel.library.name
run convert --from zipkin-json --to otlp-json
input [{"id":"0000000000000002","name":"a","tags":{"otel.attr.otel.library.name":"x"},
 "traceId":"00000000000000000000000000000001"}]
output {"resourceSpans":[{"scopeSpans":[{"spans":[{"attributes":[{"key":"otel.library.name","value":{"stringValue":"x"}}],
 "kind":1,"name":"a","spanId":"0000000000000002","traceId":"00000000000000000000000000000001"}]}]}]}

otel.library.version
run convert --from zipkin-json --to otlp-json
input [{"id":"0000000000000002","name":"a","tags":{"otel.attr.otel.library.version":"x"},
 "traceId":"00000000000000000000000000000001"}]
output {"resourceSpans":[{"scopeSpans":[{"spans":[{"attributes":[{"key":"otel.library.version","value":{"stringValue":"x"}}],
 "kind":1,"name":"a","spanId":"0000000000000002","traceId":"00000000000000000000000000000001"}]}]}]}

otel.resource.
run convert --from zipkin-json --to otlp-json
input [{"id":"0000000000000002","name":"a","tags":{"otel.attr.otel.resource.":"x"},"traceId":"00000000000000000000000000000001"}]
output {"resourceSpans":[{"scopeSpans":[{"spans":[{"attributes":[{"key":"otel.resource.","value":{"stringValue":"x"}}],"kind":1,
 "name":"a","spanId":"0000000000000002","traceId":"00000000000000000000000000000001"}]}]}]}

otel.resource.a
run convert --from zipkin-json --to otlp-json
input [{"id":"0000000000000002","name":"a","tags":{"otel.attr.otel.resource.a":"x"},"traceId":"00000000000000000000000000000001"}]
output {"resourceSpans":[{"scopeSpans":[{"spans":[{"attributes":[{"key":"otel.resource.a","value":{"stringValue":"x"}}],"kind":1,
 "name":"a","spanId":"0000000000000002","traceId":"00000000000000000000000000000001"}]}]}]}

otel.resource.service.name
run convert --from zipkin-json --to otlp-json
input [{"id":"0000000000000002","name":"a","tags":{"otel.attr.otel.resource.service.name":"x"},
 "traceId":"00000000000000000000000000000001"}]
output {"resourceSpans":[{"scopeSpans":[{"spans":[{"attributes":[{"key":"otel.resource.service.name",
 "value":{"stringValue":"x"}}],"kind":1,"name":"a","spanId":"0000000000000002","traceId":"00000000000000000000000000000001"}]}]}]}

otel.scope.name
run convert --from zipkin-json --to otlp-json
input [{"id":"0000000000000002","name":"a","tags":{"otel.attr.otel.scope.name":"x"},"traceId":"00000000000000000000000000000001"}]
output {"resourceSpans":[{"scopeSpans":[{"spans":[{"attributes":[{"key":"otel.scope.name","value":{"stringValue":"x"}}],"kind":1,
 "name":"a","spanId":"0000000000000002","traceId":"00000000000000000000000000000001"}]}]}]}

otel.scope.version
run convert --from zipkin-json --to otlp-json
input [{"id":"0000000000000002","name":"a","tags":{"otel.attr.otel.scope.version":"x"},
 "traceId":"00000000000000000000000000000001"}]
output {"resourceSpans":[{"scopeSpans":[{"spans":[{"attributes":[{"key":"otel.scope.version","value":{"stringValue":"x"}}],
 "kind":1,"name":"a","spanId":"0000000000000002","traceId":"00000000000000000000000000000001"}]}]}]}

otel.status_code
run convert --from zipkin-json --to otlp-json
input [{"id":"0000000000000002","name":"a","tags":{"otel.attr.otel.status_code":"x"},
 "traceId":"00000000000000000000000000000001"}]
output {"resourceSpans":[{"scopeSpans":[{"spans":[{"attributes":[{"key":"otel.status_code","value":{"stringValue":"x"}}],"kind":1,
 "name":"a","spanId":"0000000000000002","traceId":"00000000000000000000000000000001"}]}]}]}

w3c.tracestate
run convert --from zipkin-json --to otlp-json
input [{"id":"0000000000000002","name":"a","tags":{"otel.attr.w3c.tracestate":"x"},"traceId":"00000000000000000000000000000001"}]
output {"resourceSpans":[{"scopeSpans":[{"spans":[{"attributes":[{"key":"w3c.tracestate","value":{"stringValue":"x"}}],"kind":1,
 "name":"a","spanId":"0000000000000002","traceId":"00000000000000000000000000000001"}]}]}]}

all of them
run convert --from zipkin-json --to otlp-json
input [{"id":"0000000000000002","name":"a","tags":{"otel.attr.error":"1","otel.attr.otel.dropped_attributes_count":"2",
 "otel.attr.otel.dropped_events_count":"3","otel.attr.otel.dropped_links_count":"4","otel.attr.otel.library.name":"5",
 "otel.attr.otel.library.version":"6","otel.attr.otel.resource.":"7","otel.attr.otel.resource.a":"8",
 "otel.attr.otel.resource.service.name":"9","otel.attr.otel.scope.name":"10","otel.attr.otel.scope.version":"11",
 "otel.attr.otel.status_code":"12","otel.attr.w3c.tracestate":"13"},"traceId":"00000000000000000000000000000001"}]
output {"resourceSpans":[{"scopeSpans":[{"spans":[{"attributes":[{"key":"error","value":{"stringValue":"1"}},
 {"key":"otel.dropped_attributes_count","value":{"stringValue":"2"}},{"key":"otel.dropped_events_count",
 "value":{"stringValue":"3"}},{"key":"otel.dropped_links_count","value":{"stringValue":"4"}},{"key":"otel.library.name",
 "value":{"stringValue":"5"}},{"key":"otel.library.version","value":{"stringValue":"6"}},{"key":"otel.resource.",
 "value":{"stringValue":"7"}},{"key":"otel.resource.a","value":{"stringValue":"8"}},{"key":"otel.resource.service.name",
 "value":{"stringValue":"9"}},{"key":"otel.scope.name","value":{"stringValue":"10"}},{"key":"otel.scope.version",
 "value":{"stringValue":"11"}},{"key":"otel.status_code","value":{"stringValue":"12"}},{"key":"w3c.tracestate",
 "value":{"stringValue":"13"}}],"kind":1,"name":"a","spanId":"0000000000000002",
 "traceId":"00000000000000000000000000000001"}]}]}]}
"#;

/// Keys behind the front, beside others, and keys that stay.
pub const KEYS: &str = r#"
a truth value under the key `error`
run convert --from otlp-json --to zipkin-json
input @MEMBERS
input "attributes":[{"key":"error","value":{"boolValue":true}}]}]}]}]}
output [{"id":"0000000000000002","name":"a","tags":{"otel.attr.error":"true"},"traceId":"00000000000000000000000000000001"}]

the same behind the front
run convert --from otlp-json --to zipkin-json
input @MEMBERS
input "attributes":[{"key":"otel.attr.error","value":{"boolValue":true}}]}]}]}]}
output [{"id":"0000000000000002","name":"a","tags":{"otel.attr.otel.attr.error":"true"},
 "traceId":"00000000000000000000000000000001"}]

a truth value under a key that begins with the front and isn't touched
run convert --from otlp-json --to zipkin-json
input @MEMBERS
input "attributes":[{"key":"otel.attr.ok","value":{"boolValue":true}}]}]}]}]}
output [{"id":"0000000000000002","name":"a","tags":{"otel.attr.ok":"true"},"traceId":"00000000000000000000000000000001"}]

an attribute beside one of its key behind the front
run convert --from otlp-json --to zipkin-json
input @MEMBERS
input "attributes":[{"key":"error","value":{"stringValue":"1"}},{"key":"otel.attr.error","value":{"stringValue":"2"}}]}]}]}]}
output [{"id":"0000000000000002","name":"a","tags":{"otel.attr.error":"1","otel.attr.otel.attr.error":"2"},
 "traceId":"00000000000000000000000000000001"}]

an attribute beside one of its key behind the front, back
run convert --from zipkin-json --to otlp-json
input [{"id":"0000000000000002","name":"a","tags":{"otel.attr.error":"1","otel.attr.otel.attr.error":"2"},
 "traceId":"00000000000000000000000000000001"}]
output {"resourceSpans":[{"scopeSpans":[{"spans":[{"attributes":[{"key":"error","value":{"stringValue":"1"}},
 {"key":"otel.attr.error","value":{"stringValue":"2"}}],"kind":1,"name":"a","spanId":"0000000000000002",
 "traceId":"00000000000000000000000000000001"}]}]}]}

a key behind two copies of the front
run convert --from otlp-json --to zipkin-json
input @MEMBERS
input "attributes":[{"key":"otel.attr.otel.attr.error","value":{"stringValue":"x"}}]}]}]}]}
output [{"id":"0000000000000002","name":"a","tags":{"otel.attr.otel.attr.otel.attr.error":"x"},
 "traceId":"00000000000000000000000000000001"}]

a key behind two copies of the front, back
run convert --from zipkin-json --to otlp-json
input [{"id":"0000000000000002","name":"a","tags":{"otel.attr.otel.attr.otel.attr.error":"x"},
 "traceId":"00000000000000000000000000000001"}]
output {"resourceSpans":[{"scopeSpans":[{"spans":[{"attributes":[{"key":"otel.attr.otel.attr.error","value":{"stringValue":"x"}}],
 "kind":1,"name":"a","spanId":"0000000000000002","traceId":"00000000000000000000000000000001"}]}]}]}

a key behind eight copies of the front
run convert --from otlp-json --to zipkin-json
input @MEMBERS
input "attributes":[{"key":"otel.attr.otel.attr.otel.attr.otel.attr.otel.attr.otel.attr.otel.attr.otel.attr.otel.resource.a",
 "value":{"stringValue":"x"}}]}]}]}]}
output [{"id":"0000000000000002","name":"a",
 "tags":{"otel.attr.otel.attr.otel.attr.otel.attr.otel.attr.otel.attr.otel.attr.otel.attr.otel.attr.otel.resource.a":"x"},
 "traceId":"00000000000000000000000000000001"}]

a key behind eight copies of the front, back
run convert --from zipkin-json --to otlp-json
input [{"id":"0000000000000002","name":"a",
 "tags":{"otel.attr.otel.attr.otel.attr.otel.attr.otel.attr.otel.attr.otel.attr.otel.attr.otel.attr.otel.resource.a":"x"},
 "traceId":"00000000000000000000000000000001"}]
output {"resourceSpans":[{"scopeSpans":[{"spans":[{"attributes":[{
 "key":"otel.attr.otel.attr.otel.attr.otel.attr.otel.attr.otel.attr.otel.attr.otel.attr.otel.resource.a",
 "value":{"stringValue":"x"}}],"kind":1,"name":"a","spanId":"0000000000000002","traceId":"00000000000000000000000000000001"}]}]}]}

the front alone, and two copies of it
run convert --from otlp-json --to zipkin-json
input @MEMBERS
input "attributes":[{"key":"otel.attr.","value":{"stringValue":"1"}},{"key":"otel.attr.otel.attr.",
 "value":{"stringValue":"2"}}]}]}]}]}
output [{"id":"0000000000000002","name":"a","tags":{"otel.attr.":"1","otel.attr.otel.attr.":"2"},
 "traceId":"00000000000000000000000000000001"}]

the front alone, and two copies of it, back
run convert --from zipkin-json --to otlp-json
input [{"id":"0000000000000002","name":"a","tags":{"otel.attr.":"1","otel.attr.otel.attr.":"2"},
 "traceId":"00000000000000000000000000000001"}]
output {"resourceSpans":[{"scopeSpans":[{"spans":[{"attributes":[{"key":"otel.attr.","value":{"stringValue":"1"}},
 {"key":"otel.attr.otel.attr.","value":{"stringValue":"2"}}],"kind":1,"name":"a","spanId":"0000000000000002",
 "traceId":"00000000000000000000000000000001"}]}]}]}

keys that begin with the front and aren't touched
run convert --from otlp-json --to zipkin-json
input @MEMBERS
input "attributes":[{"key":"otel.attr.ok","value":{"stringValue":"1"}},{"key":"otel.attr.otel.resource",
 "value":{"stringValue":"2"}},{"key":"otel.attr.otel.status_description","value":{"stringValue":"3"}},
 {"key":"otel.attr.peer.service","value":{"stringValue":"4"}},{"key":"otel.attr.span.kind","value":{"stringValue":"5"}},
 {"key":"otel.attr.zipkin.debug","value":{"stringValue":"6"}}]}]}]}]}
output [{"id":"0000000000000002","name":"a","tags":{"otel.attr.ok":"1","otel.attr.otel.resource":"2",
 "otel.attr.otel.status_description":"3","otel.attr.peer.service":"4","otel.attr.span.kind":"5","otel.attr.zipkin.debug":"6"},
 "traceId":"00000000000000000000000000000001"}]

keys that begin with the front and aren't touched, back
run convert --from zipkin-json --to otlp-json
input [{"id":"0000000000000002","name":"a","tags":{"otel.attr.ok":"1","otel.attr.otel.resource":"2",
 "otel.attr.otel.status_description":"3","otel.attr.peer.service":"4","otel.attr.span.kind":"5","otel.attr.zipkin.debug":"6"},
 "traceId":"00000000000000000000000000000001"}]
output {"resourceSpans":[{"scopeSpans":[{"spans":[{"attributes":[{"key":"otel.attr.ok","value":{"stringValue":"1"}},
 {"key":"otel.attr.otel.resource","value":{"stringValue":"2"}},{"key":"otel.attr.otel.status_description",
 "value":{"stringValue":"3"}},{"key":"otel.attr.peer.service","value":{"stringValue":"4"}},{"key":"otel.attr.span.kind",
 "value":{"stringValue":"5"}},{"key":"otel.attr.zipkin.debug","value":{"stringValue":"6"}}],"kind":1,"name":"a",
 "spanId":"0000000000000002","traceId":"00000000000000000000000000000001"}]}]}]}

keys that Jaeger alone reserves
run convert --from otlp-json --to zipkin-json
input @MEMBERS
input "attributes":[{"key":"event","value":{"stringValue":"1"}},{"key":"otel.status_description","value":{"stringValue":"2"}},
 {"key":"span.kind","value":{"stringValue":"3"}}]}]}]}]}
output [{"id":"0000000000000002","name":"a","tags":{"event":"1","otel.status_description":"2","span.kind":"3"},
 "traceId":"00000000000000000000000000000001"}]

keys that Jaeger alone reserves, back
run convert --from zipkin-json --to otlp-json
input [{"id":"0000000000000002","name":"a","tags":{"event":"1","otel.status_description":"2","span.kind":"3"},
 "traceId":"00000000000000000000000000000001"}]
output {"resourceSpans":[{"scopeSpans":[{"spans":[{"attributes":[{"key":"event","value":{"stringValue":"1"}},
 {"key":"otel.status_description","value":{"stringValue":"2"}},{"key":"span.kind","value":{"stringValue":"3"}}],"kind":1,
 "name":"a","spanId":"0000000000000002","traceId":"00000000000000000000000000000001"}]}]}]}

a key that begins as one of a resource, behind that the front
run convert --from otlp-json --to zipkin-json
input @MEMBERS
input "attributes":[{"key":"otel.resource.otel.attr.error","value":{"stringValue":"x"}}]}]}]}]}
output [{"id":"0000000000000002","name":"a","tags":{"otel.attr.otel.resource.otel.attr.error":"x"},
 "traceId":"00000000000000000000000000000001"}]

a key that begins as one of a resource, behind that the front, back
run convert --from zipkin-json --to otlp-json
input [{"id":"0000000000000002","name":"a","tags":{"otel.attr.otel.resource.otel.attr.error":"x"},
 "traceId":"00000000000000000000000000000001"}]
output {"resourceSpans":[{"scopeSpans":[{"spans":[{"attributes":[{"key":"otel.resource.otel.attr.error",
 "value":{"stringValue":"x"}}],"kind":1,"name":"a","spanId":"0000000000000002","traceId":"00000000000000000000000000000001"}]}]}]}

tags in the order of the keys that are written
run convert --from otlp-json --to zipkin-json
input @MEMBERS
input "attributes":[{"key":"a","value":{"stringValue":"1"}},{"key":"error","value":{"stringValue":"2"}},{"key":"otel.attr",
 "value":{"stringValue":"3"}},{"key":"otel.attr.a","value":{"stringValue":"4"}},{"key":"otel.b","value":{"stringValue":"5"}},
 {"key":"otel.resource.q","value":{"stringValue":"6"}},{"key":"z","value":{"stringValue":"7"}}]}]}]}]}
output [{"id":"0000000000000002","name":"a","tags":{"a":"1","otel.attr":"3","otel.attr.a":"4","otel.attr.error":"2",
 "otel.attr.otel.resource.q":"6","otel.b":"5","z":"7"},"traceId":"00000000000000000000000000000001"}]

tags in the order of the keys that are written, back
run convert --from zipkin-json --to otlp-json
input [{"id":"0000000000000002","name":"a","tags":{"a":"1","otel.attr":"3","otel.attr.a":"4","otel.attr.error":"2",
 "otel.attr.otel.resource.q":"6","otel.b":"5","z":"7"},"traceId":"00000000000000000000000000000001"}]
output {"resourceSpans":[{"scopeSpans":[{"spans":[{"attributes":[{"key":"a","value":{"stringValue":"1"}},{"key":"error",
 "value":{"stringValue":"2"}},{"key":"otel.attr","value":{"stringValue":"3"}},{"key":"otel.attr.a","value":{"stringValue":"4"}},
 {"key":"otel.b","value":{"stringValue":"5"}},{"key":"otel.resource.q","value":{"stringValue":"6"}},{"key":"z",
 "value":{"stringValue":"7"}}],"kind":1,"name":"a","spanId":"0000000000000002","traceId":"00000000000000000000000000000001"}]}]}]}

attributes of a resource, whose keys stay
run convert --from otlp-json --to zipkin-json
input {"resourceSpans":[{"resource":{"attributes":[{"key":"error","value":{"stringValue":"1"}},{"key":"otel.attr.error",
 "value":{"stringValue":"2"}},{"key":"otel.attr.service.name","value":{"stringValue":"3"}},{"key":"otel.resource.a",
 "value":{"stringValue":"4"}}]},"scopeSpans":[{"spans":[{"traceId":"00000000000000000000000000000001","spanId":"0000000000000002",
 "name":"a"}]}]}]}
output [{"id":"0000000000000002","name":"a","tags":{"otel.resource.error":"1","otel.resource.otel.attr.error":"2",
 "otel.resource.otel.attr.service.name":"3","otel.resource.otel.resource.a":"4"},"traceId":"00000000000000000000000000000001"}]

attributes of a resource, whose keys stay, back
run convert --from zipkin-json --to otlp-json
input [{"id":"0000000000000002","name":"a","tags":{"otel.resource.error":"1","otel.resource.otel.attr.error":"2",
 "otel.resource.otel.attr.service.name":"3","otel.resource.otel.resource.a":"4"},"traceId":"00000000000000000000000000000001"}]
output {"resourceSpans":[{"resource":{"attributes":[{"key":"error","value":{"stringValue":"1"}},{"key":"otel.attr.error",
 "value":{"stringValue":"2"}},{"key":"otel.attr.service.name","value":{"stringValue":"3"}},{"key":"otel.resource.a",
 "value":{"stringValue":"4"}}]},"scopeSpans":[{"spans":[{"kind":1,"name":"a","spanId":"0000000000000002",
 "traceId":"00000000000000000000000000000001"}]}]}]}

attributes of an event, whose keys stay
run convert --from otlp-json --to zipkin-json
input @MEMBERS
input "events":[{"timeUnixNano":"1000","name":"e","attributes":[{"key":"error","value":{"stringValue":"1"}},{"key":"event",
 "value":{"stringValue":"2"}},{"key":"otel.attr.error","value":{"stringValue":"3"}},{"key":"otel.attr.event",
 "value":{"stringValue":"4"}},{"key":"otel.resource.a","value":{"stringValue":"5"}}]}]}]}]}]}
output [{"annotations":[{"timestamp":1,
 "value":"\"e\":{
 \"error\":\"1\",\"event\":\"2\",\"otel.attr.error\":\"3\",\"otel.attr.event\":\"4\",\"otel.resource.a\":\"5\"}"}],
 "id":"0000000000000002","name":"a","traceId":"00000000000000000000000000000001"}]

attributes of an event, whose keys stay, back
run convert --from zipkin-json --to otlp-json
input [{"annotations":[{"timestamp":1,
 "value":"\"e\":{
 \"error\":\"1\",\"event\":\"2\",\"otel.attr.error\":\"3\",\"otel.attr.event\":\"4\",\"otel.resource.a\":\"5\"}"}],
 "id":"0000000000000002","name":"a","traceId":"00000000000000000000000000000001"}]
output {"resourceSpans":[{"scopeSpans":[{"spans":[{"events":[{"attributes":[{"key":"error","value":{"stringValue":"1"}},
 {"key":"event","value":{"stringValue":"2"}},{"key":"otel.attr.error","value":{"stringValue":"3"}},{"key":"otel.attr.event",
 "value":{"stringValue":"4"}},{"key":"otel.resource.a","value":{"stringValue":"5"}}],"name":"e","timeUnixNano":"1000"}],"kind":1,
 "name":"a","spanId":"0000000000000002","traceId":"00000000000000000000000000000001"}]}]}]}

a key beside members of a span
run convert --from otlp-json --to zipkin-json
input @MEMBERS
input "attributes":[{"key":"error","value":{"stringValue":"x"}},{"key":"peer.service","value":{"stringValue":"db"}},
 {"key":"zipkin.debug","value":{"stringValue":"true"}},{"key":"zipkin.local.port","value":{"stringValue":"80"}}]}]}]}]}
output [{"debug":true,"id":"0000000000000002","localEndpoint":{"port":80},"name":"a","remoteEndpoint":{"serviceName":"db"},
 "tags":{"otel.attr.error":"x"},"traceId":"00000000000000000000000000000001"}]

a key beside members of a span, back
run convert --from zipkin-json --to otlp-json
input [{"debug":true,"id":"0000000000000002","localEndpoint":{"port":80},"name":"a","remoteEndpoint":{"serviceName":"db"},
 "tags":{"otel.attr.error":"x"},"traceId":"00000000000000000000000000000001"}]
output {"resourceSpans":[{"scopeSpans":[{"spans":[{"attributes":[{"key":"error","value":{"stringValue":"x"}},
 {"key":"peer.service","value":{"stringValue":"db"}},{"key":"zipkin.debug","value":{"stringValue":"true"}},
 {"key":"zipkin.local.port","value":{"stringValue":"80"}}],"kind":1,"name":"a","spanId":"0000000000000002",
 "traceId":"00000000000000000000000000000001"}]}]}]}

a status, a resource and a scope beside the attributes of their keys
run convert --from zipkin-json --to otlp-json
input [{"id":"0000000000000002","name":"a","tags":{"error":"late","otel.attr.error":"1","otel.attr.otel.resource.a":"2",
 "otel.resource.a":"3","otel.scope.name":"l","otel.attr.otel.scope.name":"4","otel.status_code":"ERROR"},
 "traceId":"00000000000000000000000000000001"}]
output {"resourceSpans":[{"resource":{"attributes":[{"key":"a","value":{"stringValue":"3"}}]},"scopeSpans":[{"scope":{"name":"l"},
 "spans":[{"attributes":[{"key":"error","value":{"stringValue":"1"}},{"key":"otel.resource.a","value":{"stringValue":"2"}},
 {"key":"otel.scope.name","value":{"stringValue":"4"}}],"kind":1,"name":"a","spanId":"0000000000000002","status":{"code":2,
 "message":"late"},"traceId":"00000000000000000000000000000001"}]}]}]}

a status, a resource and a scope beside the attributes of their keys, written again
run convert --from zipkin-json --to zipkin-json
input [{"id":"0000000000000002","name":"a","tags":{"error":"late","otel.attr.error":"1","otel.attr.otel.resource.a":"2",
 "otel.resource.a":"3","otel.scope.name":"l","otel.attr.otel.scope.name":"4","otel.status_code":"ERROR"},
 "traceId":"00000000000000000000000000000001"}]
output [{"id":"0000000000000002","name":"a","tags":{"error":"late","otel.attr.error":"1","otel.attr.otel.resource.a":"2",
 "otel.attr.otel.scope.name":"4","otel.resource.a":"3","otel.scope.name":"l","otel.status_code":"ERROR"},
 "traceId":"00000000000000000000000000000001"}]

a status, a resource and a scope beside the attributes of their keys, to a batch
run convert --from zipkin-json --to jaeger-compact
input [{"id":"0000000000000002","name":"a","tags":{"error":"late","otel.attr.error":"1","otel.attr.otel.resource.a":"2",
 "otel.resource.a":"3","otel.scope.name":"l","otel.attr.otel.scope.name":"4","otel.status_code":"ERROR"},
 "traceId":"00000000000000000000000000000001"}]
output-hex 1c1800191c18016115001801330000191c1602160016041600180161250016001600197c18056572726f7215043100180f6f74656c2e617474722e6
 572726f7215001801310018196f74656c2e617474722e6f74656c2e73636f70652e6e616d65150018013400180f6f74656c2e7265736f757263652e6115001801
 3200180f6f74656c2e73636f70652e6e616d65150018016c0018106f74656c2e7374617475735f636f6465150018054552524f520018176f74656c2e737461747
 5735f6465736372697074696f6e150018046c617465000000

a kind and a description, which a batch reserves
run convert --from zipkin-json --to jaeger-compact
input [{"id":"0000000000000002","name":"a","tags":{"otel.status_description":"d","span.kind":"server"},
 "traceId":"00000000000000000000000000000001"}]
output-hex 1c180000191c1602160016041600180161250016001600192c18216f74656c2e617474722e6f74656c2e7374617475735f6465736372697074696f6
 e15001801640018136f74656c2e617474722e7370616e2e6b696e6415001806736572766572000000

the same behind the front, where a batch has one more copy
run convert --from zipkin-json --to jaeger-compact
input [{"id":"0000000000000002","name":"a","tags":{"otel.attr.otel.status_description":"d","otel.attr.span.kind":"server"},
 "traceId":"00000000000000000000000000000001"}]
output-hex 1c180000191c1602160016041600180161250016001600192c182b6f74656c2e617474722e6f74656c2e617474722e6f74656c2e7374617475735f6
 465736372697074696f6e150018016400181d6f74656c2e617474722e6f74656c2e617474722e7370616e2e6b696e6415001806736572766572000000

a key that is no plain text
run convert --from otlp-json --to zipkin-json
input @MEMBERS
input "attributes":[{"key":"otel.resource.a\"\\/\n\u001f\u007f\u00e9","value":{"stringValue":"x"}}]}]}]}]}
output-lines [{"id":"0000000000000002","name":"a","tags":{"otel.attr.otel.resource.a\\"\\\\/\\n\\u001f\x7fé":"x"},
 "traceId":"00000000000000000000000000000001"}]

remarks, under the keys of the tags
run check --from zipkin-json
input [{"id":"0000000000000002","name":"a","tags":{"error":"x","otel.attr.error":"1","otel.attr.otel.status_code":"?",
 "otel.status_code":"?"},"traceId":"00000000000000000000000000000001"}]
output-lines unit 1 span 1: tag dropped "otel.status_code"\nunits 1, spans 1, remarks 1\n

losses of attributes that change, under their keys
run losses --from otlp-json --to zipkin-json
input @MEMBERS
input "kind":1,"attributes":[{"key":"error","value":{"boolValue":true}},{"key":"otel.attr.error","value":{"intValue":"1"}},
 {"key":"otel.resource.a","value":{"stringValue":"x"}}]}]}]}]}
output-lines unit 1 span 1: value "error"\nunit 1 span 1: value "otel.attr.error"\nlosses 2\n
"#;
