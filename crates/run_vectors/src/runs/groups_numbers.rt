//! Numbers in OTLP/JSON: the ends of each range, and spellings.

/// Ends of each range, and spellings of numbers.
pub const WRITTEN: &str = r#"
the least count
run convert --from otlp-json --to otlp-json
input {"resourceSpans":[{"scopeSpans":[{"spans":[{"traceId":"00000000000000000000000000000001","spanId":"0000000000000002",
 "name":"a","droppedAttributesCount":0,"droppedEventsCount":"0","droppedLinksCount":"-0","flags":"000"}]}]}]}
output @ONE_GROUP

the greatest count, a number
run convert --from otlp-json --to otlp-json
input {"resourceSpans":[{"scopeSpans":[{"spans":[{"traceId":"00000000000000000000000000000001","spanId":"0000000000000002",
 "name":"a","droppedAttributesCount":4294967295,"droppedEventsCount":4294967295,"droppedLinksCount":4294967295,
 "flags":4294967295}]}]}]}
output @GREATEST_COUNTS

the greatest count, a text
run convert --from otlp-json --to otlp-json
input {"resourceSpans":[{"scopeSpans":[{"spans":[{"traceId":"00000000000000000000000000000001","spanId":"0000000000000002",
 "name":"a","droppedAttributesCount":"4294967295","droppedEventsCount":"004294967295","droppedLinksCount":"4294967295",
 "flags":"4294967295"}]}]}]}
output @GREATEST_COUNTS

the least time
run convert --from otlp-json --to otlp-json
input {"resourceSpans":[{"scopeSpans":[{"spans":[{"traceId":"00000000000000000000000000000001","spanId":"0000000000000002",
 "name":"a","startTimeUnixNano":0,"endTimeUnixNano":"-00"}]}]}]}
output @ONE_GROUP

the first time
run convert --from otlp-json --to otlp-json
input {"resourceSpans":[{"scopeSpans":[{"spans":[{"traceId":"00000000000000000000000000000001","spanId":"0000000000000002",
 "name":"a","startTimeUnixNano":1,"endTimeUnixNano":"01"}]}]}]}
output {"resourceSpans":[{"scopeSpans":[{"spans":[{"endTimeUnixNano":"1","name":"a","spanId":"0000000000000002",
 "startTimeUnixNano":"1","traceId":"00000000000000000000000000000001"}]}]}]}

the greatest time
run convert --from otlp-json --to otlp-json
input {"resourceSpans":[{"scopeSpans":[{"spans":[{"traceId":"00000000000000000000000000000001","spanId":"0000000000000002",
 "name":"a","startTimeUnixNano":18446744073709551615,"endTimeUnixNano":"18446744073709551615",
 "events":[{"timeUnixNano":"18446744073709551615"}]}]}]}]}
output {"resourceSpans":[{"scopeSpans":[{"spans":[{"endTimeUnixNano":"18446744073709551615",
 "events":[{"timeUnixNano":"18446744073709551615"}],"name":"a","spanId":"0000000000000002",
 "startTimeUnixNano":"18446744073709551615","traceId":"00000000000000000000000000000001"}]}]}]}

the least number
run convert --from otlp-json --to otlp-json
input {"resourceSpans":[{"scopeSpans":[{"spans":[{"traceId":"00000000000000000000000000000001","spanId":"0000000000000002",
 "name":"a","attributes":[{"key":"a","value":{"intValue":-9223372036854775808}},{"key":"b",
 "value":{"intValue":"-9223372036854775808"}}]}]}]}]}
output {"resourceSpans":[{"scopeSpans":[{"spans":[{"attributes":[{"key":"a","value":{"intValue":"-9223372036854775808"}},
 {"key":"b","value":{"intValue":"-9223372036854775808"}}],"name":"a","spanId":"0000000000000002",
 "traceId":"00000000000000000000000000000001"}]}]}]}

the greatest number
run convert --from otlp-json --to otlp-json
input {"resourceSpans":[{"scopeSpans":[{"spans":[{"traceId":"00000000000000000000000000000001","spanId":"0000000000000002",
 "name":"a","attributes":[{"key":"a","value":{"intValue":9223372036854775807}},{"key":"b",
 "value":{"intValue":"0009223372036854775807"}}]}]}]}]}
output {"resourceSpans":[{"scopeSpans":[{"spans":[{"attributes":[{"key":"a","value":{"intValue":"9223372036854775807"}},
 {"key":"b","value":{"intValue":"9223372036854775807"}}],"name":"a","spanId":"0000000000000002",
 "traceId":"00000000000000000000000000000001"}]}]}]}

zero
run convert --from otlp-json --to otlp-json
input {"resourceSpans":[{"scopeSpans":[{"spans":[{"traceId":"00000000000000000000000000000001","spanId":"0000000000000002",
 "name":"a","attributes":[{"key":"a","value":{"intValue":0}},{"key":"b","value":{"intValue":"-0"}}]}]}]}]}
output {"resourceSpans":[{"scopeSpans":[{"spans":[{"attributes":[{"key":"a","value":{"intValue":"0"}},{"key":"b",
 "value":{"intValue":"0"}}],"name":"a","spanId":"0000000000000002","traceId":"00000000000000000000000000000001"}]}]}]}

the last kind
run convert --from otlp-json --to otlp-json
input {"resourceSpans":[{"scopeSpans":[{"spans":[{"traceId":"00000000000000000000000000000001","spanId":"0000000000000002",
 "name":"a","kind":5}]}]}]}
output {"resourceSpans":[{"scopeSpans":[{"spans":[{"kind":5,"name":"a","spanId":"0000000000000002",
 "traceId":"00000000000000000000000000000001"}]}]}]}

the last code
run convert --from otlp-json --to otlp-json
input {"resourceSpans":[{"scopeSpans":[{"spans":[{"traceId":"00000000000000000000000000000001","spanId":"0000000000000002",
 "name":"a","status":{"code":2}}]}]}]}
output {"resourceSpans":[{"scopeSpans":[{"spans":[{"name":"a","spanId":"0000000000000002","status":{"code":2},
 "traceId":"00000000000000000000000000000001"}]}]}]}

the first kind and code
run convert --from otlp-json --to otlp-proto
input {"resourceSpans":[{"scopeSpans":[{"spans":[{"traceId":"00000000000000000000000000000001","spanId":"0000000000000002",
 "name":"a","kind":1,"status":{"code":1}}]}]}]}
output-hex 0a29122712250a1000000000000000000000000000000001120800000000000000022a016130017a021801

32 bits and one more
run convert --from otlp-json --to otlp-json
input {"resourceSpans":[{"scopeSpans":[{"spans":[{"traceId":"00000000000000000000000000000001","spanId":"0000000000000002",
 "name":"a","startTimeUnixNano":4294967295,"endTimeUnixNano":"4294967296","attributes":[{"key":"a",
 "value":{"intValue":4294967295}},{"key":"b","value":{"intValue":"4294967295"}},{"key":"c","value":{"intValue":4294967296}},
 {"key":"d","value":{"intValue":"4294967296"}}]}]}]}]}
output {"resourceSpans":[{"scopeSpans":[{"spans":[{"attributes":[{"key":"a","value":{"intValue":"4294967295"}},{"key":"b",
 "value":{"intValue":"4294967295"}},{"key":"c","value":{"intValue":"4294967296"}},{"key":"d",
 "value":{"intValue":"4294967296"}}],"endTimeUnixNano":"4294967296","name":"a","spanId":"0000000000000002",
 "startTimeUnixNano":"4294967295","traceId":"00000000000000000000000000000001"}]}]}]}

32 bits and one more, the other way
run convert --from otlp-json --to otlp-json
input {"resourceSpans":[{"scopeSpans":[{"spans":[{"traceId":"00000000000000000000000000000001","spanId":"0000000000000002",
 "name":"a","startTimeUnixNano":"4294967295","endTimeUnixNano":4294967296}]}]}]}
output {"resourceSpans":[{"scopeSpans":[{"spans":[{"endTimeUnixNano":"4294967296","name":"a","spanId":"0000000000000002",
 "startTimeUnixNano":"4294967295","traceId":"00000000000000000000000000000001"}]}]}]}

63 bits and one more
run convert --from otlp-json --to otlp-json
input {"resourceSpans":[{"scopeSpans":[{"spans":[{"traceId":"00000000000000000000000000000001","spanId":"0000000000000002",
 "name":"a","startTimeUnixNano":9223372036854775807,"endTimeUnixNano":"9223372036854775808"}]}]}]}
output @BITS_63

63 bits and one more, the other way
run convert --from otlp-json --to otlp-json
input {"resourceSpans":[{"scopeSpans":[{"spans":[{"traceId":"00000000000000000000000000000001","spanId":"0000000000000002",
 "name":"a","startTimeUnixNano":"9223372036854775807","endTimeUnixNano":9223372036854775808}]}]}]}
output @BITS_63

a negative number
run convert --from otlp-json --to otlp-json
input {"resourceSpans":[{"scopeSpans":[{"spans":[{"traceId":"00000000000000000000000000000001","spanId":"0000000000000002",
 "name":"a","attributes":[{"key":"a","value":{"intValue":-1}},{"key":"b","value":{"intValue":"-1"}}]}]}]}]}
output {"resourceSpans":[{"scopeSpans":[{"spans":[{"attributes":[{"key":"a","value":{"intValue":"-1"}},{"key":"b",
 "value":{"intValue":"-1"}}],"name":"a","spanId":"0000000000000002","traceId":"00000000000000000000000000000001"}]}]}]}

a minus before zero
run convert --from otlp-json --to otlp-json
input {"resourceSpans":[{"scopeSpans":[{"spans":[{"traceId":"00000000000000000000000000000001","spanId":"0000000000000002",
 "name":"a","flags":"-0","startTimeUnixNano":"-0","attributes":[{"key":"a","value":{"intValue":"-0"}}]}]}]}]}
output {"resourceSpans":[{"scopeSpans":[{"spans":[{"attributes":[{"key":"a","value":{"intValue":"0"}}],"name":"a",
 "spanId":"0000000000000002","traceId":"00000000000000000000000000000001"}]}]}]}

zeros in front
run convert --from otlp-json --to otlp-json
input {"resourceSpans":[{"scopeSpans":[{"spans":[{"traceId":"00000000000000000000000000000001","spanId":"0000000000000002",
 "name":"a","flags":"007","startTimeUnixNano":"007","attributes":[{"key":"a","value":{"intValue":"007"}}]}]}]}]}
output {"resourceSpans":[{"scopeSpans":[{"spans":[{"attributes":[{"key":"a","value":{"intValue":"7"}}],"flags":7,"name":"a",
 "spanId":"0000000000000002","startTimeUnixNano":"7","traceId":"00000000000000000000000000000001"}]}]}]}
"#;
