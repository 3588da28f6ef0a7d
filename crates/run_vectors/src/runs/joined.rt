//! Inputs of several units, each of which is told by itself.

pub const JOINED: &str = r#"
a byte is missing behind a group
run convert --from otlp-proto --to otlp-proto
input-hex @ONE_SPAN
input-hex @CUT_SPAN
output-hex @ONE_SPAN
stops 3 unit 2: cause 1 Truncated

two batches, one with a double
run convert --from jaeger-binary --to jaeger-binary
input-hex @SPAN_BATCH
input-hex @DOUBLE_BATCH
output-hex @SPAN_BATCH
output-hex @DOUBLE_BATCH

two batches of one process
run convert --from jaeger-binary --to otlp-proto
input-hex @SPAN_BATCH
input-hex @SPAN_BATCH
output-hex @SERVICE_SPAN
output-hex @SERVICE_SPAN

behind a batch
run convert --from jaeger-binary --to jaeger-binary
input-hex @SPAN_BATCH
input-hex 00
output-hex @SPAN_BATCH
stops 3 unit 2: cause 8 Missing

behind a good group
run convert --from otlp-proto --to jaeger-binary
input-hex @ONE_SPAN
input-hex @EARLY_SPAN
output-hex @PLAIN_BATCH
stops 4 unit 2: fault 20 EndBeforeStart

two batches of one process, the second with a double
run convert --from jaeger-binary --to jaeger-compact
input-hex @SPAN_BATCH
input-hex @DOUBLE_BATCH
output-hex @SPAN_COMPACT
output-hex @DOUBLE_COMPACT

the same back
run convert --from jaeger-compact --to jaeger-binary
input-hex @SPAN_COMPACT
input-hex @DOUBLE_COMPACT
output-hex @SPAN_BATCH
output-hex @DOUBLE_BATCH

a good batch before one that is cut
run convert --from jaeger-compact --to jaeger-binary
input-hex @SPAN_COMPACT
input-hex 1c18017300191c160216001604160018016125001600160000
output-hex @SPAN_BATCH
stops 3 unit 2: cause 1 Truncated

a double behind a good batch
run convert --from jaeger-binary --to zipkin-json
input-hex @SPAN_BATCH
input-hex @DOUBLE_BATCH
output [
output @SERVICE_ZIPKIN_SPAN
stops 4 unit 2: fault 25 DoubleInText

two batches of one process as spans of Zipkin
run convert --from jaeger-binary --to zipkin-json
input-hex @SPAN_BATCH
input-hex @SPAN_BATCH
output [
output @SERVICE_ZIPKIN_SPAN
output ,
output @SERVICE_ZIPKIN_SPAN
output ]

two spans of Zipkin of one process, back
run convert --from zipkin-json --to jaeger-binary
input [
input @SERVICE_ZIPKIN_SPAN
input ,
input @SERVICE_ZIPKIN_SPAN
input ]
output-hex @BATCH_OF_TWO

two batches
run convert --from jaeger-binary --to otlp-json
input-hex @SPAN_BATCH
input-hex @SPAN_BATCH
output {"resourceSpans":[{"resource":{"attributes":[{"key":"service.name","value":{"stringValue":"s"}}]},
 "scopeSpans":[{"spans":[{"kind":1,"name":"a","spanId":"0000000000000002","traceId":"00000000000000000000000000000001"}]}]},
 {"resource":{"attributes":[{"key":"service.name","value":{"stringValue":"s"}}]},"scopeSpans":[{"spans":[{"kind":1,
 "name":"a","spanId":"0000000000000002","traceId":"00000000000000000000000000000001"}]}]}]}

a span twice, to JSON
run convert --from otlp-proto --to otlp-json
input-hex @ONE_SPAN
input-hex @ONE_SPAN
output @TWO_GROUPS

a span twice, of JSON
run convert --from otlp-json --to otlp-proto
input @TWO_GROUPS
output-hex @ONE_SPAN
output-hex @ONE_SPAN

a double of the second group
run convert --from otlp-proto --to otlp-json
input-hex @ONE_SPAN
input-hex @DOUBLE_REQUEST
output @OPEN_GROUP
stops 4 unit 2: fault 25 DoubleInText

a double of the second batch
run convert --from jaeger-binary --to otlp-json
input-hex @SPAN_BATCH
input-hex @DOUBLE_BATCH
output {"resourceSpans":[{"resource":{"attributes":[{"key":"service.name","value":{"stringValue":"s"}}]},
 "scopeSpans":[{"spans":[{"kind":1,"name":"a","spanId":"0000000000000002","traceId":"00000000000000000000000000000001"}]}]}
stops 4 unit 2: fault 25 DoubleInText

a double behind a span
run convert --from otlp-proto --to otlp-json
input-hex @ONE_SPAN
input-hex 0a120a100a0e0a016b120921000000000000f03f
output @OPEN_GROUP
stops 4 unit 2: fault 25 DoubleInText

a second unit that is cut
run losses --from otlp-proto --to jaeger-compact
input-hex @ONE_SPAN
input-hex @CUT_SPAN
output-lines unit 1 span 1: kind\n
stops 3 unit 2: cause 1 Truncated

a second unit that ends before it starts
run losses --from otlp-proto --to zipkin-json
input-hex @ONE_SPAN
input-hex @EARLY_SPAN
output-lines unit 1 span 1: kind\n
stops 4 unit 2: fault 20 EndBeforeStart

a second batch with a double
run losses --from jaeger-compact --to zipkin-json
input-hex @FLAGS_COMPACT
input-hex 1c18017300191c1602160016041600180161250616001600191c180164150227000000000000f03f000000
output-lines unit 1 span 1: flags\n
stops 4 unit 2: fault 25 DoubleInText

the spans before a unit that is cut
run show --from otlp-proto
input-hex @ONE_SPAN
input-hex @CUT_SPAN
output-lines 00000000000000000000000000000001 0000000000000002 - UNSPECIFIED 0 0 UNSET "a"\n
stops 3 unit 2: cause 1 Truncated

a remark before a unit that is cut
run check --from jaeger-compact
input-hex @EQUAL_TAGS
input-hex 1c18
output-lines unit 1 span 1: equal key "k"\n
stops 3 unit 2: cause 1 Truncated
"#;
