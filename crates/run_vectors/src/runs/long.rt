//! Inputs that are long: more than a piece, the longest document and one that is longer, and long texts. What stands many times
//! is told by two numbers, how often a piece stands and how often the bytes behind stand in a piece, and these bytes.

pub const LONG: &str = r#"
records that hold no group are more than one read asks for, and a group stands behind them
run convert --from otlp-proto --to otlp-proto
input-times 40 1000 1200
input-hex @ONE_SPAN
output-hex @ONE_SPAN

the text is written once it has 65,536 bytes, and the second write fails
run convert --from otlp-proto --to otlp-proto
input-times 1800 1 @ONE_SPAN
output-fails 2
output-times 1771 1 @ONE_SPAN
stops 6 output failed

a document of 64 MiB
run convert --from zipkin-json --to zipkin-json
input []
input-times 1 1022 20
input-times 65535 1024 20
output []

one of a byte more
run convert --from zipkin-json --to otlp-proto
input []
input-times 1 1023 20
input-times 65535 1024 20
stops 3 unit 0: cause 17 InputTooLong

a span with a name of 100,000 letters to a request
run convert --from zipkin-json --to otlp-proto
input [{"id":"0000000000000002","name":"
input-times 100 1000 78
input ","traceId":"00000000000000000000000000000001"}]
output-hex 0aca8d0612c68d0612c28d060a1000000000000000000000000000000001120800000000000000022aa08d06
output-times 100 1000 78
output-hex 3001

back from that request
run convert --from otlp-proto --to zipkin-json
input-hex 0aca8d0612c68d0612c28d060a1000000000000000000000000000000001120800000000000000022aa08d06
input-times 100 1000 78
input-hex 3001
output [{"id":"0000000000000002","name":"
output-times 100 1000 78
output ","traceId":"00000000000000000000000000000001"}]

a block of header lines of 16,384 bytes
run headers --to b3
input-times 1 16378 0a
input-lines b3: 0\n
output-lines b3: 0\n

where its second read fails, it isn't known to end there
run headers --to b3
input-times 1 16378 0a
input-lines b3: 0\n
input-fails 2
stops 5 input failed

a longer block is refused by its length
run headers --to b3
input-times 1 16379 0a
input-lines b3: 0\n
stops 3 cause 17 InputTooLong

also where a second read would fail
run headers --to b3
input-times 1 16379 0a
input-lines b3: 0\n
input-fails 2
stops 3 cause 17 InputTooLong

a longer block with a bad line
run headers --to b3
input-times 1 16379 2e
input-lines b3: 0\n
stops 3 cause 17 InputTooLong

with a bad line, where a second read would fail
run headers --to b3
input-times 1 16379 2e
input-lines b3: 0\n
input-fails 2
stops 3 cause 17 InputTooLong
"#;
