//! Batches of Jaeger in the compact protocol of Thrift.

/// Batches in the compact protocol of Thrift.
pub const WRITTEN: &str = r#"
a request as an SDK writes it
run convert --from otlp-proto --to jaeger-compact
input-hex @SDK_REQUEST
output-hex @SDK_COMPACT

the same span as a batch
run convert --from jaeger-binary --to jaeger-compact
input-hex @SDK_BATCH
output-hex @SDK_COMPACT

the batch in the compact protocol
run convert --from jaeger-compact --to jaeger-binary
input-hex @SDK_COMPACT
output-hex @SDK_BATCH

the batch in the compact protocol, to a request
run convert --from jaeger-compact --to otlp-proto
input-hex @SDK_COMPACT
output-hex @MICROS_REQUEST

a root with two references to its own trace
run convert --from jaeger-compact --to jaeger-compact
input-hex @ROOT_COMPACT
output-hex @PARENT_COMPACT

the same, to a request
run convert --from jaeger-compact --to otlp-proto
input-hex @ROOT_COMPACT
output-hex 0a88010a150a130a0c736572766963652e6e616d6512030a0173126f126d0a10000000000000000000000000000000011208000000000000
 0002220800000000000000032a016130016a400a10000000000000000000000000000000011208000000000000000422220a146f70656e74726163696e
 672e7265665f74797065120a0a086368696c645f6f66

its canonical batch
run convert --from jaeger-compact --to jaeger-compact
input-hex @PARENT_COMPACT
output-hex @PARENT_COMPACT

flags but the first bit
run convert --from jaeger-compact --to jaeger-compact
input-hex @FLAGS_COMPACT
output-hex @FLAGS_COMPACT

a short list in the long spelling
run convert --from jaeger-compact --to jaeger-compact
input-hex 1c1801730019fc0116021600160416001801612506160016000000
output-hex @FLAGS_COMPACT

a truth value in a tag
run convert --from jaeger-compact --to jaeger-compact
input-hex @TRUTH_COMPACT
output-hex @TRUTH_COMPACT

the same, to the binary protocol
run convert --from jaeger-compact --to jaeger-binary
input-hex @TRUTH_COMPACT
output-hex 0c00010b000100000000000f00020c000000010a000100000000000000010a000200000000000000000a000300000000000000020a000400
 000000000000000b00050000000161080007000000000a000800000000000000000a000900000000000000000f000a0c000000010b00010000000f6f74
 656c2e617474722e6572726f720800020000000202000501000000

a batch of a client
run convert --from jaeger-compact --to jaeger-compact
input-hex @CLIENT_COMPACT
output-hex @CLIENT_COMPACT

a batch of a client, to the binary protocol
run convert --from jaeger-compact --to jaeger-binary
input-hex @CLIENT_COMPACT
output-hex 0c00010b0001000000036170690f00020c000000020b000100000008686f73746e616d65080002000000000b0003000000026831000b0001
 000000026970080002000000000b00030000000831302e302e302e3100000f00020c000000010a000100000000000000050a000200000000000000000a
 000300000000000000070a000400000000000000050b000500000003676574080007000000010a000800000000000f42400a000900000000000000fa0f
 000a0c000000010b0001000000097370616e2e6b696e64080002000000000b000300000006736572766572000f000b0c000000010a000100000000000f
 42a40f00020c000000010b0001000000056576656e74080002000000000b000300000004646f6e6500000000

a repeated tag, and `error` as a text
run convert --from jaeger-compact --to jaeger-compact
input-hex @EQUAL_TAGS
output-hex 1c18017300191c1602160016041600180161250016001600193c18056572726f721504310018016b15001801320018106f74656c2e737461
 7475735f636f6465150018054552524f52000000

numbers in ten bytes, unknown fields, an empty map
run convert --from jaeger-compact --to jaeger-compact
input-hex 1c18017300191c1682808080808080808000160016041600180161250016808080808080808080001600000bc6010001c80100
output-hex @SPAN_COMPACT

no batch
run convert --from jaeger-compact --to jaeger-binary

a span in the binary protocol
run convert --from jaeger-binary --to jaeger-binary
input-hex @SPAN_BATCH
output-hex @SPAN_BATCH

a span to the compact protocol
run convert --from jaeger-binary --to jaeger-compact
input-hex @SPAN_BATCH
output-hex @SPAN_COMPACT

a span back to the binary protocol
run convert --from jaeger-compact --to jaeger-binary
input-hex @SPAN_COMPACT
output-hex @SPAN_BATCH

a span in the compact protocol
run convert --from jaeger-compact --to jaeger-compact
input-hex @SPAN_COMPACT
output-hex @SPAN_COMPACT

a double in a tag in the binary protocol
run convert --from jaeger-binary --to jaeger-binary
input-hex @DOUBLE_BATCH
output-hex @DOUBLE_BATCH

a double in a tag to the compact protocol
run convert --from jaeger-binary --to jaeger-compact
input-hex @DOUBLE_BATCH
output-hex @DOUBLE_COMPACT

a double in a tag back to the binary protocol
run convert --from jaeger-compact --to jaeger-binary
input-hex @DOUBLE_COMPACT
output-hex @DOUBLE_BATCH

a double in a tag in the compact protocol
run convert --from jaeger-compact --to jaeger-compact
input-hex @DOUBLE_COMPACT
output-hex @DOUBLE_COMPACT

the batch of an SDK, written again
run convert --from jaeger-compact --to jaeger-compact
input-hex @SDK_COMPACT
output-hex @SDK_COMPACT
"#;
