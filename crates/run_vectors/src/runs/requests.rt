//! Requests of OTLP: what is written of them again, and what stops them.

/// Requests, and how they are written again.
pub const WRITTEN: &str = r#"
no group
run convert --from otlp-proto --to otlp-proto

two identifiers and a name
run convert --from otlp-proto --to otlp-proto
input-hex @ONE_SPAN
output-hex @ONE_SPAN

fields in another order
run convert --from otlp-proto --to otlp-proto
input-hex 0a231221121f2a0161120800000000000000020a1000000000000000000000000000000001
output-hex @ONE_SPAN

each key and length in a longer spelling
run convert --from otlp-proto --to otlp-proto
input-hex 8a808080808080808000b4009200b0009280808000a6808080008a009000000000000000000000000000000000019280800008000000000000
 0002aa00810061
output-hex @ONE_SPAN

fields that OTLP doesn't have, and an empty resource
run convert --from otlp-proto --to otlp-proto
input-hex @UNKNOWN_FIELDS
output-hex @ONE_SPAN

an empty name, a parent of zeros and times of zero
run convert --from otlp-proto --to otlp-proto
input-hex 0a3e123c123a0a100000000000000000000000000000000112080000000000000002220800000000000000002a003900000000000000004100
 00000000000000
output-hex 0a20121e121c0a100000000000000000000000000000000112080000000000000002

each field, from the last to the first
run convert --from otlp-proto --to otlp-proto
input-hex 0a3f123d123b4102000000000000003901000000000000002a016122080000000000000003120800000000000000020a100000000000000000
 0000000000000001
output-hex 0a3f123d123b0a100000000000000000000000000000000112080000000000000002220800000000000000032a0161390100000000000000
 410200000000000000

a request as an SDK writes it
run convert --from otlp-proto --to otlp-proto
input-hex @SDK_REQUEST
output-hex @SDK_REQUEST

an empty group
run convert --from otlp-proto --to otlp-proto
input-hex 0a00
output-hex 0a00

an empty scope, and an empty group
run convert --from otlp-proto --to otlp-proto
input-hex 0a0212000a00
output-hex 0a0212000a00

a record of another number
run convert --from otlp-proto --to otlp-proto
input-hex 1200

a record of another wire type
run convert --from otlp-proto --to otlp-proto
input-hex 0800

four spans that a stock protobuf library wrote
run convert --from otlp-proto --to otlp-proto
input-hex @STOCK
output-hex @STOCK
"#;

/// What stops a request: the groups before it are written.
pub const STOPPED: &str = r#"
a key alone
run convert --from otlp-proto --to otlp-proto
input-hex 0a
stops 3 unit 1: cause 1 Truncated

a length alone
run convert --from otlp-proto --to otlp-proto
input-hex 0a05
stops 3 unit 1: cause 1 Truncated

a byte is missing
run convert --from otlp-proto --to otlp-proto
input-hex @CUT_SPAN
stops 3 unit 1: cause 1 Truncated

a byte of a longer request is missing
run convert --from otlp-proto --to otlp-proto
input-hex 0ac0010a2b0a110a09686f73742e6e616d6512040a026e310a160a0c736572766963652e6e616d6512060a0473686f701290010a0a0a036c69
 621203312e301281010a100af7651916cd43dd8448eb211c80319c1208b7ad6b71692033312a09474554202f6361727430033915cd853dfe9c97174115
 ae7b43fe9c97174a1c0a13687474702e726571756573742e6d6574686f6412050a034745544a200a19687474702e726573706f6e73652e737461747573
 5f636f6465120318c8018501010100
stops 3 unit 1: cause 1 Truncated

a key above 64 bits
run convert --from otlp-proto --to otlp-proto
input-hex ffffffffffffffffff02
stops 3 unit 1: cause 2 BadVarint

a wire type of no kind
run convert --from otlp-proto --to otlp-proto
input-hex 0b
stops 3 unit 1: cause 3 BadWire

two names
run convert --from otlp-proto --to otlp-proto
input-hex 0a26122412220a1000000000000000000000000000000001120800000000000000022a01612a0161
stops 3 unit 1: cause 7 FieldTwice

a name that isn't UTF-8
run convert --from otlp-proto --to otlp-proto
input-hex 0a231221121f0a1000000000000000000000000000000001120800000000000000022a01ff
stops 3 unit 1: cause 9 NotText

a trace identifier of zeros
run convert --from otlp-proto --to otlp-proto
input-hex 0a231221121f0a1000000000000000000000000000000000120800000000000000022a0161
stops 3 unit 1: cause 12 BadId

a span identifier of seven bytes
run convert --from otlp-proto --to otlp-proto
input-hex 0a221220121e0a10000000000000000000000000000000011207000000000000022a0161
stops 3 unit 1: cause 12 BadId

no span identifier
run convert --from otlp-proto --to otlp-proto
input-hex 0a19121712150a10000000000000000000000000000000012a0161
stops 3 unit 1: cause 12 BadId

a kind beyond the last
run convert --from otlp-proto --to otlp-proto
input-hex 0a25122312210a1000000000000000000000000000000001120800000000000000022a01613006
stops 3 unit 1: cause 13 BadEnum

a group that is cut behind an empty one
run convert --from otlp-proto --to otlp-proto
input-hex 0a000a0212
output-hex 0a00
stops 3 unit 2: cause 1 Truncated

25 lists, one in the other, in a resource
run convert --from otlp-proto --to otlp-proto
input-hex 0a6b0a690a670a016b12622a600a5e
input-hex @LISTS_24_MESSAGE
stops 3 unit 1: cause 5 TooDeep

25 lists, one in the other, in a scope
run convert --from otlp-proto --to otlp-proto
input-hex 0a6d126b0a691a670a016b12622a600a5e
input-hex @LISTS_24_MESSAGE
stops 3 unit 1: cause 5 TooDeep

25 lists, one in the other, in a span
run convert --from otlp-proto --to otlp-proto
input-hex 0a8e01128b011288010a1000000000000000000000000000000001120800000000000000022a01614a670a016b12622a600a5e
input-hex @LISTS_24_MESSAGE
stops 3 unit 1: cause 5 TooDeep

25 lists, one in the other, in an event
run convert --from otlp-proto --to otlp-proto
input-hex 0a9001128d01128a010a1000000000000000000000000000000001120800000000000000022a01615a691a670a016b12622a600a5e
input-hex @LISTS_24_MESSAGE
stops 3 unit 1: cause 5 TooDeep

25 lists, one in the other, in a link
run convert --from otlp-proto --to otlp-proto
input-hex 0aad0112aa0112a7010a1000000000000000000000000000000001120800000000000000022a01616a85010a10000000000000000000000000
 000000011208000000000000000122670a016b12622a600a5e
input-hex @LISTS_24_MESSAGE
stops 3 unit 1: cause 5 TooDeep

lists and maps in turn, 25 deep
run convert --from otlp-proto --to otlp-proto
input-hex 0ad80112d50112d2010a1000000000000000000000000000000001120800000000000000022a01614ab0010a016b12aa012aa7010aa40132a1
 010a9e010a016b129801
input-hex @TURNS_23_MESSAGE
stops 3 unit 1: cause 5 TooDeep

maps and lists in turn, 25 deep
run convert --from otlp-proto --to otlp-proto
input-hex 0ad80112d50112d2010a1000000000000000000000000000000001120800000000000000022a01614ab0010a016b12aa0132a7010aa4010a01
 6b129e01
input-hex @TURNS_24_MESSAGE
stops 3 unit 1: cause 5 TooDeep
"#;
